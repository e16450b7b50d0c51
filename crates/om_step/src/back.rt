//! Putting a machine back into a state that it was in.

ghost use Rattle.std.specs.Prelude.{◌≡◌, slice_index};
ghost use Rattle.om_mem.specs.Contents.{IsWhole};
ghost use Rattle.om_step.specs.Back.{HaveLengths, IsBack, IsClean, IsPut};
ghost use Rattle.om_step.specs.State.{State, core_of};

use crate::machine::Machine;
use crate::register_file::Core;
use om_mem::Memory;

/// Bytes of some pages of a machine's memory.
pub trait Pages {
    ghost use Rattle.std.specs.Prelude.{◌≡◌, ℕ, List, Option, Some, None, MatchOption};

    /// What it has for a page, if anything.
    ghost bytes_at: { Self → ℕ → Option (List ℕ) };

    /// The bytes of a page, if it has any for it.
    fn page(&self, page: u32) -> Option<&[u8]>
        ensures { MatchOption result (bytes_at self.now page ≡ None) (λ bytes. bytes_at self.now page ≡ Some bytes.now) };
}

/// Each page for which `pages` has bytes becomes these.
fn put_pages<P: Pages>(memory: &mut Memory, pages: &P)
    requires { HaveLengths memory.old.contents.regions (P.bytes_at pages.now) }
    ensures put { IsPut memory.old.contents memory.new.contents (P.bytes_at pages.now) }
    ensures whole { IsWhole memory.new.contents }
{
    let mut page = 0;
    while page < memory.pages() {
        if let Some(bytes) = pages.page(page) {
            memory.set_page(page, bytes);
        }
        page += 1;
    }
}

impl Machine {
    /// The machine goes to a state of its past: the pc and the registers become the core's, and each page
    /// for which `pages` has bytes becomes these. Every other page and all rights stay, and then no page
    /// counts as written.
    pub fn put_back<P: Pages>(&mut self, core: &Core, pages: &P)
        requires zero { slice_index core.now.regs 0 ≡ 0 }
        requires lengths { HaveLengths self.old.state.memory.regions (P.bytes_at pages.now) }
        ensures core { core_of self.new.state ≡ core.now }
        ensures pages { IsPut self.old.state.memory self.new.state.memory (P.bytes_at pages.now) }
        ensures clean { IsClean self.new }

        // A state whose core and pages these are is the one that it is in now.
        ensures back { (target : State) → IsBack self.old.state core.now (P.bytes_at pages.now) target
            → self.new.state ≡ target }
    {
        self.pc = core.pc;
        self.registers = core.regs;
        put_pages(&mut self.memory, pages);
        self.memory.clear_dirty();
    }

    /// From here on no page counts as written.
    pub fn clear_dirty(&mut self)
        ensures state { self.new.state ≡ self.old.state }
        ensures clean { IsClean self.new }
    {
        self.memory.clear_dirty();
    }
}
