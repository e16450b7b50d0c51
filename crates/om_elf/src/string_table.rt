//! The strings of a section of names: the gABI, chapter 4, "String Table".

ghost use Rattle.std.specs.Prelude.{◌≡◌, ◌*◌, ◌<◌, ◌^◌, IfOk};
ghost use Rattle.std.specs.Option.{option_map};
ghost use Rattle.om_base.specs.Nul.{nul_from};
ghost use Rattle.om_elf.specs.Blocks.{IsNulBefore};
ghost use Rattle.om_elf.specs.Sections.{string_at};

use om_base::{NoMemory, cstr_at};
use std::alloc::Global;
use std::marker::Model;

/// The most bytes that are searched for the end of one string: for each block of so many bytes the
/// first zero byte from its beginning on is known.
const BLOCK: usize = 1024;

/// Strings that end with a zero byte, which may share their ends.
///
/// One string is found in the time of one block, however long it is.
#[derive(Debug, Drop)]
pub struct StringTable<'a> {
    bytes: &'a [u8],
    /// For each block, the place of the first zero byte from its beginning on, if there is one.
    nuls: Vec<Option<usize>>,
}

// Clauses see the bytes.
impl<'a> Model for StringTable<'a> {
    ghost use Rattle.std.specs.Prelude.{◌≡◌, List, ℕ};
    ghost use Rattle.om_elf.specs.Blocks.{block_nuls};

    ghost Value = { List ℕ };

    ghost view = { λ it. it.bytes.now };

    ghost invariant = { λ it. it.nuls.items ≡ block_nuls it.bytes.now };
}

/// The place of the first zero byte from `at` on.
fn first_nul(bytes: &[u8], at: usize) -> Option<usize>
    ensures { result ≡ nul_from at bytes.now }
{
    cstr_at(bytes, at).ok()
}

/// The place of the first zero byte from `at` on, where `before` is that from an earlier place on.
fn next_nul(bytes: &[u8], before: Option<usize>, at: usize) -> Option<usize>
    requires { IsNulBefore before bytes.now at }
    ensures { result ≡ nul_from at bytes.now }
{
    let Some(nul) = before else {
        return None;
    };
    if at <= nul {
        return Some(nul);
    }
    first_nul(bytes, at)
}

impl<'a> StringTable<'a> {
    /// The strings in `bytes`, in time linear in their length.
    #[tactic(auto, using(crate::proofs::BlockLemmas::blocks))]
    pub fn of(alloc: Global, bytes: &'a [u8]) -> Result<StringTable<'a>, NoMemory>
        ensures strings { IfOk result (λ strings. strings ≡ bytes.now) }
    {
        let mut nuls = Vec::new(alloc);
        let mut nul = first_nul(bytes, 0);
        for block in 0..bytes.len() / BLOCK + 1 {
            nul = next_nul(bytes, nul, BLOCK * block);
            nuls.push(nul)?;
        }
        Ok(StringTable { bytes, nuls })
    }

    /// The place of the first zero byte from the beginning of a block on.
    #[tactic(auto, using(crate::proofs::BlockLemmas::blocks))]
    fn nul_from_block(&self, block: usize) -> Option<usize>
        ensures { result ≡ nul_from (1024 * block) self.now }
    {
        if block < self.nuls.len() {
            self.nuls[block]
        } else {
            None
        }
    }

    /// The place of the first zero byte from `at` on.
    fn nul_from(&self, at: usize) -> Option<usize>
        requires { at < 2 ^ 32 }
        ensures { result ≡ nul_from at self.now }
    {
        let block = at / BLOCK + 1;
        let end = (BLOCK * block).min(self.bytes.len());
        if let Some(nul) = first_nul(&self.bytes[..end], at) {
            return Some(nul);
        }
        self.nul_from_block(block)
    }

    /// The string that begins at `at`, if it has an end.
    #[tactic(auto, using(crate::proofs::BlockLemmas::places))]
    pub fn string_at(&self, at: u32) -> Option<&'a [u8]>
        ensures { option_map (λ string. string.now) result ≡ string_at self.now at }
    {
        let start = at as usize;
        let Some(end) = self.nul_from(start) else {
            return None;
        };
        Some(&self.bytes[start..end])
    }
}
