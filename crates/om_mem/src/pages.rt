//! Pages: the bytes of all regions, laid end to end, in pieces of one size.

ghost use Rattle.std.specs.Prelude.{◌≡◌, ◌≢◌, ◌*◌, ◌<◌, ◌≤◌, ◌+◌, ◌++◌, ℕ, false, drop, length, replicate, take};
ghost use Rattle.om_base.specs.Limits.{page_size};
ghost use Rattle.om_mem.specs.Contents.{IsWhole};
ghost use Rattle.om_mem.specs.Laid.{piece_of};
ghost use Rattle.om_mem.specs.Pages.{IsKept, cleared, flag, page_addresses, page_count, page_in, with_page};

use crate::memory::Memory;
use om_base::PAGE_SIZE;

/// How many bytes a page has; the last one may have fewer.
pub(crate) const PAGE: usize = PAGE_SIZE as usize;

/// The bytes of a page among those of all pages.
fn piece(bytes: &[u8], page: u32) -> &[u8]
    requires { page * page_size ≤ length bytes.now }
    ensures { result.now ≡ piece_of bytes.now page }
{
    let start = page as usize * PAGE;
    let end = (start + PAGE).min(bytes.len());
    &bytes[start..end]
}

/// Puts bytes in the place of as many from a place on.
pub(crate) fn put_at(bytes: &mut [u8], at: usize, new: &[u8])
    requires { at + length new.now ≤ length bytes.old }
    ensures { bytes.new ≡ take at bytes.old ++ (new.now ++ drop (at + length new.now) bytes.old) }
{
    bytes[at..at + new.len()].copy_from_slice(new);
}

/// Makes all flags false.
fn clear(dirty: &mut [bool])
    ensures { dirty.new ≡ replicate (length dirty.old) false }
{
    dirty.fill(false);
}

impl Memory {
    /// How many pages there are.
    pub fn pages(&self) -> u32
        ensures count { result ≡ page_count self.now.contents.regions }
        // What holds of all memory: it has a byte for each address of a region and for no other, and a flag a page.
        ensures whole { IsWhole self.now.contents }
        ensures flags { length self.now.dirty ≡ result }
    {
        ((self.bytes.len() + (PAGE - 1)) / PAGE) as u32
    }

    /// The bytes of a page, fewer of the last one than of the others.
    pub fn page(&self, page: u32) -> &[u8]
        requires { page < page_count self.now.contents.regions }
        ensures { result.now ≡ page_in self.now.contents page }
    {
        piece(self.bytes.as_slice(), page)
    }

    /// A page becomes these bytes, whatever its rights, and counts as written.
    pub fn set_page(&mut self, page: u32, bytes: &[u8])
        requires page { page < page_count self.old.contents.regions }
        requires length { length bytes.now ≡ length (page_addresses self.old.contents.regions page) }
        ensures contents { self.new.contents ≡ with_page self.old.contents page bytes.now }
        ensures page { page_in self.new.contents page ≡ bytes.now }
        ensures others { (other : ℕ) → other ≢ page → page_in self.new.contents other ≡ page_in self.old.contents other }
        ensures kept { IsKept self.old self.new }
    {
        put_at(self.bytes.as_mut_slice(), page as usize * PAGE, bytes);
        self.dirty.as_mut_slice()[page as usize] = true;
    }

    /// Whether a page was written since the last clearing. One that wasn't is as it was then.
    pub fn is_dirty(&self, page: u32) -> bool
        requires { page < page_count self.now.contents.regions }
        ensures { result ≡ flag self.now.dirty page }
    {
        self.dirty.as_slice()[page as usize]
    }

    /// From here on no page counts as written.
    pub fn clear_dirty(&mut self)
        ensures cleared { self.new ≡ cleared self.old }
        ensures clean { (page : ℕ) → page < page_count self.new.contents.regions → flag self.new.dirty page ≡ false }
    {
        clear(self.dirty.as_mut_slice());
    }
}
