//! The regions that a run begins with, beside those of the executable.

ghost use Rattle.std.specs.Prelude.{◌≡◌, ◌+◌, ◌↔◌, IsTrue};

use crate::fault::LogFault;
use om_base::PAGE_SIZE;

/// How many addresses there are.
const ADDRESSES: u64 = 1 << 32;

/// The most that stack and heap have together: 32 MiB.
const MOST: u64 = 33_554_432;

/// Where the stack and the heap lie when the run begins, in bytes.
#[derive(Clone, Copy, Debug, PartialEq, Eq)]
pub struct Start {
    /// The lowest address of the stack.
    pub stack_low: u32,
    /// The size of the stack, above 0.
    pub stack_size: u32,
    /// The lowest address of the heap.
    pub heap_low: u32,
    /// The size of the heap. An empty heap lies nowhere.
    pub heap_size: u32,
}

impl Start {
    ghost use Rattle.om_log.specs.Regions.{IsLawfulStart, ends_in_space, has_whole_pages, is_small, shares_none, start_fault};

    /// Whether the header of a log may have these regions.
    pub fn is_lawful(&self) -> bool
        ensures { IsTrue result ↔ IsLawfulStart self.now }
    {
        self.fault().is_none()
    }

    /// The fault of the first rule that these regions break.
    #[tactic(auto, unfolding(crate::specs::Regions::start_fault))]
    pub(crate) fn fault(&self) -> Option<LogFault>
        ensures { result ≡ start_fault self.now }
    {
        if !self.has_whole_pages() {
            return Some(LogFault::Region);
        }
        if self.stack_size == 0 {
            return Some(LogFault::Region);
        }
        if !self.ends_in_space() {
            return Some(LogFault::Region);
        }
        if !self.is_small() {
            return Some(LogFault::Region);
        }
        if !self.shares_none() {
            return Some(LogFault::Region);
        }
        None
    }

    /// Whether all four are those of whole pages.
    fn has_whole_pages(&self) -> bool
        ensures { result ≡ has_whole_pages self.now }
    {
        self.stack_low % PAGE_SIZE == 0
            && self.stack_size % PAGE_SIZE == 0
            && self.heap_low % PAGE_SIZE == 0
            && self.heap_size % PAGE_SIZE == 0
    }

    /// Whether neither region goes past the last address.
    fn ends_in_space(&self) -> bool
        ensures { result ≡ ends_in_space self.now }
    {
        self.stack_end() <= ADDRESSES && self.heap_end() <= ADDRESSES
    }

    /// Whether both together aren't too large.
    fn is_small(&self) -> bool
        ensures { result ≡ is_small self.now }
    {
        u64::from(self.stack_size) + u64::from(self.heap_size) <= MOST
    }

    /// Whether no address lies in both regions.
    fn shares_none(&self) -> bool
        ensures { result ≡ shares_none self.now }
    {
        let low = u64::from(self.stack_low).max(u64::from(self.heap_low));
        let end = self.stack_end().min(self.heap_end());
        !(low < end)
    }

    /// The address behind the stack's last one.
    fn stack_end(&self) -> u64
        ensures { result ≡ self.now.stack_low + self.now.stack_size }
    {
        u64::from(self.stack_low) + u64::from(self.stack_size)
    }

    /// The address behind the heap's last one.
    fn heap_end(&self) -> u64
        ensures { result ≡ self.now.heap_low + self.now.heap_size }
    {
        u64::from(self.heap_low) + u64::from(self.heap_size)
    }
}
