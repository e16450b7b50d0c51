//! The memory of a 32-bit machine: regions of bytes with rights, read and written byte by byte whatever
//! the alignment, and kept in pages that tell whether they were written.
//!
//! An address wraps: after 2^32 - 1 comes 0.
#![tactic(auto)]

mod laws;
mod map_fault;
mod mapping;
mod memory;
mod pages;
mod reading;
mod region;
mod rights;
mod spot;
mod writing;

pub use laws::{filling, kept_chain, least_overlap, same_contents};
pub use map_fault::MapFault;
pub use mapping::map_regions;
pub use memory::Memory;
pub use region::{Region, Regions};
pub use rights::{PF_R, PF_W, PF_X};
pub use writing::WriteOutside;
