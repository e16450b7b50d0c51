//! The entries of `.debug_frame`, cut from each other: DWARF 4, section 6.4.1.

ghost use Rattle.std.specs.Prelude.{◌≡◌, ◌<◌, ◌⊎◌, ◌^◌, ◌++◌, ◌∷◌, [], Some, None, filter_map, length, IfOk, IfErr, OnOk};
ghost use Rattle.om_cfi.specs.Entries.{cut_fault, entries_in, entry_in, first_cut, slot_in};

use crate::fault::CfiFault;
use crate::fields::behind;
use om_base::{Items, Name, u32_at};
use std::alloc::Global;

/// An entry of the section: a common information entry or a frame description entry.
#[derive(Debug, Drop)]
pub struct Entry<'a> {
    /// Its offset in the section.
    pub at: u32,
    /// That of the common information entry which a frame description entry names.
    pub id: u32,
    /// The bytes behind the id.
    pub body: Name<'a>,
}

/// What stands in front of some bytes.
#[derive(Debug, Drop)]
enum Slot<'a> {
    /// A length of zero.
    Empty,
    /// An entry that passes the section or ends within its id.
    Cut(u32),
    Whole(Entry<'a>),
}

/// What stands at a place, in front of some bytes, and how many bytes it has.
#[tactic(auto, unfolding(crate::specs::Entries::slot_in, om_base::specs::Numbers::number_at))]
fn slot_in<'a>(at: u32, bytes: &'a [u8]) -> (Slot<'a>, usize)
    ensures { result ≡ slot_in at bytes.now }
{
    let Ok(size) = u32_at(bytes, 0) else {
        return (Slot::Cut(at), bytes.len());
    };
    if size == 0 {
        return (Slot::Empty, 4);
    }
    if size < 4 || bytes.len() - 4 < size as usize {
        return (Slot::Cut(at), bytes.len());
    }
    let Ok(id) = u32_at(bytes, 4) else {
        return (Slot::Cut(at), bytes.len());
    };
    let end = 4 + size as usize;
    let body = Name::of(&bytes[8..end]);
    (Slot::Whole(Entry { at, id, body }), end)
}

/// Adds the entry of a slot, if it is one.
fn keep<'a>(entries: &mut Items<Entry<'a>>, slot: Slot<'a>) -> Result<(), CfiFault>
    ensures kept { OnOk result (entries.new ≡ entries.old ++ filter_map entry_in (slot.entry ∷ [])) }
    ensures whole { OnOk result (cut_fault slot.entry ≡ None) }
    ensures fault { IfErr result (λ fault. (fault ≡ CfiFault.NoMemory) ⊎ (cut_fault slot.entry ≡ Some fault)) }
{
    match slot {
        Slot::Empty => {}
        Slot::Cut(at) => return Err(CfiFault::Short { at }),
        Slot::Whole(entry) => entries.push(entry)?,
    }
    Ok(())
}

/// The entries of a section.
pub fn cut<'a>(alloc: Global, section: &'a [u8]) -> Result<Items<Entry<'a>>, CfiFault>
    requires { length section.now < 2 ^ 32 }
    ensures entries { IfOk result (λ entries. (entries ≡ entries_in section.now) × (first_cut section.now ≡ None)) }
    ensures fault { IfErr result (λ fault. (fault ≡ CfiFault.NoMemory) ⊎ (first_cut section.now ≡ Some fault)) }
{
    let mut entries = Items::new(alloc);
    let mut left = section;
    while !left.is_empty() {
        let at = (section.len() - left.len()) as u32;
        let (slot, size) = slot_in(at, left);
        keep(&mut entries, slot)?;
        left = behind(left, size);
    }
    Ok(entries)
}
