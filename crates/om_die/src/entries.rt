//! The entries of a unit: DWARF 4, section 2.3 and section 7.5.2.

ghost use Rattle.std.specs.Prelude.{◌≡◌, ◌⊎◌, ◌+◌, ◌≤◌, ◌<◌, ◌^◌, ◌++◌, length, IfOk, IfErr, MatchOption};
ghost use Rattle.om_die.specs.Entries.{AreDies, depth_after, die_of};
ghost use Rattle.om_die.specs.AbbreviationIndex.{find_in};
ghost use Rattle.om_die.specs.Refusals.{AreDiesRefused, HasNoCode, IsItemRefused};
ghost use Rattle.om_die.specs.Steps.{IsCode, IsFirst, item_of, lack_fault};

use crate::abbreviation_table::Table;
use crate::attribute::Attr;
use crate::attributes::{Gap, Lack, read_attributes};
use crate::context::Context;
use crate::die::Die;
use crate::fault::DieFault;
use om_base::{Items, NoMemory, uleb};
use std::alloc::Global;

/// An entry, without its place.
#[derive(Debug, Drop)]
pub struct Entry<'a> {
    /// `DW_TAG_..`.
    pub tag: u32,
    /// Whether the entries that follow stand below it.
    pub has_children: bool,
    /// The attributes, in their order.
    pub attrs: Items<Attr<'a>>,
}

/// The code in front of `bytes`, and the bytes behind it.
fn read_code(bytes: &[u8]) -> Option<(u64, &[u8])>
    ensures { MatchOption result (HasNoCode bytes.now) (λ read. IsCode bytes.now read.0 read.1.now) }
{
    match uleb(bytes, 0) {
        Ok((code, size)) => Some((code, &bytes[size..])),
        Err(_) => None,
    }
}

/// Why the entry at `at` isn't read, from what its attributes lack.
fn lack_fault_at(at: u32, lack: Lack) -> DieFault
    ensures { result ≡ lack_fault at lack }
{
    match lack {
        Lack::NoMemory => DieFault::NoMemory,
        Lack::Gap(Gap::Short) => DieFault::Short { at },
        Lack::Gap(Gap::Form) => DieFault::Form { at },
    }
}

/// The entry that begins at `at`, in front of `bytes`, and the bytes behind it; None where the code 0
/// stands there. There may be `left` more entries.
fn read_item<'a>(
    alloc: Global,
    context: &Context<'a>,
    table: &Table,
    left: usize,
    at: u32,
    bytes: &'a [u8],
) -> Result<(Option<Entry<'a>>, &'a [u8]), DieFault>
    ensures item { IfOk result (λ read. IsFirst context.now (find_in table.now) left bytes.now (item_of read.0) read.1.now) }
    ensures fault { IfErr result (λ fault. (fault ≡ DieFault.NoMemory) ⊎ IsItemRefused context.now (find_in table.now) left at bytes.now fault) }
{
    let Some((code, rest)) = read_code(bytes) else {
        return Err(DieFault::Short { at });
    };
    if code == 0 {
        return Ok((None, rest));
    }
    if left == 0 {
        return Err(DieFault::TooMany { at });
    }
    let Some(abbreviation) = table.find(code) else {
        return Err(DieFault::Abbrev { at });
    };
    match read_attributes(alloc, context, abbreviation.attributes.as_slice(), rest) {
        Ok((attrs, rest)) => {
            let entry = Entry {
                tag: abbreviation.tag,
                has_children: abbreviation.has_children,
                attrs,
            };
            Ok((Some(entry), rest))
        }
        Err(lack) => Err(lack_fault_at(at, lack)),
    }
}

/// Appends the entry, if there is one, at its place and under so many open levels; and how many are
/// open behind it.
fn add_item<'a>(
    dies: &mut Items<Die<'a>>,
    at: u32,
    depth: u32,
    entry: Option<Entry<'a>>,
) -> Result<u32, NoMemory>
    requires { depth + 1 < 2 ^ 32 }
    ensures { IfOk result (λ levels. (dies.new ≡ dies.old ++ die_of at depth (item_of entry.entry)) × (levels ≡ depth_after depth (item_of entry.entry))) }
{
    let Some(entry) = entry else {
        return Ok(depth.saturating_sub(1));
    };
    let Entry {
        tag,
        has_children,
        attrs,
    } = entry;
    dies.push(Die {
        at,
        depth,
        tag,
        attrs,
    })?;
    Ok(if has_children { depth + 1 } else { depth })
}

/// The entries of a unit whose `bytes` behind its head begin at `at`. There may be `left` entries.
pub fn read_dies<'a>(
    alloc: Global,
    context: &Context<'a>,
    table: &Table,
    left: usize,
    at: u32,
    bytes: &'a [u8],
) -> Result<Items<Die<'a>>, DieFault>
    requires { at + length bytes.now < 2 ^ 32 }
    ensures dies { IfOk result (λ dies. AreDies context.now (find_in table.now) at bytes.now dies × (length dies ≤ left)) }
    ensures fault { IfErr result (λ fault. (fault ≡ DieFault.NoMemory) ⊎ AreDiesRefused context.now (find_in table.now) left at bytes.now fault) }
{
    let mut dies = Items::new(alloc);
    let mut depth = 0;
    let mut rest = bytes;
    while !rest.is_empty() {
        let here = at + (bytes.len() - rest.len()) as u32;
        let (entry, tail) = read_item(alloc, context, table, left - dies.len(), here, rest)?;
        depth = add_item(&mut dies, here, depth, entry)?;
        rest = tail;
    }
    Ok(dies)
}
