//! The entries of a log, one after another up to END.

ghost use Rattle.std.specs.Prelude.{◌≡◌, ◌≤◌, ◌⊎◌, ◌↔◌, length, IfOk, IfErr, IsTrue};
ghost use Rattle.om_log.specs.Faults.{IsKind, IsRefused, IsBodyFault};
ghost use Rattle.om_log.specs.Steps.{IsFirst, IsBody};

use crate::entry::Entry;
use crate::entry_fields::entry_of;
use crate::fault::LogFault;
use om_base::Items;
use std::alloc::Global;

/// The entries that `body` spells, the last of them its one END. The body ends a file of `len` bytes.
pub(crate) fn entries_of<'a>(
    alloc: Global,
    body: &'a [u8],
    len: usize,
) -> Result<Items<Entry<'a>>, LogFault>
    requires { length body.now ≤ len }
    ensures list { IfOk result (λ entries. IsBody body.now entries) }
    ensures fault { IfErr result
        (λ fault. (fault ≡ LogFault.NoMemory) ⊎ IsBodyFault len body.now fault) }
{
    let mut entries = Items::new(alloc);
    let mut rest = body;
    let mut least = 0u128;
    let mut ended = false;
    while !ended {
        let at = (len - rest.len()) as u64;
        let (entry, tail) = next_entry(rest, at, least)?;
        least = entry.next();
        ended = entry.is_end();
        rest = tail;
        entries.push(entry)?;
    }
    if !rest.is_empty() {
        let at = (len - rest.len()) as u64;
        return Err(LogFault::Trailing { at });
    }
    Ok(entries)
}

/// The entry that `rest` begins with, and the bytes behind it. It stands at the offset `at`, where no
/// step below `least` may stand.
fn next_entry<'a>(rest: &'a [u8], at: u64, least: u128) -> Result<(Entry<'a>, &'a [u8]), LogFault>
    ensures first { IfOk result (λ x. IsFirst least rest.now x.0 x.1.now) }
    ensures fault { IfErr result (λ fault. IsRefused least at rest.now fault) }
{
    let Some(kind) = rest.first() else {
        return Err(LogFault::NoEnd);
    };
    if !is_kind(*kind) {
        return Err(LogFault::Kind { at });
    }
    let Some((entry, tail)) = entry_of(rest) else {
        return Err(LogFault::Short { at });
    };
    if !entry.has_cause() {
        return Err(LogFault::Kind { at });
    }
    if u128::from(entry.step()) < least {
        return Err(LogFault::Order { at });
    }
    Ok((entry, tail))
}

/// Whether a byte is the kind of an entry.
fn is_kind(kind: u8) -> bool
    ensures { IsTrue result ↔ IsKind kind }
{
    (1..=3).contains(&kind)
}
