//! An entry as the file spells it, field by field.

ghost use Rattle.om_log.specs.Fields.{Reads, behind};
ghost use Rattle.om_log.specs.EntryFields.{chunk_field, chunks_field, args_field, call_field, mark_field, end_field, entry_field};

use crate::entry::Entry;
use crate::fields::{chunk_of, u8_of, u32_of, u64_of};
use crate::writes::Writes;

/// The entry in front, of any kind.
#[tactic(auto, unfolding(crate::specs::EntryFields::entry_field))]
pub(crate) fn entry_of(bytes: &[u8]) -> Option<(Entry<'_>, &[u8])>
    ensures { Reads (λ x. (x.0, x.1.now)) result (entry_field bytes.now) }
{
    let [kind, rest @ ..] = bytes else {
        return None;
    };
    if *kind == 1 {
        return call_of(rest);
    }
    if *kind == 2 {
        return mark_of(rest);
    }
    if *kind == 3 {
        return end_of(rest);
    }
    None
}

/// A CALL behind its kind.
#[tactic(auto, unfolding(crate::specs::EntryFields::call_field))]
fn call_of(bytes: &[u8]) -> Option<(Entry<'_>, &[u8])>
    ensures { Reads (λ x. (x.0, x.1.now)) result (call_field bytes.now) }
{
    let (step, rest) = u64_of(bytes)?;
    let (number, rest) = u32_of(rest)?;
    let (args, rest) = args_of(rest)?;
    let (result, rest) = u32_of(rest)?;
    let (writes, rest) = chunks_of(rest)?;
    let call = Entry::Call {
        step,
        number,
        args,
        result,
        writes,
    };
    Some((call, rest))
}

/// The six arguments of a CALL.
#[tactic(auto, unfolding(crate::specs::EntryFields::args_field, crate::specs::Fields::times))]
fn args_of(bytes: &[u8]) -> Option<([u32; 6], &[u8])>
    ensures { Reads (λ x. (x.0, x.1.now)) result (args_field bytes.now) }
{
    let (a0, rest) = u32_of(bytes)?;
    let (a1, rest) = u32_of(rest)?;
    let (a2, rest) = u32_of(rest)?;
    let (a3, rest) = u32_of(rest)?;
    let (a4, rest) = u32_of(rest)?;
    let (a5, rest) = u32_of(rest)?;
    Some(([a0, a1, a2, a3, a4, a5], rest))
}

/// The writes of a CALL, which stay where they are.
#[tactic(auto, unfolding(crate::specs::EntryFields::chunks_field))]
fn chunks_of(bytes: &[u8]) -> Option<(Writes<'_>, &[u8])>
    ensures { Reads (λ x. (x.0, x.1.now)) result (chunks_field bytes.now) }
{
    let (count, spelled) = u32_of(bytes)?;
    let rest = behind_chunks(count, spelled)?;
    let (spelled, rest) = spelled.split_at(spelled.len() - rest.len());
    Some((Writes::spelled(count, spelled), rest))
}

/// The bytes behind `count` writes.
fn behind_chunks(count: u32, bytes: &[u8]) -> Option<&[u8]>
    ensures { Reads (λ x. x.now) result (behind count chunk_field bytes.now) }
{
    let mut left = count;
    let mut rest = bytes;
    while left > 0 {
        let (_, after) = chunk_of(rest)?;
        rest = after;
        left -= 1;
    }
    Some(rest)
}

/// A MARK behind its kind.
#[tactic(auto, unfolding(crate::specs::EntryFields::mark_field))]
fn mark_of(bytes: &[u8]) -> Option<(Entry<'_>, &[u8])>
    ensures { Reads (λ x. (x.0, x.1.now)) result (mark_field bytes.now) }
{
    let (step, rest) = u64_of(bytes)?;
    let (pc, rest) = u32_of(rest)?;
    let (sum, rest) = u32_of(rest)?;
    Some((Entry::Mark { step, pc, sum }, rest))
}

/// An END behind its kind.
#[tactic(auto, unfolding(crate::specs::EntryFields::end_field))]
fn end_of(bytes: &[u8]) -> Option<(Entry<'_>, &[u8])>
    ensures { Reads (λ x. (x.0, x.1.now)) result (end_field bytes.now) }
{
    let (step, rest) = u64_of(bytes)?;
    let (cause, rest) = u8_of(rest)?;
    let (value, rest) = u32_of(rest)?;
    Some((Entry::End { step, cause, value }, rest))
}
