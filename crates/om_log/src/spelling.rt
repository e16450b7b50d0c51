//! An entry and the header as the file spells them, appended field by field.
//!
//! The bytes of a write go straight from where they lie to behind the others, and are copied once.

ghost use Rattle.std.specs.Prelude.{◌<◌, ◌^◌, length};
ghost use Rattle.std.specs.List.{AllByRecursion, flat_map};
ghost use Rattle.om_base.specs.Appending.{PutsBehind};
ghost use Rattle.om_log.specs.Grammar.{chunk_spelling, spelling, header};
ghost use Rattle.om_log.specs.LittleEndian.{le_bytes};
ghost use Rattle.om_log.specs.Fronts.{IsFront};
ghost use Rattle.om_log.specs.Writing.{IsShort, HasShortWrites};
ghost use Rattle.om_log.specs.declared.entry.Entry.TheVariants.{Call, Mark, End};

use crate::entry::Entry;
use crate::putting::{put_bytes, put_sized, put_u8, put_u32, put_u64};
use crate::start::Start;
use crate::write::Write;
use crate::writes::Writes;
use om_base::NoMemory;

/// Appends the letters OTL, the digit 1 and the four numbers of the header.
#[tactic(auto, using(crate::proofs::WriteLaws::front_trans), unfolding(crate::specs::Grammar::header))]
pub(crate) fn put_header(bytes: &mut Vec<u8>, start: &Start) -> Result<(), NoMemory>
    ensures ok { PutsBehind result bytes.old.items (header start.now) bytes.new.items }
    ensures front { IsFront bytes.old.items bytes.new.items }
{
    put_bytes(bytes, b"OTL1")?;
    put_u32(bytes, start.stack_low)?;
    put_u32(bytes, start.stack_size)?;
    put_u32(bytes, start.heap_low)?;
    put_u32(bytes, start.heap_size)
}

/// Appends an entry of any kind.
pub(crate) fn put_entry(bytes: &mut Vec<u8>, entry: &Entry<'_>) -> Result<(), NoMemory>
    requires { HasShortWrites entry.now }
    ensures ok { PutsBehind result bytes.old.items (spelling entry.now) bytes.new.items }
    ensures front { IsFront bytes.old.items bytes.new.items }
{
    match entry {
        Entry::Call {
            step,
            number,
            args,
            result,
            writes,
        } => put_call(bytes, *step, *number, args, *result, writes),
        Entry::Mark { step, pc, sum } => put_mark(bytes, *step, *pc, *sum),
        Entry::End { step, cause, value } => put_end(bytes, *step, *cause, *value),
    }
}

/// Appends a CALL, whose result is `answer`.
#[tactic(auto, using(crate::proofs::WriteLaws::front_trans), unfolding(crate::specs::Grammar::spelling))]
fn put_call(
    bytes: &mut Vec<u8>,
    step: u64,
    number: u32,
    args: &[u32; 6],
    answer: u32,
    writes: &Writes<'_>,
) -> Result<(), NoMemory>
    requires count { length writes.now < 2 ^ 32 }
    requires each { AllByRecursion IsShort writes.now }
    ensures ok { PutsBehind result bytes.old.items (spelling (Call step number args.now answer writes.now)) bytes.new.items }
    ensures front { IsFront bytes.old.items bytes.new.items }
{
    put_bytes(bytes, &[1])?;
    put_u64(bytes, step)?;
    put_u32(bytes, number)?;
    put_args(bytes, args)?;
    put_u32(bytes, answer)?;
    put_u32(bytes, writes.count())?;
    put_each(bytes, writes)
}

/// Appends the arguments of a CALL.
fn put_args(bytes: &mut Vec<u8>, args: &[u32; 6]) -> Result<(), NoMemory>
    ensures ok { PutsBehind result bytes.old.items (flat_map (le_bytes 4) args.now) bytes.new.items }
    ensures front { IsFront bytes.old.items bytes.new.items }
{
    for arg in args {
        put_u32(bytes, *arg)?;
    }
    Ok(())
}

/// Appends each of the writes.
fn put_each(bytes: &mut Vec<u8>, writes: &Writes<'_>) -> Result<(), NoMemory>
    requires { AllByRecursion IsShort writes.now }
    ensures ok { PutsBehind result bytes.old.items (flat_map chunk_spelling writes.now) bytes.new.items }
    ensures front { IsFront bytes.old.items bytes.new.items }
{
    let mut rest = writes.again();
    while let Some((write, others)) = rest.split_first() {
        put_write(bytes, &write)?;
        rest = others;
    }
    Ok(())
}

/// Appends the address of a write, and its bytes with their length.
#[tactic(auto, using(crate::proofs::WriteLaws::front_trans))]
fn put_write(bytes: &mut Vec<u8>, write: &Write<'_>) -> Result<(), NoMemory>
    requires { length write.now.bytes < 2 ^ 32 }
    ensures ok { PutsBehind result bytes.old.items (chunk_spelling write.now) bytes.new.items }
    ensures front { IsFront bytes.old.items bytes.new.items }
{
    put_u32(bytes, write.addr)?;
    put_sized(bytes, write.bytes)
}

/// Appends a MARK.
#[tactic(auto, using(crate::proofs::WriteLaws::front_trans), unfolding(crate::specs::Grammar::spelling))]
fn put_mark(bytes: &mut Vec<u8>, step: u64, pc: u32, sum: u32) -> Result<(), NoMemory>
    ensures ok { PutsBehind result bytes.old.items (spelling (Mark step pc sum)) bytes.new.items }
    ensures front { IsFront bytes.old.items bytes.new.items }
{
    put_bytes(bytes, &[2])?;
    put_u64(bytes, step)?;
    put_u32(bytes, pc)?;
    put_u32(bytes, sum)
}

/// Appends an END.
#[tactic(auto, using(crate::proofs::WriteLaws::front_trans), unfolding(crate::specs::Grammar::spelling))]
fn put_end(bytes: &mut Vec<u8>, step: u64, cause: u8, value: u32) -> Result<(), NoMemory>
    ensures ok { PutsBehind result bytes.old.items (spelling (End step cause value)) bytes.new.items }
    ensures front { IsFront bytes.old.items bytes.new.items }
{
    put_bytes(bytes, &[3])?;
    put_u64(bytes, step)?;
    put_u8(bytes, cause)?;
    put_u32(bytes, value)
}
