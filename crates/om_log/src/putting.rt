//! Pieces that are appended to some bytes: numbers, lowest byte first, and bytes as they are. They know
//! no format.
//!
//! Where memory is wanting, what was there before still stands in front.

ghost use Rattle.std.specs.Prelude.{◌<◌, ◌^◌, length};
ghost use Rattle.om_base.specs.Appending.{PutsBehind};
ghost use Rattle.om_log.specs.Grammar.{sized};
ghost use Rattle.om_log.specs.LittleEndian.{le_bytes};
ghost use Rattle.om_log.specs.Fronts.{IsFront};

use om_base::NoMemory;

/// Appends these bytes.
pub(crate) fn put_bytes(bytes: &mut Vec<u8>, more: &[u8]) -> Result<(), NoMemory>
    ensures ok { PutsBehind result bytes.old.items more.now bytes.new.items }
    ensures front { IsFront bytes.old.items bytes.new.items }
{
    bytes.extend_from_slice(more)?;
    Ok(())
}

/// Appends a number in one byte.
#[tactic(auto, using(crate::proofs::WriteLaws::bytes_of_one))]
pub(crate) fn put_u8(bytes: &mut Vec<u8>, number: u8) -> Result<(), NoMemory>
    ensures ok { PutsBehind result bytes.old.items (le_bytes 1 number) bytes.new.items }
    ensures front { IsFront bytes.old.items bytes.new.items }
{
    bytes.extend_from_slice(&[number])?;
    Ok(())
}

/// Appends a number in 4 bytes.
#[tactic(auto, using(crate::proofs::WriteLaws::bytes_of_four))]
pub(crate) fn put_u32(bytes: &mut Vec<u8>, number: u32) -> Result<(), NoMemory>
    ensures ok { PutsBehind result bytes.old.items (le_bytes 4 number) bytes.new.items }
    ensures front { IsFront bytes.old.items bytes.new.items }
{
    bytes.extend_from_slice(&number.to_le_bytes())?;
    Ok(())
}

/// Appends a number in 8 bytes.
#[tactic(auto, using(crate::proofs::WriteLaws::bytes_of_eight))]
pub(crate) fn put_u64(bytes: &mut Vec<u8>, number: u64) -> Result<(), NoMemory>
    ensures ok { PutsBehind result bytes.old.items (le_bytes 8 number) bytes.new.items }
    ensures front { IsFront bytes.old.items bytes.new.items }
{
    bytes.extend_from_slice(&number.to_le_bytes())?;
    Ok(())
}

/// Appends a length in 4 bytes, and the bytes.
#[tactic(auto, using(crate::proofs::WriteLaws::front_trans))]
pub(crate) fn put_sized(bytes: &mut Vec<u8>, more: &[u8]) -> Result<(), NoMemory>
    requires { length more.now < 2 ^ 32 }
    ensures ok { PutsBehind result bytes.old.items (sized more.now) bytes.new.items }
    ensures front { IsFront bytes.old.items bytes.new.items }
{
    put_u32(bytes, more.len() as u32)?;
    put_bytes(bytes, more)
}
