//! Numbers of a fixed width that are appended to some bytes, lowest byte first.

ghost use Rattle.std.specs.Prelude.{◌≡◌, ◌++◌, OnOk};
ghost use Rattle.std.specs.List.{flat_map};
ghost use Rattle.om_image.specs.ElfFile.{half, word};

use om_base::{Bytes, NoMemory};

/// Appends numbers of 2 bytes, one after another.
#[tactic(auto, unfolding(crate::specs::ElfFile::half))]
pub(crate) fn put_halves(bytes: &mut Bytes, numbers: &[u16]) -> Result<(), NoMemory>
    ensures { OnOk result (bytes.new ≡ bytes.old ++ flat_map half numbers.now) }
{
    for number in numbers {
        bytes.add(&number.to_le_bytes())?;
    }
    Ok(())
}

/// Appends numbers of 4 bytes, one after another.
#[tactic(auto, unfolding(crate::specs::ElfFile::word))]
pub(crate) fn put_words(bytes: &mut Bytes, numbers: &[u32]) -> Result<(), NoMemory>
    ensures { OnOk result (bytes.new ≡ bytes.old ++ flat_map word numbers.now) }
{
    for word in numbers {
        bytes.add(&word.to_le_bytes())?;
    }
    Ok(())
}
