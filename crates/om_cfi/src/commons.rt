//! The common information entries of a section, by the offsets that frame description entries name.

ghost use Rattle.std.specs.Prelude.{◌≡◌, ◌⊎◌, ◌++◌, List, ℕ, Some, None, Ok, map, IfOk, IfErr, OnOk};
ghost use Rattle.std.specs.Option.{option_or};
ghost use Rattle.om_base.specs.Firsts.{first_of};
ghost use Rattle.om_cfi.specs.declared.entries.Entry.{Entry};
ghost use Rattle.om_cfi.specs.Frames.{common_fault, common_of, said_at};
ghost use Rattle.om_cfi.specs.Kept.{AreCommons, find_in, told_at};

use crate::common::{CommonEntry, common_entry_in};
use crate::entries::Entry;
use crate::fault::CfiFault;
use crate::kept_common::KeptCommon;
use om_base::NoMemory;
use std::alloc::Global;
use std::collections::BTreeMap;

/// The id of a common information entry.
pub const COMMON: u32 = 0xffff_ffff;

/// Common information entries, by their offsets.
#[derive(Debug, Drop)]
pub struct Commons<'a> {
    pub by_offset: BTreeMap<u32, KeptCommon<'a>>,
}

/// The common information entry that an entry is, if it is one.
#[tactic(auto, unfolding(crate::specs::Frames::common_of, crate::specs::Frames::common_fault))]
fn common_of<'a>(entry: &Entry<'a>) -> Result<Option<CommonEntry<'a>>, CfiFault>
    ensures common { IfOk result (λ common. common ≡ common_of entry.now) }
    ensures none { IfOk result (λ common. common_fault entry.now ≡ None) }
    ensures fault { IfErr result (λ fault. common_fault entry.now ≡ Some fault) }
{
    if entry.id != COMMON {
        return Ok(None);
    }
    match common_entry_in(entry.body.bytes()) {
        Ok(common) => Ok(Some(common)),
        Err(_) => Err(CfiFault::Short { at: entry.at }),
    }
}

impl<'a> Commons<'a> {
    /// Keeps an entry, unless one is kept at that offset.
    fn keep(&mut self, alloc: Global, at: u32, common: CommonEntry<'a>) -> Result<(), NoMemory>
        ensures { OnOk result ((offset : ℕ) → find_in self.new offset ≡ option_or (find_in self.old offset) (told_at at common.entry offset)) }
    {
        if !self.by_offset.contains_key(&at) {
            let kept = KeptCommon::of(alloc, common)?;
            self.by_offset.insert(at, kept)?;
        }
        Ok(())
    }

    /// Keeps an entry if it is a common information entry.
    fn take_in(&mut self, alloc: Global, entry: &Entry<'a>) -> Result<(), CfiFault>
        ensures kept { OnOk result ((offset : ℕ) → find_in self.new offset ≡ option_or (find_in self.old offset) (said_at offset entry.now)) }
        ensures none { OnOk result (common_fault entry.now ≡ None) }
        ensures fault { IfErr result (λ fault. (fault ≡ CfiFault.NoMemory) ⊎ (common_fault entry.now ≡ Some fault)) }
    {
        if let Some(common) = common_of(entry)? {
            self.keep(alloc, entry.at, common)?;
        }
        Ok(())
    }
}

/// The common information entries among some entries.
pub fn read_commons<'a>(alloc: Global, entries: &[Entry<'a>]) -> Result<Commons<'a>, CfiFault>
    ensures commons { IfOk result (λ commons. AreCommons entries.now commons) }
    ensures none { IfOk result (λ commons. first_of (map common_fault entries.now) ≡ None) }
    ensures fault { IfErr result (λ fault. (fault ≡ CfiFault.NoMemory) ⊎ (first_of (map common_fault entries.now) ≡ Some fault)) }
{
    let mut commons = Commons {
        by_offset: BTreeMap::new(alloc),
    };
    for entry in entries {
        commons.take_in(alloc, entry)?;
    }
    Ok(commons)
}
