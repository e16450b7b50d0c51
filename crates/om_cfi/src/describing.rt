//! The frame description entries of a section, one after another.

ghost use Rattle.std.specs.Prelude.{◌≡◌, ◌⊎◌, ◌∷◌, [], Some, None, filter_map, option_to_list, map, IfOk, IfErr, OnOk};
ghost use Rattle.om_base.specs.Firsts.{first_of};
ghost use Rattle.om_cfi.specs.Frames.{described, described_fault, fault_by, frame_by};
ghost use Rattle.om_cfi.specs.Kept.{find_in};
ghost use Rattle.om_cfi.specs.Rows.{no_rows, with_descriptions};

use crate::common::CommonEntry;
use crate::commons::{COMMON, Commons};
use crate::description::description_in;
use crate::entries::Entry;
use crate::fault::CfiFault;
use crate::kept_common::KeptCommon;
use crate::rows::Rows;
use crate::running::Running;
use std::alloc::Global;

/// Adds the rows of a description that has an entry in common with others. What ran before in `running`
/// doesn't count.
fn add_description<'a>(
    rows: &mut Rows,
    running: &mut Running,
    kept: &KeptCommon<'a>,
    entry: &Entry<'a>,
) -> Result<(), CfiFault>
    ensures rows { OnOk result (rows.new ≡ with_descriptions rows.old (option_to_list (described entry.now (Some kept.now)))) }
    ensures lawful { OnOk result (described_fault entry.now (Some kept.now) ≡ None) }
    ensures fault { IfErr result (λ fault. (fault ≡ CfiFault.NoMemory) ⊎ (described_fault entry.now (Some kept.now) ≡ Some fault)) }
{
    let CommonEntry::Ruled(factors, common) = kept.entry() else {
        return Ok(());
    };
    let Ok(description) = description_in(*factors, common, entry.body.bytes()) else {
        return Err(CfiFault::Short { at: entry.at });
    };
    let has_rules = kept.begin(running);
    rows.add(&description, has_rules, running)?;
    Ok(())
}

/// Adds the rows of an entry, if it is a description.
#[tactic(auto, unfolding(crate::specs::Frames::fault_by, crate::specs::Frames::frame_by))]
fn add_entry<'a>(
    rows: &mut Rows,
    running: &mut Running,
    commons: &Commons<'a>,
    entry: &Entry<'a>,
) -> Result<(), CfiFault>
    ensures rows { OnOk result (rows.new ≡ with_descriptions rows.old (option_to_list (frame_by (find_in commons.now) entry.now))) }
    ensures lawful { OnOk result (fault_by (find_in commons.now) entry.now ≡ None) }
    ensures fault { IfErr result (λ fault. (fault ≡ CfiFault.NoMemory) ⊎ (fault_by (find_in commons.now) entry.now ≡ Some fault)) }
{
    if entry.id == COMMON {
        return Ok(());
    }
    let Some(kept) = commons.by_offset.get(&entry.id) else {
        return Err(CfiFault::Cie { at: entry.at });
    };
    add_description(rows, running, kept, entry)
}

/// The rows of the descriptions among some entries.
pub fn rows_of<'a>(
    alloc: Global,
    commons: &Commons<'a>,
    entries: &[Entry<'a>],
) -> Result<Rows, CfiFault>
    ensures rows { IfOk result (λ rows. rows ≡ with_descriptions no_rows (filter_map (frame_by (find_in commons.now)) entries.now)) }
    ensures lawful { IfOk result (λ rows. first_of (map (fault_by (find_in commons.now)) entries.now) ≡ None) }
    ensures fault { IfErr result (λ fault. (fault ≡ CfiFault.NoMemory) ⊎ (first_of (map (fault_by (find_in commons.now)) entries.now) ≡ Some fault)) }
{
    let mut rows = Rows::new(alloc);
    let mut running = Running::new();
    for entry in entries {
        add_entry(&mut rows, &mut running, commons, entry)?;
    }
    Ok(rows)
}
