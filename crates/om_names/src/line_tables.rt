//! The line tables that the units name: DWARF 4, section 3.1.1, entry 4.

ghost use Rattle.std.specs.Prelude.{◌≡◌, IfOk, OnOk};
ghost use Rattle.om_names.specs.LineTables as spec;
ghost use Rattle.om_names.specs.LineTables.{with_told};

use indexmap::IndexSet;
use om_base::NoMemory;
use om_die::{AttrValue, Die, Unit};
use std::alloc::Global;

/// Section 7.5.4, figure 20.
const DW_AT_STMT_LIST: u32 = 0x10;

/// Where the table begins that an entry names.
fn stmt_list(die: &Die) -> Option<u32>
    ensures { result ≡ spec.stmt_list die.now }
{
    match die.attribute(DW_AT_STMT_LIST) {
        Some(AttrValue::Offset(offset)) => Some(offset),
        Some(AttrValue::Number(offset)) => u32::try_from(offset).ok(),
        _ => None,
    }
}

/// Where the table of a unit begins, which its first entry names.
fn table_offset(unit: &Unit) -> Option<u32>
    ensures { result ≡ spec.table_offset unit.now }
{
    stmt_list(unit.dies.as_slice().first()?)
}

/// Adds where the table of a unit begins, unless it is there.
fn add_offset(offsets: &mut IndexSet<u32>, unit: &Unit) -> Result<(), NoMemory>
    ensures { OnOk result (offsets.new.keys ≡ with_told offsets.old.keys (spec.table_offset unit.now)) }
{
    if let Some(offset) = table_offset(unit) {
        offsets.insert(offset)?;
    }
    Ok(())
}

/// Where the tables of some units begin, each once, in the order of the units.
#[tactic(auto, unfolding(crate::specs::LineTables::line_offsets))]
pub fn line_offsets(alloc: Global, units: &[Unit]) -> Result<IndexSet<u32>, NoMemory>
    ensures { IfOk result (λ offsets. offsets.keys ≡ spec.line_offsets units.now) }
{
    let mut offsets = IndexSet::new(alloc);
    for unit in units {
        add_offset(&mut offsets, unit)?;
    }
    Ok(offsets)
}
