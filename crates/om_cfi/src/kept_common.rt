//! Common information entries with what their instructions do, which is worked out once.

ghost use Rattle.std.specs.Prelude.{◌≡◌, ◌≤◌, length, IfOk, IfSome};
ghost use Rattle.std.specs.Option.{option_map};
ghost use Rattle.om_cfi.specs.Instructions.{items};
ghost use Rattle.om_cfi.specs.Rules as spec;
ghost use Rattle.om_cfi.specs.Rules.{after, nothing_ruled};
ghost use Rattle.om_cfi.specs.Running.{if_still, rules_kept};

use crate::common::CommonEntry;
use crate::rule::{Factors, Rule};
use crate::running::Running;
use om_base::{Items, NoMemory};
use std::alloc::Global;
use std::marker::Model;

/// The rules behind some instructions. Only as many are saved as there are instructions that save.
#[derive(Debug, Drop)]
pub struct Behind {
    pub rule: Option<Rule>,
    /// The saved rules, the last one last.
    pub saved: Items<Option<Rule>>,
}

/// A common information entry, with the rules behind its instructions.
#[derive(Debug, Drop)]
pub struct KeptCommon<'a> {
    entry: CommonEntry<'a>,
    /// None where there is no rule from one of the instructions on.
    behind: Option<Behind>,
}

// Clauses see the entry.
impl<'a> Model for KeptCommon<'a> {
    ghost use Rattle.om_cfi.specs.declared.common.CommonEntry.{CommonEntry};
    ghost use Rattle.om_cfi.specs.Running.{IsKeptOf};

    ghost Value = { CommonEntry };

    ghost view = { λ it. it.entry };

    ghost invariant = { λ it. IsKeptOf it.entry it.behind };
}

/// The rules behind some instructions before which there are none. None where there is no rule from one
/// of them on.
fn rules_behind(
    alloc: Global,
    factors: &Factors,
    instructions: &[u8],
) -> Result<Option<Behind>, NoMemory>
    ensures rules { IfOk result (λ behind. option_map rules_kept behind ≡ after factors.now.data_alignment (items 0 instructions.now) nothing_ruled) }
    ensures few { IfOk result (λ behind. IfSome behind (λ rules. length rules.saved ≤ 64)) }
{
    let mut running = Running::new();
    if !running.after(factors, instructions) {
        return Ok(None);
    }
    let saved = Vec::from_slice(alloc, running.saved.as_slice())?;
    Ok(Some(Behind {
        rule: running.rule,
        saved: Items::from_vec(saved),
    }))
}

impl<'a> KeptCommon<'a> {
    /// Runs the instructions of an entry.
    pub fn of(alloc: Global, entry: CommonEntry<'a>) -> Result<KeptCommon<'a>, NoMemory>
        ensures { IfOk result (λ kept. kept ≡ entry.entry) }
    {
        let behind = match &entry {
            CommonEntry::Ruleless => None,
            CommonEntry::Ruled(factors, common) => rules_behind(alloc, factors, common.bytes())?,
        };
        Ok(KeptCommon { entry, behind })
    }

    /// The entry.
    pub fn entry(&self) -> &CommonEntry<'a>
        ensures { result.now ≡ self.now }
    {
        &self.entry
    }

    /// Sets what the instructions of a description begin with. False where there is no rule any more.
    pub fn begin(&self, running: &mut Running) -> bool
        ensures { if_still result running.new ≡ spec.rules_behind self.now }
    {
        let Some(behind) = &self.behind else {
            return false;
        };
        running.rule = behind.rule;
        running.saved.clear();
        running
            .saved
            .try_extend_from_slice(behind.saved.as_slice())
            .is_ok()
    }
}
