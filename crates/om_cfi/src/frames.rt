//! The rules of `.debug_frame`, asked at addresses.

ghost use Rattle.std.specs.Prelude.{◌≡◌, ◌⊎◌, ◌<◌, ◌^◌, Some, None, length, slice_get, IfOk, IfErr};
ghost use Rattle.std.specs.Option.{option_and_then};
ghost use Rattle.om_claims.specs.Pieces.{owner_in};
ghost use Rattle.om_cfi.specs.Frames.{frames_fault, frames_in, rules_in};
ghost use Rattle.om_cfi.specs.Kept.{rules_told_by};
ghost use Rattle.om_cfi.specs.Rows.{no_rows, with_descriptions};

use crate::commons::read_commons;
use crate::describing::rows_of;
use crate::entries::cut;
use crate::fault::CfiFault;
use crate::rows::Rows;
use om_base::Items;
use om_claims::{ClaimIndex, index_of};
use std::alloc::Global;
use std::marker::Model;

/// The rules for the canonical frame address, by address.
///
/// A row takes 24 bytes, and at most 32 more in the index.
#[derive(Debug, Drop)]
pub struct Frames {
    /// The register and the offset of each row. None where there is no rule.
    rules: Items<Option<(u8, i64)>>,
    index: ClaimIndex,
}

// Clauses see what is kept; `rules_told_by` is what it tells.
impl Model for Frames {
    ghost use Rattle.om_cfi.specs.Kept.{AreIndex, KeptRules};

    ghost Value = { KeptRules };

    ghost view = { λ it. record { rules = it.rules; pieces = it.index } };

    ghost invariant = { λ it. AreIndex it.index };
}

/// The rows of all descriptions of a section.
fn gather(alloc: Global, section: &[u8]) -> Result<Rows, CfiFault>
    requires { length section.now < 2 ^ 32 }
    ensures rows { IfOk result (λ rows. rows ≡ with_descriptions no_rows (frames_in section.now)) }
    ensures lawful { IfOk result (λ rows. frames_fault section.now ≡ None) }
    ensures fault { IfErr result (λ fault. (fault ≡ CfiFault.NoMemory) ⊎ (frames_fault section.now ≡ Some fault)) }
{
    let entries = cut(alloc, section)?;
    let commons = read_commons(alloc, entries.as_slice())?;
    rows_of(alloc, &commons, entries.as_slice())
}

/// Reads the section `.debug_frame`.
///
/// Takes time in the size of the section, but for finding entries and sorting rows. The instructions that
/// descriptions have in common are run once, and those of a description once. Where the rows of all are
/// 2^32 or more, that counts as no memory.
pub fn read_frames(alloc: Global, section: &[u8]) -> Result<Frames, CfiFault>
    requires short { length section.now < 2 ^ 32 }
    ensures rules { IfOk result (λ kept. rules_told_by kept ≡ rules_in section.now) }
    ensures lawful { IfOk result (λ kept. frames_fault section.now ≡ None) }
    ensures fault { IfErr result (λ fault. (fault ≡ CfiFault.NoMemory) ⊎ (frames_fault section.now ≡ Some fault)) }
{
    let rows = match gather(alloc, section) {
        Ok(rows) => rows,
        Err(fault) => return Err(fault),
    };
    let index = index_of(alloc, rows.claims.as_slice())?;
    let Rows { rules, .. } = rows;
    Ok(Frames { rules, index })
}

impl Frames {
    /// The rule of the row that an address belongs to.
    fn row_at(&self, pc: u32) -> Option<Option<(u8, i64)>>
        ensures { result ≡ option_and_then (slice_get self.now.rules) (owner_in self.now.pieces pc) }
    {
        let Some(place) = self.index.owner_at(u64::from(pc)) else {
            return None;
        };
        self.rules.as_slice().get(place as usize).copied()
    }

    /// The rule for the canonical frame address at an address: the register, and what is added to its
    /// content. It is that of the first description that has the address. None where there is none, or
    /// where the register isn't one of the 32.
    ///
    /// Makes one binary search, runs no instruction and takes no memory.
    #[tactic(auto, unfolding(crate::specs::Kept::rules_told_by))]
    pub fn cfa(&self, pc: u32) -> Option<(u8, i64)>
        ensures { result ≡ rules_told_by self.now pc }
    {
        match self.row_at(pc) {
            Some(rule) => rule,
            None => None,
        }
    }
}
