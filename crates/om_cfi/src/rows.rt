//! The rules of descriptions in rows, each with the addresses at which it is in force.
//!
//! A description's instructions are run once, when it is read, and no more when it is asked of.

ghost use Rattle.std.specs.Prelude.{◌≡◌, ◌+◌, ◌∷◌, [], max, IfOk, OnOk};
ghost use Rattle.om_cfi.specs.Instructions.{items};
ghost use Rattle.om_cfi.specs.Rows as spec;
ghost use Rattle.om_cfi.specs.Rows.{no_rows, risen, row, rows_after, with_rows};
ghost use Rattle.om_cfi.specs.Running.{if_still, rules_of};

use crate::decoding::item_in;
use crate::description::Description;
use crate::instruction::Item;
use crate::rule::moved;
use crate::running::Running;
use om_base::{Items, NoMemory, Span};
use om_claims::Claim;
use std::alloc::Global;

/// The rows of some descriptions.
#[derive(Debug, Drop)]
pub struct Rows {
    /// The register and the offset of the rule of each row. None where there is none.
    pub rules: Items<Option<(u8, i64)>>,
    /// The addresses of each row.
    pub claims: Items<Claim>,
}

impl Rows {
    /// No rows.
    pub fn new(alloc: Global) -> Rows
        ensures { result ≡ no_rows }
    {
        Rows {
            rules: Items::new(alloc),
            claims: Items::new(alloc),
        }
    }

    /// Adds a rule that is in force from an address on, up to another.
    #[tactic(auto, unfolding(crate::specs::Rows::with_rows))]
    fn push(&mut self, rule: Option<(u8, i64)>, lo: u64, hi: u64) -> Result<(), NoMemory>
        ensures { OnOk result (self.new ≡ with_rows self.old (row rule lo hi ∷ [])) }
    {
        self.rules.push(rule)?;
        self.claims.push(Claim {
            span: Span { lo, hi },
            depth: 0,
        })?;
        Ok(())
    }

    /// Adds the rule that is in force from `low` on where a location rises above that. Answers the higher
    /// of the two.
    #[tactic(auto, using(crate::proofs::RowLemmas::none_risen))]
    fn rise(
        &mut self,
        rule: Option<(u8, i64)>,
        low: u64,
        location: u32,
        end: u64,
    ) -> Result<u64, NoMemory>
        ensures rows { OnOk result (self.new ≡ with_rows self.old (risen low location end rule)) }
        ensures low { IfOk result (λ higher. higher ≡ max low location) }
    {
        let location = u64::from(location);
        if location <= low {
            return Ok(low);
        }
        self.push(rule, low, location.min(end))?;
        Ok(location)
    }

    /// Adds the rows of a description, by what its instructions begin with.
    fn run(&mut self, it: &Description, running: &mut Running) -> Result<(), NoMemory>
        ensures { OnOk result (self.new ≡ with_rows self.old (rows_after it.now.factors (it.now.first + it.now.length) it.now.first it.now.first (items 0 it.now.own) (rules_of running.old))) }
    {
        let mut low = u64::from(it.first);
        let end = low + u64::from(it.length);
        let mut location = it.first;
        let mut left = it.own.bytes();
        while let Some((opcode, rest)) = left.split_first() {
            let (item, rest) = item_in(*opcode, rest);
            let Item::Known(instruction) = item else {
                return self.push(None, low, end);
            };
            if !running.done(&it.factors, instruction) {
                return self.push(None, low, end);
            }
            location = moved(it.factors.code_alignment, location, instruction);
            low = self.rise(running.in_force(), low, location, end)?;
            left = rest;
        }
        self.push(running.in_force(), low, end)
    }

    /// Adds the rows of a description, by what its instructions begin with, if there is a rule there.
    #[tactic(auto, unfolding(crate::specs::Rows::rows_from))]
    pub fn add(
        &mut self,
        it: &Description,
        has_rules: bool,
        running: &mut Running,
    ) -> Result<(), NoMemory>
        ensures { OnOk result (self.new ≡ with_rows self.old (spec.rows_from it.now (if_still has_rules running.old))) }
    {
        if has_rules {
            return self.run(it, running);
        }
        let lo = u64::from(it.first);
        self.push(None, lo, lo + u64::from(it.length))
    }
}
