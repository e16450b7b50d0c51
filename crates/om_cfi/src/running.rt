//! Call frame instructions that run: DWARF 4, section 6.4.2 and section 6.4.3.

ghost use Rattle.std.specs.Prelude.{◌≡◌, [], None};
ghost use Rattle.om_cfi.specs.Instructions.{items};
ghost use Rattle.om_cfi.specs.Rules.{after, done, in_force, nothing_ruled};
ghost use Rattle.om_cfi.specs.Running.{if_still, rules_of};

use crate::decoding::item_in;
use crate::instruction::{Instruction, Item};
use crate::rule::{Factors, Rule, offset_by, told};
use arrayvec::ArrayVec;

/// The most rules that are saved at once.
const MOST_SAVED: usize = 64;

/// The rules while instructions are run.
#[derive(Drop)]
pub struct Running {
    pub rule: Option<Rule>,
    pub saved: ArrayVec<Option<Rule>, MOST_SAVED>,
}

impl Running {
    /// Before any instruction.
    pub fn new() -> Running
        ensures { rules_of result ≡ nothing_ruled }
    {
        Running {
            rule: None,
            saved: ArrayVec::new(),
        }
    }

    /// The rule in force, if it is there and of one of the 32 registers.
    pub fn in_force(&self) -> Option<(u8, i64)>
        ensures { result ≡ in_force (rules_of self.now) }
    {
        match self.rule {
            Some(rule) => told(rule),
            None => None,
        }
    }

    /// Does an instruction. False where there is no rule from it on.
    #[tactic(auto, unfolding(crate::specs::Rules::done))]
    pub fn done(&mut self, factors: &Factors, instruction: Instruction) -> bool
        ensures { if_still result self.new ≡ done factors.now.data_alignment instruction (rules_of self.old) }
    {
        match instruction {
            Instruction::Save => self.saved.try_push(self.rule).is_ok(),
            Instruction::Restore => {
                let Some(rule) = self.saved.pop() else {
                    return false;
                };
                self.rule = rule;
                true
            }
            Instruction::Define { register, offset } => {
                let Some(offset) = offset_by(factors, offset) else {
                    return false;
                };
                self.rule = Some(Rule { register, offset });
                true
            }
            Instruction::Register(register) => {
                let Some(rule) = self.rule else {
                    return false;
                };
                self.rule = Some(Rule {
                    register,
                    offset: rule.offset,
                });
                true
            }
            Instruction::Offset(offset) => {
                let Some(rule) = self.rule else {
                    return false;
                };
                let Some(offset) = offset_by(factors, offset) else {
                    return false;
                };
                self.rule = Some(Rule {
                    register: rule.register,
                    offset,
                });
                true
            }
            Instruction::Forget => {
                self.rule = None;
                true
            }
            Instruction::Nothing | Instruction::Advance(_) | Instruction::SetLocation(_) => true,
        }
    }

    /// Does some instructions. False where there is no rule from one of them on.
    pub fn after(&mut self, factors: &Factors, bytes: &[u8]) -> bool
        ensures { if_still result self.new ≡ after factors.now.data_alignment (items 0 bytes.now) (rules_of self.old) }
    {
        let mut left = bytes;
        while let Some((opcode, rest)) = left.split_first() {
            let (item, rest) = item_in(*opcode, rest);
            let Item::Known(instruction) = item else {
                return false;
            };
            if !self.done(factors, instruction) {
                return false;
            }
            left = rest;
        }
        true
    }
}
