//! Laws of call frame instructions. They have no code.

ghost use Rattle.std.specs.Prelude.{◌≡◌, ◌<◌, ◌≤◌, ◌∷◌, ℕ, ℤ, List, Some, length};
ghost use Rattle.std.specs.Option.{option_and_then};
ghost use Rattle.om_cfi.specs.Instructions.{item_in, items};
ghost use Rattle.om_cfi.specs.Laws.{NoneBetween, locations};
ghost use Rattle.om_cfi.specs.Rules.{Rules, done, up_to};
ghost use Rattle.om_cfi.specs.declared.instruction.Instruction.TheVariants as i;
ghost use Rattle.om_cfi.specs.declared.instruction.Item.{Item};
ghost use Rattle.om_cfi.specs.declared.rule.Factors.{Factors};

/// The instructions in some bytes are the first and those behind it.
pub fn one_by_one()
    ensures { (byte : ℕ) (bytes : List ℕ) → items 0 (byte ∷ bytes) ≡ (item_in byte bytes).0 ∷ items 0 (item_in byte bytes).1 }
{}

/// The rules at two addresses are the same where no location lies between them.
pub fn rules_change_at_locations()
    ensures { (factors : Factors) (low high first : ℕ) (items : List Item) (rules : Rules)
        → low ≤ high → NoneBetween low high (locations factors.code_alignment first items)
        → up_to factors low first items rules ≡ up_to factors high first items rules }
{}

/// What is saved is taken back, as long as fewer than 64 rules are saved.
pub fn saved_rules_come_back()
    ensures { (scale : ℤ) (rules : Rules) → length rules.saved < 64
        → option_and_then (done scale i.Restore) (done scale i.Save rules) ≡ Some rules }
{}
