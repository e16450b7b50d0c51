//! Laws of debugging information. They have no code of their own.

ghost use Rattle.std.specs.Prelude.{◌≡◌, ◌⊎◌, ◌++◌, ◌∷◌, ℕ, true, false, List, None, Some, All};
ghost use Rattle.std.specs.List.{list_any};
ghost use Rattle.om_die.specs.declared.die.Die.{Die};
ghost use Rattle.om_elf.specs.declared.elf.Elf.{Elf};
ghost use Rattle.om_names.specs.Functions.{func_at, holds, name_of};
ghost use Rattle.om_names.specs.Information.{Entry, Information, entries_of};
ghost use Rattle.om_names.specs.Stages.{IsLawful, IsRefused};
ghost use Rattle.om_names.specs.Types.{scalar_of};
ghost use Rattle.om_names.specs.Above.{Placed};
ghost use Rattle.om_names.specs.FixedVariables.{fixed_of, is_declaration, is_function};
ghost use Rattle.om_names.specs.Variables.{differ, interval_of, is_ambiguous, numbers_of};
ghost use Rattle.om_names.specs.declared.fault.NamesFault.{NamesFault};
ghost use Rattle.om_names.specs.declared.fixed.Fixed.{Fixed};
ghost use Rattle.om_names.specs.declared.kind.Kind.{Kind};

/// An address that no subprogram holds is in no function. Of several subprograms that hold it the first
/// counts, whether it has a name or not.
pub fn first_function()
    ensures none { (info : Information) (pc : ℕ) → All (λ entry. holds info pc entry ≡ false) (entries_of info.units) → func_at info pc ≡ None }
    ensures first { (info : Information) (pc : ℕ) (before after : List Entry) (entry : Entry)
        → entries_of info.units ≡ before ++ entry ∷ after → All (λ e. holds info pc e ≡ false) before → holds info pc entry ≡ true
        → func_at info pc ≡ name_of info entry.die }
{}

/// An executable is read in one way: its sections spell one information or have one refusal, and never
/// both.
pub fn one_debug()
    ensures information { (elf : Elf) (a b : Information) → IsLawful elf a → IsLawful elf b → a ≡ b }
    ensures refusal { (elf : Elf) (f g : NamesFault) → IsRefused elf f → IsRefused elf g → f ≡ g }
    ensures apart { (elf : Elf) (info : Information) (fault : NamesFault) → IsLawful elf info → IsRefused elf fault → ⊥ }
    ensures total { (elf : Elf) → ((info : Information) × IsLawful elf info) ⊎ ((fault : NamesFault) × IsRefused elf fault) }
{}

/// A mere declaration is no variable, and what stands below a subprogram is none outside functions.
pub fn no_variable()
    ensures declaration { (dies : List Die) (placed : Placed) → is_declaration placed.die ≡ true → fixed_of dies placed ≡ None }
    ensures inside { (dies : List Die) (placed : Placed) → list_any is_function placed.line ≡ true → fixed_of dies placed ≡ None }
{}

/// A name is ambiguous where two of its variables differ, wherever they stand among the others, and
/// nowhere else. Two of one size and another sign differ.
pub fn ambiguous_names()
    ensures two { (before between after : List Fixed) (a b : Fixed) → differ a b ≡ true → is_ambiguous (before ++ a ∷ between ++ b ∷ after) ≡ true }
    ensures alike { (first : Fixed) (others : List Fixed) → All (λ it. differ first it ≡ false) others → is_ambiguous (first ∷ others) ≡ false }
    ensures sign { (a b : Fixed) (size : ℕ) → a.kind ≡ Some (record { size = size; signed = true }) → b.kind ≡ Some (record { size = size; signed = false }) → differ a b ≡ true }
{}

/// Each scalar type has its numbers.
pub fn scalar_numbers()
    ensures { (die : Die) (kind : Kind) → scalar_of die ≡ Some kind → interval_of kind ≡ Some (numbers_of kind) }
{}
