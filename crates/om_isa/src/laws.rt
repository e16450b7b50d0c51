//! The laws of the table. They have no code.

ghost use Rattle.std.specs.Prelude.{◌≡◌, ◌≢◌, ℕ, AllPairs, Contains, Some, false, length, map, true};
ghost use Rattle.std.specs.List.{range_with_len};
ghost use Rattle.om_isa.specs.declared.op.Op.{Op};
ghost use Rattle.om_isa.specs.Order.{number_of};
ghost use Rattle.om_isa.specs.Table.{Row, decoded, fits, read_as, table};

/// No word belongs to two rows, so that it makes no difference in which order they stand.
#[tactic(auto, using(crate::proofs::TableLemmas::apart, crate::proofs::TableLemmas::reads))]
pub fn one_row()
    ensures apart { (word : ℕ) → AllPairs (λ r s. fits word r ≡ true → fits word s ≡ false) table }
    ensures reads { (word : ℕ) (r : Row) → Contains table r → fits word r ≡ true
        → decoded word ≡ Some (read_as word r) }
{}

/// Row k of the table, from 0 on, is that of the k-th variant of `Op`: each operation has a row, and no two
/// rows have one operation.
#[tactic(auto, using(crate::proofs::TableLemmas::each_has_one, crate::proofs::TableLemmas::once, crate::proofs::TableLemmas::in_order))]
pub fn one_each()
    ensures order { map (λ r. number_of r.op) table ≡ range_with_len 0 (length table) }
    ensures each { (op : Op) → Contains (map (λ r. r.op) table) op }
    ensures once { AllPairs (λ r s. r.op ≢ s.op) table }
{}
