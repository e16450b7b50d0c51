//! The laws of a run: its rules are judged in the order of their table, what comes later in a log changes
//! nothing before, and what a replay reaches. They have no code.

ghost use Rattle.std.specs.Prelude.{◌≡◌, ◌+◌, ◌<◌, ◌≤◌, ◌++◌, ℕ, List, None};
ghost use Rattle.std.specs.Option.{option_map};
ghost use Rattle.om_log.specs.declared.entry.Entry.{Entry};
ghost use Rattle.om_run.specs.Departure.{departs_at, first_departure, without_last};
ghost use Rattle.om_run.specs.Replay.{beginning, place_after};
ghost use Rattle.om_run.specs.Run.{AreAfter, below, end_of, state_at};
ghost use Rattle.om_run.specs.Table.{first_broken, rules_at};
ghost use Rattle.om_step.specs.State.{State};

/// A run departs at a step by the first rule of the table that is broken there: the table says of each rule
/// alone when it is broken.
#[tactic(auto, using(crate::proofs::TableLemmas::all_in_order))]
pub fn in_order()
    ensures { (entries : List Entry) (i : ℕ) (s : State) → i ≤ (end_of entries).step
        → departs_at entries i s ≡ first_broken i (rules_at entries i s) }
{}

/// Where a run first departs from its log, up to a step before its end, and how, doesn't depend on the
/// entries of later steps (but that an early stop tells the log's last step), and neither do its states up
/// to the one behind that step. It holds of all entries, also of no lawful log.
#[tactic(auto, using(crate::proofs::RunLemmas::first_departures_same, crate::proofs::RunLemmas::states_same))]
pub fn causality()
    ensures departure { (i : ℕ) (kept a b : List Entry) (first : State) → AreAfter i a → AreAfter i b
        → i < (end_of (kept ++ a)).step → i < (end_of (kept ++ b)).step → (n : ℕ) → n ≤ i + 1
        → option_map without_last (first_departure (kept ++ a) first (below n))
        ≡ option_map without_last (first_departure (kept ++ b) first (below n)) }
    ensures states { (i : ℕ) (kept a b : List Entry) (first : State) → AreAfter i a → AreAfter i b
        → (j : ℕ) → j ≤ i + 1 → state_at (kept ++ a) first j ≡ state_at (kept ++ b) first j }
{}

/// So many moves from the first step on reach the step of that number exactly where the run departs at none
/// before it, and it isn't behind the last one.
#[tactic(auto, using(crate::proofs::RunLemmas::reached, crate::proofs::RunLemmas::reaches))]
pub fn reach()
    ensures reached { (entries : List Entry) (first : State) (n : ℕ)
        → (place_after (beginning entries first) n).step ≡ n
        → (first_departure entries first (below n) ≡ None) × (n ≤ (end_of entries).step) }
    ensures reaches { (entries : List Entry) (first : State) (n : ℕ)
        → first_departure entries first (below n) ≡ None → n ≤ (end_of entries).step
        → place_after (beginning entries first) n
        ≡ record (beginning entries first) { step = n } }
{}
