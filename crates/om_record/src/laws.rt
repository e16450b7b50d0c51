//! The law of a recorded log: replaying it makes the run that was recorded. It has no code.

ghost use Rattle.std.specs.Prelude.{◌≡◌, ◌≤◌, ℕ, List, None, length};
ghost use Rattle.om_base.specs.Limits.{most_bytes};
ghost use Rattle.om_elf.specs.declared.elf.Elf.{Elf};
ghost use Rattle.om_mem.specs.Contents.{overlap_of};
ghost use Rattle.om_record.specs.Recording.{ending_of, entries_of, made, moment_at, recording, start_of};
ghost use Rattle.om_record.specs.declared.recorded.Recorded.{Recorded};
ghost use Rattle.om_run.specs.Departure.{departure_of};
ghost use Rattle.om_run.specs.Run.{end_of, state_at};
ghost use Rattle.om_step.specs.First.{first_state, regions_of};

/// A recorded run doesn't depart from its log: the log ends as the run does, its states are those of the
/// run, and no rule is broken at any of its steps. It ends within the limit, and a log that was made is one
/// that can be replayed: its regions are apart, and it isn't longer than a log that is read may be.
pub fn never_departs()
    ensures ending { (elf : Elf) (input : List ℕ) (limit : ℕ)
        → end_of (entries_of elf input limit) ≡ ending_of elf input limit }
    ensures states { (elf : Elf) (input : List ℕ) (limit i : ℕ) → i ≤ (ending_of elf input limit).step
        → state_at (entries_of elf input limit) (first_state elf (start_of elf.segments)) i
        ≡ (moment_at elf input i).state }
    ensures departure { (elf : Elf) (input : List ℕ) (limit : ℕ)
        → departure_of (entries_of elf input limit) (first_state elf (start_of elf.segments)) ≡ None }
    ensures within { (elf : Elf) (input : List ℕ) (limit : ℕ) → (ending_of elf input limit).step ≤ limit }
    ensures apart { (elf : Elf) (input : List ℕ) (limit : ℕ) (recorded : Recorded) → recording elf input limit ≡ made recorded
        → overlap_of (regions_of elf.segments (start_of elf.segments)) ≡ None }
    ensures size { (elf : Elf) (input : List ℕ) (limit : ℕ) (recorded : Recorded) → recording elf input limit ≡ made recorded
        → length recorded.bytes ≤ most_bytes }
{}
