//! The laws of the format: a file is one log or has one fault, and never both. They have no code.

ghost use Rattle.std.specs.Prelude.{◌≡◌, ◌<◌, ◌⊎◌, ◌++◌, ℕ, List, slice_index};
ghost use Rattle.om_log.specs.EndCauses.{by_cut, by_exit, by_stop};
ghost use Rattle.om_log.specs.Faults.{IsFault, IsBodyFault};
ghost use Rattle.om_log.specs.Grammar.{AreLawful, spellings, IsLog};
ghost use Rattle.om_log.specs.Steps.{IsBody};
ghost use Rattle.om_log.specs.declared.entry.Entry.{Entry};
ghost use Rattle.om_log.specs.declared.fault.LogFault.{LogFault};
ghost use Rattle.om_log.specs.declared.log.Log.{Log};

use crate::end_cause::{BY_CUT, BY_EXIT, BY_STOP};

/// The code and the definitions have the same causes of an END.
pub fn one_cause()
    ensures exit { BY_EXIT ≡ by_exit }
    ensures cut { BY_CUT ≡ by_cut }
    ensures stop { BY_STOP ≡ by_stop }
{}

/// Bytes are read in one way.
pub fn one_reading()
    ensures entries { (n m : ℕ) (a b : List Entry) → AreLawful n a → AreLawful m b
        → spellings a ≡ spellings b → a ≡ b }
    ensures log { (file : List ℕ) (a b : Log) → IsLog file a → IsLog file b → a ≡ b }
    ensures fault { (file : List ℕ) (f g : LogFault) → IsFault file f → IsFault file g → f ≡ g }
    ensures either { (file : List ℕ) (log : Log) (fault : LogFault)
        → IsLog file log → IsFault file fault → ⊥ }
{}

/// The entries before a fault are the longest lawful list in front of the body: each other one is a
/// front of theirs.
pub fn longest()
    ensures { (len : ℕ) (body : List ℕ) (f : LogFault) (fault : IsBodyFault len body f)
        (entries : List Entry) (rest : List ℕ) → AreLawful 0 entries
        → body ≡ spellings entries ++ rest
        → (more : List Entry) × (fault.entries ≡ entries ++ more) }
{}

/// All bytes are the entries of a log or have a fault.
pub fn body_or_fault()
    ensures { (len : ℕ) (body : List ℕ) → ((i : ℕ) → slice_index body i < 256)
        → ((entries : List Entry) × IsBody body entries)
        ⊎ ((fault : LogFault) × IsBodyFault len body fault) }
{}

/// All files are a log or have a fault.
pub fn log_or_fault()
    ensures { (file : List ℕ) → ((i : ℕ) → slice_index file i < 256)
        → ((log : Log) × IsLog file log) ⊎ ((fault : LogFault) × IsFault file fault) }
{}
