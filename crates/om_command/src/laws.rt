//! What the theorem of the program rests on beside its clause: the files and the text that it speaks of
//! are read in one way, and so a command means one effect. No code is in it.

ghost use Rattle.std.specs.Prelude.{◌≡◌, ◌<◌, ℕ, List, Option, Some, Result, slice_index};
ghost use Rattle.om_command.specs.Command.{Means};
ghost use Rattle.om_command.specs.Effect.{Effect};
ghost use Rattle.om_command.specs.Readings.{IsDebugReading, IsLogReading, IsQueryReading, content_at};
ghost use Rattle.om_command.specs.InMemory.{just_made};
ghost use Rattle.om_command.specs.Requests.{Command};
ghost use Rattle.om_command.specs.Result.{AreHeld, IsFaultless, IsFresh};
ghost use Rattle.om_elf.specs.declared.elf.Elf.{Elf};
ghost use Rattle.om_io.specs.Files.{held_in};
ghost use Rattle.om_log.specs.declared.fault.LogFault.{LogFault};
ghost use Rattle.om_log.specs.declared.log.Log.{Log};
ghost use Rattle.om_names.specs.Information.{Information};
ghost use Rattle.om_names.specs.declared.fault.NamesFault.{NamesFault};
ghost use Rattle.om_type.specs.Typing.{Variables};
ghost use Rattle.om_type.specs.declared.typed.Typed.{Typed};

/// Every file of bytes, every text and every executable is read in one way: as a log or a fault, as what
/// it asks or nothing that is built, and as debugging information or a fault.
pub fn one_meaning()
    ensures debug { (elf : Elf) → (read : Result Information NamesFault) × IsDebugReading elf read }
    ensures log { (file : List ℕ) → ((i : ℕ) → slice_index file i < 256) → (read : Result Log LogFault) × IsLogReading file read }
    ensures query { (variables : Variables) (text : List ℕ) → (read : Option Typed) × IsQueryReading variables text read }
    ensures one_debug { (elf : Elf) (a b : Result Information NamesFault) → IsDebugReading elf a → IsDebugReading elf b → a ≡ b }
    ensures one_log { (file : List ℕ) (a b : Result Log LogFault) → IsLogReading file a → IsLogReading file b → a ≡ b }
    ensures one_query { (variables : Variables) (text : List ℕ) (a b : Option Typed) → IsQueryReading variables text a → IsQueryReading variables text b → a ≡ b }
{
    om_names::one_debug();
    om_log::log_or_fault();
    om_log::one_reading();
    om_parse::tree_or_refusal();
    om_parse::one_tree();
    om_parse::never_both();
    om_type::one_typing();
    om_type::never_both();
    om_type::typing_or_unbuilt();
}

/// Over files with given contents, which are bytes, a command means one effect.
pub fn one_effect()
    ensures { (command : Command) (contents : List (List ℕ)) (a b : Effect)
        → ((place i : ℕ) → slice_index (content_at contents place) i < 256)
        → Means command contents a → Means command contents b → a ≡ b }
{
    one_meaning();
}

/// A shelf and an output in memory that are just made, and of which no call is to fail, are known to be
/// faultless over the files that they hold, and nothing has failed.
pub fn nothing_fails_in_memory()
    ensures { (files : List (List ℕ × List ℕ)) (most : ℕ) (names : List (List ℕ)) → AreHeld (Some (held_in files)) names
        → IsFaultless names (just_made files most) × IsFresh (just_made files most) }
{}
