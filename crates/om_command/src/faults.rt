//! What the faults of files and the broken rules of a run tell.

ghost use Rattle.std.specs.Prelude.{◌≡◌};
ghost use Rattle.om_command.specs.Lines.{die_words, frame_words, elf_words, fault_words, line_words, reason_words, type_loop_words, word_of};
ghost use Rattle.om_command.specs.Told.{told_text};

use crate::refusal::Part;
use crate::told::Told;
use om_cfi::CfiFault;
use om_die::DieFault;
use om_elf::ElfFault;
use om_line::LineFault;
use om_log::LogFault;
use om_run::Reason;

/// What a part that isn't built tells.
pub fn part_told(part: Part) -> Told
    ensures { told_text result ≡ word_of part }
{
    match part {
        Part::Words => Told::words(b"words"),
        Part::Query => Told::words(b"query"),
    }
}

/// What a fault of an executable tells.
pub fn elf_told(fault: ElfFault) -> Told
    ensures { told_text result ≡ elf_words fault }
{
    match fault {
        ElfFault::Short => Told::words(b"short"),
        ElfFault::Magic => Told::words(b"magic"),
        ElfFault::Class => Told::words(b"class"),
        ElfFault::Kind => Told::words(b"kind"),
        ElfFault::Machine => Told::words(b"machine"),
        ElfFault::Flags => Told::words(b"flags"),
        ElfFault::Table { index } => Told::number(b"table", u64::from(index)),
        ElfFault::Overlap { a, b } => Told::places(b"overlap", a, b),
        ElfFault::TooBig => Told::words(b"too big"),
        ElfFault::Compressed { section } => Told::number(b"compressed", u64::from(section)),
        ElfFault::NoMemory => Told::words(b""),
    }
}

/// What a fault of entries or of a range list tells.
pub fn die_told(fault: DieFault) -> Told
    ensures { told_text result ≡ die_words fault }
{
    match fault {
        DieFault::Short { at } => Told::number(b"short at", u64::from(at)),
        DieFault::Abbrev { at } => Told::number(b"abbrev at", u64::from(at)),
        DieFault::Form { at } => Told::number(b"form at", u64::from(at)),
        DieFault::Target { at } => Told::number(b"ref at", u64::from(at)),
        DieFault::TooMany { at } => Told::number(b"too many at", u64::from(at)),
        DieFault::NoMemory => Told::words(b""),
    }
}

/// What a fault of a line table tells.
pub fn line_told(fault: LineFault) -> Told
    ensures { told_text result ≡ line_words fault }
{
    match fault {
        LineFault::Short { at } => Told::number(b"short at", u64::from(at)),
        LineFault::Version { at } => Told::number(b"version at", u64::from(at)),
        LineFault::Header { at } => Told::number(b"header at", u64::from(at)),
        LineFault::Opcode { at } => Told::number(b"opcode at", u64::from(at)),
        LineFault::NoMemory => Told::words(b""),
    }
}

/// What a fault of an entry of frames tells.
pub fn frame_told(fault: CfiFault) -> Told
    ensures { told_text result ≡ frame_words fault }
{
    match fault {
        CfiFault::Short { at } => Told::number(b"short at", u64::from(at)),
        CfiFault::Cie { at } => Told::number(b"cie at", u64::from(at)),
        CfiFault::NoMemory => Told::words(b""),
    }
}

/// What a type of `.debug_info` that leads too far tells, of the entry at `at`.
pub fn type_loop_told(at: u32) -> Told
    ensures { told_text result ≡ type_loop_words at }
{
    Told::number(b"type loop at", u64::from(at))
}

/// What a fault of a log tells.
pub fn log_told(fault: LogFault) -> Told
    ensures { told_text result ≡ fault_words fault }
{
    match fault {
        LogFault::Short { at } => Told::number(b"short at", at),
        LogFault::Kind { at } => Told::number(b"kind at", at),
        LogFault::Order { at } => Told::number(b"order at", at),
        LogFault::Trailing { at } => Told::number(b"trailing at", at),
        LogFault::Magic => Told::words(b"magic"),
        LogFault::Version => Told::words(b"version"),
        LogFault::NoEnd => Told::words(b"no end"),
        LogFault::Region => Told::words(b"region"),
        LogFault::NoMemory => Told::words(b""),
    }
}

/// What a rule that a run breaks tells.
pub fn reason_told(reason: Reason) -> Told
    ensures { told_text result ≡ reason_words reason }
{
    match reason {
        Reason::MarkPc => Told::words(b"mark pc"),
        Reason::MarkSum => Told::words(b"mark sum"),
        Reason::EndExit => Told::words(b"end exit"),
        Reason::EndValue => Told::words(b"end value"),
        Reason::EndStop => Told::words(b"end stop"),
        Reason::Call => Told::words(b"call"),
        Reason::Passed => Told::words(b"passed"),
        Reason::Number => Told::words(b"number"),
        Reason::Argument(place) => Told::number(b"argument", u64::from(place)),
        Reason::Outside => Told::words(b"outside"),
        Reason::Stopped => Told::words(b"stopped"),
    }
}
