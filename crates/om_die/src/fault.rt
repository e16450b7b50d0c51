//! Why no entries or ranges are read.

ghost use Rattle.std.specs.Prelude.{◌≡◌};
ghost use Rattle.om_die.specs.declared.fault.DieFault.TheVariants as fault;

use om_base::NoMemory;

/// Why the sections can't be read: the first thing that is wrong.
///
/// Of a range list, `at` is where the list begins in `.debug_ranges`; else it is an offset of
/// `.debug_info`: that of a unit, where its head is wrong, or that of an entry.
#[derive(Clone, Copy, Debug, PartialEq, Eq)]
pub enum DieFault {
    /// No memory was left.
    NoMemory,
    /// A unit passes the end of the section or is too short for its head; an entry passes the end of
    /// its unit, or has a LEB128 number of more than ten bytes or of more than 64 bits; or a range
    /// list has no end.
    Short { at: u32 },
    /// The entry's code has no abbreviation.
    Abbrev { at: u32 },
    /// An attribute of the entry has a form that isn't read, an indirect form that names the indirect
    /// form again, or a string without an end; or the unit is of the 64-bit format or has another
    /// length that is reserved, or has addresses of another size than 4.
    Form { at: u32 },
    /// The entry refers by `DW_AT_abstract_origin`, `DW_AT_specification` or `DW_AT_type` to an offset
    /// at which there is no entry.
    Target { at: u32 },
    /// The entry is the 1,048,577th.
    TooMany { at: u32 },
}

impl From<NoMemory> for DieFault {
    ghost from_gives = { λ _ given. given ≡ fault.NoMemory };

    fn from(_error: NoMemory) -> DieFault {
        DieFault::NoMemory
    }
}
