//! The reader of `.debug_info`.

ghost use Rattle.std.specs.Prelude.{◌≡◌, ◌⊎◌, ◌<◌, ◌^◌, length, Ok, Err, IfOk, IfErr};
ghost use Rattle.om_die.specs.UnitList.{shown};
ghost use Rattle.om_die.specs.Refusals.{IsRefusal};
ghost use Rattle.om_die.specs.Shown.{sections_of};
ghost use Rattle.om_die.specs.Units.{AreUnits};

use crate::fault::DieFault;
use crate::settling::settle;
use crate::targets::first_lost;
use crate::unit::Units;
use crate::unit_list::read_parts;
use crate::unit_sections::Sections;
use std::alloc::Global;

/// The units of `.debug_info`, with the abbreviations of `.debug_abbrev` and the strings of
/// `.debug_str`. Names and blocks borrow the sections.
///
/// Takes time and memory in the size of the sections and the number of attributes, of which some forms
/// take no bytes. Abbreviations are read once for all units that name one offset, unless units name many
/// offsets of one table.
pub fn read_units<'a>(
    alloc: Global,
    info: &'a [u8],
    abbreviations: &'a [u8],
    strings: &'a [u8],
) -> Result<Units<'a>, DieFault>
    requires info { length info.now < 2 ^ 32 }
    requires abbreviations { length abbreviations.now < 2 ^ 32 }
    requires strings { length strings.now < 2 ^ 32 }
    ensures units { IfOk result (λ units. AreUnits (sections_of info.now abbreviations.now strings.now) units) }
    ensures fault { IfErr result (λ fault. (fault ≡ DieFault.NoMemory) ⊎ IsRefusal (sections_of info.now abbreviations.now strings.now) fault) }

    // Nothing else is answered, but that no memory was left.
    ensures reads { (units : Units) → AreUnits (sections_of info.now abbreviations.now strings.now) units
        → (result ≡ Ok units) ⊎ (result ≡ Err DieFault.NoMemory) }
    ensures refuses { (fault : DieFault) → IsRefusal (sections_of info.now abbreviations.now strings.now) fault
        → (result ≡ Err fault) ⊎ (result ≡ Err DieFault.NoMemory) }
{
    let sections = Sections {
        info,
        abbreviations,
        strings,
    };
    read(alloc, &sections)
}

/// The units, read and then judged by where their references lead.
fn read<'a>(alloc: Global, sections: &Sections<'a>) -> Result<Units<'a>, DieFault>
    requires { length sections.now.info.now < 2 ^ 32 }
    ensures units { IfOk result (λ units. AreUnits (shown sections.now) units) }
    ensures fault { IfErr result (λ fault. (fault ≡ DieFault.NoMemory) ⊎ IsRefusal (shown sections.now) fault) }
{
    let parts = read_parts(alloc, sections)?;
    let units = settle(alloc, parts)?;
    match first_lost(alloc, units.list.as_slice())? {
        Some(at) => Err(DieFault::Target { at }),
        None => Ok(units),
    }
}
