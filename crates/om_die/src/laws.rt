//! Laws of values, attributes, tables, forms, entries and units. They have no code.

ghost use Rattle.std.specs.Prelude.{◌≡◌, ◌⊎◌};
ghost use Rattle.om_die.specs.Laws.{OneValue, OneList, WholeOrNot, OneGap, ListOrGap, SomeTable, OneTable, RefusedIsAbsent, RefusedForGood, EachFormHasCode, OneCode, EachFormSpells, FirstBelowNone, OneDeeper, DeeperBelowChildren, DepthOfNext};
ghost use Rattle.om_die.specs.Refusals.{IsRefusal};
ghost use Rattle.om_die.specs.Units.{AreUnits, Sections};
ghost use Rattle.om_die.specs.declared.fault.DieFault.{DieFault};
ghost use Rattle.om_die.specs.declared.unit.Units.{Units};

/// A value is read in one way, from its first byte on.
pub fn one_value()
    ensures { OneValue }
{}

/// The attributes of an entry are read in one way, and are there or lack one for one reason.
pub fn one_list_of_attributes()
    ensures list { OneList }
    ensures apart { WholeOrNot }
    ensures gap { OneGap }
    ensures total { ListOrGap }
{}

/// Some bytes are the table of one list of entries.
pub fn one_table()
    ensures some { SomeTable }
    ensures once { OneTable }
{}

/// A value that its form refuses isn't there, and isn't made whole by further bytes, but for a string
/// that ends in them.
pub fn refused_for_good()
    ensures absent { RefusedIsAbsent }
    ensures for_good { RefusedForGood }
{}

/// Each form has one code, and some bytes spell a value in it; in that of an offset of `.debug_str`
/// where a string stands there.
pub fn each_form()
    ensures code { EachFormHasCode }
    ensures once { OneCode }
    ensures spells { EachFormSpells }
{}

/// The first entry of a unit stands below none. Each other is at most one level deeper than the one
/// before it, deeper only where that one has children, and one level less deep for each end between
/// them, as far as one is open.
pub fn depths_of_entries()
    ensures first { FirstBelowNone }
    ensures most { OneDeeper }
    ensures children { DeeperBelowChildren }
    ensures next { DepthOfNext }
{}

/// The sections are read in one way: they are some units or have one refusal, and never both.
pub fn one_reading()
    ensures units { (sections : Sections) (a b : Units) → AreUnits sections a → AreUnits sections b → a ≡ b }
    ensures refusal { (sections : Sections) (f g : DieFault) → IsRefusal sections f → IsRefusal sections g → f ≡ g }
    ensures apart { (sections : Sections) (units : Units) (fault : DieFault)
        → AreUnits sections units → IsRefusal sections fault → ⊥ }
{}

/// All sections are some units or have a refusal.
pub fn units_or_refusal()
    ensures { (sections : Sections)
        → ((units : Units) × AreUnits sections units) ⊎ ((fault : DieFault) × IsRefusal sections fault) }
{}
