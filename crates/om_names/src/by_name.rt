//! Variables put together by their names.

ghost use Rattle.std.specs.Prelude.{◌≡◌, ℕ, ◌++◌, ◌∷◌, ◌<◌, if◌then◌else◌, [], List, Some, length, map, set, slice_index_or, IfOk, OnOk};
ghost use Rattle.om_names.specs.ByName.{HasPlaces, both_differ, held_by, info_by, place_in, put, seen_again, seen_in, seen_once, widened_by};
ghost use Rattle.om_names.specs.NameOrder.{name_cmp};
ghost use Rattle.om_names.specs.Variables as spec;
ghost use Rattle.om_names.specs.Variables.{name_of};
ghost use Rattle.std.specs.BTreeMap.{get};
ghost use Rattle.std.specs.Ordering.{is_eq};

use crate::fixed::Fixed;
use crate::found::Found;
use crate::held::Held;
use crate::kind::Kind;
use crate::name_key::NameKey;
use crate::variable::Variable;
use om_base::{Interval, NoMemory};
use om_eval::{VarInfo, VariableName};
use std::alloc::Global;
use std::collections::BTreeMap;

/// What is known of the variables of one name.
#[derive(Debug, Drop)]
pub struct Seen<'a> {
    pub name: VariableName<'a>,
    /// The first of them outside all functions.
    pub fixed: Option<Fixed<'a>>,
    /// The hull of the numbers of those whose type is scalar.
    pub scalar: Option<Interval>,
    /// Whether two of them outside functions differ in address, size or sign.
    pub ambiguous: bool,
}

/// What is known of variables, name by name.
#[derive(Debug, Drop)]
pub struct ByName<'a> {
    /// The names in the order of their first variables.
    pub list: Vec<Seen<'a>>,
    /// The place of each name in that list.
    pub places: BTreeMap<NameKey<'a>, usize>,
}

/// What counts as a variable's kind.
fn counted_kind(fixed: &Fixed) -> Kind
    ensures { result ≡ spec.counted_kind fixed.now }
{
    match fixed.kind {
        Some(kind) => kind,
        None => Kind {
            size: 0,
            signed: false,
        },
    }
}

/// Whether two variables differ in address, size or sign.
fn differ(a: &Fixed, b: &Fixed) -> bool
    ensures { result ≡ spec.differ a.now b.now }
{
    let (one, other) = (counted_kind(a), counted_kind(b));
    a.address != b.address || one.size != other.size || one.signed != other.signed
}

/// Whether two variables are there and differ.
fn both_differ(one: &Option<Fixed>, other: &Option<Fixed>) -> bool
    ensures { result ≡ both_differ one.now other.now }
{
    match (one, other) {
        (Some(one), Some(other)) => differ(one, other),
        _ => false,
    }
}

/// The same variable, if there is one.
fn again<'a>(fixed: &Option<Fixed<'a>>) -> Option<Fixed<'a>>
    ensures { result ≡ fixed.now }
{
    match fixed {
        Some(fixed) => Some(fixed.again()),
        None => None,
    }
}

/// The least interval that has two others, as far as they are there.
fn widened(hull: &Option<Interval>, more: &Option<Interval>) -> Option<Interval>
    ensures { result ≡ widened_by hull.now more.now }
{
    match (hull, more) {
        (Some(hull), Some(more)) => Some(Interval {
            lo: hull.lo.min(more.lo),
            hi: hull.hi.max(more.hi),
        }),
        (None, Some(more)) => Some(*more),
        (hull, None) => *hull,
    }
}

impl<'a> Seen<'a> {
    /// What is known of one variable.
    fn once(variable: &Variable<'a>) -> Seen<'a>
        ensures { result ≡ seen_once variable.now }
    {
        Seen {
            name: variable.name(),
            fixed: variable.fixed(),
            scalar: variable.interval(),
            ambiguous: false,
        }
    }

    /// What is known with one more variable of the name.
    fn again(&self, variable: &Variable<'a>) -> Seen<'a>
        ensures { result ≡ seen_again self.now variable.now }
    {
        let more = variable.fixed();
        let ambiguous = self.ambiguous || both_differ(&self.fixed, &more);
        let fixed = match &self.fixed {
            Some(fixed) => Some(fixed.again()),
            None => more,
        };
        Seen {
            name: self.name.again(),
            fixed,
            scalar: widened(&self.scalar, &variable.interval()),
            ambiguous,
        }
    }

    /// What the catalog says of the name.
    pub fn info(&self) -> VarInfo<'a>
        ensures { result ≡ info_by self.now }
    {
        VarInfo {
            name: self.name.again(),
            scalar: self.scalar,
            ambiguous: self.ambiguous,
            fixed: self.fixed.is_some(),
        }
    }

    /// Where the variable is that the name means, if it means one outside functions and of a scalar type.
    pub fn held(&self) -> Option<Held>
        ensures { result ≡ held_by self.now }
    {
        if self.ambiguous {
            return None;
        }
        match &self.fixed {
            Some(fixed) => fixed.held(),
            None => None,
        }
    }
}

impl<'a> ByName<'a> {
    /// The place of a name in the list, if it is there.
    pub fn place_of(&self, name: &VariableName<'a>) -> Option<usize>
        ensures { HasPlaces self.now → result ≡ place_in name.now self.now.list.items }
    {
        self.places.get(&NameKey::of(name)).copied()
    }

    /// Adds what one more variable of a name that is there tells.
    fn add_again(&mut self, place: usize, variable: &Variable<'a>)
        ensures places { self.new.places ≡ self.old.places }
        ensures list { place < length self.old.list.items → self.new.list.items ≡ set self.old.list.items place (seen_again (slice_index_or self.old.list.items place (seen_once variable.now)) variable.now) }
    {
        if place < self.list.len() {
            let seen = self.list[place].again(variable);
            self.list[place] = seen;
        }
    }

    /// Adds the first variable of a name.
    fn add_first(&mut self, variable: &Variable<'a>) -> Result<(), NoMemory>
        ensures list { OnOk result (self.new.list.items ≡ self.old.list.items ++ seen_once variable.now ∷ []) }
        ensures places { OnOk result ((name : List ℕ) → get name_cmp self.new.places name ≡ (if is_eq (name_cmp (name_of variable.now) name) then Some (length self.old.list.items) else get name_cmp self.old.places name)) }
    {
        self.places
            .insert(NameKey::of(&variable.name()), self.list.len())?;
        self.list.push(Seen::once(variable))?;
        Ok(())
    }

    /// Adds a variable.
    fn add(&mut self, variable: &Variable<'a>) -> Result<(), NoMemory>
        ensures list { OnOk result (HasPlaces self.old → self.new.list.items ≡ put self.old.list.items variable.now) }
        ensures places { OnOk result (HasPlaces self.old → HasPlaces self.new) }
    {
        match self.places.get(&NameKey::of(&variable.name())) {
            Some(place) => {
                let place = *place;
                self.add_again(place, variable);
                Ok(())
            }
            None => {
                self.add_first(variable)?;
                Ok(())
            }
        }
    }
}

/// Variables put together by their names.
pub fn by_name<'a>(alloc: Global, found: &[Found<'a>]) -> Result<ByName<'a>, NoMemory>
    ensures list { IfOk result (λ them. them.list.items ≡ seen_in (map (λ it. it.variable) found.now)) }
    ensures places { IfOk result HasPlaces }
{
    let mut them = ByName {
        list: Vec::new(alloc),
        places: BTreeMap::new(alloc),
    };
    for one in found {
        them.add(&one.variable)?;
    }
    Ok(them)
}
