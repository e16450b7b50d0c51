//! The variables of a program: DWARF 4, section 4.1.

ghost use Rattle.std.specs.Prelude.{◌≡◌, ◌⊎◌, ℕ, None, Some, map, IfErr, IfOk};
ghost use Rattle.om_base.specs.Firsts.{first_of};
ghost use Rattle.om_die.specs.Units.{dies_of_units};
ghost use Rattle.om_names.specs.ByName.{held_by, info_by};
ghost use Rattle.om_names.specs.Names.{AreNames};
ghost use Rattle.om_names.specs.FoundList.{scoped_by};
ghost use Rattle.om_names.specs.KeptVariables.{local_told, loop_by, told_in};
ghost use Rattle.om_names.specs.Types.{is_loop, type_fault};
ghost use Rattle.om_names.specs.Variables.{variable_facts, variables_in};

use crate::by_name::{Seen, by_name};
use crate::fault::NamesFault;
use crate::found::{Found, read_found};
use crate::held::Held;
use crate::local::is_typed;
use crate::names::Names;
use crate::stretches::{in_stretch, read_claimed};
use crate::types::Typing;
use om_base::{Items, NoMemory};
use om_claims::{ClaimIndex, index_of};
use om_die::{Die, Units};
use om_eval::Catalog;
use std::alloc::Global;
use std::marker::Model;

/// What is known of variables.
#[derive(Debug, Drop)]
pub struct Variables<'a> {
    /// The names that a query may use.
    catalog: Catalog<'a>,
    /// For each of them where the variable outside functions is that it means, if it means one of a scalar type.
    fixed: Items<Option<Held>>,
    /// The addresses at which local variables are meant, a stretch for each name.
    index: ClaimIndex,
    /// Where they are, by their places in the index, if their types are scalar.
    locals: Items<Option<Held>>,
}

// Clauses see what is kept; `told_in` is what it tells.
impl<'a> Model for Variables<'a> {
    ghost use Rattle.om_names.specs.KeptVariables.{AreOfClaims, KeptVariables};

    ghost Value = { KeptVariables };

    ghost view = { λ it. record { catalog = it.catalog; fixed = it.fixed; pieces = it.index; locals = it.locals } };

    ghost invariant = { λ it. AreOfClaims it.index };
}

/// Whether a type takes more typedefs and qualifiers than are followed.
fn is_loop(typing: Typing) -> bool
    ensures { result ≡ is_loop typing }
{
    match typing {
        Typing::Loop => true,
        _ => false,
    }
}

/// Where an entry stands whose type takes too many links.
fn loop_at<'a>(names: &Names<'a>, die: &Die<'a>) -> Option<u32>
    ensures { result ≡ loop_by names.now die.now }
{
    if is_typed(die) && is_loop(names.typing_of(die)) {
        return Some(die.at);
    }
    None
}

/// The first entry of some whose type takes too many links.
fn loop_in<'a>(names: &Names<'a>, dies: &[Die<'a>]) -> Option<u32>
    ensures { result ≡ first_of (map (loop_by names.now) dies.now) }
{
    for die in dies {
        if let Some(at) = loop_at(names, die) {
            return Some(at);
        }
    }
    None
}

/// The first entry of all units whose type takes too many links.
fn first_loop<'a>(names: &Names<'a>, units: &Units<'a>) -> Option<u32>
    ensures { result ≡ first_of (map (loop_by names.now) (dies_of_units units.now.list)) }
{
    for unit in units.list.as_slice() {
        if let Some(at) = loop_in(names, unit.dies.as_slice()) {
            return Some(at);
        }
    }
    None
}

/// The catalog of some names.
fn catalog_of<'a>(alloc: Global, list: &[Seen<'a>]) -> Result<Catalog<'a>, NoMemory>
    ensures { IfOk result (λ catalog. catalog ≡ map info_by list.now) }
{
    let mut catalog = Items::new(alloc);
    for seen in list {
        catalog.push(seen.info())?;
    }
    Ok(catalog)
}

/// The variables outside functions that some names mean.
fn fixed_of(alloc: Global, list: &[Seen<'_>]) -> Result<Items<Option<Held>>, NoMemory>
    ensures { IfOk result (λ held. held ≡ map held_by list.now) }
{
    let mut held = Items::new(alloc);
    for seen in list {
        held.push(seen.held())?;
    }
    Ok(held)
}

/// Some variables, put together by their names. Where the names are 2^32 or more, there is no room for their places.
fn variables_of<'a>(
    alloc: Global,
    ranges: &[u8],
    found: &[Found<'a>],
) -> Result<Variables<'a>, NoMemory>
    ensures { IfOk result (λ variables. told_in variables ≡ variable_facts (map (scoped_by ranges.now) found.now)) }
{
    let names = by_name(alloc, found)?;
    if u32::try_from(names.list.len()).is_err() {
        return Err(NoMemory);
    }
    let claimed = read_claimed(alloc, ranges, &names, found)?;
    let index = index_of(alloc, claimed.claims.as_slice())?;
    Ok(Variables {
        catalog: catalog_of(alloc, &names.list)?,
        fixed: fixed_of(alloc, &names.list)?,
        index,
        locals: claimed.held,
    })
}

/// The variables of all units.
fn kept_variables<'a>(
    alloc: Global,
    names: &Names<'a>,
    ranges: &[u8],
    units: &Units<'a>,
) -> Result<Variables<'a>, NoMemory>
    ensures { AreNames (dies_of_units units.now.list) names.now → IfOk result (λ variables. told_in variables ≡ variable_facts (variables_in ranges.now units.now)) }
{
    let found = read_found(alloc, names, ranges, units)?;
    variables_of(alloc, ranges, found.as_slice())
}

/// The variables of a program; or the first variable or parameter whose type takes more typedefs and qualifiers than are
/// followed.
///
/// Takes time in the number of entries, and in that of the ranges of all scopes, each once for each variable in it, but
/// for searching and sorting.
pub(crate) fn read_variables<'a>(
    alloc: Global,
    names: &Names<'a>,
    ranges: &[u8],
    units: &Units<'a>,
) -> Result<Variables<'a>, NamesFault>
    ensures tells { AreNames (dies_of_units units.now.list) names.now → IfOk result (λ variables. told_in variables ≡ variable_facts (variables_in ranges.now units.now)) }
    ensures lawful { AreNames (dies_of_units units.now.list) names.now → IfOk result (λ variables. type_fault units.now ≡ None) }
    ensures fault { AreNames (dies_of_units units.now.list) names.now → IfErr result (λ fault. (fault ≡ NamesFault.NoMemory) ⊎ ((at : ℕ) × (fault ≡ NamesFault.TypeLoop at) × (type_fault units.now ≡ Some at))) }
{
    if let Some(at) = first_loop(names, units) {
        return Err(NamesFault::TypeLoop { at });
    }
    match kept_variables(alloc, names, ranges, units) {
        Ok(variables) => Ok(variables),
        Err(NoMemory) => Err(NamesFault::NoMemory),
    }
}

impl<'a> Variables<'a> {
    /// The names, with what is known of each.
    #[tactic(auto, unfolding(crate::specs::KeptVariables::told_in))]
    pub(crate) fn catalog(&self) -> &Catalog<'a>
        ensures { result.now ≡ (told_in self.now).catalog }
    {
        &self.catalog
    }

    /// Where the local variable is that a name means at an address, if it means one of a scalar type.
    fn local(&self, place: u32, pc: u32) -> Option<Held>
        ensures { result ≡ local_told self.now place pc }
    {
        let owner = self.index.owner_at(in_stretch(place, pc))?;
        *self.locals.as_slice().get(owner as usize)?
    }

    /// Where the variable is that the name at a place of the catalog means at an address, if it means one of
    /// a scalar type.
    ///
    /// Makes at most one binary search, and takes no memory.
    #[tactic(auto, unfolding(crate::specs::KeptVariables::told_in))]
    pub(crate) fn held(&self, place: u32, pc: u32) -> Option<Held>
        ensures { result ≡ (told_in self.now).held place pc }
    {
        let info = self.catalog.as_slice().get(place as usize)?;
        if !info.fixed {
            return self.local(place, pc);
        }
        *self.fixed.as_slice().get(place as usize)?
    }
}
