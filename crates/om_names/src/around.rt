//! What an entry stands in: DWARF 4, section 2.3.

ghost use Rattle.std.specs.Prelude.{◌≡◌, IfOk};
ghost use Rattle.om_names.specs.Around as spec;

use crate::constants::{DW_AT_FRAME_BASE, DW_TAG_INLINED_SUBROUTINE};
use crate::names::Names;
use crate::places::place_in;
use crate::scope::{Scope, scope_of};
use om_base::{Name, NoMemory};
use om_die::{DW_TAG_SUBPROGRAM, Die};
use om_loc::Place;
use std::alloc::Global;

/// A function whose variables are its own.
#[derive(Debug, Drop)]
pub struct Function<'a> {
    pub name: Option<Name<'a>>,
    /// Where its frame is.
    pub base: Place,
}

/// What the entries tell that an entry stands below.
#[derive(Debug, Drop)]
pub struct Around<'a> {
    /// Whether one of them is a subprogram.
    pub is_inside: bool,
    /// The nearest subprogram, unless an inlined subroutine is nearer.
    pub function: Option<Function<'a>>,
    /// The ranges of the nearest subprogram or lexical block that has some.
    pub scope: Option<Scope>,
}

/// The same function, if there is one.
fn again<'a>(function: &Option<Function<'a>>) -> Option<Function<'a>>
    ensures { result ≡ function.now }
{
    let Some(function) = function else {
        return None;
    };
    Some(Function {
        name: crate::functions::again(&function.name),
        base: function.base,
    })
}

/// The function that an entry's variables are of, where it stands in one or in none.
#[tactic(auto, unfolding(crate::specs::Around::function_in))]
fn function_in<'a>(
    names: &Names<'a>,
    die: &Die<'a>,
    outer: &Option<Function<'a>>,
) -> Option<Function<'a>>
    ensures { result ≡ spec.function_in names.now die.now outer.now }
{
    if die.tag == DW_TAG_SUBPROGRAM {
        return Some(Function {
            name: names.name_of(die),
            base: place_in(die, DW_AT_FRAME_BASE),
        });
    }
    if die.tag == DW_TAG_INLINED_SUBROUTINE {
        return None;
    }
    again(outer)
}

impl<'a> Around<'a> {
    /// What an entry stands in that stands below no other.
    pub fn nothing() -> Around<'a>
        ensures { result ≡ spec.nothing }
    {
        Around {
            is_inside: false,
            function: None,
            scope: None,
        }
    }

    /// The same.
    pub fn again(&self) -> Around<'a>
        ensures { result ≡ self.now }
    {
        Around {
            is_inside: self.is_inside,
            function: again(&self.function),
            scope: self.scope,
        }
    }

    /// What the entries stand in that stand right below an entry, where that stands in this.
    #[tactic(auto, unfolding(crate::specs::Around::inside))]
    pub fn inside(
        &self,
        alloc: Global,
        names: &Names<'a>,
        ranges: &[u8],
        base: u32,
        die: &Die<'a>,
    ) -> Result<Around<'a>, NoMemory>
        ensures { IfOk result (λ inner. inner ≡ spec.inside names.now ranges.now base die.now self.now) }
    {
        let scope = match scope_of(alloc, ranges, base, die)? {
            Some(scope) => Some(scope),
            None => self.scope,
        };
        Ok(Around {
            is_inside: die.tag == DW_TAG_SUBPROGRAM || self.is_inside,
            function: function_in(names, die, &self.function),
            scope,
        })
    }
}
