//! Where the ranges of a scope are told: DWARF 4, sections 2.17 and 3.4.

ghost use Rattle.std.specs.Prelude.{◌≡◌, IfOk};
ghost use Rattle.om_names.specs.Around as spec;
ghost use Rattle.om_names.specs.LocalVariables as locals;

use crate::ranges::{listed, own_range, ranges_offset};
use om_base::{Items, NoMemory, Span};
use om_die::{DW_TAG_LEXICAL_BLOCK, DW_TAG_SUBPROGRAM, Die};
use std::alloc::Global;

/// The ranges of a subprogram or a lexical block that has some.
#[derive(Clone, Copy, Debug, PartialEq, Eq)]
pub enum Scope {
    /// One, which its entry tells.
    Own(Span),
    /// Those of the list at an offset of `.debug_ranges`.
    Listed(u32),
}

/// Whether an entry's ranges are a scope.
fn is_scope(die: &Die) -> bool
    ensures { result ≡ locals.is_scope die.now }
{
    die.tag == DW_TAG_SUBPROGRAM || die.tag == DW_TAG_LEXICAL_BLOCK
}

/// The list at an offset as a scope, where it has ranges.
fn listed_scope(
    alloc: Global,
    ranges: &[u8],
    base: u32,
    offset: u32,
) -> Result<Option<Scope>, NoMemory>
    ensures { IfOk result (λ scope. scope ≡ spec.if_there (spec.list_at ranges.now base offset) (Scope.Listed offset)) }
{
    let spans = listed(alloc, ranges, base, Some(offset))?;
    match spans.as_slice() {
        [] => Ok(None),
        [_, ..] => Ok(Some(Scope::Listed(offset))),
    }
}

/// The scope that an entry of a unit is, whose range lists count from `base`, where it has ranges.
#[tactic(auto, unfolding(crate::specs::Around::scope_of))]
pub fn scope_of(
    alloc: Global,
    ranges: &[u8],
    base: u32,
    die: &Die,
) -> Result<Option<Scope>, NoMemory>
    ensures { IfOk result (λ scope. scope ≡ spec.scope_of ranges.now base die.now) }
{
    if !is_scope(die) {
        return Ok(None);
    }
    if let Some(span) = own_range(die) {
        return Ok(Some(Scope::Own(span)));
    }
    let Some(offset) = ranges_offset(die) else {
        return Ok(None);
    };
    listed_scope(alloc, ranges, base, offset)
}

/// The ranges of a scope.
pub fn spans_of(
    alloc: Global,
    ranges: &[u8],
    base: u32,
    scope: Option<Scope>,
) -> Result<Items<Span>, NoMemory>
    ensures { IfOk result (λ spans. spans ≡ spec.spans_by ranges.now base scope) }
{
    match scope {
        None => Ok(Items::new(alloc)),
        Some(Scope::Own(span)) => {
            let mut spans = Items::new(alloc);
            spans.push(span)?;
            Ok(spans)
        }
        Some(Scope::Listed(offset)) => listed(alloc, ranges, base, Some(offset)),
    }
}
