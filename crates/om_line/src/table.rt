//! A line table that is asked at addresses.

ghost use Rattle.std.specs.Prelude.{◌≡◌, ◌⊎◌, ◌<◌, ◌^◌, length, Some, None, IfOk, IfErr};
ghost use Rattle.om_line.specs.Lines as spec;

use crate::fault::LineFault;
use crate::lines::Lines;
use crate::row::LineRow;
use om_base::{Items, Name};
use om_claims::{ClaimIndex, index_of};
use std::alloc::Global;
use std::marker::Model;

/// The lines of a table with an index.
#[derive(Debug, Drop)]
pub struct LineTable<'a> {
    lines: Lines<'a>,
    index: ClaimIndex,
}

// Clauses see the lines.
impl<'a> Model for LineTable<'a> {
    ghost use Rattle.om_line.specs.declared.lines.Lines.{Lines};

    ghost Value = { Lines };

    ghost view = { λ it. it.lines };

    ghost use Rattle.om_claims.specs.Pieces.{IsIndexOf};
    ghost use Rattle.om_line.specs.Claims.{claims_of};

    ghost invariant = { λ it. IsIndexOf (claims_of it.lines.rows) it.index };
}

/// Reads the table that begins at the offset `at` of the section `.debug_line`, with an index.
///
/// Takes time and memory in the size of the table, but for sorting its rows.
pub fn read_lines<'a>(alloc: Global, section: &'a [u8], at: u32) -> Result<LineTable<'a>, LineFault>
    requires { length section.now < 2 ^ 32 }
    ensures lines { IfOk result (λ lines. lines ≡ spec.lines_at section.now at) }
    ensures lawful { IfOk result (λ lines. spec.fault_at section.now at ≡ None) }
    ensures fault { IfErr result (λ fault. (fault ≡ LineFault.NoMemory) ⊎ (spec.fault_at section.now at ≡ Some fault)) }
{
    let lines = Lines::read(alloc, section, at)?;
    let mut claims = Items::new(alloc);
    lines.add_claims(&mut claims)?;
    let index = index_of(alloc, claims.as_slice())?;
    Ok(LineTable { lines, index })
}

impl<'a> LineTable<'a> {
    /// The first row, in the order in which the program makes them, that has the address.
    ///
    /// Makes one binary search, and takes no memory.
    pub fn at(&self, pc: u32) -> Option<LineRow>
        ensures { result ≡ spec.row_at self.now.rows pc }
    {
        let place = self.index.owner_at(u64::from(pc))?;
        self.lines.rows.as_slice().get(place as usize).copied()
    }

    /// The name of the file of a number. Those of the head are numbered from 1 on, and those that the
    /// program adds after them.
    pub fn file(&self, number: u32) -> Option<Name<'a>>
        ensures { result ≡ spec.file_of self.now.files number }
    {
        self.lines.file(number)
    }
}
