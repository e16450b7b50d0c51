//! Programs that end as one that was run, and have addresses of its rows alone: they needn't be run.

ghost use Rattle.std.specs.Prelude.{◌≡◌, length, Contains, IfSome, IsTrue};
ghost use Rattle.om_line.specs.Sharing as spec;
ghost use Rattle.om_line.specs.Sharing.{EndsAs, IsShareable};

use crate::head::Head;
use crate::lines::Ran;
use crate::reading::Table;
use crate::row::LineRow;
use crate::start::Start;
use om_base::Items;

/// A program that was run, of which all rows rise and no instruction sets the address or ends a sequence.
#[derive(Debug, Drop)]
pub struct Shared<'a> {
    pub head: Head<'a>,
    /// Where it ends in its section.
    pub end: u32,
    pub starts: Items<Start>,
    pub rows: Items<LineRow>,
}

/// Whether no row ends a sequence or has a lower address than the one before it.
#[tactic(auto, unfolding(crate::specs::Sharing::rise_from))]
fn is_rising(rows: &[LineRow]) -> bool
    ensures { result ≡ spec.rise_from 0 rows.now }
{
    let mut low = 0;
    let mut rest = rows;
    while let [row, others @ ..] = rest {
        if row.end || row.addr < low {
            return false;
        }
        low = row.addr;
        rest = others;
    }
    true
}

/// Whether two heads say the same of instructions.
fn is_same_head(a: &Head<'_>, b: &Head<'_>) -> bool
    ensures { IsTrue result → a.now ≡ b.now }
{
    a.minimum_instruction_length == b.minimum_instruction_length
        && a.maximum_operations == b.maximum_operations
        && a.line_base == b.line_base
        && a.line_range == b.line_range
        && a.opcode_base == b.opcode_base
        && a.operand_counts == b.operand_counts
}

/// The instruction from which so many bytes are left, if one begins there. They stand first to last.
fn start_at(starts: &[Start], rest: usize) -> Option<Start>
    ensures { IfSome result (λ start. Contains starts.now start × (start.rest ≡ rest)) }
{
    let place = starts.partition_point(|start| start.rest as usize > rest);
    let start = starts.get(place)?;
    if start.rest as usize != rest {
        return None;
    }
    Some(*start)
}

/// The address of the first of some rows, 0 where there are none.
fn first_addr(rows: &[LineRow]) -> u32
    ensures { result ≡ spec.first_addr rows.now }
{
    match rows {
        [row, ..] => row.addr,
        [] => 0,
    }
}

/// Whether the rows behind an instruction, where they begin at address 0 there, are no lower than the first
/// row.
#[tactic(auto, unfolding(crate::specs::Sharing::is_within))]
fn is_within(rows: &[LineRow], start: Start) -> bool
    ensures { result ≡ spec.is_within rows.now start }
{
    let Some(row) = rows.get(start.rows) else {
        return true;
    };
    start.address <= row.addr && first_addr(rows) <= row.addr - start.address
}

impl<'a> Shared<'a> {
    /// What others may share of a program that was run with this head, and that ends at `end` in its section.
    pub fn of(head: Head<'a>, end: u32, ran: Ran<'a>) -> Option<Shared<'a>>
        ensures { IfSome result (IsShareable head.entry end ran.entry) }
    {
        let Ran {
            lines,
            starts,
            is_relative,
        } = ran;
        if !is_relative || !is_rising(lines.rows.as_slice()) {
            return None;
        }
        Some(Shared {
            head,
            end,
            starts,
            rows: lines.rows,
        })
    }

    /// Whether a table's program ends as this one, and all its addresses have rows here.
    pub fn covers(&self, table: &Table<'_>) -> bool
        ensures { IsTrue result → EndsAs self.now table.now }
    {
        if self.end != table.end || !is_same_head(&self.head, &table.head) {
            return false;
        }
        match start_at(self.starts.as_slice(), table.program.len()) {
            Some(start) => is_within(self.rows.as_slice(), start),
            None => false,
        }
    }
}
