//! The debugging information of an executable.

ghost use Rattle.std.specs.Prelude.{◌≡◌, ◌⊎◌, ◌<◌, ◌^◌, ℕ, length, List, All, Ok, Err, IfOk, IfErr};
ghost use Rattle.om_cfi.specs.Frames.{rules_in};
ghost use Rattle.om_cfi.specs.Kept.{rules_told_by};
ghost use Rattle.om_die.specs.Units.{dies_of_units};
ghost use Rattle.om_elf.specs.Piece.{IsShort};
ghost use Rattle.om_names.specs.Information as spec;
ghost use Rattle.om_line.specs.Kept.{lines_told_by};
ghost use Rattle.om_line.specs.Tables.{line_facts};
ghost use Rattle.om_line.specs.declared.lines.Lines.{Lines};
ghost use Rattle.om_names.specs.Information.{Information, info_of, unit_sections};
ghost use Rattle.om_names.specs.Known.{Knows, told_by};
ghost use Rattle.om_names.specs.KeptVariables.{told_in};
ghost use Rattle.om_names.specs.LineTables.{line_tables};
ghost use Rattle.om_names.specs.Names.{AreNames};
ghost use Rattle.om_names.specs.Stages.{IsLawful, IsRefused, frame_section, frames_stage, lines_stage, ranges_stage, units_stage};
ghost use Rattle.om_names.specs.Variables.{variable_facts, variables_in};

use crate::debug_counts::Counts;
use crate::fault::NamesFault;
use crate::functions::{again, read_functions};
use crate::held::Held;
use crate::judging::first_fault;
use crate::line_tables::line_offsets;
use crate::list_ends::list_ends;
use crate::names::{Names, read_names};
use crate::variables::{Variables, read_variables};
use om_base::{Items, Name, NoMemory};
use om_cfi::{CfiFault, Frames, read_frames};
use om_claims::{ClaimIndex, index_of};
use om_die::{DieFault, Units, read_units};
use om_elf::Elf;
use om_eval::Catalog;
use om_line::{LineFault, LineRow, LineTables, read_tables};
use std::alloc::Global;
use std::marker::Model;

/// What is known of an executable, ready to be asked at any address. The entries that it was read from
/// aren't kept.
#[derive(Debug, Drop)]
pub struct Debug<'a> {
    /// The ranges of functions, by their places.
    index: ClaimIndex,
    /// For each range the name of its function, if it has one.
    names: Items<Option<Name<'a>>>,
    lines: LineTables<'a>,
    frames: Frames,
    variables: Variables<'a>,
    counts: Counts,
}

// Clauses see what is kept; `told_by` is what it tells, and `Knows` of which information it is.
impl<'a> Model for Debug<'a> {
    ghost use Rattle.om_names.specs.Known.{Known};

    ghost Value = { Known };

    ghost view = { λ it. record { pieces = it.index; names = it.names; lines = it.lines; frames = it.frames; variables = it.variables; counts = it.counts } };

    ghost use Rattle.om_names.specs.KeptVariables.{AreOfClaims};

    ghost invariant = { λ it. AreOfClaims it.index };
}

impl<'a> Debug<'a> {
    /// The name of the function that the address lies in: that of the first subprogram, in the order of
    /// units and entries, with a range that holds it. None where there is none, or it has no name.
    #[tactic(auto, unfolding(crate::specs::Known::told_by))]
    pub fn func_at(&self, pc: u32) -> Option<Name<'a>>
        ensures { result ≡ (told_by self.now).func_at pc }
    {
        let place = self.index.owner_at(u64::from(pc))?;
        again(self.names.as_slice().get(place as usize)?)
    }

    /// The row of the line tables that the address belongs to, that of the first table that has one. Its
    /// line may be 0.
    #[tactic(auto, unfolding(crate::specs::Known::told_by))]
    pub fn line_at(&self, pc: u32) -> Option<LineRow>
        ensures { result ≡ (told_by self.now).lines.line_at pc }
    {
        self.lines.line_at(pc)
    }

    /// The name of the file of that row. None also where its line is 0, or its number names no file.
    #[tactic(auto, unfolding(crate::specs::Known::told_by))]
    pub fn file_at(&self, pc: u32) -> Option<Name<'a>>
        ensures { result ≡ (told_by self.now).lines.file_at pc }
    {
        self.lines.file_at(pc)
    }

    /// The names of variables, with what is known of each. One of a function's own is named by the function, a point and itself.
    #[tactic(auto, unfolding(crate::specs::Known::told_by))]
    pub fn catalog(&self) -> &Catalog<'a>
        ensures { result.now ≡ (told_by self.now).variables.catalog }
    {
        self.variables.catalog()
    }

    /// Where the variable is that the name at a place of the catalog means at an address. None where the name
    /// is ambiguous, no variable of it is in scope, or the variable's type isn't scalar.
    ///
    /// Makes at most one binary search, and takes no memory.
    #[tactic(auto, unfolding(crate::specs::Known::told_by))]
    pub fn variable(&self, place: u32, pc: u32) -> Option<Held>
        ensures { result ≡ (told_by self.now).variables.held place pc }
    {
        self.variables.held(place, pc)
    }

    /// The rule for the canonical frame address at an address: a register, and what is added to its content.
    /// None where there is none.
    ///
    /// Makes one binary search, and takes no memory.
    #[tactic(auto, unfolding(crate::specs::Known::told_by))]
    pub fn cfa(&self, pc: u32) -> Option<(u8, i64)>
        ensures { result ≡ (told_by self.now).cfa pc }
    {
        self.frames.cfa(pc)
    }

    /// How much there is.
    #[tactic(auto, unfolding(crate::specs::Known::told_by))]
    pub fn counts(&self) -> Counts
        ensures { result ≡ (told_by self.now).counts }
    {
        self.counts
    }
}

/// The bytes of a section, none where there is no such section.
fn section<'a>(elf: &Elf<'a>, name: &[u8]) -> &'a [u8]
    requires { All IsShort elf.now.sections }
    ensures value { result.now ≡ spec.section elf.now name.now }
    ensures short { length result.now < 2 ^ 32 }
{
    match elf.section(name) {
        Some(bytes) => bytes,
        None => &[],
    }
}

/// Why the units are refused.
fn unit_fault(fault: DieFault) -> NamesFault
    ensures none { fault ≡ DieFault.NoMemory → result ≡ NamesFault.NoMemory }
    ensures told { (fault ≡ DieFault.NoMemory → ⊥) → result ≡ NamesFault.Info fault }
{
    match fault {
        DieFault::NoMemory => NamesFault::NoMemory,
        _ => NamesFault::Info(fault),
    }
}

/// The units of an executable.
fn read_info<'a>(alloc: Global, elf: &Elf<'a>) -> Result<Units<'a>, NamesFault>
    requires { All IsShort elf.now.sections }
    ensures units { IfOk result (λ units. units_stage elf.now (Ok units)) }
    ensures short { length (unit_sections elf.now).info < 2 ^ 32 }
    ensures fault { IfErr result (λ fault. (fault ≡ NamesFault.NoMemory) ⊎ units_stage elf.now (Err fault)) }
{
    let info = section(elf, b".debug_info");
    let abbreviations = section(elf, b".debug_abbrev");
    let strings = section(elf, b".debug_str");
    match read_units(alloc, info, abbreviations, strings) {
        Ok(units) => Ok(units),
        Err(fault) => Err(unit_fault(fault)),
    }
}

/// The section of range lists, judged over the units.
fn read_lists<'a>(alloc: Global, elf: &Elf<'a>, units: &Units<'a>) -> Result<&'a [u8], NamesFault>
    requires { All IsShort elf.now.sections }
    ensures lists { IfOk result (λ ranges. ranges_stage elf.now units.now (Ok ranges.now)) }
    ensures fault { IfErr result (λ fault. (fault ≡ NamesFault.NoMemory) ⊎ ranges_stage elf.now units.now (Err fault)) }
{
    let ranges = section(elf, b".debug_ranges");
    let ends = list_ends(alloc, ranges)?;
    match first_fault(&ends, units) {
        Some(fault) => Err(NamesFault::Ranges(fault)),
        None => Ok(ranges),
    }
}

/// Why line tables are refused.
fn line_fault(fault: LineFault) -> NamesFault
    ensures none { fault ≡ LineFault.NoMemory → result ≡ NamesFault.NoMemory }
    ensures told { (fault ≡ LineFault.NoMemory → ⊥) → result ≡ NamesFault.Lines fault }
{
    match fault {
        LineFault::NoMemory => NamesFault::NoMemory,
        _ => NamesFault::Lines(fault),
    }
}

/// The line tables that the units name.
fn read_lines<'a>(
    alloc: Global,
    elf: &Elf<'a>,
    units: &Units<'a>,
) -> Result<LineTables<'a>, NamesFault>
    requires { All IsShort elf.now.sections }
    ensures stage { IfOk result (λ _. lines_stage elf.now units.now (Ok (line_tables elf.now units.now))) }
    ensures kept { IfOk result (λ kept. lines_told_by kept ≡ line_facts (line_tables elf.now units.now)) }
    ensures fault { IfErr result (λ fault. (fault ≡ NamesFault.NoMemory) ⊎ lines_stage elf.now units.now (Err fault)) }
{
    let offsets = line_offsets(alloc, units.list.as_slice())?;
    match read_tables(alloc, section(elf, b".debug_line"), offsets.as_slice()) {
        Ok(tables) => Ok(tables),
        Err(fault) => Err(line_fault(fault)),
    }
}

/// Why frames are refused.
fn frame_fault(fault: CfiFault) -> NamesFault
    ensures none { fault ≡ CfiFault.NoMemory → result ≡ NamesFault.NoMemory }
    ensures told { (fault ≡ CfiFault.NoMemory → ⊥) → result ≡ NamesFault.Frame fault }
{
    match fault {
        CfiFault::NoMemory => NamesFault::NoMemory,
        _ => NamesFault::Frame(fault),
    }
}

/// The rules of frames.
fn read_rules(alloc: Global, elf: &Elf<'_>) -> Result<Frames, NamesFault>
    requires { All IsShort elf.now.sections }
    ensures stage { IfOk result (λ _. frames_stage elf.now (Ok (frame_section elf.now))) }
    ensures kept { IfOk result (λ kept. rules_told_by kept ≡ rules_in (frame_section elf.now)) }
    ensures fault { IfErr result (λ fault. (fault ≡ NamesFault.NoMemory) ⊎ frames_stage elf.now (Err fault)) }
{
    match read_frames(alloc, section(elf, b".debug_frame")) {
        Ok(frames) => Ok(frames),
        Err(fault) => Err(frame_fault(fault)),
    }
}

/// What the stages give besides the units and the section of range lists.
#[derive(Debug, Drop)]
struct Stages<'a> {
    lines: LineTables<'a>,
    frames: Frames,
    variables: Variables<'a>,
}

/// What is kept of units, range lists and what the later stages give.
fn know<'a>(
    alloc: Global,
    names: &Names<'a>,
    units: &Units<'a>,
    ranges: &[u8],
    given: Stages<'a>,
) -> Result<Debug<'a>, NoMemory>
    requires names { AreNames (dies_of_units units.now.list) names.now }
    requires units { length units.now.list < 2 ^ 32 }
    requires dies { length (dies_of_units units.now.list) < 2 ^ 32 }
    ensures { (tables : List Lines) (frames : List ℕ) → lines_told_by given.entry.lines ≡ line_facts tables → rules_told_by given.entry.frames ≡ rules_in frames
        → told_in given.entry.variables ≡ variable_facts (variables_in ranges.now units.now) → IfOk result (λ debug. Knows (info_of units.now ranges.now tables frames) debug) }
{
    let functions = read_functions(alloc, names, ranges, units)?;
    let index = index_of(alloc, functions.claims.as_slice())?;
    let counts = Counts {
        units: units.list.len() as u32,
        skipped: units.skipped,
        functions: functions.count,
    };
    let Stages {
        lines,
        frames,
        variables,
    } = given;
    Ok(Debug {
        index,
        names: functions.names,
        lines,
        frames,
        variables,
        counts,
    })
}

/// The stages in their order, and then what is kept.
fn read<'a>(alloc: Global, elf: &Elf<'a>) -> Result<Debug<'a>, NamesFault>
    requires { All IsShort elf.now.sections }
    ensures debug { IfOk result (λ debug. (info : Information) × IsLawful elf.now info × Knows info debug) }
    ensures fault { IfErr result (λ fault. (fault ≡ NamesFault.NoMemory) ⊎ IsRefused elf.now fault) }
{
    let units = read_info(alloc, elf)?;
    let ranges = read_lists(alloc, elf, &units)?;
    let lines = read_lines(alloc, elf, &units)?;
    let frames = read_rules(alloc, elf)?;
    let names = read_names(alloc, &units)?;
    let variables = read_variables(alloc, &names, ranges, &units)?;
    let given = Stages {
        lines,
        frames,
        variables,
    };
    let debug = know(alloc, &names, &units, ranges, given)?;
    Ok(debug)
}

/// Reads the debugging information of an executable. A section that it hasn't counts as empty.
///
/// Takes time and memory in the size of the sections, but for sorting and searching. Where subprograms
/// have 2^32 ranges or more, there is no room for them.
pub fn read_debug<'a>(alloc: Global, elf: &Elf<'a>) -> Result<Debug<'a>, NamesFault>
    requires { All IsShort elf.now.sections }
    ensures debug { IfOk result (λ debug. (info : Information) × IsLawful elf.now info × Knows info debug) }
    ensures fault { IfErr result (λ fault. (fault ≡ NamesFault.NoMemory) ⊎ IsRefused elf.now fault) }

    // Nothing else is answered, but that no memory was left.
    ensures reads { (info : Information) → IsLawful elf.now info → IfOk result (Knows info) × IfErr result (λ fault. fault ≡ NamesFault.NoMemory) }
    ensures refuses { (fault : NamesFault) → IsRefused elf.now fault → (result ≡ Err fault) ⊎ (result ≡ Err NamesFault.NoMemory) }
{
    read(alloc, elf)
}
