//! Answers a query over the bytes of an executable and of a log.

ghost use Rattle.std.specs.Prelude.{◌≡◌, ◌<◌, ℕ, None, Option, Result, IfOk, slice_index};
ghost use Rattle.om_command.specs.Answer as spec;
ghost use Rattle.om_command.specs.Command.{judged, judged_log, judged_overlap, judged_run};
ghost use Rattle.om_command.specs.Readings.{Readings, IsDebugReading, IsLogReading, IsQueryReading, variables_of};
ghost use Rattle.om_command.specs.Reads as reads;
ghost use Rattle.om_command.specs.Reads.{GivesText};
ghost use Rattle.om_elf.specs.Executable.{elf_fault, elf_in};
ghost use Rattle.om_elf.specs.Image.{AreLoadable};
ghost use Rattle.om_log.specs.Grammar.{IsLawfulLog};
ghost use Rattle.om_log.specs.declared.fault.LogFault.{LogFault};
ghost use Rattle.om_log.specs.declared.log.Log.{Log};
ghost use Rattle.om_names.specs.Known.{told_by};
ghost use Rattle.om_type.specs.declared.typed.Typed.{Typed};
ghost use Rattle.om_mem.specs.Contents.{overlap_of};
ghost use Rattle.om_step.specs.First.{regions_of};

use crate::ending::Ending;
use crate::limits::MOST_STEPS;
use crate::refusal::{Part, Refusal};
use crate::rows::rows_of;
use om_base::{Items, NoMemory, Text};
use om_elf::{Elf, ElfFault, read_elf};
use om_eval::{Catalog, Cond};
use om_log::{Log, LogFault, read_log};
use om_names::{Debug, NamesFault, read_debug};
use om_parse::{ParseFault, parse};
use om_run::Replay;
use om_step::MapFault;
use om_table::{Style, Table, TableFault, print_table};
use om_type::{Output, TypeFault, Typed, check};
use sqlite_items::Items as Members;
use std::alloc::Global;

/// What a text asks; none where it asks for nothing that is built.
fn read_query<'a>(
    alloc: Global,
    sql: &'a [u8],
    catalog: &Catalog,
) -> Result<Option<Typed<'a>>, NoMemory>
    ensures { (query : Option Typed) → IsQueryReading catalog.now sql.now query → IfOk result (λ typed. typed ≡ query) }
{
    let query = match parse(alloc, sql) {
        Ok(query) => query,
        Err(ParseFault::NoMemory) => return Err(NoMemory),
        Err(ParseFault::Syntax { .. }) => return Ok(None),
        Err(ParseFault::TooWide { .. }) => return Ok(None),
    };
    match check(alloc, &query, catalog) {
        Ok(typed) => Ok(Some(typed)),
        Err(TypeFault::NoMemory) => Err(NoMemory),
        Err(TypeFault::Unbuilt) => Ok(None),
    }
}

/// The names of outputs.
fn names_of(alloc: Global, outputs: &[Output]) -> Result<Items<Text>, NoMemory>
    ensures { IfOk result (λ names. names ≡ spec.names_of outputs.now) }
{
    let mut names = Items::new(alloc);
    for output in outputs {
        names.push(Text::copy_of(alloc, output.name.bytes())?)?;
    }
    Ok(names)
}

/// The text of the answer to a query about a run, from a replay that stands at its first state.
fn answer_run<'a>(
    alloc: Global,
    replay: &mut Replay<'_>,
    debug: &Debug<'_>,
    typed: Typed<'_>,
) -> Result<Text, Ending<'a>>
    requires first { replay.old.step ≡ 0 }
    ensures text { GivesText (judged_run (told_by debug.now) replay.old.entries replay.old.first typed.entry) result }
{
    let steps = replay.last();
    if steps > MOST_STEPS {
        return Err(Ending::Refused(Refusal::TooLong { steps }));
    }
    let condition = Cond::And(Members::from_vec(typed.conjuncts.into_vec()));
    let outputs = typed.outputs.as_slice();
    let rows = match rows_of(alloc, replay, debug, &condition, outputs) {
        Ok(rows) => rows,
        Err(ending) => return Err(ending),
    };
    let names = match names_of(alloc, outputs) {
        Ok(names) => names,
        Err(_) => return Err(Ending::NoMemory),
    };
    match print_table(alloc, &Table { names, rows }, Style::Columns, u64::MAX) {
        Ok(text) => Ok(text),
        Err(TableFault::NoMemory | TableFault::TooManyBytes { .. }) => Err(Ending::NoMemory),
    }
}

/// The text of the answer to a query about the run of a log.
fn answer_query<'a>(
    alloc: Global,
    elf: &Elf<'_>,
    debug: &Debug<'_>,
    log: &Log<'_>,
    sql: &[u8],
) -> Result<Text, Ending<'a>>
    requires loadable { AreLoadable elf.now.segments }
    requires lawful { IsLawfulLog log.now }
    ensures text { (query : Option Typed) → IsQueryReading (told_by debug.now).variables.catalog sql.now query
        → GivesText (judged_overlap (overlap_of (regions_of elf.now.segments log.now.start)) elf.now (told_by debug.now) log.now query) result }
{
    let mut replay = match Replay::start(alloc, elf, log) {
        Ok(replay) => replay,
        Err(MapFault::NoMemory) => return Err(Ending::NoMemory),
        Err(MapFault::Overlap { a, b }) => return Err(Ending::Refused(Refusal::Overlap { a, b })),
    };
    match read_query(alloc, sql, debug.catalog()) {
        Ok(Some(typed)) => answer_run(alloc, &mut replay, debug, typed),
        Ok(None) => Err(Ending::Refused(Refusal::Unbuilt(Part::Query))),
        Err(_) => Err(Ending::NoMemory),
    }
}

/// What a fault of an executable comes to.
pub fn end_by_elf<'a>(fault: ElfFault) -> Ending<'a>
    ensures { result ≡ reads.end_by_elf fault }
{
    match fault {
        ElfFault::NoMemory => Ending::NoMemory,
        _ => Ending::Refused(Refusal::Executable(fault)),
    }
}

/// What a fault of a log comes to.
fn end_by_log<'a>(fault: LogFault) -> Ending<'a>
    ensures { result ≡ reads.end_by_log fault }
{
    match fault {
        LogFault::NoMemory => Ending::NoMemory,
        _ => Ending::Refused(Refusal::Log(fault)),
    }
}

/// What a fault of debugging information comes to.
pub fn end_by_debug<'a>(fault: NamesFault) -> Ending<'a>
    ensures { result ≡ reads.end_by_debug fault }
{
    match fault {
        NamesFault::NoMemory => Ending::NoMemory,
        _ => Ending::Refused(Refusal::Debug(fault)),
    }
}

/// The text of the answer to a query about the run of an executable with its debugging information.
fn answer_log<'a>(
    alloc: Global,
    elf: &Elf<'_>,
    debug: &Debug<'_>,
    log: &[u8],
    sql: &[u8],
) -> Result<Text, Ending<'a>>
    requires loadable { AreLoadable elf.now.segments }
    ensures text { (log_read : Result Log LogFault) (query : Option Typed) → IsLogReading log.now log_read
        → IsQueryReading (told_by debug.now).variables.catalog sql.now query → GivesText (judged_log elf.now (told_by debug.now) log_read query) result }
{
    match read_log(alloc, log) {
        Ok(log) => answer_query(alloc, elf, debug, &log, sql),
        Err(fault) => Err(end_by_log(fault)),
    }
}

/// The text of the answer, where the parts are judged in the order executable, debugging information, log,
/// query, run.
#[tactic(auto, unfolding(crate::specs::Command::judged))]
pub fn answer_text<'a>(
    alloc: Global,
    exe: &[u8],
    log: &[u8],
    sql: &[u8],
) -> Result<Text, Ending<'a>>
    ensures exe_bytes { (i : ℕ) → slice_index exe.now i < 256 }
    ensures log_bytes { (i : ℕ) → slice_index log.now i < 256 }
    ensures text { (read : Readings) → (elf_fault exe.now ≡ None → IsDebugReading (elf_in exe.now) read.debug)
        → IsLogReading log.now read.log → IsQueryReading (variables_of read.debug) sql.now read.query → GivesText (judged exe.now read) result }
{
    let elf = match read_elf(alloc, exe) {
        Ok(elf) => elf,
        Err(fault) => return Err(end_by_elf(fault)),
    };
    let debug = match read_debug(alloc, &elf) {
        Ok(debug) => debug,
        Err(fault) => return Err(end_by_debug(fault)),
    };
    answer_log(alloc, &elf, &debug, log, sql)
}
