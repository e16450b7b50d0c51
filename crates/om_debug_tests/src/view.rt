//! The row of a state: of the small specimen two steps into its run, and of programs that have variables
//! where a run begins.

ghost use Rattle.om_elf.specs.Image.{AreLoadable};

use crate::made::{elf_of, put_unit};
use om_elf::{Elf, read_elf};
use om_eval::{ColumnId, RowView};
use om_image::{Which, small_specimen, worked};
use om_names::{Debug, read_debug};
use om_step::{Machine, Outcome, Start, StepMeter};
use om_view::View;
use std::alloc::{AllocError, Global};
use std::test::Fail;

/// A page of stack, and no heap.
pub(crate) const START: Start = Start {
    stack_low: 0x7ff0_0000,
    stack_size: 4096,
    heap_low: 0x1_1000,
    heap_size: 0,
};

/// Whether the machine goes on by a step.
fn goes_on(machine: &mut Machine, meter: &mut StepMeter) -> bool {
    if meter.value() > 100 {
        return false;
    }
    let outcome = machine.step(meter);
    matches!(outcome, Outcome::Next(_))
}

/// How many steps are done of so many.
pub(crate) fn steps_of(machine: &mut Machine, most: u64) -> u64 {
    let mut meter = StepMeter::new();
    for _ in 0..most {
        if !goes_on(machine, &mut meter) {
            break;
        }
    }
    meter.value()
}

/// The cells of a row: the step, the pc, the word there, a0, the function, the file, the line and the first
/// variable; then half of the word at 65556, and a byte that is unmapped.
fn shown(alloc: Global, view: &View<'_>) -> Result<String, AllocError> {
    let step = view.cell(ColumnId::Step);
    let pc = view.cell(ColumnId::Pc);
    let insn = view.cell(ColumnId::Insn);
    let a0 = view.cell(ColumnId::Reg(10));
    let func = view.cell(ColumnId::Func);
    let file = view.cell(ColumnId::File);
    let line = view.cell(ColumnId::Line);
    let variable = view.cell(ColumnId::Var(0));
    let half = view.mem(65556, 2);
    let unmapped = view.mem(0, 1);
    format!(in alloc;
        "{step:?} {pc:?} {insn:?} {a0:?} {func:?} {file:?} {line:?} {variable:?} {half:?} {unmapped:?}"
    )
}

/// The row of the state so many steps into the run of an executable.
fn row(alloc: Global, elf: &Elf<'_>, debug: &Debug<'_>, steps: u64) -> Result<String, Fail>
    requires { AreLoadable elf.now.segments }
{
    let mut machine = Machine::load(alloc, elf, START)?;
    let step = steps_of(&mut machine, steps);
    let view = View {
        machine: &machine,
        debug,
        step,
    };
    Ok(shown(alloc, &view)?)
}

/// The row of the state so many steps into the run of a file.
fn row_of(alloc: Global, file: &[u8], steps: u64) -> Result<String, Fail> {
    let elf = read_elf(alloc, file)?;
    let debug = read_debug(alloc, &elf)?;
    row(alloc, &elf, &debug, steps)
}

#[test]
fn a_row_has_what_its_state_has(rt: HostRuntime) -> Result<(), Fail> {
    // `addi a0, x0, 3` and `jal ra, 16` lead to `down`, which begins with `addi sp, sp, -32` in line 6 of
    // `specimen.c`, and where `n` is to be stored there is 0.
    let program = small_specimen(rt.alloc())?;
    let row = row_of(rt.alloc(), program.elf.bytes(), 2)?;
    let want = "Int(2) Int(65556) Int(4261478675) Int(3) \
        Text(Name { bytes: [100, 111, 119, 110] }) \
        Text(Name { bytes: [115, 112, 101, 99, 105, 109, 101, 110, 46, 99] }) Int(6) Int(0) Int(275) Null";
    assert_eq!(rt; row.as_str(), want);

    // `addi a0, x0, 0` stands at 65536, and `addi a7, x0, 93` at 65556; `counter` is the one variable.
    let program = worked(rt.alloc(), Which::G)?;
    let row = row_of(rt.alloc(), program.elf.bytes(), 0)?;
    let want = "Int(0) Int(65536) Int(1299) Int(0) Null Null Null Int(0) Int(2195) Null";
    assert_eq!(rt; row.as_str(), want);
    Ok(())
}

/// What the name at a place of the catalog has where the run of an executable begins.
fn cell(alloc: Global, elf: &Elf<'_>, debug: &Debug<'_>, place: u32) -> Result<String, Fail>
    requires { AreLoadable elf.now.segments }
{
    let machine = Machine::load(alloc, elf, START)?;
    let view = View {
        machine: &machine,
        debug,
        step: 0,
    };
    let cell = view.cell(ColumnId::Var(place));
    Ok(format!(in alloc; "{cell:?}")?)
}

/// What it has in an executable with these entries.
fn cell_of(alloc: Global, entries: &[u8], place: u32) -> Result<String, Fail> {
    let mut info = Vec::new(alloc);
    put_unit(&mut info, b"", entries)?;
    let elf = elf_of(alloc, info.as_slice())?;
    let debug = read_debug(alloc, &elf)?;
    cell(alloc, &elf, &debug, place)
}

/// A base type of a size and an encoding, and a variable of it at an address.
fn variable(alloc: Global, size: u8, encoding: u8, address: u32) -> Result<Vec<u8>, AllocError> {
    let mut entries = Vec::from_slice(alloc, &[b'b', size, encoding])?;
    entries.extend_from_slice(b"vn\0\x0b\x05\x03")?;
    entries.extend_from_slice(&address.to_le_bytes())?;
    Ok(entries)
}

/// In each line a size; an encoding, 5 and 6 with a sign, 7 and 8 without; an address, which is hexadecimal;
/// and what a variable has there. The segment is from 20000 up to 20024.
const NUMBERS: &str = "\
1 6 20000 Int(-1)
1 8 20000 Int(255)
2 5 20000 Int(-1)
2 7 20000 Int(65535)
4 5 20000 Int(-1)
4 7 20000 Int(4294967295)
8 5 20000 Int(-1)
8 7 20000 Int(18446744073709551615)
1 6 2000f Int(-128)
1 8 2000f Int(128)
2 5 2000e Int(-32768)
2 7 2000e Int(32768)
4 5 2000c Int(-2147483648)
4 7 2000c Int(2147483648)
8 5 20008 Int(-9223372036854775808)
8 7 20008 Int(9223372036854775808)
1 6 20017 Int(127)
2 5 20016 Int(32767)
4 5 20014 Int(2147483647)
8 5 20010 Int(9223372036854775807)
2 7 20018 Int(513)
4 7 20019 Int(84148994)
8 7 20018 Int(9801809732607083009)
8 5 20018 Int(-8644934341102468607)
8 7 2001c Int(2282161669)
4 7 20020 Int(0)
1 6 20023 Int(0)
1 6 20024 Null
2 7 20023 Null
4 7 20021 Null
8 5 2001d Null
8 7 20020 Null
8 7 1fffc Null
1 8 1ffff Null
4 5 fffffffe Null";

#[test]
fn a_variable_has_the_number_of_its_bytes(rt: HostRuntime) -> Result<(), Fail> {
    for line in NUMBERS.lines() {
        let mut words = line.split_whitespace();
        let size: u8 = words.next().ok_or("a size")?.parse()?;
        let encoding: u8 = words.next().ok_or("an encoding")?.parse()?;
        let address = u32::from_str_radix(words.next().ok_or("an address")?, 16)?;
        let want = words.next().ok_or("a value")?;
        let entries = variable(rt.alloc(), size, encoding, address)?;
        let cell = cell_of(rt.alloc(), entries.as_slice(), 0)?;
        assert_eq!(rt; cell.as_str(), want, "{line}");
    }
    Ok(())
}

/// At 11 numbers of 4 bytes with a sign; two variables of them.
const TWO: &[u8] = b"\
    b\x04\x05\
    vn\0\x0b\x05\x03\0\0\x02\0\
    vm\0\x0b\x05\x03\x0c\0\x02\0";

/// The same type; two variables n at two addresses, and two m at one.
const TWICE: &[u8] = b"\
    b\x04\x05\
    vn\0\x0b\x05\x03\0\0\x02\0\
    vn\0\x0b\x05\x03\x0c\0\x02\0\
    vm\0\x0b\x05\x03\x0c\0\x02\0\
    vm\0\x0b\x05\x03\x0c\0\x02\0";

/// At 11 a floating-point type, at 14 a structure; a variable of each, and one of no type.
const OTHERS: &[u8] = b"\
    b\x04\x04\
    r\x04\
    vn\0\x0b\x05\x03\0\0\x02\0\
    vm\0\x0e\x05\x03\0\0\x02\0\
    yl\0\x05\x03\0\0\x02\0";

#[test]
fn a_place_of_the_catalog_has_the_number_that_its_name_means(rt: HostRuntime) -> Result<(), Fail> {
    let rows = [
        (TWO, 0, "Int(-1)"),
        (TWO, 1, "Int(-2147483648)"),
        (TWO, 2, "Null"), // past the catalog
        (TWO, u32::MAX, "Null"),
        (TWICE, 0, "Null"), // ambiguous
        (TWICE, 1, "Int(-2147483648)"),
        (OTHERS, 0, "Null"), // not scalar
        (OTHERS, 1, "Null"),
        (OTHERS, 2, "Null"),
        (b"", 0, "Null"),
    ];
    for (entries, place, want) in rows {
        let cell = cell_of(rt.alloc(), entries, place)?;
        assert_eq!(rt; cell.as_str(), want, "{entries:?} {place}");
    }
    Ok(())
}
