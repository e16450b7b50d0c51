//! What local variables hold two steps into the run of the small specimen, given other debugging information than its
//! own. The pc is 65556 there, ra is 65544, sp is 0x7ff00ff0 and t6 is 0; at 65536 the word 0x00300513 stands.

ghost use Rattle.om_elf.specs.Image.{AreLoadable};

use crate::made::{Beside, TYPES, elf_with, put_unit};
use crate::view::{START, steps_of};
use om_elf::{Elf, read_elf};
use om_eval::{ColumnId, RowView};
use om_image::small_specimen;
use om_names::{Debug, read_debug};
use om_step::Machine;
use om_view::View;
use std::alloc::{AllocError, Global};
use std::test::Fail;

/// The function `f` from 65556 on, 16 bytes long, with a frame base, and its `n` of a type at a place: each of fewer
/// than 128 bytes.
fn entries(alloc: Global, base: &[u8], of: u8, place: &[u8]) -> Result<Vec<u8>, AllocError> {
    let mut entries = Vec::from_slice(alloc, b"Ff\0\x14\0\x01\0\x10")?;
    entries.push((base.len() % 128) as u8)?;
    entries.extend_from_slice(base)?;
    entries.extend_from_slice(&[b'v', b'n', 0, of, (place.len() % 128) as u8])?;
    entries.extend_from_slice(place)?;
    entries.push(0)?;
    Ok(entries)
}

/// What the first variable has so many steps into the run of an executable.
fn cell(alloc: Global, elf: &Elf<'_>, debug: &Debug<'_>, steps: u64) -> Result<String, Fail>
    requires { AreLoadable elf.now.segments }
{
    let mut machine = Machine::load(alloc, elf, START)?;
    let step = steps_of(&mut machine, steps);
    let view = View {
        machine: &machine,
        debug,
        step,
    };
    let cell = view.cell(ColumnId::Var(0));
    Ok(format!(in alloc; "{cell:?}")?)
}

/// What it has so many steps into the run of the small specimen, given these entries and frames.
fn held(alloc: Global, entries: &[u8], frames: &[u8], steps: u64) -> Result<String, Fail> {
    let mut info = Vec::new(alloc);
    put_unit(&mut info, TYPES, entries)?;
    let beside = Beside {
        ranges: b"",
        frames,
    };
    let told = elf_with(alloc, info.as_slice(), beside)?;
    let debug = read_debug(alloc, &told)?;
    let small = small_specimen(alloc)?;
    let elf = read_elf(alloc, small.elf.bytes())?;
    cell(alloc, &elf, &debug, steps)
}

/// In `f` the canonical frame address is what ra holds and 8.
const FRAMES: &[u8] = b"\
    \x0c\0\0\0\xff\xff\xff\xff\x01\0\x01\x7c\x01\x0c\x01\x08\
    \x0c\0\0\0\0\0\0\0\x14\0\x01\0\x10\0\0\0";

/// DW_OP_call_frame_cfa.
const CFA: &[u8] = b"\x9c";

#[test]
fn a_local_variable_is_in_a_register(rt: HostRuntime) -> Result<(), Fail> {
    let rows = [
        // ra, of each type.
        (11, b"\x51".as_slice(), "Int(8)"),
        (14, b"\x51", "Int(8)"),
        (17, b"\x51", "Int(8)"),
        (20, b"\x51", "Int(8)"),
        (23, b"\x51", "Int(65544)"),
        (26, b"\x51", "Int(65544)"),
        (29, b"\x51", "Null"),
        (32, b"\x51", "Null"),
        (35, b"\x51", "Null"),
        // sp.
        (11, b"\x52", "Int(-16)"),
        (14, b"\x52", "Int(240)"),
        (17, b"\x52", "Int(4080)"),
        (23, b"\x52", "Int(2146439152)"),
        // The last register; ra by an operation that isn't read.
        (26, b"\x6f", "Int(0)"),
        (26, b"\x90\x01", "Null"),
    ];
    for (of, place, want) in rows {
        let entries = entries(rt.alloc(), CFA, of, place)?;
        let held = held(rt.alloc(), entries.as_slice(), FRAMES, 2)?;
        assert_eq!(rt; held.as_str(), want, "{of} {place:?}");
    }
    Ok(())
}

#[test]
fn a_local_variable_has_an_address(rt: HostRuntime) -> Result<(), Fail> {
    let rows = [
        // 65536, by DW_OP_addr; by ra and -8; by the frame and -16.
        (CFA, b"\x03\0\0\x01\0".as_slice(), FRAMES, "Int(3147027)"),
        (CFA, b"\x71\x78", FRAMES, "Int(3147027)"),
        (CFA, b"\x91\x70", FRAMES, "Int(3147027)"),
        // The frame base is ra, or ra and 8.
        (b"\x51", b"\x91\x78", FRAMES, "Int(3147027)"),
        (b"\x71\x08", b"\x91\x70", FRAMES, "Int(3147027)"),
        // By ra and 120, to a byte and more that aren't mapped; by the frame before the memory.
        (CFA, b"\x71\xf8\0", FRAMES, "Null"),
        (CFA, b"\x91\x68", FRAMES, "Null"),
        // By an operation that isn't read; the frame address itself; no operation.
        (CFA, b"\x92\x01\x78", FRAMES, "Null"),
        (CFA, b"\x9c", FRAMES, "Null"),
        (CFA, b"", FRAMES, "Null"),
        // No frame base; one by an address, and by an operation that isn't read; no rule for the frame.
        (b"", b"\x91\x70", FRAMES, "Null"),
        (b"\x03\x10\0\x01\0", b"\x91\x70", FRAMES, "Null"),
        (b"\x90\x01", b"\x91\x78", FRAMES, "Null"),
        (CFA, b"\x91\x70", b"", "Null"),
    ];
    for (base, place, frames, want) in rows {
        let entries = entries(rt.alloc(), base, 26, place)?;
        let held = held(rt.alloc(), entries.as_slice(), frames, 2)?;
        assert_eq!(rt; held.as_str(), want, "{base:?} {place:?}");
    }
    Ok(())
}

#[test]
fn a_local_variable_is_null_outside_its_scope(rt: HostRuntime) -> Result<(), Fail> {
    let entries = entries(rt.alloc(), CFA, 26, b"\x51")?;
    let rows = [
        (1, "Null"),
        (2, "Int(65544)"),
        (5, "Int(65544)"),
        (6, "Null"),
    ];
    for (steps, want) in rows {
        let held = held(rt.alloc(), entries.as_slice(), FRAMES, steps)?;
        assert_eq!(rt; held.as_str(), want, "{steps}");
    }
    Ok(())
}
