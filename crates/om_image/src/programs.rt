//! The worked programs P, G, M and B.

ghost use Rattle.std.specs.Prelude.{◌≡◌, IfOk};
ghost use Rattle.om_image.specs.Programs.{worked_program};
ghost use Rattle.om_image.specs.declared.programs.Which.TheVariants.{P, G, M, B};

use crate::debug::{abbreviations, blocks_info, blocks_ranges, read_info};
use crate::program::{ENTRY, Program, make_program};
use crate::segment::{Rights, Segment};
use om_base::NoMemory;
use std::alloc::Global;

/// Counts down from 3, and exits with 0.
const COUNTDOWN: [u32; 5] = [
    0x0030_0513, // addi a0, x0, 3
    0xfff5_0513, // addi a0, a0, -1
    0xfe05_1ee3, // bne a0, x0, -4
    0x05d0_0893, // addi a7, x0, 93
    0x0000_0073, // ecall
];

/// Reads 4 bytes to 0x20000, and exits with how many were read.
const READ: [u32; 7] = [
    0x0000_0513, // addi a0, x0, 0
    0x0002_05b7, // lui a1, 32
    0x0040_0613, // addi a2, x0, 4
    0x03f0_0893, // addi a7, x0, 63
    0x0000_0073, // ecall
    0x05d0_0893, // addi a7, x0, 93
    0x0000_0073, // ecall
];

/// Divides -2^31 by -1 and by 0, and exits with it.
const DIVISION: [u32; 6] = [
    0x8000_0537, // lui a0, 524288
    0xfff0_0593, // addi a1, x0, -1
    0x02b5_4633, // div a2, a0, a1
    0x0205_76b3, // remu a3, a0, x0
    0x05d0_0893, // addi a7, x0, 93
    0x0000_0073, // ecall
];

/// The variable into which `READ` reads.
const COUNTER_AT: u32 = 0x20000;

const COUNTER: [u32; 1] = [0];

/// Which one of the worked programs.
#[derive(Clone, Copy, Debug, PartialEq, Eq)]
pub enum Which {
    /// Counts down from 3 in a0, and exits with 0. It has no sections.
    P,
    /// Reads 4 bytes of its input, the number 7, into the variable `counter`, which is signed, and exits
    /// with 4.
    G,
    /// Divides -2^31 by -1, which has no quotient that fits, and by 0, and exits with 2^31. It has no
    /// sections.
    M,
    /// P as the function `f`, whose variable `i` is in a0. A block in it, over the branch alone, has an
    /// `i` of its own, in a7.
    B,
}

/// One of the worked programs. None of them has a truth.
pub fn worked(alloc: Global, which: Which) -> Result<Program, NoMemory>
    ensures { IfOk result (λ program. program ≡ worked_program which) }
{
    match which {
        Which::P => countdown(alloc),
        Which::G => read(alloc),
        Which::M => division(alloc),
        Which::B => blocks(alloc),
    }
}

/// P.
fn countdown(alloc: Global) -> Result<Program, NoMemory>
    ensures { IfOk result (λ program. program ≡ worked_program P) }
{
    make_program(alloc, &[Segment::code(ENTRY, &COUNTDOWN)], &[], &[], &[])
}

/// G.
fn read(alloc: Global) -> Result<Program, NoMemory>
    ensures { IfOk result (λ program. program ≡ worked_program G) }
{
    let segments = [
        Segment::code(ENTRY, &READ),
        Segment {
            address: COUNTER_AT,
            rights: Rights::ReadWrite,
            words: &COUNTER,
        },
    ];
    let sections = [abbreviations(), read_info()];
    make_program(alloc, &segments, &sections, &[7, 0, 0, 0], &[])
}

/// M.
fn division(alloc: Global) -> Result<Program, NoMemory>
    ensures { IfOk result (λ program. program ≡ worked_program M) }
{
    make_program(alloc, &[Segment::code(ENTRY, &DIVISION)], &[], &[], &[])
}

/// B.
fn blocks(alloc: Global) -> Result<Program, NoMemory>
    ensures { IfOk result (λ program. program ≡ worked_program B) }
{
    let sections = [abbreviations(), blocks_info(), blocks_ranges()];
    make_program(
        alloc,
        &[Segment::code(ENTRY, &COUNTDOWN)],
        &sections,
        &[],
        &[],
    )
}
