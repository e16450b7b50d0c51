//! The small specimen, S.

ghost use Rattle.std.specs.Prelude.{◌≡◌, ◌++◌, IfOk};
ghost use Rattle.om_image.specs.Programs.{down_code, small_program};

use crate::debug::{lined_abbreviations, small_frames, small_info, small_lines};
use crate::program::{ENTRY, Program, make_program};
use crate::segment::Segment;
use om_base::NoMemory;
use std::alloc::Global;

/// `main`: calls what stands behind it with 3, and exits with what that returns.
const MAIN: [u32; 5] = [
    0x0030_0513, // addi a0, x0, 3
    0x0100_00ef, // jal ra, 16
    0x05d0_0893, // addi a7, x0, 93
    0x0000_0073, // ecall
    0x0010_0073, // ebreak
];

/// `down`: calls itself with one less, down to 0. It keeps its parameter at -20 of the frame.
const DOWN: [u32; 15] = [
    0xfe01_0113, // addi sp, sp, -32
    0x0011_2e23, // sw ra, 28(sp)
    0x0081_2c23, // sw s0, 24(sp)
    0x0201_0413, // addi s0, sp, 32
    0xfea4_2623, // sw a0, -20(s0)
    0xfec4_2783, // lw a5, -20(s0)
    0x0007_8a63, // beq a5, x0, 20
    0xfec4_2783, // lw a5, -20(s0)
    0xfff7_8793, // addi a5, a5, -1
    0x0007_8513, // addi a0, a5, 0
    0xfd9f_f0ef, // jal ra, -40
    0x01c1_2083, // lw ra, 28(sp)
    0x0181_2403, // lw s0, 24(sp)
    0x0201_0113, // addi sp, sp, 32
    0x0000_8067, // jalr x0, 0(ra)
];

/// For each value of `down.n`, in how many states of `down` it has that value.
const TRUTH: [(u32, u64); 4] = [(0, 26), (1, 10), (2, 10), (3, 10)];

/// A recursive function as a compiler makes it without optimisation: `main` calls `down`, which calls
/// itself three times. Its truth is how often each value of the parameter `n` stands in a state of
/// `down`.
pub fn small_specimen(alloc: Global) -> Result<Program, NoMemory>
    ensures { IfOk result (λ program. program ≡ small_program) }
{
    let code = with_down(alloc, &MAIN)?;
    let sections = [
        lined_abbreviations(),
        small_info(),
        small_lines(),
        small_frames(),
    ];
    make_program(
        alloc,
        &[Segment::code(ENTRY, &code)],
        &sections,
        &[],
        &TRUTH,
    )
}

/// Some code, and `down` behind it.
fn with_down(alloc: Global, main: &[u32]) -> Result<Vec<u32>, NoMemory>
    ensures { IfOk result (λ code. code.items ≡ main.now ++ down_code) }
{
    let mut code = Vec::from_slice(alloc, main)?;
    code.extend_from_slice(&DOWN)?;
    Ok(code)
}
