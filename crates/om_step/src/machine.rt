//! The machine: a program counter, 32 registers and memory.

ghost use Rattle.std.specs.Prelude.{◌≡◌, ◌%◌, ◌^◌, ◌<◌, slice_index, sum_by};
ghost use Rattle.om_elf.specs.Image.{AreLoadable};
ghost use Rattle.om_log.specs.Regions.{HasRoom};
ghost use Rattle.om_mem.specs.Contents.{overlap_of};
ghost use Rattle.om_mem.specs.Gives.{Gives};
ghost use Rattle.om_step.specs.First.{first_standing, regions_of};
ghost use Rattle.om_step.specs.State.{core_of, held_of, register, sum_of};

use crate::first::first_memory;
use crate::register_file::{Core, STACK_POINTER};
use om_elf::Elf;
use om_log::Start;
use om_mem::{MapFault, Memory};
use std::alloc::Global;
use std::marker::Model;

/// A RISC-V machine of 32 bits.
#[derive(Debug, Drop)]
pub struct Machine {
    pub(crate) pc: u32,
    pub(crate) registers: [u32; 32],
    pub(crate) memory: Memory,
}

// Clauses see a state, and the pages that were written since the last clearing.
impl Model for Machine {
    ghost use Rattle.std.specs.Prelude.{◌≡◌, slice_index};
    ghost use Rattle.om_step.specs.State.{Standing, standing_code};

    ghost Value = { Standing };

    ghost coded = { standing_code };

    ghost view = { λ it. record {
      state = record { pc = it.pc; registers = it.registers; memory = it.memory.contents };
      dirty = it.memory.dirty;
    } };

    ghost invariant = { λ it. slice_index it.registers 0 ≡ 0 };
}

/// The sum of some words modulo 2^32.
fn sum_of_words(words: &[u32]) -> u32
    ensures { result ≡ sum_by (λ x. x) words.now % 2 ^ 32 }
{
    let mut sum: u32 = 0;
    for word in words {
        sum = sum.wrapping_add(*word);
    }
    sum
}

impl Machine {
    /// The machine in the state in which a run begins. It takes all memory that the run needs.
    ///
    /// Errors: `Overlap` where two of the run's regions share an address; `NoMemory`.
    pub fn load(alloc: Global, elf: &Elf<'_>, start: Start) -> Result<Machine, MapFault>
        requires loadable { AreLoadable elf.now.segments }
        requires start { HasRoom start }
        ensures { Gives (overlap_of (regions_of elf.now.segments start)) (first_standing elf.now start) result }
    {
        let memory = first_memory(alloc, elf.segments.as_slice(), &start)?;
        let mut registers = [0; 32];
        registers[STACK_POINTER as usize] = start.stack_low + (start.stack_size - 16);
        Ok(Machine {
            pc: elf.entry,
            registers,
            memory,
        })
    }

    /// The address of the next instruction.
    pub fn pc(&self) -> u32
        ensures { result ≡ self.now.state.pc }
    {
        self.pc
    }

    /// The content of a register.
    pub fn reg(&self, number: u8) -> u32
        requires { number < 32 }
        ensures { result ≡ register self.now.state number }
    {
        self.registers[number as usize]
    }

    /// The sum of all registers modulo 2^32.
    pub fn sum(&self) -> u32
        ensures { result ≡ sum_of self.now.state }
    {
        sum_of_words(&self.registers)
    }

    /// The pc and the registers.
    pub fn registers(&self) -> Core
        ensures core { result ≡ core_of self.now.state }

        // What holds of all registers: x0 is 0.
        ensures zero { slice_index result.regs 0 ≡ 0 }
    {
        Core {
            pc: self.pc,
            regs: self.registers,
        }
    }

    /// The memory.
    pub fn memory(&self) -> &Memory
        ensures { result.now ≡ held_of self.now }
    {
        &self.memory
    }
}
