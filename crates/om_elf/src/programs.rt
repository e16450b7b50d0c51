//! The table of program headers: the gABI, chapter 5, "Program Header".

ghost use Rattle.std.specs.Prelude.{◌≡◌, ◌<◌, false, length, nat_le, position, All, IfOk, IfSome};
ghost use Rattle.om_elf.specs.Headers.{programs_of};
ghost use Rattle.om_elf.specs.Segments.{images_of, is_misplaced, memory_of, spans_of};

use crate::file_header::FileHeader;
use crate::program_header::ProgramHeader;
use crate::segment::Segment;
use om_base::{Items, NoMemory, Span};
use std::alloc::Global;

/// The most memory that all segments together can take, in bytes: 32 MiB.
const MOST_MEMORY: u64 = 33_554_432;

/// The table of program headers.
#[tactic(auto, using(crate::proofs::TableLemmas::program_tables))]
pub fn read_programs(
    alloc: Global,
    file: &[u8],
    header: &FileHeader,
) -> Result<Items<ProgramHeader>, NoMemory>
    ensures table { IfOk result (λ programs. programs ≡ programs_of file.now header.now) }
    ensures few { IfOk result (λ programs. length programs < 65536) }
{
    let mut programs = Vec::new(alloc);
    for place in 0..header.e_phnum {
        programs.push(ProgramHeader::at(file, header.e_phoff as usize + 32 * usize::from(place)))?;
    }
    Ok(Items::from_vec(programs))
}

/// The place of the first header whose segment can't be loaded.
pub fn first_misplaced(file: &[u8], programs: &[ProgramHeader]) -> Option<usize>
    ensures place { result ≡ position (is_misplaced file.now) programs.now }
    ensures within { IfSome result (λ place. place < length programs.now) }
{
    programs
        .iter()
        .position(|program| program.is_misplaced(file))
}

/// The addresses of each header's segment.
pub fn read_spans(alloc: Global, programs: &[ProgramHeader]) -> Result<Vec<Span>, NoMemory>
    ensures { IfOk result (λ spans. spans.items ≡ spans_of programs.now) }
{
    let mut spans = Vec::new(alloc);
    for program in programs {
        spans.push(program.span())?;
    }
    Ok(spans)
}

/// Whether the segments together fit into the memory that they can take.
pub fn fit_memory(programs: &[ProgramHeader]) -> bool
    ensures { result ≡ nat_le (memory_of programs.now) 33554432 }
{
    let mut total = 0u64;
    for program in programs {
        if program.is_load() {
            total += u64::from(program.p_memsz);
            if total > MOST_MEMORY {
                return false;
            }
        }
    }
    true
}

/// The segments of the headers of type `PT_LOAD`, in header order.
pub fn read_segments<'a>(
    alloc: Global,
    file: &'a [u8],
    programs: &[ProgramHeader],
) -> Result<Items<Segment<'a>>, NoMemory>
    requires { All (λ program. is_misplaced file.now program ≡ false) programs.now }
    ensures segments { IfOk result (λ segments. segments ≡ images_of file.now programs.now) }
{
    let mut segments = Vec::new(alloc);
    for program in programs {
        if program.is_load() {
            segments.push(Segment::of(file, program))?;
        }
    }
    Ok(Items::from_vec(segments))
}
