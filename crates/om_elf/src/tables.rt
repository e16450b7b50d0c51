//! The tables that an ELF header leads to.

ghost use Rattle.std.specs.Prelude.{◌≡◌, ◌<◌, true, length, IfOk};
ghost use Rattle.om_base.specs.Firsts.{first_of};
ghost use Rattle.om_elf.specs.Executable.{table_faults, tables_of};
ghost use Rattle.om_elf.specs.Sections.{has_names};

use crate::fault::ElfFault;
use crate::file_header::FileHeader;
use crate::overlap::first_overlap;
use crate::program_header::ProgramHeader;
use crate::programs::{first_misplaced, fit_memory, read_programs, read_spans};
use crate::section_header::SectionHeader;
use crate::sections::{first_compressed, first_unreadable, read_headers, read_names};
use crate::string_table::StringTable;
use om_base::{Items, NoMemory};
use std::alloc::Global;

/// The headers of an executable's segments and sections.
#[derive(Debug, Drop)]
pub struct Tables<'a> {
    /// The program headers, in their order in the file.
    pub programs: Items<ProgramHeader>,
    /// The section headers, in their order in the file.
    pub sections: Items<SectionHeader>,
    /// The names of sections, if the file has any.
    pub names: Option<StringTable<'a>>,
}

impl<'a> Tables<'a> {
    /// The tables that `header` leads to.
    pub fn read(alloc: Global, file: &'a [u8], header: &FileHeader) -> Result<Tables<'a>, NoMemory>
        requires { has_names file.now header.now ≡ true }
        ensures tables { IfOk result (λ tables. tables ≡ tables_of file.now header.now) }
        ensures few_programs { IfOk result (λ tables. length tables.programs < 65536) }
        ensures few_sections { IfOk result (λ tables. length tables.sections < 65536) }
    {
        Ok(Tables {
            programs: read_programs(alloc, file, header)?,
            sections: read_headers(alloc, file, header)?,
            names: read_names(alloc, file, header)?,
        })
    }

    /// The first fault that their headers show.
    pub fn fault(&self, alloc: Global, file: &[u8]) -> Result<Option<ElfFault>, NoMemory>
        requires programs { length self.now.programs < 65536 }
        requires sections { length self.now.sections < 65536 }
        ensures { IfOk result (λ fault. fault ≡ first_of (table_faults file.now self.now)) }
    {
        let programs = self.programs.as_slice();
        let sections = self.sections.as_slice();
        if let Some(place) = first_misplaced(file, programs) {
            let index = 100 + place as u32;
            return Ok(Some(ElfFault::Table { index }));
        }
        if let Some(place) = first_unreadable(file, &self.names, sections) {
            let index = 100_000 + place as u32;
            return Ok(Some(ElfFault::Table { index }));
        }
        let spans = read_spans(alloc, programs)?;
        if let Some((a, b)) = first_overlap(alloc, spans.as_slice())? {
            return Ok(Some(ElfFault::Overlap { a, b }));
        }
        if !fit_memory(programs) {
            return Ok(Some(ElfFault::TooBig));
        }
        if let Some(place) = first_compressed(&self.names, sections) {
            let section = place as u32;
            return Ok(Some(ElfFault::Compressed { section }));
        }
        Ok(None)
    }
}
