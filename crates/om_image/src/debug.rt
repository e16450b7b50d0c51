//! The debugging information of the worked programs, as bytes: DWARF 4, sections 7.5, 6.2 and 6.4.

ghost use Rattle.std.specs.Prelude.{◌≡◌, ◌+◌, ◌<◌, codes, length};
ghost use Rattle.om_image.specs.Dwarf as dwarf;
ghost use Rattle.om_image.specs.ElfFile.{program_bits};
ghost use Rattle.om_image.specs.Programs as spec;

use crate::section::Section;

/// How long the declaration is of a unit that has lines.
const LINED_UNIT: usize = 7;

/// `.debug_abbrev`, for all of them: section 7.5.3. The unit with lines, in front, is that of S alone.
const ABBREVIATIONS: [u8; 88] = [
    9, 0x11, 1, 0x10, 0x17, 0, 0, // a unit, with children: stmt_list
    1, 0x11, 1, 0, 0, // a unit, with children
    2, 0x2e, 0, 0x03, 0x08, 0x11, 0x01, 0x12, 0x06, 0, 0, // a function: name, low_pc, high_pc
    3, 0x2e, 1, 0x03, 0x08, 0x11, 0x01, 0x12, 0x06, // a function with children: those
    0x40, 0x18, 0, 0, // and frame_base
    4, 0x05, 0, 0x03, 0x08, 0x49, 0x13, 0x02, 0x18, 0, 0, // a parameter: name, type, location
    5, 0x24, 0, 0x0b, 0x0b, 0x3e, 0x0b, 0x03, 0x08, 0, 0, // a type: byte_size, encoding, name
    6, 0x34, 0, 0x03, 0x08, 0x49, 0x13, 0x02, 0x18, 0, 0, // a variable: name, type, location
    7, 0x0b, 1, 0x55, 0x17, 0, 0, // a block with children: ranges
    8, 0x2e, 1, 0x03, 0x08, 0x11, 0x01, 0x12, 0x06, 0, 0, // a function with children
    0,
];

/// `.debug_info` of G.
const READ_INFO: [u8; 39] = [
    35, 0, 0, 0, 4, 0, 0, 0, 0, 0, 4, // 35 bytes follow the length, of version 4
    1, // at 11: the unit
    5, 4, 5, b'i', b'n', b't', 0, // at 12: the type
    6, b'c', b'o', b'u', b'n', b't', b'e', b'r', 0, 12, 0, 0, 0, // `counter`, of the type at 12
    5, 0x03, 0, 0, 2, 0, // DW_OP_addr 0x20000
    0,
];

/// `.debug_info` of B.
const BLOCKS_INFO: [u8; 56] = [
    52, 0, 0, 0, 4, 0, 0, 0, 0, 0, 4, // 52 bytes follow the length, of version 4
    1, // at 11: the unit
    5, 4, 5, b'i', b'n', b't', 0, // at 12: the type
    8, b'f', 0, 0, 0, 1, 0, 20, 0, 0, 0, // `f`, from 65536 on, 20 bytes long
    6, b'i', 0, 12, 0, 0, 0, 1, 0x5a, // `i`, of the type at 12: DW_OP_reg10
    7, 0, 0, 0, 0, // a block, with the ranges at 0
    6, b'i', 0, 12, 0, 0, 0, 1, 0x61, // `i`, of the type at 12: DW_OP_reg17
    0, 0, 0, // the ends of the block, of `f` and of the unit
];

/// `.debug_ranges` of B: from 65544 up to 65548, and the end of the list.
const BLOCKS_RANGES: [u8; 16] = [8, 0, 1, 0, 12, 0, 1, 0, 0, 0, 0, 0, 0, 0, 0, 0];

/// `.debug_info` of S.
const SMALL_INFO: [u8; 65] = [
    61, 0, 0, 0, 4, 0, 0, 0, 0, 0, 4, // 61 bytes follow the length, of version 4
    9, 0, 0, 0, 0, // at 11: the unit, with the lines at 0
    2, b'm', b'a', b'i', b'n', 0, 0, 0, 1, 0, 20, 0, 0, 0, // `main`, from 65536 on, 20 bytes long
    3, b'd', b'o', b'w', b'n', 0, 20, 0, 1, 0, 60, 0, 0, 0, // `down`, from 65556 on, 60 bytes long
    1, 0x9c, // its frame base: DW_OP_call_frame_cfa
    4, b'n', 0, 57, 0, 0, 0, // `n`, of the type at 57
    2, 0x91, 0x6c, // DW_OP_fbreg -20
    0, // the end of `down`
    5, 4, 5, b'i', b'n', b't', 0, // at 57: the type
    0,
];

/// `.debug_line` of S: line 1 at 65536, and a line more at each word up to 65616.
const SMALL_LINES: [u8; 76] = [
    72, 0, 0, 0, 4, 0, // 72 bytes follow the length, of version 4
    34, 0, 0, 0, // 34 bytes up to the program
    4, 1, 1, // instructions of 4 bytes, of one operation each; default_is_stmt
    0, 14, 13, // line_base, line_range, opcode_base
    0, 1, 1, 1, 1, 0, 0, 0, 1, 0, 0, 1, // standard_opcode_lengths
    0, // no directories
    b's', b'p', b'e', b'c', b'i', b'm', b'e', b'n', b'.', b'c', 0, 0, 0, 0, // the file
    0, // no more files
    0, 5, 2, 0, 0, 1, 0, // DW_LNE_set_address 65536
    1, // DW_LNS_copy: line 1
    28, 28, 28, 28, 28, 28, 28, 28, 28, 28, // 10 special opcodes: a line and an instruction further
    28, 28, 28, 28, 28, 28, 28, 28, 28, // and 9 more
    2, 1, // DW_LNS_advance_pc 1
    0, 1, 1, // DW_LNE_end_sequence
];

/// `.debug_frame` of S: where the canonical frame address of `down` is. Register 2 is sp, and 8 is s0.
const SMALL_FRAMES: [u8; 46] = [
    12, 0, 0, 0, 255, 255, 255, 255, // 12 bytes follow the length: a common information entry
    1, 0, 1, 0x7c, 1, // of version 1; code_alignment_factor 1, data_alignment_factor -4; register 1
    0x0c, 2, 0, // DW_CFA_def_cfa sp 0
    26, 0, 0, 0, 0, 0, 0, 0, // 26 bytes follow the length: a description, of the entry at 0
    20, 0, 1, 0, 60, 0, 0, 0, // `down`, from 65556 on, 60 bytes long
    0x44, 0x0e, 32, // 4 bytes further DW_CFA_def_cfa_offset 32
    0x4c, 0x0c, 8, 0, // 12 bytes further DW_CFA_def_cfa s0 0
    0x64, 0x0c, 2, 32, // 36 bytes further DW_CFA_def_cfa sp 32
    0x44, 0x0e, 0, // 4 bytes further DW_CFA_def_cfa_offset 0
];

/// The abbreviations of the programs without lines.
#[tactic(auto, unfolding(crate::specs::Dwarf::abbreviations))]
pub(crate) fn abbreviations() -> Section<'static>
    ensures bytes { result ≡ program_bits (codes ".debug_abbrev") dwarf.abbreviations }
    ensures small { length result.name + length result.bytes < 100 }
{
    Section::program_bits(b".debug_abbrev", &ABBREVIATIONS[LINED_UNIT..])
}

/// The abbreviations of the program with lines.
#[tactic(auto, unfolding(crate::specs::Dwarf::abbreviations, crate::specs::Dwarf::lined_abbreviations))]
pub(crate) fn lined_abbreviations() -> Section<'static>
    ensures bytes { result ≡ program_bits (codes ".debug_abbrev") dwarf.lined_abbreviations }
    ensures small { length result.name + length result.bytes < 110 }
{
    Section::program_bits(b".debug_abbrev", &ABBREVIATIONS)
}

/// The entries of G.
#[tactic(auto, unfolding(crate::specs::Programs::read_info, crate::specs::ElfFile::half, crate::specs::ElfFile::word))]
pub(crate) fn read_info() -> Section<'static>
    ensures bytes { result ≡ program_bits (codes ".debug_info") spec.read_info }
    ensures small { length result.name + length result.bytes < 100 }
{
    Section::program_bits(b".debug_info", &READ_INFO)
}

/// The entries of B.
#[tactic(auto, unfolding(crate::specs::Programs::blocks_info, crate::specs::ElfFile::half, crate::specs::ElfFile::word))]
pub(crate) fn blocks_info() -> Section<'static>
    ensures bytes { result ≡ program_bits (codes ".debug_info") spec.blocks_info }
    ensures small { length result.name + length result.bytes < 100 }
{
    Section::program_bits(b".debug_info", &BLOCKS_INFO)
}

/// The ranges of B.
#[tactic(auto, unfolding(crate::specs::Programs::blocks_ranges, crate::specs::ElfFile::half, crate::specs::ElfFile::word))]
pub(crate) fn blocks_ranges() -> Section<'static>
    ensures bytes { result ≡ program_bits (codes ".debug_ranges") spec.blocks_ranges }
    ensures small { length result.name + length result.bytes < 100 }
{
    Section::program_bits(b".debug_ranges", &BLOCKS_RANGES)
}

/// The entries of S.
#[tactic(auto, unfolding(crate::specs::Programs::small_info, crate::specs::ElfFile::half, crate::specs::ElfFile::word))]
pub(crate) fn small_info() -> Section<'static>
    ensures bytes { result ≡ program_bits (codes ".debug_info") spec.small_info }
    ensures small { length result.name + length result.bytes < 100 }
{
    Section::program_bits(b".debug_info", &SMALL_INFO)
}

/// The lines of S.
#[tactic(auto, unfolding(crate::specs::Programs::small_lines, crate::specs::ElfFile::half, crate::specs::ElfFile::word))]
pub(crate) fn small_lines() -> Section<'static>
    ensures bytes { result ≡ program_bits (codes ".debug_line") spec.small_lines }
    ensures small { length result.name + length result.bytes < 100 }
{
    Section::program_bits(b".debug_line", &SMALL_LINES)
}

/// The frames of S.
#[tactic(auto, unfolding(crate::specs::Programs::small_frames, crate::specs::ElfFile::half, crate::specs::ElfFile::word))]
pub(crate) fn small_frames() -> Section<'static>
    ensures bytes { result ≡ program_bits (codes ".debug_frame") spec.small_frames }
    ensures small { length result.name + length result.bytes < 100 }
{
    Section::program_bits(b".debug_frame", &SMALL_FRAMES)
}
