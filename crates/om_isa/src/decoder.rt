//! From a word to an instruction: RISC-V unprivileged ISA, chapter "RV32/64G Instruction Set Listings".
//!
//! A word is told apart by its opcode, then by `funct3` and `funct7`, in one small function for each opcode
//! of the manual's table "RISC-V base opcode map".

ghost use Rattle.std.specs.Prelude.{◌≡◌, ◌<◌, ◌^◌, ◌%◌, ℕ, IfSome, Some};
ghost use Rattle.std.specs.Option.{option_map};
ghost use Rattle.om_isa.specs.declared.form.Form.{Form};
ghost use Rattle.om_isa.specs.Table.{decoded, field};
ghost use Rattle.om_isa.specs.Parts.{parts_of, shape_by, with_form};

use crate::immediate::{
    immediate_b, immediate_i, immediate_j, immediate_s, immediate_u, shift_amount,
};
use crate::instr::Instr;
use crate::op::Op;

/// The instruction that `word` is; none where no row of the table has it.
#[inline(always)] // so that the instruction goes through no memory
#[tactic(auto, using(crate::proofs::PartsLemmas::decoded_is))]
pub fn decode(word: u32) -> Option<Instr>
    ensures row { result ≡ decoded word }
    ensures registers { IfSome result (λ i. (i.rd < 32) × (i.rs1 < 32) × (i.rs2 < 32)) }
{
    // The registers come first: what is chosen by the operation can then follow at once on its choice.
    let rd = register_at(word, 7);
    let rs1 = register_at(word, 15);
    let rs2 = register_at(word, 20);
    // Borrowed and not moved, here and where it is called: LLVM keeps what is moved as one number, if it has
    // 64 bits. For the same reason the immediate comes as a `u64`.
    let parts = op_and_immediate(word);
    let Some((op, imm)) = &parts else {
        return None;
    };
    Some(Instr {
        op: *op,
        rd,
        rs1,
        rs2,
        imm: *imm as u32,
    })
}

/// Five bits of a word that name a register.
#[inline(always)]
fn register_at(word: u32, low: u32) -> u8
    requires { low < 28 }
    ensures value { result ≡ field word low 5 }
    ensures below { result < 32 }
{
    ((word >> low) % 32) as u8
}

/// What instruction `word` is, and its immediate.
#[inline(always)]
fn op_and_immediate(word: u32) -> Option<(Op, u64)>
    ensures parts { result ≡ option_map (parts_of word)
        (shape_by (word % 128) (field word 12 3) (field word 25 7) word) }
    ensures small { IfSome result (λ parts. parts.1 < 2 ^ 32) }
{
    let funct3 = (word >> 12) % 8;
    let funct7 = (word >> 25) % 128;
    let (op, imm) = match word % 128 {
        0x37 => (Op::Lui, u64::from(immediate_u(word))),
        0x17 => (Op::Auipc, u64::from(immediate_u(word))),
        0x6f => (Op::Jal, u64::from(immediate_j(word))),
        0x67 => (jalr(funct3)?, u64::from(immediate_i(word))),
        0x63 => (branch(funct3)?, u64::from(immediate_b(word))),
        0x03 => (load(funct3)?, u64::from(immediate_i(word))),
        0x23 => (store(funct3)?, u64::from(immediate_s(word))),
        0x13 => return immediate_op(word, funct3, funct7),
        0x33 => (register_op(funct3, funct7)?, 0),
        0x0f => (misc_mem(funct3)?, 0),
        0x73 => (system(word)?, 0),
        _ => return None,
    };
    Some((op, imm))
}

/// JALR.
#[tactic(auto, unfolding(crate::specs::Table::table))]
fn jalr(funct3: u32) -> Option<Op>
    ensures { (funct7 word : ℕ) → shape_by 0x67 funct3 funct7 word ≡ with_form Form.I result }
{
    match funct3 {
        0 => Some(Op::Jalr),
        _ => None,
    }
}

/// BRANCH.
#[tactic(auto, unfolding(crate::specs::Table::table))]
fn branch(funct3: u32) -> Option<Op>
    ensures { (funct7 word : ℕ) → shape_by 0x63 funct3 funct7 word ≡ with_form Form.B result }
{
    match funct3 {
        0 => Some(Op::Beq),
        1 => Some(Op::Bne),
        4 => Some(Op::Blt),
        5 => Some(Op::Bge),
        6 => Some(Op::Bltu),
        7 => Some(Op::Bgeu),
        _ => None,
    }
}

/// LOAD.
#[tactic(auto, unfolding(crate::specs::Table::table))]
fn load(funct3: u32) -> Option<Op>
    ensures { (funct7 word : ℕ) → shape_by 0x03 funct3 funct7 word ≡ with_form Form.I result }
{
    match funct3 {
        0 => Some(Op::Lb),
        1 => Some(Op::Lh),
        2 => Some(Op::Lw),
        4 => Some(Op::Lbu),
        5 => Some(Op::Lhu),
        _ => None,
    }
}

/// STORE.
#[tactic(auto, unfolding(crate::specs::Table::table))]
fn store(funct3: u32) -> Option<Op>
    ensures { (funct7 word : ℕ) → shape_by 0x23 funct3 funct7 word ≡ with_form Form.S result }
{
    match funct3 {
        0 => Some(Op::Sb),
        1 => Some(Op::Sh),
        2 => Some(Op::Sw),
        _ => None,
    }
}

/// OP-IMM, with its immediate: that of a shift is its shift amount.
#[inline(always)]
#[tactic(auto, unfolding(crate::specs::Table::table))]
fn immediate_op(word: u32, funct3: u32, funct7: u32) -> Option<(Op, u64)>
    requires { funct3 < 8 }
    ensures small { IfSome result (λ parts. parts.1 < 2 ^ 32) }
    ensures parts { result ≡ option_map (parts_of word) (shape_by 0x13 funct3 funct7 word) }
{
    let op = match funct3 {
        0 => Op::Addi,
        1 => return Some((left_shift(funct7)?, u64::from(shift_amount(word)))),
        2 => Op::Slti,
        3 => Op::Sltiu,
        4 => Op::Xori,
        5 => return Some((right_shift(funct7)?, u64::from(shift_amount(word)))),
        6 => Op::Ori,
        _ => Op::Andi,
    };
    Some((op, u64::from(immediate_i(word))))
}

/// OP-IMM under the `funct3` of a left shift.
#[tactic(auto, unfolding(crate::specs::Table::table))]
fn left_shift(funct7: u32) -> Option<Op>
    ensures { (word : ℕ) → shape_by 0x13 1 funct7 word ≡ with_form Form.Shift result }
{
    match funct7 {
        0 => Some(Op::Slli),
        _ => None,
    }
}

/// OP-IMM under the `funct3` of a right shift.
#[tactic(auto, unfolding(crate::specs::Table::table))]
fn right_shift(funct7: u32) -> Option<Op>
    ensures { (word : ℕ) → shape_by 0x13 5 funct7 word ≡ with_form Form.Shift result }
{
    match funct7 {
        0 => Some(Op::Srli),
        0x20 => Some(Op::Srai),
        _ => None,
    }
}

/// OP: arithmetic on two registers.
#[inline(always)]
#[tactic(auto, unfolding(crate::specs::Table::table))]
fn register_op(funct3: u32, funct7: u32) -> Option<Op>
    requires { funct3 < 8 }
    ensures { (word : ℕ) → shape_by 0x33 funct3 funct7 word ≡ with_form Form.R result }
{
    match funct7 {
        0 => Some(integer_op(funct3)),
        1 => Some(multiply_op(funct3)),
        0x20 => alternate_op(funct3),
        _ => None,
    }
}

/// OP under `funct7` 0.
#[tactic(auto, unfolding(crate::specs::Table::table))]
fn integer_op(funct3: u32) -> Op
    requires { funct3 < 8 }
    ensures { (word : ℕ) → shape_by 0x33 funct3 0 word ≡ Some (result, Form.R) }
{
    match funct3 {
        0 => Op::Add,
        1 => Op::Sll,
        2 => Op::Slt,
        3 => Op::Sltu,
        4 => Op::Xor,
        5 => Op::Srl,
        6 => Op::Or,
        _ => Op::And,
    }
}

/// OP under `funct7` MULDIV: chapter "M".
#[tactic(auto, unfolding(crate::specs::Table::table))]
fn multiply_op(funct3: u32) -> Op
    requires { funct3 < 8 }
    ensures { (word : ℕ) → shape_by 0x33 funct3 1 word ≡ Some (result, Form.R) }
{
    match funct3 {
        0 => Op::Mul,
        1 => Op::Mulh,
        2 => Op::Mulhsu,
        3 => Op::Mulhu,
        4 => Op::Div,
        5 => Op::Divu,
        6 => Op::Rem,
        _ => Op::Remu,
    }
}

/// OP under `funct7` 0x20.
#[tactic(auto, unfolding(crate::specs::Table::table))]
fn alternate_op(funct3: u32) -> Option<Op>
    ensures { (word : ℕ) → shape_by 0x33 funct3 0x20 word ≡ with_form Form.R result }
{
    match funct3 {
        0 => Some(Op::Sub),
        5 => Some(Op::Sra),
        _ => None,
    }
}

/// MISC-MEM.
#[tactic(auto, unfolding(crate::specs::Table::table))]
fn misc_mem(funct3: u32) -> Option<Op>
    ensures { (funct7 word : ℕ) → shape_by 0x0f funct3 funct7 word ≡ with_form Form.Bare result }
{
    match funct3 {
        0 => Some(Op::Fence),
        1 => Some(Op::FenceI),
        _ => None,
    }
}

/// SYSTEM: the whole word is fixed.
#[tactic(auto, unfolding(crate::specs::Table::table))]
fn system(word: u32) -> Option<Op>
    ensures { (funct3 funct7 : ℕ) → shape_by 0x73 funct3 funct7 word ≡ with_form Form.Bare result }
{
    match word {
        0x0000_0073 => Some(Op::Ecall),
        0x0010_0073 => Some(Op::Ebreak),
        _ => None,
    }
}
