//! From an instruction to its action.

ghost use Rattle.std.specs.Prelude.{◌≡◌, ◌+◌, ◌%◌, ◌^◌, ◌<◌};
ghost use Rattle.om_step.specs.Actions.{action_of as action, branches, jumps, loads, stores, writes};
ghost use Rattle.om_step.specs.Acts.{IsSound};

use crate::action::Action;
use crate::arithmetic::{
    bit_of, divide, divide_unsigned, is_less, multiply_high, multiply_high_mixed,
    multiply_high_unsigned, remain, remain_unsigned, shift_right,
};
use crate::cause::Cause;
use om_isa::{Instr, Op};

/// The instruction writes `value` to its destination and goes on after itself.
#[inline(always)]
fn writing(rd: u8, value: u32, pc: u32) -> Action
    ensures { result ≡ writes rd value pc }
{
    Action::Go {
        rd,
        value,
        pc: pc.wrapping_add(4),
    }
}

/// The instruction goes to `target`, and writes the address after itself to its destination.
#[inline(always)]
fn jumping(rd: u8, target: u32, pc: u32) -> Action
    ensures { result ≡ jumps rd target pc }
{
    if target % 4 != 0 {
        return Action::Halt(Cause::Misaligned);
    }
    Action::Go {
        rd,
        value: pc.wrapping_add(4),
        pc: target,
    }
}

/// The instruction goes to `target` where it is `taken`, and else on after itself.
#[inline(always)]
fn branching(taken: bool, target: u32, pc: u32) -> Action
    ensures { result ≡ branches taken target pc }
{
    let goal = if taken { target } else { pc.wrapping_add(4) };
    if taken && target % 4 != 0 {
        return Action::Halt(Cause::Misaligned);
    }
    Action::Go {
        rd: 0,
        value: 0,
        pc: goal,
    }
}

/// The instruction loads so many bytes.
#[inline(always)]
fn loading(rd: u8, count: u8, extends: bool, address: u32) -> Action
    ensures { result ≡ loads rd count extends address }
{
    Action::Load {
        rd,
        address,
        count,
        extends,
    }
}

/// The instruction stores so many bytes of `value`.
#[inline(always)]
fn storing(count: u8, value: u32, address: u32) -> Action
    ensures { result ≡ stores count value address }
{
    Action::Store {
        address,
        count,
        value,
    }
}

/// What `instr` does, where `a` and `b` are the contents of its source registers and `pc` is its address.
#[inline(always)] // so that the action goes through no memory
pub fn action_of(instr: &Instr, a: u32, b: u32, pc: u32) -> Action
    requires { instr.now.rd < 32 }
    ensures action { result ≡ action instr.now.op instr.now.rd a b instr.now.imm pc }
    ensures sound { IsSound result }
{
    let rd = instr.rd;
    let imm = instr.imm;
    match instr.op {
        Op::Lui => writing(rd, imm, pc),
        Op::Auipc => writing(rd, pc.wrapping_add(imm), pc),
        Op::Jal => jumping(rd, pc.wrapping_add(imm), pc),
        Op::Jalr => jumping(rd, a.wrapping_add(imm) / 2 * 2, pc),
        Op::Beq => branching(a == b, pc.wrapping_add(imm), pc),
        Op::Bne => branching(a != b, pc.wrapping_add(imm), pc),
        Op::Blt => branching(is_less(a, b), pc.wrapping_add(imm), pc),
        Op::Bge => branching(!is_less(a, b), pc.wrapping_add(imm), pc),
        Op::Bltu => branching(a < b, pc.wrapping_add(imm), pc),
        Op::Bgeu => branching(a >= b, pc.wrapping_add(imm), pc),
        Op::Lb => loading(rd, 1, true, a.wrapping_add(imm)),
        Op::Lh => loading(rd, 2, true, a.wrapping_add(imm)),
        Op::Lw => loading(rd, 4, false, a.wrapping_add(imm)),
        Op::Lbu => loading(rd, 1, false, a.wrapping_add(imm)),
        Op::Lhu => loading(rd, 2, false, a.wrapping_add(imm)),
        Op::Sb => storing(1, b, a.wrapping_add(imm)),
        Op::Sh => storing(2, b, a.wrapping_add(imm)),
        Op::Sw => storing(4, b, a.wrapping_add(imm)),
        Op::Addi => writing(rd, a.wrapping_add(imm), pc),
        Op::Slti => writing(rd, bit_of(is_less(a, imm)), pc),
        Op::Sltiu => writing(rd, bit_of(a < imm), pc),
        Op::Xori => writing(rd, a ^ imm, pc),
        Op::Ori => writing(rd, a | imm, pc),
        Op::Andi => writing(rd, a & imm, pc),
        Op::Slli => writing(rd, a << (imm % 32), pc),
        Op::Srli => writing(rd, a >> (imm % 32), pc),
        Op::Srai => writing(rd, shift_right(a, imm % 32), pc),
        Op::Add => writing(rd, a.wrapping_add(b), pc),
        Op::Sub => writing(rd, a.wrapping_sub(b), pc),
        Op::Sll => writing(rd, a << (b % 32), pc),
        Op::Slt => writing(rd, bit_of(is_less(a, b)), pc),
        Op::Sltu => writing(rd, bit_of(a < b), pc),
        Op::Xor => writing(rd, a ^ b, pc),
        Op::Srl => writing(rd, a >> (b % 32), pc),
        Op::Sra => writing(rd, shift_right(a, b % 32), pc),
        Op::Or => writing(rd, a | b, pc),
        Op::And => writing(rd, a & b, pc),
        Op::Fence | Op::FenceI => writing(0, 0, pc),
        Op::Ecall => Action::Ask,
        Op::Ebreak => Action::Halt(Cause::Break),
        Op::Mul => writing(rd, a.wrapping_mul(b), pc),
        Op::Mulh => writing(rd, multiply_high(a, b), pc),
        Op::Mulhsu => writing(rd, multiply_high_mixed(a, b), pc),
        Op::Mulhu => writing(rd, multiply_high_unsigned(a, b), pc),
        Op::Div => writing(rd, divide(a, b), pc),
        Op::Divu => writing(rd, divide_unsigned(a, b), pc),
        Op::Rem => writing(rd, remain(a, b), pc),
        Op::Remu => writing(rd, remain_unsigned(a, b), pc),
    }
}
