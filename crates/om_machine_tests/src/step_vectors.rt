//! What single words do at the edges of their operands.
//!
//! The values were worked out from the unprivileged ISA, chapters "RV32I Base Integer Instruction Set", "Zifencei"
//! and "M", and which bytes can be had from the regions. qemu-riscv32 7.2 ran the words too, some at another address,
//! and agreed on the register, the pc, the stored bytes, and at a stop the signal or the exception. It can't hold the
//! words across the end of the address space, so it didn't run the nine lines that have one.

ghost use Rattle.std.specs.Prelude.{◌<◌};

use om_elf::read_elf;
use om_step::{Machine, Outcome, Start, StepMeter, Touched};
use std::alloc::{AllocError, Global};
use std::test::Fail;

/// An executable's headers: one segment at 0x10000, of 48 bytes and with all rights.
const HEADERS: &[u8] = b"\x7fELF\x01\x01\x01\0\0\0\0\0\0\0\0\0\
\x02\0\xf3\0\x01\0\0\0\0\0\x01\0\x34\0\0\0\
\0\0\0\0\0\0\0\0\x34\0\x20\0\x01\0\0\0\
\0\0\0\0\x01\0\0\0\x54\0\0\0\0\0\x01\0\
\0\0\x01\0\x30\0\0\0\x30\0\0\0\x07\0\0\0\x04\0\0\0";

/// Where the word of a line stands.
const PLACE: u32 = 0x10010;

/// The last words of the segment, from 0x10020 on.
const DATA: [u32; 4] = [0xff7f0180, 0x7fff8000, 0x80000001, 0xfffffffe];

/// The stack ends at 2^32 and the heap begins at 0, so that a word may lie in both. Both hold zeros.
const START: Start = Start {
    stack_low: 0xffff_f000,
    stack_size: 4096,
    heap_low: 0,
    heap_size: 4096,
};

/// In each line a word, the contents of a0 and a1 when it is run, what it does, and what an assembler makes it of.
/// Numbers are hexadecimal, but for those of registers and by how much the pc is greater. Of a store the line has the
/// word that holds the first stored byte, and the next word.
const VECTORS: &str = "\
00000637 0 0 -> x12 = 0, pc +4 ; lui a2, 0x0
80000637 0 0 -> x12 = 80000000, pc +4 ; lui a2, 0x80000
ffffffb7 0 0 -> x31 = fffff000, pc +4 ; lui t6, 0xfffff
fffff037 0 0 -> pc +4 ; lui zero, 0xfffff
00000617 0 0 -> x12 = 10010, pc +4 ; auipc a2, 0x0
7ffff617 0 0 -> x12 = 8000f010, pc +4 ; auipc a2, 0x7ffff
fffff617 0 0 -> x12 = f010, pc +4 ; auipc a2, 0xfffff
00001017 0 0 -> pc +4 ; auipc zero, 0x1
004000ef 0 0 -> x1 = 10014, pc +4 ; jal ra, 4
7fdff0ef 0 0 -> x1 = 10014, pc +1048572 ; jal ra, 1048572
800000ef 0 0 -> x1 = 10014, pc -1048576 ; jal ra, -1048576
ff1ff06f 0 0 -> pc -16 ; jal zero, -16
0010066f 0 0 -> x12 = 10014, pc +2048 ; jal a2, 2048
ffd7f66f 0 0 -> x12 = 10014, pc -524292 ; jal a2, -524292
554550ef 0 0 -> x1 = 10014, pc +349524 ; jal ra, 349524
000500e7 10040 0 -> x1 = 10014, pc +48 ; jalr ra, 0(a0)
001500e7 10040 0 -> x1 = 10014, pc +48 ; jalr ra, 1(a0)
000500e7 10041 0 -> x1 = 10014, pc +48 ; jalr ra, 0(a0)
fff500e7 10042 0 -> x1 = 10014, pc +48 ; jalr ra, -1(a0)
7ff50567 10001 0 -> x10 = 10014, pc +2032 ; jalr a0, 2047(a0)
80050567 10840 0 -> x10 = 10014, pc +48 ; jalr a0, -2048(a0)
00450067 10010 0 -> pc +4 ; jalr zero, 4(a0)
80b50063 ffffffff ffffffff -> pc -4096 ; beq a0, a1, -4096
7eb50ee3 80000000 7fffffff -> pc +4 ; beq a0, a1, 4092
7e050ee3 0 0 -> pc +4092 ; beq a0, zero, 4092
54b50a63 80000000 80000000 -> pc +1364 ; beq a0, a1, 1364
00b50163 0 ffffffff -> pc +4 ; beq a0, a1, 2
80b51063 0 80000000 -> pc -4096 ; bne a0, a1, -4096
7eb51ee3 80000000 80000000 -> pc +4 ; bne a0, a1, 4092
7e051ee3 1 0 -> pc +4092 ; bne a0, zero, 4092
7eb54ee3 80000000 7fffffff -> pc +4092 ; blt a0, a1, 4092
80b54063 7fffffff 80000000 -> pc +4 ; blt a0, a1, -4096
80b54063 ffffffff 0 -> pc -4096 ; blt a0, a1, -4096
00b54463 1 1 -> pc +4 ; blt a0, a1, 8
80b55063 7fffffff 80000000 -> pc -4096 ; bge a0, a1, -4096
7eb55ee3 80000000 7fffffff -> pc +4 ; bge a0, a1, 4092
7eb55ee3 80000000 80000000 -> pc +4092 ; bge a0, a1, 4092
00b55463 ffffffff 0 -> pc +4 ; bge a0, a1, 8
7eb56ee3 7fffffff 80000000 -> pc +4092 ; bltu a0, a1, 4092
80b56063 80000000 7fffffff -> pc +4 ; bltu a0, a1, -4096
80b56063 0 ffffffff -> pc -4096 ; bltu a0, a1, -4096
00b56463 ffffffff ffffffff -> pc +4 ; bltu a0, a1, 8
80b57063 80000000 7fffffff -> pc -4096 ; bgeu a0, a1, -4096
7eb57ee3 7fffffff 80000000 -> pc +4 ; bgeu a0, a1, 4092
7eb57ee3 0 0 -> pc +4092 ; bgeu a0, a1, 4092
00b57163 0 ffffffff -> pc +4 ; bgeu a0, a1, 2
00050603 10020 0 -> x12 = ffffff80, pc +4 ; lb a2, 0(a0)
80050603 10822 0 -> x12 = 7f, pc +4 ; lb a2, -2048(a0)
7ff50603 f822 0 -> x12 = 1, pc +4 ; lb a2, 2047(a0)
00054603 10020 0 -> x12 = 80, pc +4 ; lbu a2, 0(a0)
00254603 10020 0 -> x12 = 7f, pc +4 ; lbu a2, 2(a0)
fff54603 10021 0 -> x12 = 80, pc +4 ; lbu a2, -1(a0)
00051603 10020 0 -> x12 = 180, pc +4 ; lh a2, 0(a0)
00451603 10020 0 -> x12 = ffff8000, pc +4 ; lh a2, 4(a0)
00551603 10020 0 -> x12 = ffffff80, pc +4 ; lh a2, 5(a0)
00455603 10020 0 -> x12 = 8000, pc +4 ; lhu a2, 4(a0)
00555603 10020 0 -> x12 = ff80, pc +4 ; lhu a2, 5(a0)
fff55603 10024 0 -> x12 = ff, pc +4 ; lhu a2, -1(a0)
00052603 10020 0 -> x12 = ff7f0180, pc +4 ; lw a2, 0(a0)
00152603 10020 0 -> x12 = ff7f01, pc +4 ; lw a2, 1(a0)
00252603 10020 0 -> x12 = 8000ff7f, pc +4 ; lw a2, 2(a0)
00352603 10020 0 -> x12 = ff8000ff, pc +4 ; lw a2, 3(a0)
ff052503 10030 0 -> x10 = ff7f0180, pc +4 ; lw a0, -16(a0)
00c52603 10020 0 -> x12 = fffffffe, pc +4 ; lw a2, 12(a0)
00052003 10020 0 -> pc +4 ; lw zero, 0(a0)
00b50023 10020 12345678 -> 10020 = ff7f0178 7fff8000, pc +4 ; sb a1, 0(a0)
80b50023 10823 80000000 -> 10020 = 7f0180 7fff8000, pc +4 ; sb a1, -2048(a0)
7eb50fa3 f82a 80 -> 10028 = 80008001 fffffffe, pc +4 ; sb a1, 2047(a0)
000507a3 10020 0 -> 1002c = fffffe 0, pc +4 ; sb zero, 15(a0)
54b50aa3 facb ffffffff -> 10020 = ff7f01ff 7fff8000, pc +4 ; sb a1, 1365(a0)
00b51023 10020 12345678 -> 10020 = ff7f5678 7fff8000, pc +4 ; sh a1, 0(a0)
00b510a3 10020 ffffffff -> 10020 = ffffff80 7fff8000, pc +4 ; sh a1, 1(a0)
feb51f23 10030 8000 -> 1002c = 8000fffe 0, pc +4 ; sh a1, -2(a0)
00b52023 10020 12345678 -> 10020 = 12345678 7fff8000, pc +4 ; sw a1, 0(a0)
00b520a3 10020 12345678 -> 10020 = 34567880 7fff8012, pc +4 ; sw a1, 1(a0)
00b52123 10020 12345678 -> 10020 = 56780180 7fff1234, pc +4 ; sw a1, 2(a0)
00b521a3 10020 12345678 -> 10020 = 787f0180 7f123456, pc +4 ; sw a1, 3(a0)
00a52623 10020 0 -> 1002c = 10020 0, pc +4 ; sw a0, 12(a0)
80050613 0 0 -> x12 = fffff800, pc +4 ; addi a2, a0, -2048
7ff50613 7fffffff 0 -> x12 = 800007fe, pc +4 ; addi a2, a0, 2047
00150513 ffffffff 0 -> x10 = 0, pc +4 ; addi a0, a0, 1
00150013 1 0 -> pc +4 ; addi zero, a0, 1
fff52613 80000000 0 -> x12 = 1, pc +4 ; slti a2, a0, -1
00052613 7fffffff 0 -> x12 = 0, pc +4 ; slti a2, a0, 0
80052613 fffff800 0 -> x12 = 0, pc +4 ; slti a2, a0, -2048
fff53613 7fffffff 0 -> x12 = 1, pc +4 ; sltiu a2, a0, -1
fff53613 ffffffff 0 -> x12 = 0, pc +4 ; sltiu a2, a0, -1
00153613 0 0 -> x12 = 1, pc +4 ; sltiu a2, a0, 1
80053613 7ff 0 -> x12 = 1, pc +4 ; sltiu a2, a0, -2048
fff54613 80000000 0 -> x12 = 7fffffff, pc +4 ; xori a2, a0, -1
7ff54613 ffffffff 0 -> x12 = fffff800, pc +4 ; xori a2, a0, 2047
80054613 1 0 -> x12 = fffff801, pc +4 ; xori a2, a0, -2048
80056613 1 0 -> x12 = fffff801, pc +4 ; ori a2, a0, -2048
7ff56613 80000000 0 -> x12 = 800007ff, pc +4 ; ori a2, a0, 2047
00056513 ffffffff 0 -> x10 = ffffffff, pc +4 ; ori a0, a0, 0
80057613 ffffffff 0 -> x12 = fffff800, pc +4 ; andi a2, a0, -2048
7ff57613 ffffffff 0 -> x12 = 7ff, pc +4 ; andi a2, a0, 2047
fff57b93 80000000 0 -> x23 = 80000000, pc +4 ; andi s7, a0, -1
00051613 ffffffff 0 -> x12 = ffffffff, pc +4 ; slli a2, a0, 0
00151613 80000000 0 -> x12 = 0, pc +4 ; slli a2, a0, 1
01f51613 ffffffff 0 -> x12 = 80000000, pc +4 ; slli a2, a0, 31
00055613 80000000 0 -> x12 = 80000000, pc +4 ; srli a2, a0, 0
00155613 80000000 0 -> x12 = 40000000, pc +4 ; srli a2, a0, 1
01f55613 ffffffff 0 -> x12 = 1, pc +4 ; srli a2, a0, 31
40055613 80000000 0 -> x12 = 80000000, pc +4 ; srai a2, a0, 0
40155613 80000000 0 -> x12 = c0000000, pc +4 ; srai a2, a0, 1
41f55613 80000000 0 -> x12 = ffffffff, pc +4 ; srai a2, a0, 31
41f55613 7fffffff 0 -> x12 = 0, pc +4 ; srai a2, a0, 31
00b50633 7fffffff 1 -> x12 = 80000000, pc +4 ; add a2, a0, a1
00b50533 ffffffff ffffffff -> x10 = fffffffe, pc +4 ; add a0, a0, a1
00b50033 80000000 80000000 -> pc +4 ; add zero, a0, a1
00050fb3 ffffffff 1 -> x31 = ffffffff, pc +4 ; add t6, a0, zero
40b50633 0 1 -> x12 = ffffffff, pc +4 ; sub a2, a0, a1
40b50633 80000000 1 -> x12 = 7fffffff, pc +4 ; sub a2, a0, a1
40b505b3 0 80000000 -> x11 = 80000000, pc +4 ; sub a1, a0, a1
40a50633 7fffffff 0 -> x12 = 0, pc +4 ; sub a2, a0, a0
00b51633 ffffffff 1f -> x12 = 80000000, pc +4 ; sll a2, a0, a1
00b51633 ffffffff 20 -> x12 = ffffffff, pc +4 ; sll a2, a0, a1
00b51633 1 ffffffff -> x12 = 80000000, pc +4 ; sll a2, a0, a1
00b51633 3 21 -> x12 = 6, pc +4 ; sll a2, a0, a1
00b52633 80000000 7fffffff -> x12 = 1, pc +4 ; slt a2, a0, a1
00b52633 0 ffffffff -> x12 = 0, pc +4 ; slt a2, a0, a1
00b52633 80000000 80000000 -> x12 = 0, pc +4 ; slt a2, a0, a1
00b53633 80000000 7fffffff -> x12 = 0, pc +4 ; sltu a2, a0, a1
00b53633 0 ffffffff -> x12 = 1, pc +4 ; sltu a2, a0, a1
00b53633 ffffffff ffffffff -> x12 = 0, pc +4 ; sltu a2, a0, a1
00b54633 ffffffff 80000000 -> x12 = 7fffffff, pc +4 ; xor a2, a0, a1
00b54633 0 7fffffff -> x12 = 7fffffff, pc +4 ; xor a2, a0, a1
00a54633 ffffffff 0 -> x12 = 0, pc +4 ; xor a2, a0, a0
00b55633 80000000 1f -> x12 = 1, pc +4 ; srl a2, a0, a1
00b55633 80000000 20 -> x12 = 80000000, pc +4 ; srl a2, a0, a1
00b55633 ffffffff ffffffff -> x12 = 1, pc +4 ; srl a2, a0, a1
00b55633 80000000 21 -> x12 = 40000000, pc +4 ; srl a2, a0, a1
40b55633 80000000 1f -> x12 = ffffffff, pc +4 ; sra a2, a0, a1
40b55633 80000000 20 -> x12 = 80000000, pc +4 ; sra a2, a0, a1
40b55633 7fffffff ffffffff -> x12 = 0, pc +4 ; sra a2, a0, a1
40b55633 80000000 80000001 -> x12 = c0000000, pc +4 ; sra a2, a0, a1
00b56633 80000000 7fffffff -> x12 = ffffffff, pc +4 ; or a2, a0, a1
00b56633 0 0 -> x12 = 0, pc +4 ; or a2, a0, a1
00b56633 1 80000000 -> x12 = 80000001, pc +4 ; or a2, a0, a1
00b57633 80000000 7fffffff -> x12 = 0, pc +4 ; and a2, a0, a1
00b57633 ffffffff 80000000 -> x12 = 80000000, pc +4 ; and a2, a0, a1
00b575b3 7fffffff ffffffff -> x11 = 7fffffff, pc +4 ; and a1, a0, a1
02b50633 ffffffff ffffffff -> x12 = 1, pc +4 ; mul a2, a0, a1
02b50633 80000000 ffffffff -> x12 = 80000000, pc +4 ; mul a2, a0, a1
02b50633 10001 ffff -> x12 = ffffffff, pc +4 ; mul a2, a0, a1
02b50633 7fffffff 7fffffff -> x12 = 1, pc +4 ; mul a2, a0, a1
02b51633 80000000 80000000 -> x12 = 40000000, pc +4 ; mulh a2, a0, a1
02b51633 ffffffff 1 -> x12 = ffffffff, pc +4 ; mulh a2, a0, a1
02b51633 80000000 7fffffff -> x12 = c0000000, pc +4 ; mulh a2, a0, a1
02b51633 ffffffff ffffffff -> x12 = 0, pc +4 ; mulh a2, a0, a1
02b52633 ffffffff ffffffff -> x12 = ffffffff, pc +4 ; mulhsu a2, a0, a1
02b52633 80000000 ffffffff -> x12 = 80000000, pc +4 ; mulhsu a2, a0, a1
02b52633 7fffffff ffffffff -> x12 = 7ffffffe, pc +4 ; mulhsu a2, a0, a1
02b52633 1 80000000 -> x12 = 0, pc +4 ; mulhsu a2, a0, a1
02b53633 ffffffff ffffffff -> x12 = fffffffe, pc +4 ; mulhu a2, a0, a1
02b53633 80000000 80000000 -> x12 = 40000000, pc +4 ; mulhu a2, a0, a1
02b53633 10000 ffff -> x12 = 0, pc +4 ; mulhu a2, a0, a1
02b53533 80000000 2 -> x10 = 1, pc +4 ; mulhu a0, a0, a1
02b54633 80000000 ffffffff -> x12 = 80000000, pc +4 ; div a2, a0, a1
02b54633 80000000 0 -> x12 = ffffffff, pc +4 ; div a2, a0, a1
02b54633 fffffff9 2 -> x12 = fffffffd, pc +4 ; div a2, a0, a1
02b54633 7 fffffffe -> x12 = fffffffd, pc +4 ; div a2, a0, a1
02b54633 0 0 -> x12 = ffffffff, pc +4 ; div a2, a0, a1
02b55633 80000000 ffffffff -> x12 = 0, pc +4 ; divu a2, a0, a1
02b55633 ffffffff 0 -> x12 = ffffffff, pc +4 ; divu a2, a0, a1
02b55633 fffffff9 2 -> x12 = 7ffffffc, pc +4 ; divu a2, a0, a1
02b56633 80000000 ffffffff -> x12 = 0, pc +4 ; rem a2, a0, a1
02b56633 80000000 0 -> x12 = 80000000, pc +4 ; rem a2, a0, a1
02b56633 fffffff9 2 -> x12 = ffffffff, pc +4 ; rem a2, a0, a1
02b56633 7 fffffffe -> x12 = 1, pc +4 ; rem a2, a0, a1
02b57633 80000000 ffffffff -> x12 = 80000000, pc +4 ; remu a2, a0, a1
02b57633 ffffffff 0 -> x12 = ffffffff, pc +4 ; remu a2, a0, a1
02b57633 fffffff9 2 -> x12 = 1, pc +4 ; remu a2, a0, a1
0ff0000f 0 0 -> pc +4 ; fence iorw, iorw
8330000f 0 0 -> pc +4 ; fence.tso
fff5060f 1 0 -> pc +4 ; fence, with all of fm, pred and succ, a0 and a2
0000100f 0 0 -> pc +4 ; fence.i
0010100f 0 0 -> pc +4 ; fence.i, with an immediate
fff5160f 1 0 -> pc +4 ; fence.i, with an immediate, a0 and a2
00150503 ffffffff 0 -> x10 = 0, pc +4 ; lb a0, 1(a0)
00b500a3 ffffffff 89 -> 0 = 89 0, pc +4 ; sb a1, 1(a0)
001500e7 ffffffff 0 -> x1 = 10014, pc -65552 ; jalr ra, 1(a0)
00051503 ffffffff 0 -> x10 = 0, pc +4 ; lh a0, 0(a0)
00155503 fffffffe 0 -> x10 = 0, pc +4 ; lhu a0, 1(a0)
ffe52503 ffffffff 0 -> x10 = 0, pc +4 ; lw a0, -2(a0)
80052503 7fe 0 -> x10 = 0, pc +4 ; lw a0, -2048(a0)
feb51fa3 0 6789 -> fffffffc = 89000000 67, pc +4 ; sh a1, -1(a0)
feb52ea3 0 6789abcd -> fffffffc = 89abcd00 67, pc +4 ; sw a1, -3(a0)
00b52123 fffffffd 6789abcd -> fffffffc = cd000000 6789ab, pc +4 ; sw a1, 2(a0)
feb52fa3 0 6789abcd -> fffffffc = cd000000 6789ab, pc +4 ; sw a1, -1(a0)
ffc500e7 0 0 -> x1 = 10014, pc -65556 ; jalr ra, -4(a0)
00f50603 10020 0 -> x12 = ffffffff, pc +4 ; lb a2, 15(a0)
01050003 10020 0 -> Load ; lb zero, 16(a0)
fff54603 10000 0 -> Load ; lbu a2, -1(a0)
00f51603 10020 0 -> Load ; lh a2, 15(a0)
00f55603 10020 0 -> Load ; lhu a2, 15(a0)
00d52603 10020 0 -> Load ; lw a2, 13(a0)
fff52603 10000 0 -> Load ; lw a2, -1(a0)
01052003 10020 0 -> Load ; lw zero, 16(a0)
00052603 ffe 0 -> Load ; lw a2, 0(a0)
00b50823 10020 1 -> Store ; sb a1, 16(a0)
feb50fa3 10000 1 -> Store ; sb a1, -1(a0)
00b517a3 10020 1 -> Store ; sh a1, 15(a0)
00b526a3 10020 1 -> Store ; sw a1, 13(a0)
feb52ea3 10000 1 -> Store ; sw a1, -3(a0)
00b52023 ffd 1 -> Store ; sw a1, 0(a0)
002000ef 0 0 -> Misaligned ; jal ra, 2
802000ef 0 0 -> Misaligned ; jal ra, -1048574
7ffff06f 0 0 -> Misaligned ; jal zero, 1048574
002500e7 10020 0 -> Misaligned ; jalr ra, 2(a0)
00350567 10020 0 -> Misaligned ; jalr a0, 3(a0)
fff500e7 10020 0 -> Misaligned ; jalr ra, -1(a0)
00b50163 0 0 -> Misaligned ; beq a0, a1, 2
80b51163 0 1 -> Misaligned ; bne a0, a1, -4094
7eb54fe3 ffffffff 0 -> Misaligned ; blt a0, a1, 4094
00b55363 0 ffffffff -> Misaligned ; bge a0, a1, 6
feb56fe3 0 ffffffff -> Misaligned ; bltu a0, a1, -2
00b57163 ffffffff 0 -> Misaligned ; bgeu a0, a1, 2
00000073 0 0 -> Call ; ecall
00100073 0 0 -> Break ; ebreak
00000000 10020 1 -> Illegal ; no instruction
ffffffff 10020 1 -> Illegal ; no instruction";

/// What `lui` has to load so that `addi` of the low 12 bits, which are signed, makes it `value`.
fn high(value: u32) -> u32 {
    value.wrapping_add(0x800) / 4096 * 4096
}

/// The executable of a line: it loads `a` into a0 and `b` into a1, and comes to `word`.
fn program(alloc: Global, word: u32, a: u32, b: u32) -> Result<Vec<u8>, AllocError> {
    let mut file = HEADERS.to_vec(alloc)?;
    let words = [
        high(a) | 0x537, // lui a0
        a << 20 | 0x50513, // addi a0, a0
        high(b) | 0x5b7, // lui a1
        b << 20 | 0x58593, // addi a1, a1
        word,
        0,
        0,
        0,
    ];
    for part in words {
        file.extend_from_slice(&part.to_le_bytes())?;
    }
    for part in DATA {
        file.extend_from_slice(&part.to_le_bytes())?;
    }
    Ok(file)
}

/// The byte at `address`, and 0 where no region holds it.
fn byte_at(machine: &Machine, address: u32) -> u8 {
    machine.memory().read_byte(address).unwrap_or(0)
}

/// The little-endian word at `address`.
fn word_at(machine: &Machine, address: u32) -> u32 {
    u32::from_le_bytes([
        byte_at(machine, address),
        byte_at(machine, address.wrapping_add(1)),
        byte_at(machine, address.wrapping_add(2)),
        byte_at(machine, address.wrapping_add(3)),
    ])
}

/// What a step from a line's word to `machine` did, which told `outcome`, as a line has it.
fn told(alloc: Global, machine: &Machine, outcome: &Outcome<'_>) -> Result<String, AllocError> {
    let way = machine.pc().wrapping_sub(PLACE).cast_signed();
    match outcome {
        Outcome::Next(Touched::Nothing) => format!(in alloc; "pc {way:+}"),
        Outcome::Next(Touched::Reg(number)) => {
            let value = machine.reg(*number % 32);
            format!(in alloc; "x{number} = {value:x}, pc {way:+}")
        }
        Outcome::Next(Touched::Bytes { addr, .. }) => {
            let first = addr / 4 * 4;
            let word = word_at(machine, first);
            let next = word_at(machine, first.wrapping_add(4));
            format!(in alloc; "{first:x} = {word:x} {next:x}, pc {way:+}")
        }
        Outcome::Next(Touched::Call(_)) => format!(in alloc; "an answer"),
        Outcome::Call => format!(in alloc; "Call"),
        Outcome::Stop(cause) => format!(in alloc; "{cause:?}"),
    }
}

/// Runs a line's program, and tells what its word did.
fn run_word(alloc: Global, word: u32, a: u32, b: u32) -> Result<String, Fail> {
    let file = program(alloc, word, a, b)?;
    let elf = read_elf(alloc, file.as_slice())?;
    let mut machine = Machine::load(alloc, &elf, START)?;
    for _ in 0..4 {
        machine.step(&mut StepMeter::new());
    }
    let outcome = machine.step(&mut StepMeter::new());
    Ok(told(alloc, &machine, &outcome)?)
}

/// The number that comes next among the words of a line.
fn number(text: Option<&str>) -> Result<u32, Fail> {
    Ok(u32::from_str_radix(text.ok_or("a number is wanting")?, 16)?)
}

#[test]
fn words_do_what_the_manual_says(rt: HostRuntime) -> Result<(), Fail> {
    for line in VECTORS.lines() {
        let (row, _) = line.split_once(" ; ").ok_or("a line has two parts")?;
        let (operands, wanted) = row.split_once(" -> ").ok_or("a line says what is done")?;
        let mut numbers = operands.split_whitespace();
        let word = number(numbers.next())?;
        let a = number(numbers.next())?;
        let b = number(numbers.next())?;
        let did = run_word(rt.alloc(), word, a, b)?;
        assert_eq!(rt; did.as_str(), wanted, "{line}");
    }
    Ok(())
}
