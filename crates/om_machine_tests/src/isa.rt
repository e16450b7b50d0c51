//! Words as LLVM's assembler makes them of the line beside them, and words beside those of the table.

use om_isa::decode;
use std::alloc::{AllocError, Global};
use std::test::Fail;

/// In each line a word, its operation, the registers `rd`, `rs1` and `rs2`, the immediate, and what it was made of. A
/// field that the instruction doesn't have is the five bits that stand there. Words and immediates are hexadecimal.
const KNOWN: &str = "\
123450b7 Lui 1 8 3 12345000 ; lui x1,0x12345
ffffffb7 Lui 31 31 31 fffff000 ; lui x31,0xfffff
80000137 Lui 2 0 0 80000000 ; lui x2,0x80000
00001137 Lui 2 0 0 1000 ; lui x2,1
54321197 Auipc 3 4 3 54321000 ; auipc x3,0x54321
fffff217 Auipc 4 31 31 fffff000 ; auipc x4,0xfffff
002000ef Jal 1 0 2 2 ; jal x1,2
fffff06f Jal 0 31 31 fffffffe ; jal x0,-2
400002ef Jal 5 0 0 400 ; jal x5,1024
0010036f Jal 6 0 1 800 ; jal x6,2048
000013ef Jal 7 0 0 1000 ; jal x7,4096
0008046f Jal 8 16 0 80000 ; jal x8,524288
7ffff4ef Jal 9 31 31 ffffe ; jal x9,1048574
8000056f Jal 10 0 0 fff00000 ; jal x10,-1048576
800f80e7 Jalr 1 31 0 fffff800 ; jalr x1,-2048(x31)
7ff08067 Jalr 0 1 31 7ff ; jalr x0,2047(x1)
00208163 Beq 2 1 2 2 ; beq x1,x2,2
00419863 Bne 16 3 4 10 ; bne x3,x4,16
0262c063 Blt 0 5 6 20 ; blt x5,x6,32
4083d063 Bge 0 7 8 400 ; bge x7,x8,1024
00a4e0e3 Bltu 1 9 10 800 ; bltu x9,x10,2048
80c5f063 Bgeu 0 11 12 fffff000 ; bgeu x11,x12,-4096
7e0f8fe3 Beq 31 31 0 ffe ; beq x31,x0,4094
fff01fe3 Bne 31 0 31 fffffffe ; bne x0,x31,-2
80010083 Lb 1 2 0 fffff800 ; lb x1,-2048(x2)
7ff21183 Lh 3 4 31 7ff ; lh x3,2047(x4)
fff32283 Lw 5 6 31 ffffffff ; lw x5,-1(x6)
00144383 Lbu 7 8 1 1 ; lbu x7,1(x8)
40055483 Lhu 9 10 0 400 ; lhu x9,1024(x10)
80110023 Sb 0 2 1 fffff800 ; sb x1,-2048(x2)
7e321fa3 Sh 31 4 3 7ff ; sh x3,2047(x4)
fe532fa3 Sw 31 6 5 ffffffff ; sw x5,-1(x6)
01ff2fa3 Sw 31 30 31 1f ; sw x31,31(x30)
03de0023 Sb 0 28 29 20 ; sb x29,32(x28)
80010093 Addi 1 2 0 fffff800 ; addi x1,x2,-2048
7ff22193 Slti 3 4 31 7ff ; slti x3,x4,2047
fff33293 Sltiu 5 6 31 ffffffff ; sltiu x5,x6,-1
fff44393 Xori 7 8 31 ffffffff ; xori x7,x8,-1
00156493 Ori 9 10 1 1 ; ori x9,x10,1
55567593 Andi 11 12 21 555 ; andi x11,x12,1365
00071693 Slli 13 14 0 0 ; slli x13,x14,0
01f81793 Slli 15 16 31 1f ; slli x15,x16,31
00195893 Srli 17 18 1 1 ; srli x17,x18,1
01f95893 Srli 17 18 31 1f ; srli x17,x18,31
410a5993 Srai 19 20 16 10 ; srai x19,x20,16
41fa5993 Srai 19 20 31 1f ; srai x19,x20,31
010500b3 Add 1 10 16 0 ; add x1,x10,x16
41b88133 Sub 2 17 27 0 ; sub x2,x17,x27
006c11b3 Sll 3 24 6 0 ; sll x3,x24,x6
011fa233 Slt 4 31 17 0 ; slt x4,x31,x17
01c332b3 Sltu 5 6 28 0 ; sltu x5,x6,x28
0076c333 Xor 6 13 7 0 ; xor x6,x13,x7
012a53b3 Srl 7 20 18 0 ; srl x7,x20,x18
41ddd433 Sra 8 27 29 0 ; sra x8,x27,x29
008164b3 Or 9 2 8 0 ; or x9,x2,x8
0134f533 And 10 9 19 0 ; and x10,x9,x19
03e805b3 Mul 11 16 30 0 ; mul x11,x16,x30
029b9633 Mulh 12 23 9 0 ; mulh x12,x23,x9
034f26b3 Mulhsu 13 30 20 0 ; mulhsu x13,x30,x20
03f2b733 Mulhu 14 5 31 0 ; mulhu x14,x5,x31
02a647b3 Div 15 12 10 0 ; div x15,x12,x10
0359d833 Divu 16 19 21 0 ; divu x16,x19,x21
020d68b3 Rem 17 26 0 0 ; rem x17,x26,x0
02b0f933 Remu 18 1 11 0 ; remu x18,x1,x11
0ff0000f Fence 0 0 31 0 ; fence iorw,iorw
8330000f Fence 0 0 19 0 ; fence.tso
0000100f FenceI 0 0 0 0 ; fence.i
00000073 Ecall 0 0 0 0 ; ecall
00100073 Ebreak 0 0 1 0 ; ebreak";

/// Words that no row has: other opcodes, and beside each `funct3` and `funct7` of the table the ones that
/// aren't there. At those from 00b50607 on, qemu-riscv32 7.2 stops as at an illegal instruction.
const UNKNOWN: &str = "\
00000007 0000000b 0000001b 00000027 0000002b 0000002f 0000003b 00000043 00000047 0000004b 0000004f 00000053
00000057 0000005b 0000005f 0000006b 00000077 0000007b 0000007f 00000036 00000035 00000032 00000031 00001067
00002067 00003067 00004067 00005067 00006067 00007067 00002063 00003063 00003003 00006003 00007003 00003023
00004023 00005023 00006023 00007023 02001013 40001013 80001013 20001013 02005013 20005013 42005013 80005013
c0005013 60005013 04000033 04005033 08000033 08005033 10000033 10005033 20000033 20005033 80000033 80005033
42000033 42005033 fe000033 fe005033 40001033 40002033 40003033 40004033 40006033 40007033 10200073 00003073
00005073 00006073 00007073
00b50607 00b5060b 00b5061b 00b5061f 00b50627 00b5062b 00b5062f 00b5063b 00b5063f 00b50643 00b50647 00b5064b
00b5064f 00b50653 00b50657 00b5065b 00b5065f 00b5066b 00b50677 00b5067b 00b5067f 00000000 00b50630 00b50631
00b50632 ffffffff 00053603 00056603 00057603 00b53023 00b54023 00b55023 00b56023 00b57023 00b52463 00b53463
00051667 00052667 00053667 00054667 00055667 00056667 00057667 0000200f 0000300f 0000400f 0000500f 0000600f
0000700f 02151613 04151613 08151613 10151613 20151613 40151613 42151613 80151613 02155613 04155613 08155613
10155613 20155613 42155613 44155613 60155613 80155613 c0155613 40b51633 40b52633 40b53633 40b54633 40b56633
40b57633 42b50633 42b51633 42b52633 42b53633 42b54633 42b55633 42b56633 42b57633 04b50633 04b51633 04b52633
04b53633 04b54633 04b55633 04b56633 04b57633 06b50633 08b50633 10b50633 20b50633 44b50633 80b50633 82b50633
c0b50633 feb50633 06b55633 08b55633 10b55633 20b55633 44b55633 80b55633 82b55633 c0b55633 feb55633 000000f3
00000173 00000273 00000473 00000873 00001073 00002073 00004073 00008073 00010073 00020073 00040073 00080073
00200073 00400073 00800073 01000073 02000073 04000073 08000073 10000073 20000073 40000073 80000073 001000f3
00101073 00108073 00300073 01100073 02100073 80100073 30200073 10500073 c0002673";

/// What a word is read as, in the form of a line of `KNOWN`.
fn reading(alloc: Global, word: u32) -> Result<String, AllocError> {
    match decode(word) {
        Some(read) => format!(in alloc;
            "{word:08x} {:?} {} {} {} {:x}",
            read.op, read.rd, read.rs1, read.rs2, read.imm
        ),
        None => format!(in alloc; "{word:08x} none"),
    }
}

#[test]
fn words_are_read(rt: HostRuntime) -> Result<(), Fail> {
    for line in KNOWN.lines() {
        let (wanted, source) = line.split_once(" ; ").ok_or("a line has two parts")?;
        let (digits, _) = wanted.split_once(' ').ok_or("a word comes first")?;
        let word = u32::from_str_radix(digits, 16)?;
        assert_eq!(rt; reading(rt.alloc(), word)?.as_str(), wanted, "{source}");
    }
    Ok(())
}

#[test]
fn other_words_are_none(rt: HostRuntime) -> Result<(), Fail> {
    for digits in UNKNOWN.split_whitespace() {
        assert_eq!(rt; decode(u32::from_str_radix(digits, 16)?), None, "{digits}");
    }
    Ok(())
}
