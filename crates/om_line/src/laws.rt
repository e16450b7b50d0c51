//! Laws of line programs. They have no code of their own.

ghost use Rattle.std.specs.Prelude.{◌≡◌, ◌<◌, ◌+◌, ◌*◌, ◌+ℤ◌, ◌++◌, ℕ, List, map, pos, true};
ghost use Rattle.om_line.specs.Head.{Head};
ghost use Rattle.om_line.specs.Instructions.{broken_in, instructions_in};
ghost use Rattle.om_line.specs.Laws.{Fill, StandBefore};
ghost use Rattle.om_line.specs.Running.{advanced, after_special, grown, rows_from};
ghost use Rattle.om_line.specs.Sharing.{are_relative, lower};
ghost use Rattle.om_line.specs.declared.instruction.Instruction.{Instruction};
ghost use Rattle.om_line.specs.declared.registers.Registers.{Registers};

/// The instructions of a program stand one after another and fill it; or else they stand before an
/// opcode whose operands break off, and that one is told.
pub fn instructions_in_turn()
    ensures { (head : Head) (program : List ℕ) → Fill head program (instructions_in head program) (broken_in head program) }
{}

/// A program that goes on, behind some instructions, as another program has the instructions of that one
/// there, and what breaks off in one breaks off in the other.
pub fn common_end()
    ensures instructions { (head : Head) (program end : List ℕ) (front : List Instruction) → StandBefore head program front end
        → instructions_in head program ≡ front ++ instructions_in head end }
    ensures broken { (head : Head) (program end : List ℕ) (front : List Instruction) → StandBefore head program front end
        → broken_in head program ≡ broken_in head end }
{}

/// A special opcode is above the base by the growth of the line less its least one, and by the line
/// range for each growth of the address: DWARF 4, section 6.2.5.1.
pub fn special_opcodes()
    ensures { (head : Head) (registers : Registers) (growth advance : ℕ) → growth < head.line_range
        → after_special head (growth + head.line_range * advance) registers ≡ grown (head.line_base +ℤ pos growth) (advanced head advance registers) }
{}

/// The same instructions from another address make the same rows, but as much lower, modulo 2^32, as they
/// begin, where none of them sets the address or ends a sequence.
pub fn lower_rows()
    ensures { (head : Head) (by : ℕ) (a b : Registers) (instructions : List Instruction) → are_relative instructions ≡ true
        → b.address ≡ lower by a.address
        → map (λ row. row.addr) (rows_from head b instructions) ≡ map (λ row. lower by row.addr) (rows_from head a instructions) }
{}
