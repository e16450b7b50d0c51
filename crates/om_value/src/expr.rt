//! The expressions of a query, with each name resolved.

ghost use Rattle.std.specs.Prelude.{◌≡◌, IfOk};

use crate::Column;
use om_base::{NoMemory, Text};
use sqlite_items::{Boxed, Items};
use std::alloc::Global;

/// An expression.
#[cycle(expr)]
#[derive(Debug, Drop)]
pub enum Expr {
    /// An unsigned number.
    Numeral(u64),
    /// A text.
    Text(Text),
    /// The literal NULL.
    Null,
    /// The cell of a column.
    Column(Column),
    /// A first term, and those that are added to it or taken from it, left to right.
    Sum(Boxed<Expr>, Items<Addend>),
    /// A first factor, and those that it is multiplied or divided by, left to right.
    Product(Boxed<Expr>, Items<Factor>),
    /// A number with a sign before it.
    Sign(Sign, Boxed<Expr>),
    /// SIGNED: a word read as a signed number.
    Signed(Boxed<Expr>),
    /// BITS: the bits of a number from `high` down to `low`, where bit 0 is the lowest.
    Bits {
        expr: Boxed<Expr>,
        high: u8,
        low: u8,
    },
    /// The little-endian number in the memory of a row, from an address on.
    Memory {
        /// The place of the range variable in FROM, from 0.
        table: u32,
        width: Width,
        address: Boxed<Expr>,
    },
}

impl Expr {
    /// An equal tree.
    #[cycle(copies)]
    pub fn copy(&self, alloc: Global) -> Result<Expr, NoMemory>
        ensures { IfOk result (λ copy. copy ≡ self.now) }
    {
        match self {
            Expr::Numeral(number) => Ok(Expr::Numeral(*number)),
            Expr::Text(text) => Ok(Expr::Text(Text::copy_of(alloc, text.bytes())?)),
            Expr::Null => Ok(Expr::Null),
            Expr::Column(column) => Ok(Expr::Column(*column)),
            Expr::Sum(first, rest) => {
                let first = Boxed::new(alloc, first.get().copy(alloc)?)?;
                Ok(Expr::Sum(first, copy_addends(alloc, rest.as_slice())?))
            }
            Expr::Product(first, rest) => {
                let first = Boxed::new(alloc, first.get().copy(alloc)?)?;
                Ok(Expr::Product(first, copy_factors(alloc, rest.as_slice())?))
            }
            Expr::Sign(sign, number) => {
                let number = Boxed::new(alloc, number.get().copy(alloc)?)?;
                Ok(Expr::Sign(*sign, number))
            }
            Expr::Signed(word) => {
                let word = Boxed::new(alloc, word.get().copy(alloc)?)?;
                Ok(Expr::Signed(word))
            }
            Expr::Bits { expr, high, low } => {
                let expr = Boxed::new(alloc, expr.get().copy(alloc)?)?;
                Ok(Expr::Bits {
                    expr,
                    high: *high,
                    low: *low,
                })
            }
            Expr::Memory {
                table,
                width,
                address,
            } => {
                let address = Boxed::new(alloc, address.get().copy(alloc)?)?;
                Ok(Expr::Memory {
                    table: *table,
                    width: *width,
                    address,
                })
            }
        }
    }
}

/// Equal terms.
#[cycle(copies)]
fn copy_addends(alloc: Global, addends: &[Addend]) -> Result<Items<Addend>, NoMemory>
    ensures { IfOk result (λ copies. copies ≡ addends.now) }
{
    let mut copies = Items::new(alloc);
    for addend in addends {
        let term = addend.term.copy(alloc)?;
        copies.push(Addend {
            sign: addend.sign,
            term,
        })?;
    }
    Ok(copies)
}

/// Equal factors.
#[cycle(copies)]
fn copy_factors(alloc: Global, factors: &[Factor]) -> Result<Items<Factor>, NoMemory>
    ensures { IfOk result (λ copies. copies ≡ factors.now) }
{
    let mut copies = Items::new(alloc);
    for factor in factors {
        copies.push(match factor {
            Factor::Times(factor) => Factor::Times(factor.copy(alloc)?),
            Factor::Over(divisor) => Factor::Over(*divisor),
        })?;
    }
    Ok(copies)
}

/// A term of a sum after the first.
#[cycle(expr)]
#[derive(Debug, Drop)]
pub struct Addend {
    /// Whether it is added or taken away.
    pub sign: Sign,
    pub term: Expr,
}

/// A factor of a product after the first.
#[cycle(expr)]
#[derive(Debug, Drop)]
pub enum Factor {
    /// It is multiplied.
    Times(Expr),
    /// What stands before it is divided by it. The quotient is rounded toward zero.
    Over(u64),
}

/// `+` or `-`.
#[derive(Clone, Copy, Debug, PartialEq, Eq)]
pub enum Sign {
    Plus,
    Minus,
}

/// How many bytes of memory make a number.
#[derive(Clone, Copy, Debug, PartialEq, Eq)]
pub enum Width {
    /// One byte.
    Byte,
    /// Two bytes.
    Half,
    /// Four bytes.
    Word,
}
