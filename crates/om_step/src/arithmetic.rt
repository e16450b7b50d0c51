//! Arithmetic of words: the unprivileged ISA, sections "Integer Computational Instructions",
//! "Multiplication Operations" and "Division Operations".

ghost use Rattle.std.specs.Prelude.{◌≡◌, ◌*◌, ◌/◌, ◌^◌, ◌<◌, ◌*ℤ◌, pos, int_lt};
ghost use Rattle.om_step.specs.Actions.{bit, high, quotient, quotient_unsigned, remainder, remainder_unsigned, shifted, signed};

/// 1 where `condition` holds, else 0.
pub fn bit_of(condition: bool) -> u32
    ensures { result ≡ bit condition }
{
    if condition { 1 } else { 0 }
}

/// Whether `a` is less than `b`, both read as signed.
pub fn is_less(a: u32, b: u32) -> bool
    ensures { result ≡ int_lt (signed a) (signed b) }
{
    a.cast_signed() < b.cast_signed()
}

/// `a` shifted right by `count` bits, its sign bit shifted in.
pub fn shift_right(a: u32, count: u32) -> u32
    requires { count < 32 }
    ensures { result ≡ shifted a count }
{
    if a < 1 << 31 {
        a >> count
    } else {
        !(!a >> count)
    }
}

/// The product of two words read as signed.
fn signed_product(a: i32, b: i32) -> i64
    ensures { result ≡ a *ℤ b }
{
    i64::from(a) * i64::from(b)
}

/// The high word of the signed product.
pub fn multiply_high(a: u32, b: u32) -> u32
    ensures { result ≡ high (signed a *ℤ signed b) }
{
    let product = signed_product(a.cast_signed(), b.cast_signed());
    (product.cast_unsigned() >> 32) as u32
}

/// The high word of the product of `a`, read as signed, and `b`.
pub fn multiply_high_mixed(a: u32, b: u32) -> u32
    ensures { result ≡ high (signed a *ℤ pos b) }
{
    let product = i64::from(a.cast_signed()) * i64::from(b);
    (product.cast_unsigned() >> 32) as u32
}

/// The high word of the product.
pub fn multiply_high_unsigned(a: u32, b: u32) -> u32
    ensures { result ≡ a * b / 2 ^ 32 }
{
    (u64::from(a) * u64::from(b) >> 32) as u32
}

/// The signed quotient, rounded to zero; all bits are set where `b` is 0.
pub fn divide(a: u32, b: u32) -> u32
    ensures { result ≡ quotient a b }
{
    if b == 0 {
        return u32::MAX;
    }
    a.cast_signed()
        .wrapping_div(b.cast_signed())
        .cast_unsigned()
}

/// The quotient; all bits are set where `b` is 0.
pub fn divide_unsigned(a: u32, b: u32) -> u32
    ensures { result ≡ quotient_unsigned a b }
{
    if b == 0 {
        return u32::MAX;
    }
    a / b
}

/// What the signed quotient leaves, with the sign of `a`; `a` where `b` is 0.
pub fn remain(a: u32, b: u32) -> u32
    ensures { result ≡ remainder a b }
{
    if b == 0 {
        return a;
    }
    a.cast_signed()
        .wrapping_rem(b.cast_signed())
        .cast_unsigned()
}

/// What the quotient leaves; `a` where `b` is 0.
pub fn remain_unsigned(a: u32, b: u32) -> u32
    ensures { result ≡ remainder_unsigned a b }
{
    if b == 0 {
        return a;
    }
    a % b
}
