//! The immediates: RISC-V unprivileged ISA, section "Immediate Encoding Variants".

ghost use Rattle.std.specs.Prelude.{◌≡◌, ◌^◌, ◌<◌};
ghost use Rattle.om_isa.specs.declared.form.Form.{Form};
ghost use Rattle.om_isa.specs.Table.{extended, immediate};

/// The I-immediate.
pub fn immediate_i(word: u32) -> u32
    ensures { result ≡ immediate Form.I word }
{
    extend(12, word >> 20)
}

/// The shift amount, where the I-immediate has its low bits.
pub fn shift_amount(word: u32) -> u32
    ensures { result ≡ immediate Form.Shift word }
{
    (word >> 20) % 32
}

/// The S-immediate.
pub fn immediate_s(word: u32) -> u32
    ensures { result ≡ immediate Form.S word }
{
    extend(12, (word >> 25) * 32 + (word >> 7) % 32)
}

/// The B-immediate.
pub fn immediate_b(word: u32) -> u32
    ensures { result ≡ immediate Form.B word }
{
    let bits = (word >> 31) * 4096
        + (word >> 7) % 2 * 2048
        + (word >> 25) % 64 * 32
        + (word >> 8) % 16 * 2;
    extend(13, bits)
}

/// The U-immediate.
pub fn immediate_u(word: u32) -> u32
    ensures { result ≡ immediate Form.U word }
{
    word / 4096 * 4096
}

/// The J-immediate.
pub fn immediate_j(word: u32) -> u32
    ensures { result ≡ immediate Form.J word }
{
    let bits = (word >> 31) * 1_048_576
        + (word >> 12) % 256 * 4096
        + (word >> 20) % 2 * 2048
        + (word >> 21) % 1024 * 2;
    extend(21, bits)
}

/// `bits` as a two's complement number of `size` bits, modulo 2^32.
fn extend(size: u32, bits: u32) -> u32
    requires size { (1 < size) × (size < 32) }
    requires bits { bits < 2 ^ size }
    ensures { result ≡ extended size bits }
{
    if bits < 1 << (size - 1) {
        bits
    } else {
        bits + (u32::MAX - (1 << size) + 1)
    }
}
