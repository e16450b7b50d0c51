//! Each public call of `om_base` once, on values from outside.

use om_base::{
    Bytes, Items, Name, Num, Span, Text, cstr_at, overlap, put_decimal, sleb, u8_at, u16_at,
    u32_at, u64_at, uleb,
};
use std::test::Fail;

#[test]
fn numbers_are_little_endian(rt: HostRuntime) -> Result<(), Fail> {
    // The bytes of the e_machine, e_version and e_entry fields of a RISC-V executable.
    let bytes = b"\xf3\0\x01\0\0\0\x74\0\x01\0";
    assert_eq!(rt; u8_at(bytes, 0)?, 0xf3);
    assert_eq!(rt; u16_at(bytes, 0)?, 243);
    assert_eq!(rt; u32_at(bytes, 6)?, 0x10074);
    assert_eq!(rt; u64_at(bytes, 2)?, 0x0001_0074_0000_0001);
    Ok(())
}

#[test]
fn unsigned_lebs_are_those_of_the_standard(rt: HostRuntime) -> Result<(), Fail> {
    // DWARF 4, section 7.6, figure 22; then one that is padded, and the widest.
    let rows = [
        (b"\x02".as_slice(), 2),
        (b"\x7f", 127),
        (b"\x80\x01", 128),
        (b"\x81\x01", 129),
        (b"\x82\x01", 130),
        (b"\xb9\x64", 12857),
        (b"\xe5\x8e\x26", 624_485),
        (b"\x80\x00", 0),
        (b"\xff\xff\xff\xff\xff\xff\xff\xff\xff\x01", u64::MAX),
    ];
    for (bytes, want) in rows {
        assert_eq!(rt; uleb(bytes, 0), Ok((want, bytes.len())));
    }
    Ok(())
}

#[test]
fn signed_lebs_are_those_of_the_standard(rt: HostRuntime) -> Result<(), Fail> {
    // DWARF 4, section 7.6, figure 23; then the bounds.
    let rows = [
        (b"\x02".as_slice(), 2),
        (b"\x7e", -2),
        (b"\xff\x00", 127),
        (b"\x81\x7f", -127),
        (b"\x80\x01", 128),
        (b"\x80\x7f", -128),
        (b"\x81\x01", 129),
        (b"\xff\x7e", -129),
        (b"\x6c", -20),
        (b"\x80\x80\x80\x80\x80\x80\x80\x80\x80\x7f", i64::MIN),
        (b"\xff\xff\xff\xff\xff\xff\xff\xff\xff\x00", i64::MAX),
    ];
    for (bytes, want) in rows {
        assert_eq!(rt; sleb(bytes, 0), Ok((want, bytes.len())));
    }
    Ok(())
}

#[test]
fn numbers_past_64_bits_are_none(rt: HostRuntime) -> Result<(), Fail> {
    // One beyond the bound, ten bytes without a last one, and a number that breaks off.
    let rows = [
        (
            b"\x80\x80\x80\x80\x80\x80\x80\x80\x80\x02".as_slice(),
            Num::LebLong,
        ),
        (b"\x80\x80\x80\x80\x80\x80\x80\x80\x80\x80\0", Num::LebLong),
        (b"\x80", Num::Short),
    ];
    for (bytes, want) in rows {
        assert_eq!(rt; uleb(bytes, 0), Err(want));
    }
    Ok(())
}

#[test]
fn texts_end_at_the_first_zero(rt: HostRuntime) -> Result<(), Fail> {
    // A string table, as in the System V gABI, chapter 4, figure 4-15.
    let table = b"\0name.\0Variable\0able";
    let rows = [(0, Ok(0)), (1, Ok(6)), (11, Ok(15)), (16, Err(Num::NoNul))];
    for (at, want) in rows {
        assert_eq!(rt; cstr_at(table, at), want, "{at}");
    }
    Ok(())
}

#[test]
fn spans_that_share_a_number_are_told(rt: HostRuntime) -> Result<(), Fail> {
    let spans = [
        Span { lo: 0, hi: 4 },
        Span { lo: 4, hi: 8 },
        Span { lo: 6, hi: 9 },
    ];
    assert_eq!(rt; overlap(&spans), Some((1, 2)));
    Ok(())
}

#[test]
fn texts_hold_what_was_put_in(rt: HostRuntime) -> Result<(), Fail> {
    let mut text = Text::copy_of(rt.alloc(), b"a0")?;
    text.fill(b' ', 3)?;
    text.add(b"pc")?;
    assert_eq!(rt; Name::of(text.bytes()).bytes(), b"a0   pc".as_slice());
    Ok(())
}

#[test]
fn decimals_have_a_sign_and_no_leading_zeros(rt: HostRuntime) -> Result<(), Fail> {
    let rows = [
        (0, "0"),
        (-2147483648, "-2147483648"),
        (18446744073709551615, "18446744073709551615"),
    ];
    for (value, want) in rows {
        let mut text = Text::copy_of(rt.alloc(), b"")?;
        put_decimal(&mut text, value)?;
        assert_eq!(rt; text.bytes(), want.as_bytes());
    }
    Ok(())
}

#[test]
fn bytes_hold_what_was_put_in(rt: HostRuntime) -> Result<(), Fail> {
    let mut bytes = Bytes::copy_of(rt.alloc(), b"ab")?;
    bytes.add(b"c")?;
    assert_eq!(rt; bytes.bytes(), b"abc".as_slice());
    let bytes = Bytes::from_vec(Vec::new(rt.alloc()));
    assert!(rt; bytes.bytes().is_empty());
    Ok(())
}

#[test]
fn lists_hold_what_was_put_in(rt: HostRuntime) -> Result<(), Fail> {
    let mut items = Items::new(rt.alloc());
    items.push(7u32)?;
    items.push(8)?;
    assert_eq!(rt; items.len(), 2);
    let again = Items::from_vec(items.into_vec());
    assert_eq!(rt; again.as_slice(), [7, 8].as_slice());
    Ok(())
}
