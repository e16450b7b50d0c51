//! Places of variables, by location expressions of one operation, against what `readelf
//! --debug-dump=info` and `llvm-dwarfdump` print of the same bytes in a `DW_AT_location`.

use om_loc::{Place, read_place};
use std::test::Fail;

#[test]
fn an_expression_of_one_operation_says_a_place(rt: HostRuntime) -> Result<(), Fail> {
    let rows = [
        (b"\x03\0\0\0\0".as_slice(), Place::Fixed(0)), // DW_OP_addr
        (b"\x03\x78\x56\x34\x12", Place::Fixed(0x12345678)),
        (b"\x03\xff\xff\xff\xff", Place::Fixed(0xffffffff)),
        (b"\x50", Place::Reg(0)), // DW_OP_reg0
        (b"\x5a", Place::Reg(10)),
        (b"\x6f", Place::Reg(31)),
        (b"\x70\0", Place::RegPlus(0, 0)), // DW_OP_breg0
        (b"\x7f\x7f", Place::RegPlus(15, -1)),
        (b"\x82\x10", Place::RegPlus(18, 16)),
        (b"\x8f\x7f", Place::RegPlus(31, -1)),
        (
            b"\x70\x80\x80\x80\x80\x80\x80\x80\x80\x80\x7f",
            Place::RegPlus(0, i64::MIN),
        ),
        (
            b"\x8f\xff\xff\xff\xff\xff\xff\xff\xff\xff\0",
            Place::RegPlus(31, i64::MAX),
        ),
        (b"\x91\0", Place::Frame(0)), // DW_OP_fbreg
        (b"\x91\x6c", Place::Frame(-20)),
        (b"\x91\x3f", Place::Frame(63)),
        (b"\x91\x40", Place::Frame(-64)),
        (b"\x91\xff\0", Place::Frame(127)),
        (b"\x91\x80\x7f", Place::Frame(-128)),
        (
            b"\x91\x80\x80\x80\x80\x80\x80\x80\x80\x80\x7f",
            Place::Frame(i64::MIN),
        ),
        (
            b"\x91\xff\xff\xff\xff\xff\xff\xff\xff\xff\0",
            Place::Frame(i64::MAX),
        ),
        (
            b"\x91\xff\xff\xff\xff\xff\xff\xff\xff\xff\x7f",
            Place::Frame(-1),
        ), // padded
        (
            b"\x91\x80\x80\x80\x80\x80\x80\x80\x80\x80\0",
            Place::Frame(0),
        ),
        (b"\x9c", Place::Cfa), // DW_OP_call_frame_cfa
    ];
    for (expression, want) in rows {
        assert_eq!(rt; read_place(expression), want, "{expression:?}");
    }
    Ok(())
}

#[test]
fn another_expression_says_none(rt: HostRuntime) -> Result<(), Fail> {
    let rows = [
        b"".as_slice(),
        b"\0",
        b"\x02\0\0\0\0",
        b"\x04\0\0\0\0",
        b"\x30", // DW_OP_lit0
        b"\x30\x9f", // DW_OP_lit0, DW_OP_stack_value
        b"\x4f", // DW_OP_lit31
        b"\x90\x05", // DW_OP_regx: 5
        b"\x90",
        b"\x92\x05\0", // DW_OP_bregx: 5, 0
        b"\x92\0",
        b"\x9b\0\0\0\0\0\0\0\0", // DW_OP_form_tls_address
        b"\x9d\x08\0", // DW_OP_bit_piece: 8, 0
        b"\xff",
        b"\x50\x93\x04", // DW_OP_reg0, DW_OP_piece: 4
        b"\x03",
        b"\x03\0\0\0",
        b"\x03\0\0\0\0\0",
        b"\x03\0\0\0\0\x06", // DW_OP_addr: 0, DW_OP_deref
        b"\x6f\0",
        b"\x70",
        b"\x8f\x80",
        b"\x8f\0\0",
        b"\x91",
        b"\x91\xff\xff",
        b"\x91\x6c\x06", // DW_OP_fbreg: -20, DW_OP_deref
        b"\x91\x80\x80\x80\x80\x80\x80\x80\x80\x80\x80",
        b"\x91\x80\x80\x80\x80\x80\x80\x80\x80\x80\x80\0",
        b"\x91\x80\x80\x80\x80\x80\x80\x80\x80\x80\x01", // 2^63
        b"\x91\xff\xff\xff\xff\xff\xff\xff\xff\xff\x7e", // -2^63 - 1
        b"\x9c\0",
        b"\x9c\x9c",
    ];
    for expression in rows {
        assert_eq!(rt; read_place(expression), Place::Gone, "{expression:?}");
    }
    Ok(())
}
