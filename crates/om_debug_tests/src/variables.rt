//! Variables of executables made by hand: which of them count, what is known of each name, and types that
//! lead back to themselves.

use crate::made::{TYPES, elf_of, put_unit};
use om_eval::{VarInfo, VariableName};
use om_names::{Debug, NamesFault, read_debug};
use std::alloc::{AllocError, Global};
use std::test::Fail;

/// A unit with these entries, and one behind it.
fn units(alloc: Global, first: &[u8], second: &[u8]) -> Result<Vec<u8>, AllocError> {
    let mut info = Vec::new(alloc);
    put_unit(&mut info, TYPES, first)?;
    put_unit(&mut info, TYPES, second)?;
    Ok(info)
}

/// The debugging information of units, or why it is refused.
fn read<'a>(alloc: Global, info: &'a [u8]) -> Result<Debug<'a>, NamesFault> {
    let elf = elf_of(alloc, info)?;
    read_debug(alloc, &elf)
}

/// Adds what is known of the name at a place of the catalog, and where the variable is that it means.
fn put_known(
    text: &mut String,
    debug: &Debug<'_>,
    known: &VarInfo<'_>,
    place: u32,
) -> Result<(), AllocError> {
    match &known.scalar {
        Some(numbers) => write!(text, "{} {}", numbers.lo, numbers.hi)?,
        None => write!(text, "other")?,
    }
    if known.ambiguous {
        write!(text, " ambiguous")?;
    }
    match debug.variable(place, 0) {
        Some(held) => {
            let kind = held.kind;
            write!(
                text,
                " {:?} {:?} {} {}",
                held.place, held.base, kind.size, kind.signed
            )
        }
        None => write!(text, " -"),
    }
}

/// Adds a name and a space.
fn put_name(alloc: Global, text: &mut String, name: &VariableName<'_>) -> Result<(), AllocError> {
    let (function, point, own) = name.pieces();
    let function = String::from_utf8_lossy(alloc, function)?;
    let point = String::from_utf8_lossy(alloc, point)?;
    let own = String::from_utf8_lossy(alloc, own)?;
    write!(text, "{function}{point}{own} ")
}

/// What is told of the variables of some units, name by name.
fn told(alloc: Global, first: &[u8], second: &[u8]) -> Result<String, Fail> {
    let info = units(alloc, first, second)?;
    let debug = read(alloc, info.as_slice())?;
    let mut text = String::new(alloc);
    let mut place: u32 = 0;
    for known in debug.catalog().as_slice() {
        put_name(alloc, &mut text, &known.name)?;
        put_known(&mut text, &debug, known, place)?;
        write!(text, "; ")?;
        place = place.wrapping_add(1);
    }
    Ok(text)
}

/// A variable of each of the types at the beginning.
const NUMBERS: &[u8] = b"\
    vs1\0\x0b\x05\x03\0\0\x02\0\
    vu1\0\x0e\x05\x03\0\0\x02\0\
    vs2\0\x11\x05\x03\0\0\x02\0\
    vu2\0\x14\x05\x03\0\0\x02\0\
    vs4\0\x17\x05\x03\0\0\x02\0\
    vu4\0\x1a\x05\x03\0\0\x02\0\
    vs8\0\x1d\x05\x03\0\0\x02\0\
    vu8\0\x20\x05\x03\0\0\x02\0\
    vf4\0\x23\x05\x03\0\0\x02\0";

/// At 38 truth values; at 41 numbers of 16 bytes; at 44 a pointer type that says 8 bytes; at 46, 48 and 49
/// enumerations of 2 bytes, of no stated size and of 3 bytes; at 51 a structure; from 53 on a typedef of a
/// const, volatile, restrict pointer; at 61 a const type of no type; then a variable of each, and one of
/// no type.
const KINDS: &[u8] = b"\
    b\x01\x02\
    b\x10\x05\
    p\x08\
    e\x02\
    E\
    e\x03\
    r\x04\
    t\x37c\x39w\x3bx\x2c\
    o\
    vbool\0\x26\x05\x03\0\0\x02\0\
    vwide\0\x29\x05\x03\0\0\x02\0\
    vptr\0\x2c\x05\x03\0\0\x02\0\
    venum\0\x2e\x05\x03\0\0\x02\0\
    vany\0\x30\x05\x03\0\0\x02\0\
    vodd\0\x31\x05\x03\0\0\x02\0\
    vrec\0\x33\x05\x03\0\0\x02\0\
    vchain\0\x35\x05\x03\0\0\x02\0\
    vvoid\0\x3d\x05\x03\0\0\x02\0\
    ynone\0\x05\x03\0\0\x02\0";

#[test]
fn each_scalar_type_has_its_numbers(rt: HostRuntime) -> Result<(), Fail> {
    let rows = [
        (
            NUMBERS,
            "s1 -128 127 Fixed(131072) Gone 1 true; \
            u1 0 255 Fixed(131072) Gone 1 false; \
            s2 -32768 32767 Fixed(131072) Gone 2 true; \
            u2 0 65535 Fixed(131072) Gone 2 false; \
            s4 -2147483648 2147483647 Fixed(131072) Gone 4 true; \
            u4 0 4294967295 Fixed(131072) Gone 4 false; \
            s8 -9223372036854775808 9223372036854775807 Fixed(131072) Gone 8 true; \
            u8 0 18446744073709551615 Fixed(131072) Gone 8 false; \
            f4 other -; ",
        ),
        (
            KINDS,
            "bool 0 255 Fixed(131072) Gone 1 false; \
            wide other -; \
            ptr 0 4294967295 Fixed(131072) Gone 4 false; \
            enum 0 65535 Fixed(131072) Gone 2 false; \
            any 0 4294967295 Fixed(131072) Gone 4 false; \
            odd other -; \
            rec other -; \
            chain 0 4294967295 Fixed(131072) Gone 4 false; \
            void other -; \
            none other -; ",
        ),
    ];
    for (entries, want) in rows {
        let told = told(rt.alloc(), entries, b"")?;
        assert_eq!(rt; told.as_str(), want);
    }
    Ok(())
}

#[test]
fn variables_outside_functions_count(rt: HostRuntime) -> Result<(), Fail> {
    let rows = [
        // In the order of units and entries, each name once.
        (
            b"vn\0\x0e\x05\x03\0\0\x02\0ym\0\x05\x03\0\0\x02\0vn\0\x0e\x05\x03\0\0\x02\0".as_slice(),
            b"yl\0\x05\x03\0\0\x02\0ym\0\x05\x03\0\0\x02\0".as_slice(),
            "n 0 255 Fixed(131072) Gone 1 false; m other -; l other -; ",
        ),
        // A mere declaration, and one that says that it is none.
        (
            b"dn\0\x0e\x01\x05\x03\0\0\x02\0dm\0\x0e\0\x05\x03\0\0\x02\0",
            b"",
            "m 0 255 Fixed(131072) Gone 1 false; ",
        ),
        // In a function, in a block of it, and behind it; in a namespace, in a function there, and behind it;
        // in a block outside functions.
        (
            b"fyn\0\x05\x03\0\0\x02\0kyl\0\x05\x03\0\0\x02\0\0\0ym\0\x05\x03\0\0\x02\0",
            b"myo\0\x05\x03\0\0\x02\0fyp\0\x05\x03\0\0\x02\0\0yq\0\x05\x03\0\0\x02\0\0\
            kyr\0\x05\x03\0\0\x02\0\0",
            "m other -; o other -; q other -; r other -; ",
        ),
        // Without a name, without a location, a parameter, and a list of locations.
        (
            b"u\x0e\x05\x03\0\0\x02\0nn\0\x0e",
            b"q\x0eln\0\x0e\0\0\0\0",
            "",
        ),
        // No operation, DW_OP_reg10, DW_OP_fbreg -20, DW_OP_addr with 3 bytes, and with DW_OP_deref behind it.
        (
            b"yn\0\0yn\0\x01\x5ayn\0\x02\x91\x6c",
            b"yn\0\x04\x03\0\0\x02yn\0\x06\x03\0\0\x02\0\x06",
            "",
        ),
        // The entries at 38 and 42 are told on in another unit, by a specification and an abstract origin.
        (
            b"nn\0\x0enm\0\x17",
            b"g\x26\0\0\0\x05\x03\0\0\x02\0a\x2a\0\0\0\x05\x03\x04\0\x02\0",
            "n 0 255 Fixed(131072) Gone 1 false; m -2147483648 2147483647 Fixed(131076) Gone 4 true; ",
        ),
    ];
    for (first, second, want) in rows {
        let told = told(rt.alloc(), first, second)?;
        assert_eq!(rt; told.as_str(), want);
    }
    Ok(())
}

#[test]
fn a_name_of_variables_that_differ_is_ambiguous(rt: HostRuntime) -> Result<(), Fail> {
    let rows = [
        // Another sign, another size and another address.
        (
            b"vn\0\x17\x05\x03\0\0\x02\0vn\0\x1a\x05\x03\0\0\x02\0".as_slice(),
            b"".as_slice(),
            "n -2147483648 4294967295 ambiguous -; ",
        ),
        (
            b"vn\0\x14\x05\x03\0\0\x02\0vn\0\x0e\x05\x03\0\0\x02\0",
            b"",
            "n 0 65535 ambiguous -; ",
        ),
        (
            b"vn\0\x0e\x05\x03\0\0\x02\0",
            b"vn\0\x0e\x05\x03\x01\0\x02\0",
            "n 0 255 ambiguous -; ",
        ),
        // The same ones, though by another type and in another unit.
        (
            b"b\x01\x02vn\0\x0e\x05\x03\0\0\x02\0vn\0\x26\x05\x03\0\0\x02\0",
            b"vn\0\x0e\x05\x03\0\0\x02\0",
            "n 0 255 Fixed(131072) Gone 1 false; ",
        ),
        // Only the last one differs.
        (
            b"vn\0\x0b\x05\x03\0\0\x02\0vn\0\x0b\x05\x03\0\0\x02\0",
            b"vn\0\x0e\x05\x03\0\0\x02\0",
            "n -128 255 ambiguous -; ",
        ),
        // One has a type that isn't scalar; both have one.
        (
            b"vn\0\x23\x05\x03\0\0\x02\0vn\0\x17\x05\x03\0\0\x02\0",
            b"vm\0\x23\x05\x03\0\0\x02\0ym\0\x05\x03\0\0\x02\0",
            "n -2147483648 2147483647 ambiguous -; m other -; ",
        ),
        // Two of a name, and one of another between them.
        (
            b"vn\0\x0b\x05\x03\0\0\x02\0vm\0\x0e\x05\x03\0\0\x02\0vn\0\x20\x05\x03\0\0\x02\0",
            b"",
            "n -128 18446744073709551615 ambiguous -; m 0 255 Fixed(131072) Gone 1 false; ",
        ),
    ];
    for (first, second, want) in rows {
        let told = told(rt.alloc(), first, second)?;
        assert_eq!(rt; told.as_str(), want);
    }
    Ok(())
}

/// Why units are refused, if they are.
fn fault_of(alloc: Global, first: &[u8], second: &[u8]) -> Result<Option<NamesFault>, AllocError> {
    let info = units(alloc, first, second)?;
    Ok(read(alloc, info.as_slice()).err())
}

#[test]
fn a_type_that_leads_to_itself_is_refused(rt: HostRuntime) -> Result<(), Fail> {
    let rows = [
        // A typedef of itself, and nothing that needs it.
        (b"t\x26".as_slice(), b"".as_slice(), None),
        // A variable that needs it; a parameter that needs two types that lead to one another.
        (b"t\x26vn\0\x26\x05\x03\0\0\x02\0", b"", Some(40)),
        (b"t\x28c\x26q\x26", b"", Some(42)),
        // The first that needs one.
        (b"vn\0\x0e\0q\x2dt\x2dvn\0\x2d\0", b"", Some(43)),
        // A mere declaration in a function; no name, and no place.
        (b"t\x26fdn\0\x26\x01\0", b"", Some(41)),
        (b"t\x26u\x26\0", b"", Some(40)),
        // A type that is told by a specification; an entry of the second unit.
        (b"t\x26g\x26\0\0\0\0", b"", Some(40)),
        (b"", b"t\x26q\x26", Some(78)),
    ];
    for (first, second, want) in rows {
        let want = match want {
            Some(at) => Some(NamesFault::TypeLoop { at }),
            None => None,
        };
        let fault = fault_of(rt.alloc(), first, second)?;
        assert_eq!(rt; fault, want, "{first:?}");
    }
    Ok(())
}

/// So many typedefs, each of the one before, and the first of the type at 23; then a parameter of the last one.
fn chain(alloc: Global, typedefs: u32) -> Result<Vec<u8>, AllocError> {
    let mut entries = Vec::new(alloc);
    let mut of = 23;
    let mut next = 38;
    for _ in 0..typedefs {
        entries.extend_from_slice(&[b't', of])?;
        of = next;
        next = next.wrapping_add(2);
    }
    entries.extend_from_slice(&[b'q', of])?;
    Ok(entries)
}

#[test]
fn sixty_four_typedefs_are_followed(rt: HostRuntime) -> Result<(), Fail> {
    let rows = [(64, None), (65, Some(NamesFault::TypeLoop { at: 168 }))];
    for (typedefs, want) in rows {
        let entries = chain(rt.alloc(), typedefs)?;
        let fault = fault_of(rt.alloc(), entries.as_slice(), b"")?;
        assert_eq!(rt; fault, want);
    }
    Ok(())
}
