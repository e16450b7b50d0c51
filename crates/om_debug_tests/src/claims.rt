//! Which claim is meant by an address: the first, or the deepest.

use om_base::{NoMemory, Span};
use om_claims::{Claim, ClaimIndex, index_of};
use std::alloc::{AllocError, Global};
use std::test::Fail;

/// Claims, each by its first address, the address behind its last and its depth.
fn claims_of(alloc: Global, told: &[u8]) -> Result<Vec<Claim>, NoMemory> {
    let mut claims = Vec::new(alloc);
    for claim in told.chunks_exact(3) {
        let span = Span {
            lo: u64::from(claim[0]),
            hi: u64::from(claim[1]),
        };
        let depth = u32::from(claim[2]);
        claims.push(Claim { span, depth })?;
    }
    Ok(claims)
}

/// Of the addresses below 10, the place of the claim that is meant, as a digit, or a dot.
fn owners(alloc: Global, index: &ClaimIndex) -> Result<Vec<u8>, AllocError> {
    let mut text = Vec::new(alloc);
    for address in 0..10 {
        let owner = match index.owner_at(address) {
            Some(place) => b'0' + (place % 10) as u8,
            None => b'.',
        };
        text.push(owner)?;
    }
    Ok(text)
}

#[test]
fn the_first_of_the_deepest_claims_is_meant(rt: HostRuntime) -> Result<(), Fail> {
    let rows = [
        (b"".as_slice(), b".........."),
        (b"\x02\x06\0\x04\x08\0", b"..000011.."), // the first
        (b"\x04\x08\0\x02\x06\0", b"..110000.."), // ... of others
        (
            b"\0\x09\0\x02\x07\x01\x03\x05\x02\x04\x06\x02",
            b"001223100.",
        ), // the deepest
        (b"\x03\x03\0\x05\x02\0\x01\x02\0\x01\x02\0", b".2........"), // empty and equal ones
        (b"\x01\x03\0\x05\x07\0\x03\x05\0", b".002211..."),
    ];
    for (told, want) in rows {
        let claims = claims_of(rt.alloc(), told)?;
        let index = index_of(rt.alloc(), &claims)?;
        let text = owners(rt.alloc(), &index)?;
        assert_eq!(rt; text.as_slice(), want.as_slice(), "{told:?}");
    }
    Ok(())
}

#[test]
fn the_highest_addresses_have_owners(rt: HostRuntime) -> Result<(), Fail> {
    let span = Span {
        lo: 1 << 63,
        hi: u64::MAX,
    };
    let index = index_of(rt.alloc(), &[Claim { span, depth: 7 }])?;
    let owners = [
        index.owner_at((1 << 63) - 1),
        index.owner_at(1 << 63),
        index.owner_at(u64::MAX - 1),
        index.owner_at(u64::MAX),
    ];
    assert_eq!(rt; owners, [None, Some(0), Some(0), None]);
    Ok(())
}
