//! Tests of named bits: KeyUsage and ReasonFlags of RFC 5280 (4.2.1.3, 4.2.1.13).

use crate::tests::types::reads_back_in_order;
use crate::tests::{holds, numbered, same, same_in};
use der_bits::{AsBitStringRef, BitStringRef, NamedBitsRef};
use der_elem::{DerOrd, Encode, FixedTag, FromDer, ValueOrd};
use der_tlv::Tag;
use std::alloc::Global;
use std::cmp::Ordering;
use std::process::Abort;

/// Encodings: digitalSignature and keyEncipherment; keyCertSign and cRLSign; cRLSign and
/// decipherOnly; no bits.
const USAGES: [&[u8]; 4] = [
    &[0x03, 0x02, 0x05, 0xa0],
    &[0x03, 0x02, 0x01, 0x06],
    &[0x03, 0x03, 0x07, 0x02, 0x80],
    &[0x03, 0x01, 0x00],
];

/// The octets that are refused, and the number of each refusal.
const REFUSED: [(&[u8], u8); 10] = [
    // a bit 0 at the end
    (&[0x03, 0x02, 0x00, 0xa0], 8),
    (&[0x03, 0x02, 0x04, 0xa0], 8),
    (&[0x03, 0x02, 0x07, 0x00], 8),
    (&[0x03, 0x02, 0x00, 0x00], 8),
    (&[0x03, 0x03, 0x00, 0xa0, 0x00], 8),
    // what is refused of each BIT STRING
    (&[0x03, 0x02, 0x05, 0xb0], 8),
    (&[0x03, 0x00], 9),
    (&[0x03, 0x02, 0x08, 0x80], 13),
    (&[0x03, 0x01, 0x01], 13),
    (&[0x04, 0x02, 0x05, 0xa0], 4),
];

/// Asserts that the octets are read as named bits that are written as these octets, measured,
/// copied and compared, or returns the number of the refusal.
fn named_bits_read_back(rt: &impl Abort, alloc: Global, octets: &[u8]) -> Result<(), u8> {
    reads_back_in_order::<NamedBitsRef<'_>>(rt, alloc, octets)
}

#[test]
fn named_bits_are_read_and_written(rt: HostRuntime) {
    for octets in USAGES {
        let answer = named_bits_read_back(&rt, rt.alloc(), octets);
        same_in(&rt, &octets, answer, Ok(()));
    }
}

#[test]
fn other_bits_are_refused(rt: HostRuntime) {
    for (octets, number) in REFUSED {
        let answer = named_bits_read_back(&rt, rt.alloc(), octets);
        same_in(&rt, &octets, answer, Err(number));
    }
}

#[test]
fn bits_are_asked_by_name(rt: HostRuntime) {
    let Ok(usage) = NamedBitsRef::from_der(rt.alloc(), &[0x03, 0x02, 0x01, 0x06]) else {
        return same(&rt, true, false);
    };
    same(&rt, usage.has(4), false);
    same(&rt, usage.has(5), true);
    same(&rt, usage.has(6), true);
    same(&rt, usage.has(7), false);
    same(&rt, usage.has(8), false);
    same(&rt, usage.has(1_000_000), false);
    same(&rt, usage.as_bit_string().bit_len(), 7);
    same(&rt, usage.as_bit_string_ref().unused_bits(), 1);
}

/// Returns the encoding of these octets' bits without the zero bits at the end.
fn trimmed(alloc: Global, octets: &[u8]) -> Result<Vec<u8>, u8> {
    match BitStringRef::from_bytes(octets) {
        Ok(string) => numbered(NamedBitsRef::new(string).to_der(alloc)),
        Err(e) => Err(e.kind.number()),
    }
}

#[test]
fn zeros_at_the_end_are_left_away(rt: HostRuntime) -> Result<(), u8> {
    let rows: [(&[u8], &[u8]); 4] = [
        (&[0xa0, 0x00, 0x00], &[0x03, 0x02, 0x05, 0xa0]),
        (&[0x00, 0x01], &[0x03, 0x03, 0x00, 0x00, 0x01]),
        (&[0x00, 0x00], &[0x03, 0x01, 0x00]),
        (&[], &[0x03, 0x01, 0x00]),
    ];
    for (octets, encoding) in rows {
        let written = trimmed(rt.alloc(), octets)?;
        same(&rt, written.as_slice(), encoding);
    }
    Ok(())
}

#[test]
fn named_bits_are_compared(rt: HostRuntime) {
    let Ok(none) = NamedBitsRef::from_der(rt.alloc(), &[0x03, 0x01, 0x00]) else {
        return holds(&rt, false);
    };
    let Ok(signs) = NamedBitsRef::from_der(rt.alloc(), &[0x03, 0x02, 0x01, 0x06]) else {
        return holds(&rt, false);
    };
    same(&rt, none == signs, false);
    same(&rt, numbered(none.der_cmp(&signs)), Ok(Ordering::Less));
    same(&rt, numbered(signs.value_cmp(&none)), Ok(Ordering::Greater));
    same(&rt, signs.cmp(&none), Ordering::Greater);
    holds(&rt, NamedBitsRef::TAG == Tag::BitString);
}
