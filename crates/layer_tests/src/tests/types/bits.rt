use crate::tests::types::stays;
use crate::tests::{holds, refusal, same};
use der_bits::laws::equal_bits;
use der_bits::{AllowedLenBitString, AsBitStringRef, BitString, BitStringRef};
use der_elem::{DerOrd, Duplicate, Encode, FixedTag, FromDer, ValueOrd};
use der_opaque::AnyRef;
use der_tlv::{EncodingRules, ErrorKind, Length, Tag};
use std::cmp::Ordering;
use std::test::Fail;

/// The encoding of the bits 011011100101110111.
const EIGHTEEN_BITS: [u8; 6] = [0x03, 0x04, 0x06, 0x6e, 0x5d, 0xc0];

/// Returns the number of the error with which these octets are refused as a borrowed bit string,
/// or 0.
fn refused_as_new(unused_bits: u8, octets: &[u8]) -> u8 {
    match BitStringRef::new(unused_bits, octets) {
        Ok(_) => 0,
        Err(e) => e.kind.number(),
    }
}

#[test]
fn encodings_stay(rt: HostRuntime) {
    let alloc = rt.alloc();
    holds(&rt, stays::<BitString>(alloc, &EIGHTEEN_BITS));
    holds(&rt, stays::<BitStringRef>(alloc, &EIGHTEEN_BITS));
}

#[test]
fn unused_bits_are_zero_under_ber(rt: HostRuntime) -> Result<(), Fail> {
    let alloc = rt.alloc();
    let Ok(any) = AnyRef::new(Tag::BitString, &[0x01, 0x81]) else {
        panic!(rt; "refused")
    };
    match any.decode_as_encoding::<BitStringRef>(alloc, EncodingRules::Ber) {
        Ok(_) => panic!(rt; "taken"),
        Err(e) => same(&rt, e.kind.number(), 8),
    }
    match any.decode_as_encoding::<BitString>(alloc, EncodingRules::Ber) {
        Ok(_) => panic!(rt; "taken"),
        Err(e) => same(&rt, e.kind.number(), 8),
    }
    Ok(())
}

#[test]
fn bits_come_in_order(rt: HostRuntime) -> Result<(), Fail> {
    let alloc = rt.alloc();
    let Ok(string) = BitStringRef::from_der(alloc, &EIGHTEEN_BITS) else {
        panic!(rt; "refused")
    };
    let expected = *b"011011100101110111";
    let mut bits = string.bits();
    same(&rt, bits.len(), 18);
    for place in 0..18 {
        let wanted = expected[place] == b'1';
        same(&rt, bits.len(), 18 - place);
        holds(&rt, bits.next() == Some(wanted));
        holds(&rt, string.get(place) == Some(wanted));
    }
    holds(&rt, bits.next() == None);
    holds(&rt, bits.next() == None);
    same(&rt, bits.len(), 0);
    holds(&rt, string.get(18) == None);
    holds(&rt, string.get(usize::MAX) == None);
    let mut others = string.bits();
    for _ in 0..5 {
        let _bit = others.next();
    }
    same(&rt, others.len(), 13);
    for (bit, wanted) in string.bits().zip(expected.iter()) {
        holds(&rt, bit == (*wanted == b'1'));
    }
    Ok(())
}

#[test]
fn strings_are_made_of_octets(rt: HostRuntime) -> Result<(), Fail> {
    same(&rt, refused_as_new(3, &[]), 13);
    same(&rt, refused_as_new(8, &[0x00]), 13);
    same(&rt, refused_as_new(1, &[0x81]), 13);
    same(&rt, refused_as_new(0, &[]), 0);
    let Ok(one) = BitStringRef::new(7, &[0x80]) else {
        panic!(rt; "refused")
    };
    same(&rt, one.bit_len(), 1);
    holds(&rt, one.get(0) == Some(true));
    holds(&rt, one.get(1) == None);
    same(&rt, one.unused_bits(), 7);
    holds(&rt, one.has_unused_bits());
    holds(&rt, one.as_bytes() == None);
    same(&rt, one.raw_bytes(), [0x80].as_slice());
    same(&rt, one.byte_len(), Length::ONE);
    let Ok(none) = BitStringRef::from_bytes(&[]) else {
        panic!(rt; "refused")
    };
    holds(&rt, none.is_empty());
    same(&rt, none.bits().len(), 0);
    holds(&rt, none.as_bytes() == Some([].as_slice()));
    Ok(())
}

#[test]
fn owned_strings_answer_as_borrowed_ones(rt: HostRuntime) -> Result<(), Fail> {
    let alloc = rt.alloc();
    let octets = [0x6e, 0x5d, 0xc0].as_slice().to_vec(alloc)?;
    let string = BitString::new(6, octets)?;
    same(&rt, string.bit_len(), 18);
    same(&rt, string.unused_bits(), 6);
    holds(&rt, string.has_unused_bits());
    holds(&rt, !string.is_empty());
    holds(&rt, string.as_bytes() == None);
    same(&rt, string.raw_bytes(), [0x6e, 0x5d, 0xc0].as_slice());
    holds(&rt, string.get(1) == Some(true));
    same(&rt, string.bits().len(), 18);
    same(
        &rt,
        string.to_der(alloc)?.as_slice(),
        EIGHTEEN_BITS.as_slice(),
    );
    let copy = string.duplicate()?;
    holds(&rt, copy == string);
    let clone = string.clone()?;
    holds(&rt, clone == string);
    let again = string.owned_to_ref().ref_to_owned(alloc)?;
    holds(&rt, again == string);
    holds(
        &rt,
        string.as_bit_string_ref() == BitStringRef::from(&string),
    );
    let whole = BitString::from_bytes(alloc, &[0x01, 0x02])?;
    holds(&rt, whole.as_bytes() == Some([0x01, 0x02].as_slice()));
    let bad = [0x81].as_slice().to_vec(alloc)?;
    same(&rt, refusal(BitString::new(1, bad)), 13);
    Ok(())
}

#[test]
fn unused_bits_are_cleared(rt: HostRuntime) -> Result<(), Fail> {
    let alloc = rt.alloc();
    let one = BitString::new_cleared(1, [0x81].as_slice().to_vec(alloc)?)?;
    let wanted = [0x03, 0x02, 0x01, 0x80];
    same(&rt, one.to_der(alloc)?.as_slice(), wanted.as_slice());
    let kept = BitString::new_cleared(0, [0x81, 0x7f].as_slice().to_vec(alloc)?)?;
    same(&rt, kept.raw_bytes(), [0x81, 0x7f].as_slice());
    let last = BitString::new_cleared(7, [0xff, 0xff].as_slice().to_vec(alloc)?)?;
    same(&rt, last.raw_bytes(), [0xff, 0x80].as_slice());
    let empty = Vec::new(alloc);
    same(&rt, refusal(BitString::new_cleared(1, empty)), 13);
    let over = [0x00].as_slice().to_vec(alloc)?;
    same(&rt, refusal(BitString::new_cleared(8, over)), 13);
    Ok(())
}

#[test]
fn order_is_that_of_contents_octets(rt: HostRuntime) -> Result<(), Fail> {
    let alloc = rt.alloc();
    let one = BitString::from_bytes(alloc, &[0x01, 0x80])?;
    let other = BitString::from_bytes(alloc, &[0x02, 0x01])?;
    holds(&rt, one.value_cmp(&other)? == Ordering::Less);
    holds(&rt, one.der_cmp(&other)? == Ordering::Less);
    holds(&rt, one < other);
    let greater = BitString::from_bytes(alloc, &[0x01, 0x02, 0x04])?;
    let less = BitString::from_bytes(alloc, &[0x01, 0x02, 0x03])?;
    holds(&rt, greater.value_cmp(&less)? == Ordering::Greater);
    holds(&rt, greater.owned_to_ref() > less.owned_to_ref());
    holds(
        &rt,
        greater.owned_to_ref().der_cmp(&less.owned_to_ref())? == Ordering::Greater,
    );
    let Ok(unused) = BitStringRef::new(1, &[0x00]) else {
        panic!(rt; "refused")
    };
    holds(&rt, greater.owned_to_ref() < unused);
    holds(&rt, !equal_bits(unused, less.owned_to_ref()));
    holds(&rt, equal_bits(unused, unused));
    Ok(())
}

/// Bit strings of three or four flags.
struct Flags;

impl AllowedLenBitString for Flags {
    ghost MIN_LEN = { 3 };

    ghost MAX_LEN = { 4 };

    const MIN_LEN: u16 = 3;

    const MAX_LEN: u16 = 4;
}

#[test]
fn lengths_are_checked(rt: HostRuntime) -> Result<(), Fail> {
    same(&rt, refusal(Flags::check_bit_len(2)), 7);
    same(&rt, refusal(Flags::check_bit_len(3)), 0);
    same(&rt, refusal(Flags::check_bit_len(4)), 0);
    same(&rt, refusal(Flags::check_bit_len(5)), 7);
    Ok(())
}

#[test]
fn strings_convert(rt: HostRuntime) -> Result<(), Fail> {
    let alloc = rt.alloc();
    let array = [0x01, 0x02];
    let octets = array.as_slice().to_vec(alloc)?;
    let (Ok(one), Ok(two), Ok(three), Ok(four)) = (
        BitStringRef::try_from(&array),
        BitStringRef::try_from(array.as_slice()),
        BitStringRef::try_from(&array.as_slice()),
        BitStringRef::try_from(&octets),
    ) else {
        panic!(rt; "refused")
    };
    holds(&rt, one == two && two == three && three == four);
    holds(&rt, BitStringRef::from(&one) == one);
    same(&rt, one.to_vec(alloc)?.as_slice(), array.as_slice());
    let Ok(back) = <&[u8]>::try_from(one) else {
        panic!(rt; "refused")
    };
    same(&rt, back, array.as_slice());
    let copied = <[u8; 2]>::try_from(one)?;
    holds(&rt, copied == array);
    same(&rt, refusal(<[u8; 3]>::try_from(one)), 7);
    let Ok(unused) = BitStringRef::new(1, &[0x80]) else {
        panic!(rt; "refused")
    };
    same(&rt, refusal(<[u8; 1]>::try_from(unused)), 13);
    same(&rt, refusal(unused.to_vec(alloc)), 13);
    match <&[u8]>::try_from(unused) {
        Ok(_) => panic!(rt; "taken"),
        Err(e) => same(&rt, e.kind.number(), 13),
    }
    Ok(())
}

#[test]
fn any_values_are_read_as_strings(rt: HostRuntime) -> Result<(), Fail> {
    let alloc = rt.alloc();
    let Ok(any) = AnyRef::try_from(EIGHTEEN_BITS.as_slice()) else {
        panic!(rt; "refused")
    };
    let Ok(string) = BitStringRef::try_from(any) else {
        panic!(rt; "refused")
    };
    same(&rt, string.bit_len(), 18);
    let owned = any.ref_to_owned(alloc)?;
    let Ok(other) = BitStringRef::try_from(&owned) else {
        panic!(rt; "refused")
    };
    holds(&rt, other == string);
    let Ok(octets) = AnyRef::new(Tag::OctetString, &[0x00]) else {
        panic!(rt; "refused")
    };
    match BitStringRef::try_from(octets) {
        Ok(_) => panic!(rt; "taken"),
        Err(e) => holds(
            &rt,
            e.kind
                == ErrorKind::TagUnexpected {
                    expected: None,
                    actual: Tag::OctetString,
                },
        ),
    }
    Ok(())
}

#[test]
fn a_public_key_is_read(rt: HostRuntime) -> Result<(), Fail> {
    let alloc = rt.alloc();
    holds(&rt, BitStringRef::TAG == Tag::BitString);
    same(&rt, BitString::MAX_UNUSED_BITS, 7);
    let octets = [
        0x03, 0x21, 0x00, 0x19, 0xbf, 0x44, 0x09, 0x69, 0x84, 0xcd, 0xfe, 0x85, 0x41, 0xba, 0xc1,
        0x67, 0xdc, 0x3b, 0x96, 0xc8, 0x50, 0x86, 0xaa, 0x30, 0xb6, 0xb6, 0xcb, 0x0c, 0x5c, 0x38,
        0xad, 0x70, 0x31, 0x66, 0xe1,
    ];
    let Ok(key) = BitStringRef::from_der(alloc, &octets) else {
        panic!(rt; "refused")
    };
    holds(&rt, key.as_bytes() == Some(&octets[3..]));
    same(&rt, key.bit_len(), 256);
    Ok(())
}
