use crate::tests::types::stays;
use crate::tests::{holds, measured, same};
use der_elem::{DerOrd, Duplicate, Encode};
use der_numbers::{AsIntRef, AsUintRef, Int, IntRef, Uint, UintRef};
use der_opaque::{Any, AnyRef};
use der_tlv::{Error, ErrorKind, Length, Tag};
use std::alloc::Global;
use std::cmp::Ordering;
use std::process::Abort;
use std::test::Fail;

/// Returns the kind of an error, if the result is one.
fn kind_of<T: Drop>(answer: Result<T, Error>) -> Option<ErrorKind> {
    match answer {
        Ok(_value) => None,
        Err(e) => Some(e.kind),
    }
}

#[test]
fn integers_are_written_back(rt: HostRuntime) {
    let alloc = rt.alloc();
    let octets = [0x02, 0x02, 0x00, 0x80];
    holds(&rt, stays::<IntRef<'_>>(alloc, &octets));
    holds(&rt, stays::<Int>(alloc, &octets));
    holds(&rt, stays::<UintRef<'_>>(alloc, &octets));
    holds(&rt, stays::<Uint>(alloc, &octets));
}

/// Returns the octets of the integer in some octets, or none if they are refused.
fn integer(octets: &[u8]) -> &[u8] {
    match IntRef::new(octets) {
        Ok(integer) => integer.as_bytes(),
        Err(_) => &[],
    }
}

/// Returns the octets of the number in some octets, or none if they are refused.
fn number(octets: &[u8]) -> &[u8] {
    match UintRef::new(octets) {
        Ok(number) => number.as_bytes(),
        Err(_) => &[],
    }
}

#[test]
fn octets_are_kept_as_the_fewest(rt: HostRuntime) -> Result<(), Fail> {
    let alloc = rt.alloc();
    let integers: [(&[u8], &[u8], &[u8]); 4] = [
        (&[0xff, 0xff, 0x80], &[0x80], &[0x02, 0x01, 0x80]),
        (&[0x00, 0x00, 0x01], &[0x01], &[0x02, 0x01, 0x01]),
        (&[0x00, 0x80], &[0x00, 0x80], &[0x02, 0x02, 0x00, 0x80]),
        (&[0xff], &[0xff], &[0x02, 0x01, 0xff]),
    ];
    for (given, kept, encoding) in integers {
        same(&rt, integer(given), kept);
        let owned = Int::new(alloc, given)?;
        same(&rt, owned.as_bytes(), kept);
        same(&rt, owned.to_der(alloc)?.as_slice(), encoding);
    }
    let numbers: [(&[u8], &[u8], &[u8]); 4] = [
        (&[0x00, 0x00, 0x00], &[0x00], &[0x02, 0x01, 0x00]),
        (&[0x00, 0x80], &[0x80], &[0x02, 0x02, 0x00, 0x80]),
        (&[0x80], &[0x80], &[0x02, 0x02, 0x00, 0x80]),
        (
            &[0x00, 0x01, 0x00],
            &[0x01, 0x00],
            &[0x02, 0x02, 0x01, 0x00],
        ),
    ];
    for (given, kept, encoding) in numbers {
        same(&rt, number(given), kept);
        let owned = Uint::new(alloc, given)?;
        same(&rt, owned.as_bytes(), kept);
        same(&rt, owned.to_der(alloc)?.as_slice(), encoding);
    }
    Ok(())
}

#[test]
fn no_octets_are_refused(rt: HostRuntime) {
    let alloc = rt.alloc();
    let expected = ErrorKind::Length { tag: Tag::Integer };
    holds(
        &rt,
        matches!(IntRef::new(&[]), Err(e) if e.kind == expected),
    );
    holds(
        &rt,
        matches!(UintRef::new(&[]), Err(e) if e.kind == expected),
    );
    same(&rt, kind_of(Int::new(alloc, &[])), Some(expected));
    same(&rt, kind_of(Uint::new(alloc, &[])), Some(expected));
}

#[test]
fn borrowed_and_owned_agree(rt: HostRuntime) -> Result<(), Fail> {
    let alloc = rt.alloc();
    let int = Int::new(alloc, &[0x00, 0x80])?;
    let int_ref = int.owned_to_ref();
    same(&rt, int.len(), Length::new(2));
    same(&rt, int_ref.len(), Length::new(2));
    holds(&rt, !int.is_empty());
    holds(&rt, !int_ref.is_empty());
    same(&rt, int.as_int_ref(), int_ref);
    same(&rt, int_ref.as_int_ref(), int_ref);
    same(&rt, IntRef::from(&int_ref), int_ref);
    holds(&rt, int_ref.ref_to_owned(alloc)? == int);
    holds(&rt, int.duplicate()? == int);
    holds(&rt, int.clone()? == int);
    let uint = Uint::new(alloc, &[0x00, 0x80])?;
    let uint_ref = uint.owned_to_ref();
    same(&rt, uint.len(), Length::ONE);
    same(&rt, uint_ref.len(), Length::ONE);
    holds(&rt, !uint.is_empty());
    holds(&rt, !uint_ref.is_empty());
    same(&rt, uint.as_uint_ref(), uint_ref);
    same(&rt, uint_ref.as_uint_ref(), uint_ref);
    same(&rt, UintRef::from(&uint_ref), uint_ref);
    holds(&rt, uint_ref.ref_to_owned(alloc)? == uint);
    holds(&rt, uint.duplicate()? == uint);
    holds(&rt, uint.clone()? == uint);
    Ok(())
}

/// Returns whether the result is an integer with these octets.
fn is_integer(made: Result<Int, Error>, octets: &[u8]) -> bool {
    match made {
        Ok(integer) => integer.as_bytes() == octets,
        Err(_) => false,
    }
}

#[test]
fn signed_machine_integers_are_taken(rt: HostRuntime) {
    let alloc = rt.alloc();
    let mut low = [0x00u8; 16];
    low[0] = 0x80;
    let mut high = [0xffu8; 16];
    high[0] = 0x7f;
    holds(&rt, is_integer(Int::try_from_i8(alloc, i8::MIN), &low[..1]));
    holds(
        &rt,
        is_integer(Int::try_from_i16(alloc, i16::MIN), &low[..2]),
    );
    holds(
        &rt,
        is_integer(Int::try_from_i32(alloc, i32::MIN), &low[..4]),
    );
    holds(
        &rt,
        is_integer(Int::try_from_i64(alloc, i64::MIN), &low[..8]),
    );
    holds(&rt, is_integer(Int::try_from_i128(alloc, i128::MIN), &low));
    holds(
        &rt,
        is_integer(Int::try_from_i8(alloc, i8::MAX), &high[..1]),
    );
    holds(
        &rt,
        is_integer(Int::try_from_i16(alloc, i16::MAX), &high[..2]),
    );
    holds(
        &rt,
        is_integer(Int::try_from_i32(alloc, i32::MAX), &high[..4]),
    );
    holds(
        &rt,
        is_integer(Int::try_from_i64(alloc, i64::MAX), &high[..8]),
    );
    holds(&rt, is_integer(Int::try_from_i128(alloc, i128::MAX), &high));
    holds(
        &rt,
        is_integer(Int::try_from_i16(alloc, -129), &[0xff, 0x7f]),
    );
}

/// Returns whether the result is a number with these octets.
fn is_number(made: Result<Uint, Error>, octets: &[u8]) -> bool {
    match made {
        Ok(number) => number.as_bytes() == octets,
        Err(_) => false,
    }
}

#[test]
fn unsigned_machine_integers_are_taken(rt: HostRuntime) {
    let alloc = rt.alloc();
    let high = [0xffu8; 16];
    holds(&rt, is_number(Uint::try_from_u8(alloc, 0), &[0x00]));
    holds(&rt, is_number(Uint::try_from_u16(alloc, 0), &[0x00]));
    holds(&rt, is_number(Uint::try_from_u32(alloc, 0), &[0x00]));
    holds(&rt, is_number(Uint::try_from_u64(alloc, 0), &[0x00]));
    holds(&rt, is_number(Uint::try_from_u128(alloc, 0), &[0x00]));
    holds(
        &rt,
        is_number(Uint::try_from_u8(alloc, u8::MAX), &high[..1]),
    );
    holds(
        &rt,
        is_number(Uint::try_from_u16(alloc, u16::MAX), &high[..2]),
    );
    holds(
        &rt,
        is_number(Uint::try_from_u32(alloc, u32::MAX), &high[..4]),
    );
    holds(
        &rt,
        is_number(Uint::try_from_u64(alloc, u64::MAX), &high[..8]),
    );
    holds(&rt, is_number(Uint::try_from_u128(alloc, u128::MAX), &high));
}

#[test]
fn numbers_are_integers(rt: HostRuntime) -> Result<(), Fail> {
    let alloc = rt.alloc();
    let high = Int::from_uint(alloc, Uint::try_from_u8(alloc, 128)?)?;
    same(&rt, high.as_bytes(), [0x00, 0x80].as_slice());
    let low = Int::from_uint(alloc, Uint::try_from_u8(alloc, 127)?)?;
    same(&rt, low.as_bytes(), [0x7f].as_slice());
    Ok(())
}

#[test]
fn any_value_is_taken_as_an_integer(rt: HostRuntime) -> Result<(), Fail> {
    let alloc = rt.alloc();
    let Ok(any) = AnyRef::new(Tag::Integer, &[0x00, 0x80]) else {
        panic!(rt; "refused")
    };
    let owned = any.ref_to_owned(alloc)?;
    holds(
        &rt,
        matches!(IntRef::try_from(any), Ok(i) if i.as_bytes() == [0x00, 0x80].as_slice()),
    );
    holds(
        &rt,
        matches!(IntRef::try_from(&owned), Ok(i) if i.as_bytes() == [0x00, 0x80].as_slice()),
    );
    holds(
        &rt,
        matches!(UintRef::try_from(any), Ok(n) if n.as_bytes() == [0x80].as_slice()),
    );
    holds(
        &rt,
        matches!(UintRef::try_from(&owned), Ok(n) if n.as_bytes() == [0x80].as_slice()),
    );
    let other = ErrorKind::TagUnexpected {
        expected: None,
        actual: Tag::Null,
    };
    holds(
        &rt,
        matches!(IntRef::try_from(AnyRef::NULL), Err(e) if e.kind == other),
    );
    holds(
        &rt,
        matches!(UintRef::try_from(AnyRef::NULL), Err(e) if e.kind == other),
    );
    let null = Any::null(alloc);
    holds(
        &rt,
        matches!(IntRef::try_from(&null), Err(e) if e.kind == other),
    );
    holds(
        &rt,
        matches!(UintRef::try_from(&null), Err(e) if e.kind == other),
    );
    let Ok(negative) = AnyRef::new(Tag::Integer, &[0x80]) else {
        panic!(rt; "refused")
    };
    holds(
        &rt,
        matches!(UintRef::try_from(negative), Err(e) if e.kind.number() == 13),
    );
    let Ok(redundant) = AnyRef::new(Tag::Integer, &[0xff, 0x80]) else {
        panic!(rt; "refused")
    };
    holds(
        &rt,
        matches!(IntRef::try_from(redundant), Err(e) if e.kind.number() == 8),
    );
    Ok(())
}

/// Asserts that the order of two numbers is the order of their encodings.
fn numbers_are_ordered(rt: &impl Abort, a: &Uint, b: &Uint, alloc: Global) -> Result<(), Error> {
    let expected = a.to_der(alloc)?.as_slice().cmp(b.to_der(alloc)?.as_slice());
    same(rt, a.der_cmp(b)?, expected);
    same(rt, a.owned_to_ref().der_cmp(&b.owned_to_ref())?, expected);
    same(rt, a == b, expected == Ordering::Equal);
    Ok(())
}

#[test]
fn numbers_are_ordered_by_encodings(rt: HostRuntime) -> Result<(), Fail> {
    let alloc = rt.alloc();
    let numbers = [0u32, 127, 128, 255, 256, 32767, 32768, 65535];
    for a in numbers {
        let a = Uint::try_from_u32(alloc, a)?;
        for b in numbers {
            numbers_are_ordered(&rt, &a, &Uint::try_from_u32(alloc, b)?, alloc)?;
        }
    }
    Ok(())
}

/// Asserts that the order of two integers is the order of their encodings.
fn integers_are_ordered(rt: &impl Abort, a: &Int, b: &Int, alloc: Global) -> Result<(), Error> {
    let expected = a.to_der(alloc)?.as_slice().cmp(b.to_der(alloc)?.as_slice());
    same(rt, a.der_cmp(b)?, expected);
    same(rt, a.owned_to_ref().der_cmp(&b.owned_to_ref())?, expected);
    same(rt, a == b, expected == Ordering::Equal);
    Ok(())
}

#[test]
fn integers_are_ordered_by_encodings(rt: HostRuntime) -> Result<(), Fail> {
    let alloc = rt.alloc();
    let integers = [
        -32768i32, -32767, -129, -128, -1, 0, 127, 128, 32767, 1, 256,
    ];
    for a in integers {
        let a = Int::try_from_i32(alloc, a)?;
        for b in integers {
            integers_are_ordered(&rt, &a, &Int::try_from_i32(alloc, b)?, alloc)?;
        }
    }
    Ok(())
}

#[test]
fn order_is_not_that_of_numbers(rt: HostRuntime) -> Result<(), Fail> {
    let alloc = rt.alloc();
    let minus_one = Int::try_from_i8(alloc, -1)?;
    same(
        &rt,
        minus_one.der_cmp(&Int::try_from_i8(alloc, 1)?)?,
        Ordering::Greater,
    );
    same(
        &rt,
        minus_one.der_cmp(&Int::try_from_i16(alloc, 256)?)?,
        Ordering::Less,
    );
    let high = Uint::try_from_u8(alloc, 128)?;
    same(
        &rt,
        high.der_cmp(&Uint::try_from_u16(alloc, 256)?)?,
        Ordering::Less,
    );
    same(&rt, high.cmp(&Uint::try_from_u8(alloc, 1)?), Ordering::Less);
    same(
        &rt,
        high.cmp(&Uint::try_from_u8(alloc, 0)?),
        Ordering::Greater,
    );
    Ok(())
}

#[test]
fn types_are_used_through_their_traits(rt: HostRuntime) -> Result<(), Fail> {
    let alloc = rt.alloc();
    let uint = Uint::try_from_u8(alloc, 128)?;
    let int = Int::try_from_i8(alloc, -128)?;
    same(&rt, measured(&uint)?, (Tag::Integer, Length::new(4)));
    same(
        &rt,
        measured(&uint.owned_to_ref())?,
        (Tag::Integer, Length::new(4)),
    );
    same(&rt, measured(&int)?, (Tag::Integer, Length::new(3)));
    same(
        &rt,
        measured(&int.owned_to_ref())?,
        (Tag::Integer, Length::new(3)),
    );
    Ok(())
}
