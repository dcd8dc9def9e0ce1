//! Whole encodings: lists, arrays, optional values and boxes, through the traits' bounds.

use crate::tests::{holds, numbered, same, same_in};
use der_elem::{
    Choice, ContentsEq, Decode, DecodeValue, DerOrd, Duplicate, DuplicateValue, Encode,
    EncodeValue, EncodingEq, FixedTag, FromDer, IsConstructed, OneTag, Tagged, TakesMemory,
    ValueOrd,
};
use der_tlv::{Error, ErrorKind, Length, Reader, SliceReader, Tag, VecWriter};
use std::alloc::Global;
use std::cmp::Ordering;
use std::fmt::Debug;
use std::process::Abort;
use std::test::Fail;

// Returns the value that the octets are read as, or the number of the refusal.
fn read<'a, T: FromDer<'a>>(alloc: Global, octets: &'a [u8]) -> Result<T, u8> {
    numbered(T::from_der(alloc, octets))
}

fn order<T: DerOrd>(a: &T, b: &T) -> Result<Ordering, u8> {
    numbered(a.der_cmp(b))
}

// Asserts that the value is written as these octets into a buffer of that size, and into no
// shorter one. In a longer buffer the octets after them are unchanged.
fn needs_room<T: Encode>(
    rt: &impl Abort,
    alloc: Global,
    value: &T,
    octets: &[u8],
) -> Result<(), u8> {
    let mut buffer = Vec::new(alloc);
    for room in 0..octets.len() {
        same_in(
            rt,
            &room,
            numbered(value.encode_to_slice(&mut buffer)).err(),
            Some(10),
        );
        if buffer.push(0).is_err() {
            return Err(1);
        }
    }
    same(rt, numbered(value.encode_to_slice(&mut buffer)), Ok(octets));
    leaves_what_stands_after(rt, alloc, value, octets)
}

fn leaves_what_stands_after<T: Encode>(
    rt: &impl Abort,
    alloc: Global,
    value: &T,
    octets: &[u8],
) -> Result<(), u8> {
    let mut buffer = Vec::new(alloc);
    for _ in 0..octets.len() + 3 {
        if buffer.push(0x5a).is_err() {
            return Err(1);
        }
    }
    same(rt, numbered(value.encode_to_slice(&mut buffer)), Ok(octets));
    let mut expected = Vec::new(alloc);
    for octet in octets.iter().chain(&[0x5a; 3]) {
        if expected.push(*octet).is_err() {
            return Err(1);
        }
    }
    same(rt, buffer.as_slice(), expected.as_slice());
    Ok(())
}

// Asserts that the octets are read as a value that is written as these octets, measured as their
// number, and copied.
fn reads_back<'a, T: FromDer<'a> + Encode + Duplicate + DerOrd>(
    rt: &impl Abort,
    alloc: Global,
    octets: &'a [u8],
) -> Result<(), u8> {
    let value: T = read(alloc, octets)?;
    let written = numbered(value.to_der(alloc))?;
    same(rt, written.as_slice(), octets);
    let len = numbered(value.encoded_len())?;
    same(rt, len.value() as usize, octets.len());
    let mut writer = VecWriter::new(alloc);
    numbered(value.encode(&mut writer))?;
    same(rt, writer.finish().as_slice(), octets);
    let copy = numbered(value.duplicate())?;
    same(rt, order(&copy, &value), Ok(Ordering::Equal));
    needs_room(rt, alloc, &value, octets)
}

// Asserts that the octets of each row are refused with this number.
fn refuses<'a, T: FromDer<'a>>(rt: &impl Abort, alloc: Global, refused: &[(&'a [u8], u8)]) {
    for (octets, number) in refused {
        same_in(rt, octets, read::<T>(alloc, octets).err(), Some(*number));
    }
}

// Asserts that some octets are read back as values of a type, and that others are refused.
fn whole<
    'a,
    T: DecodeValue<'a, SliceReader<'a>> + OneTag + EncodeValue + DuplicateValue + ValueOrd,
>(rt: &impl Abort, alloc: Global, kept: &[&'a [u8]], refused: &[(&'a [u8], u8)]) -> Result<(), u8> {
    for octets in kept {
        reads_back::<T>(rt, alloc, octets)?;
    }
    refuses::<T>(rt, alloc, refused);
    Ok(())
}

// Asserts what `whole` does, for a list of values of the type.
fn whole_lists<
    'a,
    T: DecodeValue<'a, SliceReader<'a>> + OneTag + EncodeValue + DuplicateValue + ValueOrd,
>(rt: &impl Abort, alloc: Global, kept: &[&'a [u8]], refused: &[(&'a [u8], u8)]) -> Result<(), u8> {
    whole::<Vec<T>>(rt, alloc, kept, refused)
}

// Asserts what `whole_lists` does, for the type and for lists of it.
fn whole_nested_lists<
    'a,
    T: DecodeValue<'a, SliceReader<'a>> + OneTag + EncodeValue + DuplicateValue + ValueOrd,
>(rt: &impl Abort, alloc: Global, lists: &'a [u8], lists_of_lists: &'a [u8]) -> Result<(), u8> {
    whole_lists::<T>(rt, alloc, &[lists], &[])?;
    whole_lists::<Vec<T>>(rt, alloc, &[lists_of_lists], &[])
}

#[test]
fn whole_booleans_and_integers(rt: HostRuntime) -> Result<(), Fail> {
    let alloc = rt.alloc();
    let refused: [(&[u8], u8); 3] = [
        (&[0x05, 0x01, 0xff], 4),
        (&[0x01, 0x01, 0xff, 0x00], 3),
        (&[], 2),
    ];
    whole::<bool>(&rt, alloc, &[&[0x01, 0x01, 0xff]], &refused)?;
    whole::<i16>(&rt, alloc, &[&[0x02, 0x02, 0xff, 0x7f]], &[])?;
    refuses::<Box<u8>>(&rt, alloc, &[(&[0x02, 0x02, 0x00, 0x05], 8)]);
    Ok(())
}

#[test]
fn whole_lists_and_arrays(rt: HostRuntime) -> Result<(), Fail> {
    let alloc = rt.alloc();
    let kept: [&[u8]; 2] = [&[0x30, 0x06, 0x02, 0x04, 1, 2, 3, 4], &[0x30, 0x00]];
    let refused: [(&[u8], u8); 3] = [
        (&[0x31, 0x00], 4),
        (&[0x30, 0x04, 2, 1, 5, 5], 2),
        (&[0x30, 0x05, 2, 1, 5, 5, 0], 4),
    ];
    whole_lists::<i64>(&rt, alloc, &kept, &refused)?;
    let other_counts: [(&[u8], u8); 2] = [
        (&[0x30, 0x03, 2, 1, 1], 7),
        (&[0x30, 0x09, 2, 1, 1, 2, 1, 2, 2, 1, 3], 10),
    ];
    let two = [0x30, 0x06, 0x02, 0x01, 0x01, 0x02, 0x01, 0x02];
    whole::<[u8; 2]>(&rt, alloc, &[&two], &other_counts)?;
    Ok(())
}

#[test]
fn whole_lists_of_lists(rt: HostRuntime) -> Result<(), Fail> {
    whole_nested_lists::<Vec<u8>>(
        &rt,
        rt.alloc(),
        &[0x30, 0x05, 0x30, 0x03, 0x02, 0x01, 0x05],
        &[
            0x30, 0x09, 0x30, 0x05, 0x30, 0x03, 0x02, 0x01, 0x05, 0x30, 0x00,
        ],
    )?;
    Ok(())
}

// Asserts what `whole` does, for an optional value of the type.
fn whole_options<
    'a,
    T: DecodeValue<'a, SliceReader<'a>> + OneTag + EncodeValue + DuplicateValue + ValueOrd,
>(rt: &impl Abort, alloc: Global, kept: &[&'a [u8]], refused: &[(&'a [u8], u8)]) -> Result<(), u8> {
    for octets in kept {
        reads_back::<Option<T>>(rt, alloc, octets)?;
    }
    refuses::<Option<T>>(rt, alloc, refused);
    Ok(())
}

#[test]
fn whole_optional_integers(rt: HostRuntime) -> Result<(), Fail> {
    let refused: [(&[u8], u8); 3] = [
        (&[0x01, 0x01, 0xff], 3),
        (&[0x02, 0x00], 7),
        (&[0x19, 0x00], 5),
    ];
    whole_options::<u8>(&rt, rt.alloc(), &[&[], &[0x02, 0x01, 0x05]], &refused)?;
    Ok(())
}

// Returns the result of a call, with a refusal as its kind.
fn kinded<T>(answer: Result<T, Error>) -> Result<T, ErrorKind> {
    match answer {
        Ok(value) => Ok(value),
        Err(e) => Err(e.kind()),
    }
}

#[test]
fn says_how_many_octets_are_missing(rt: HostRuntime) {
    let octets = [0x30, 0x02, 0x02, 0x01, 0x05];
    same(
        &rt,
        kinded(Vec::<i64>::from_der(rt.alloc(), &octets)).err(),
        Some(ErrorKind::Incomplete {
            expected_len: Length::new(5),
            actual_len: Length::new(4),
        }),
    );
}

#[test]
fn orders_by_encodings(rt: HostRuntime) -> Result<(), Fail> {
    let alloc = rt.alloc();
    same(&rt, order(&127i16, &128), Ok(Ordering::Less));
    same(&rt, order(&-1i16, &1), Ok(Ordering::Greater));
    let one = vec![in alloc; 1u8]?;
    let one_nought = vec![in alloc; 1u8, 0]?;
    same(&rt, order(&one, &one_nought), Ok(Ordering::Less));
    same(
        &rt,
        numbered(one.value_cmp(&one_nought)),
        Ok(Ordering::Less),
    );
    let large = vec![in alloc; 16909060i64]?;
    let two = vec![in alloc; 127i64, 127]?;
    same(&rt, order(&large, &two), Ok(Ordering::Greater));
    same(&rt, order(&[1u8, 2], &[1, 3]), Ok(Ordering::Less));
    same(&rt, order(&None::<u8>, &None), Ok(Ordering::Equal));
    same(&rt, order(&None, &Some(0u8)), Ok(Ordering::Less));
    same(&rt, order(&Some(0u8), &None), Ok(Ordering::Greater));
    same(&rt, order(&Some(1u8), &Some(2)), Ok(Ordering::Less));
    let absent: Option<Vec<u8>> = None;
    let empty: Option<Vec<u8>> = Some(Vec::new(alloc));
    same(&rt, order(&absent, &empty), Ok(Ordering::Less));
    Ok(())
}

// Returns whether the octets are read as these numbers, or nothing if they are refused.
fn read_as(alloc: Global, octets: &[u8], numbers: &[u16]) -> Option<bool> {
    match read::<Vec<u16>>(alloc, octets) {
        Ok(again) => Some(again.as_slice() == numbers),
        Err(_) => None,
    }
}

#[test]
fn reads_a_thousand_items(rt: HostRuntime) -> Result<(), Fail> {
    let alloc = rt.alloc();
    let mut numbers: Vec<u16> = Vec::new(alloc);
    for number in 0..1000u16 {
        numbers.push(number)?;
    }
    let octets = numbered(numbers.to_der(alloc))?;
    same(&rt, read_as(alloc, &octets, &numbers), Some(true));
    for room in [0usize, 1, 2, 100] {
        let octets = &octets[..room.min(octets.len())];
        same_in(&rt, &room, read_as(alloc, octets, &numbers), None);
    }
    Ok(())
}

// Returns the tag of a value, and the type's results about tags.
fn tag_of<T: Tagged + Choice + FixedTag + IsConstructed>(value: &T) -> (Tag, bool, bool, bool) {
    (
        value.tag(),
        T::can_decode(T::TAG),
        T::can_decode(Tag::Null),
        T::CONSTRUCTED,
    )
}

#[test]
fn knows_tags(rt: HostRuntime) -> Result<(), Fail> {
    same(&rt, tag_of(&true), (Tag::Boolean, true, false, false));
    same(&rt, tag_of(&5i32), (Tag::Integer, true, false, false));
    same(&rt, tag_of(&()), (Tag::Null, true, true, false));
    let numbers: Vec<u8> = Vec::new(rt.alloc());
    same(&rt, tag_of(&numbers), (Tag::Sequence, true, false, true));
    Ok(())
}

// Reads a value at the start of octets. Returns it, the reader's position and the next octet.
fn decode<'a, T: Decode<'a, SliceReader<'a>>>(
    alloc: Global,
    octets: &'a [u8],
) -> (Result<T, u8>, u32, Result<u8, u8>) {
    match SliceReader::new(octets) {
        Ok(mut reader) => {
            let value = numbered(T::decode(alloc, &mut reader));
            let position = reader.position().value();
            (value, position, numbered(reader.read_byte()))
        }
        Err(e) => (Err(e.kind().number()), 0, Err(0)),
    }
}

// The value, the reader's position after it, and the next octet.
type First<T> = (Result<T, u8>, u32, Result<u8, u8>);

// Asserts that the first value of each row's octets is read in this way.
fn first_values<'a, T: Decode<'a, SliceReader<'a>> + Copy + PartialEq + Debug>(
    rt: &impl Abort,
    alloc: Global,
    rows: &[(&'a [u8], First<T>)],
) {
    for (octets, wanted) in rows {
        same_in(rt, octets, decode::<T>(alloc, octets), *wanted);
    }
}

#[test]
fn reads_the_first_value(rt: HostRuntime) {
    let two: &[u8] = &[0x02, 0x01, 0x05, 0x01, 0x01, 0xff];
    let cut: &[u8] = &[0x02, 0x00];
    first_values(
        &rt,
        rt.alloc(),
        &[(two, (Ok(5u8), 3, Ok(0x01))), (cut, (Err(7), 2, Err(17)))],
    );
}

#[test]
fn reads_the_first_optional_value(rt: HostRuntime) {
    let alloc = rt.alloc();
    let two: &[u8] = &[0x02, 0x01, 0x05, 0x01, 0x01, 0xff];
    first_values(&rt, alloc, &[(two, (Ok(None::<bool>), 0, Ok(0x02)))]);
    first_values(
        &rt,
        alloc,
        &[
            (two, (Ok(Some(5u8)), 3, Ok(0x01))),
            (&[], (Ok(None), 0, Err(2))),
        ],
    );
}

// Returns the encoding of a value, through the bound.
fn encoding<T: Encode>(alloc: Global, value: &T) -> Result<Vec<u8>, u8> {
    let len = numbered(value.encoded_len())?;
    let octets = numbered(value.to_der(alloc))?;
    if len.value() as usize == octets.len() {
        Ok(octets)
    } else {
        Err(0)
    }
}

#[test]
fn writes_borrowed_options(rt: HostRuntime) -> Result<(), Fail> {
    let alloc = rt.alloc();
    let (present, absent) = (Some(5u8), None::<u8>);
    same(
        &rt,
        encoding(alloc, &&present)?.as_slice(),
        [0x02, 0x01, 0x05].as_slice(),
    );
    holds(&rt, encoding(alloc, &&absent)?.is_empty());
    let mut buffer = [0; 3];
    same(
        &rt,
        numbered(Encode::encode_to_slice(&&present, &mut buffer)).err(),
        None,
    );
    same(&rt, buffer, [0x02, 0x01, 0x05]);
    Ok(())
}

// Returns whether two values are equal, through the bound.
fn equal<T: EncodingEq>(a: &T, b: &T) -> bool {
    a == b
}

// Returns whether the two values that the octets are read as are equal.
fn equal_as<'a, T: FromDer<'a> + EncodingEq + Duplicate>(
    alloc: Global,
    octets: &'a [u8],
    others: &'a [u8],
) -> Result<bool, u8> {
    let (a, b): (T, T) = (read(alloc, octets)?, read(alloc, others)?);
    let copy = numbered(a.duplicate())?;
    Ok(equal(&a, &b) && equal(&copy, &a))
}

// Asserts for each row whether its octets are read as equal values.
fn equals<'a, T: DecodeValue<'a, SliceReader<'a>> + OneTag + ContentsEq + DuplicateValue>(
    rt: &impl Abort,
    alloc: Global,
    rows: &[(&'a [u8], &'a [u8], bool)],
) {
    for (octets, others, wanted) in rows {
        same_in(
            rt,
            &(octets, others),
            equal_as::<T>(alloc, octets, others),
            Ok(*wanted),
        );
    }
}

// Asserts what `equals` does, for lists of values.
fn equal_lists<'a, T: DecodeValue<'a, SliceReader<'a>> + OneTag + ContentsEq + DuplicateValue>(
    rt: &impl Abort,
    alloc: Global,
    rows: &[(&'a [u8], &'a [u8], bool)],
) {
    equals::<Vec<T>>(rt, alloc, rows);
}

// Asserts what `equals` does, for optional values.
fn equal_options<'a, T: DecodeValue<'a, SliceReader<'a>> + OneTag + ContentsEq + DuplicateValue>(
    rt: &impl Abort,
    alloc: Global,
    rows: &[(&'a [u8], &'a [u8], bool)],
) {
    for (octets, others, wanted) in rows {
        same_in(
            rt,
            &(octets, others),
            equal_as::<Option<T>>(alloc, octets, others),
            Ok(*wanted),
        );
    }
}

#[test]
fn integers_equal_by_encodings(rt: HostRuntime) {
    let alloc = rt.alloc();
    let five: &[u8] = &[0x02, 0x01, 0x05];
    let rows = [(five, five, true), (five, &[0x02, 0x01, 0x06], false)];
    equals::<i64>(&rt, alloc, &rows);
    equals::<Box<u8>>(&rt, alloc, &rows);
    equal_options::<u8>(&rt, alloc, &[(five, &[], false), (&[], &[], true)]);
}

#[test]
fn lists_equal_by_encodings(rt: HostRuntime) {
    let alloc = rt.alloc();
    let list: &[u8] = &[0x30, 0x03, 0x02, 0x01, 0x05];
    let longer: &[u8] = &[0x30, 0x06, 0x02, 0x01, 0x05, 0x02, 0x01, 0x05];
    equal_lists::<u8>(&rt, alloc, &[(list, list, true), (list, longer, false)]);
    equals::<[u8; 1]>(&rt, alloc, &[(list, list, true)]);
    equal_lists::<Box<u8>>(&rt, alloc, &[(longer, longer, true)]);
}

#[test]
fn says_that_booleans_and_nulls_take_no_memory(rt: HostRuntime) {
    same(&rt, <() as TakesMemory>::TAKES_MEMORY, false);
    same(&rt, <bool as TakesMemory>::TAKES_MEMORY, false);
}
