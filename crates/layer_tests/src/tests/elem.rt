//! The built-in types, called through the traits' bounds.

mod composed;
mod integer_order;
mod refusals;

use crate::tests::{numbered, same, same_in};
use der_elem::{
    Decode, DecodeValue, DerOrd, Duplicate, DuplicateValue, EncodeValue, FixedTag, FormValue,
    FromDer, OneTag, TakesMemory, ValueOrd,
};
use der_tlv::{ErrorKind, Header, Reader, SliceReader, Tag, VecWriter};
use std::alloc::Global;
use std::cmp::Ordering;
use std::fmt::Debug;
use std::process::Abort;
use std::test::Fail;

// Returns the value that contents octets are read as, or the number of the refusal.
fn read<'a, T: DecodeValue<'a, SliceReader<'a>> + FixedTag>(
    alloc: Global,
    contents: &'a [u8],
) -> Result<T, u8> {
    match SliceReader::new(contents) {
        Ok(mut reader) => {
            let header = Header::new(T::TAG, reader.remaining_len());
            numbered(T::decode_value(alloc, &mut reader, header))
        }
        Err(e) => Err(e.kind().number()),
    }
}

// Returns the value that contents octets are read as by a reader that has refused before, or the
// number of the refusal.
fn read_again<'a, T: DecodeValue<'a, SliceReader<'a>> + FixedTag>(
    alloc: Global,
    contents: &'a [u8],
) -> Result<T, u8> {
    match SliceReader::new(contents) {
        Ok(mut reader) => {
            let header = Header::new(T::TAG, reader.remaining_len());
            let _refused = reader.error(ErrorKind::Overflow);
            numbered(T::decode_value(alloc, &mut reader, header))
        }
        Err(e) => Err(e.kind().number()),
    }
}

// Returns the contents octets that a value is written as.
fn written<T: EncodeValue>(alloc: Global, value: &T) -> Result<Vec<u8>, u8> {
    let mut writer = VecWriter::new(alloc);
    numbered(value.encode_value(&mut writer))?;
    Ok(writer.finish())
}

fn order<T: ValueOrd>(a: &T, b: &T) -> Result<Ordering, u8> {
    numbered(a.value_cmp(b))
}

// Asserts that the value is written as these contents octets, measured as their number, and read
// from them.
fn is_coded<
    'a,
    T: DecodeValue<'a, SliceReader<'a>> + OneTag + EncodeValue + DuplicateValue + PartialEq + Debug,
>(rt: &impl Abort, alloc: Global, value: &T, contents: &'a [u8]) -> Result<(), u8> {
    let octets = written(alloc, value)?;
    same(rt, octets.as_slice(), contents);
    let len = numbered(value.value_len())?;
    same(rt, len.value() as usize, contents.len());
    let copy = numbered(value.duplicate())?;
    let read_back: T = read(alloc, contents)?;
    same(rt, read_back, copy);
    Ok(())
}

// Asserts that the contents octets of each row are refused with this number.
fn refuses<'a, T: DecodeValue<'a, SliceReader<'a>> + OneTag + PartialEq + Debug>(
    rt: &impl Abort,
    alloc: Global,
    refused: &[(&'a [u8], u8)],
) {
    for (contents, number) in refused {
        same_in(rt, contents, read::<T>(alloc, contents), Err(*number));
    }
}

// Asserts that a reader that has refused before refuses all these contents octets.
fn stays_refused<'a, T: DecodeValue<'a, SliceReader<'a>> + OneTag>(
    rt: &impl Abort,
    alloc: Global,
    rows: &[&'a [u8]],
) {
    for contents in rows {
        same_in(
            rt,
            contents,
            read_again::<T>(alloc, contents).err(),
            Some(17),
        );
    }
}

// Returns whether reading takes memory, through the bound.
fn takes_memory<'a, T: Decode<'a, SliceReader<'a>>>() -> bool {
    <T as TakesMemory>::TAKES_MEMORY
}

// Returns whether reading a type, a list of it and an optional value of it takes memory.
fn memory_of<'a, T: DecodeValue<'a, SliceReader<'a>> + OneTag>() -> [bool; 3] {
    [
        takes_memory::<T>(),
        takes_memory::<Vec<T>>(),
        takes_memory::<Option<T>>(),
    ]
}

// Asserts whether reading a value, a list of values and an optional value takes memory, and that
// a reader that has refused before refuses these contents octets.
fn is_read<'a, T: DecodeValue<'a, SliceReader<'a>> + OneTag>(
    rt: &impl Abort,
    alloc: Global,
    memory: [bool; 3],
    again: &[&'a [u8]],
) {
    same(rt, memory_of::<T>(), memory);
    stays_refused::<T>(rt, alloc, again);
}

// Asserts the tag of a type, which of its readings take memory, the values that are coded, the
// contents octets that are refused, and those that are read after a refusal.
fn codes<
    'a,
    T: DecodeValue<'a, SliceReader<'a>> + OneTag + EncodeValue + DuplicateValue + PartialEq + Debug,
>(
    rt: &impl Abort,
    alloc: Global,
    tag: Tag,
    memory: [bool; 3],
    coded: &[(T, &'a [u8])],
    refused: &[(&'a [u8], u8)],
    again: &[&'a [u8]],
) -> Result<(), u8> {
    same(rt, T::TAG, tag);
    for (value, contents) in coded {
        is_coded(rt, alloc, value, contents)?;
    }
    refuses::<T>(rt, alloc, refused);
    is_read::<T>(rt, alloc, memory, again);
    Ok(())
}

#[test]
fn codes_booleans(rt: HostRuntime) -> Result<(), Fail> {
    let coded: [(bool, &[u8]); 2] = [(false, &[0x00]), (true, &[0xff])];
    let refused: [(&[u8], u8); 3] = [(&[0x01], 8), (&[], 7), (&[0x00, 0x00], 7)];
    codes(
        &rt,
        rt.alloc(),
        Tag::Boolean,
        [false, true, false],
        &coded,
        &refused,
        &[&[0x00], &[]],
    )?;
    same(&rt, order(&false, &true)?, Ordering::Less);
    Ok(())
}

#[test]
fn codes_nulls(rt: HostRuntime) -> Result<(), Fail> {
    codes(
        &rt,
        rt.alloc(),
        Tag::Null,
        [false, true, false],
        &[((), &[])],
        &[(&[0x00], 7)],
        &[&[], &[0x00]],
    )?;
    Ok(())
}

// The second text is e with an acute accent, U+00E9 (RFC 3629, section 3).
#[test]
fn codes_texts(rt: HostRuntime) -> Result<(), Fail> {
    let alloc = rt.alloc();
    let refused: [(&[u8], u8); 2] = [(&[0xff], 12), (&[0xc3], 12)];
    let rows: [(&str, &[u8]); 3] = [("hi", &[0x68, 0x69]), ("\u{e9}", &[0xc3, 0xa9]), ("", &[])];
    for (text, contents) in rows {
        let text = String::from_str(alloc, text)?;
        codes(
            &rt,
            alloc,
            Tag::Utf8String,
            [true; 3],
            &[(text, contents)],
            &refused,
            &[&[0xff], &[]],
        )?;
    }
    Ok(())
}

// Returns the order of two texts, or the number of the refusal.
fn order_of_texts(alloc: Global, a: &str, b: &str) -> Result<Ordering, u8> {
    match (String::from_str(alloc, a), String::from_str(alloc, b)) {
        (Ok(a), Ok(b)) => order(&a, &b),
        _ => Err(1),
    }
}

#[test]
fn a_text_is_before_a_longer_one(rt: HostRuntime) {
    same(
        &rt,
        order_of_texts(rt.alloc(), "a", "ab"),
        Ok(Ordering::Less),
    );
}

// Asserts what `codes` does, for a type with the tag INTEGER.
fn codes_integers<
    'a,
    T: DecodeValue<'a, SliceReader<'a>> + OneTag + EncodeValue + DuplicateValue + PartialEq + Debug,
>(
    rt: &impl Abort,
    alloc: Global,
    coded: &[(T, &'a [u8])],
    refused: &[(&'a [u8], u8)],
    again: &[&'a [u8]],
) -> Result<(), u8> {
    codes(
        rt,
        alloc,
        Tag::Integer,
        [false, true, false],
        coded,
        refused,
        again,
    )
}

// The first six are the examples of "A Layman's Guide to a Subset of ASN.1, BER, and DER", 5.7.
#[test]
fn codes_signed_integers_of_two_octets(rt: HostRuntime) -> Result<(), Fail> {
    let coded: [(i16, &[u8]); 10] = [
        (0, &[0x00]),
        (127, &[0x7f]),
        (128, &[0x00, 0x80]),
        (256, &[0x01, 0x00]),
        (-128, &[0x80]),
        (-129, &[0xff, 0x7f]),
        (255, &[0x00, 0xff]),
        (-1, &[0xff]),
        (i16::MIN, &[0x80, 0x00]),
        (i16::MAX, &[0x7f, 0xff]),
    ];
    let refused: [(&[u8], u8); 4] = [
        (&[], 7),
        (&[0xff, 0x80], 8),
        (&[0x00, 0x00], 8),
        (&[0x00, 0xff, 0xff], 8),
    ];
    codes_integers(&rt, rt.alloc(), &coded, &refused, &[&[]])?;
    Ok(())
}

#[test]
fn codes_least_and_greatest_signed(rt: HostRuntime) -> Result<(), Fail> {
    let alloc = rt.alloc();
    let octet: [(i8, &[u8]); 2] = [(i8::MIN, &[0x80]), (i8::MAX, &[0x7f])];
    codes_integers(&rt, alloc, &octet, &[(&[0x00, 0x80], 8)], &[&[0x00]])?;
    let four: [(i32, &[u8]); 2] = [
        (i32::MIN, &[0x80, 0x00, 0x00, 0x00]),
        (i32::MAX, &[0x7f, 0xff, 0xff, 0xff]),
    ];
    codes_integers(&rt, alloc, &four, &[], &[&[0x00]])?;
    let eight: [(i64, &[u8]); 2] = [
        (i64::MIN, &[0x80, 0x00, 0x00, 0x00, 0x00, 0x00, 0x00, 0x00]),
        (i64::MAX, &[0x7f, 0xff, 0xff, 0xff, 0xff, 0xff, 0xff, 0xff]),
    ];
    codes_integers(&rt, alloc, &eight, &[], &[&[0x00]])?;
    let sixteen: [(i128, &[u8]); 2] = [
        (
            i128::MIN,
            &[
                0x80, 0x00, 0x00, 0x00, 0x00, 0x00, 0x00, 0x00, 0x00, 0x00, 0x00, 0x00, 0x00, 0x00,
                0x00, 0x00,
            ],
        ),
        (
            i128::MAX,
            &[
                0x7f, 0xff, 0xff, 0xff, 0xff, 0xff, 0xff, 0xff, 0xff, 0xff, 0xff, 0xff, 0xff, 0xff,
                0xff, 0xff,
            ],
        ),
    ];
    codes_integers(&rt, alloc, &sixteen, &[(&[0x01; 17], 8)], &[&[0x00]])?;
    Ok(())
}

#[test]
fn codes_small_unsigned_integers(rt: HostRuntime) -> Result<(), Fail> {
    let alloc = rt.alloc();
    let octet: [(u8, &[u8]); 2] = [(u8::MIN, &[0x00]), (u8::MAX, &[0x00, 0xff])];
    let refused: [(&[u8], u8); 3] = [
        (&[0x01, 0x00], 7),
        (&[0x00, 0x01, 0x00], 8),
        (&[0x00, 0x00], 8),
    ];
    codes_integers(&rt, alloc, &octet, &refused, &[&[0x00]])?;
    let two: [(u16, &[u8]); 2] = [(u16::MIN, &[0x00]), (65535, &[0x00, 0xff, 0xff])];
    let refused: [(&[u8], u8); 3] = [(&[], 7), (&[0xff, 0xff], 13), (&[0x01, 0x00, 0x00], 7)];
    codes_integers(&rt, alloc, &two, &refused, &[&[0xff]])?;
    Ok(())
}

#[test]
fn codes_least_and_greatest_unsigned(rt: HostRuntime) -> Result<(), Fail> {
    let alloc = rt.alloc();
    let four: [(u32, &[u8]); 2] = [
        (u32::MIN, &[0x00]),
        (u32::MAX, &[0x00, 0xff, 0xff, 0xff, 0xff]),
    ];
    codes_integers(&rt, alloc, &four, &[], &[&[0x00]])?;
    let eight: [(u64, &[u8]); 2] = [
        (u64::MIN, &[0x00]),
        (
            u64::MAX,
            &[0x00, 0xff, 0xff, 0xff, 0xff, 0xff, 0xff, 0xff, 0xff],
        ),
    ];
    codes_integers(&rt, alloc, &eight, &[], &[&[0x00]])?;
    let sixteen: [(u128, &[u8]); 2] = [
        (u128::MIN, &[0x00]),
        (
            u128::MAX,
            &[
                0x00, 0xff, 0xff, 0xff, 0xff, 0xff, 0xff, 0xff, 0xff, 0xff, 0xff, 0xff, 0xff, 0xff,
                0xff, 0xff, 0xff,
            ],
        ),
    ];
    codes_integers(&rt, alloc, &sixteen, &[(&[0x80; 17], 13)], &[&[]])?;
    Ok(())
}

#[test]
fn orders_by_contents(rt: HostRuntime) -> Result<(), Fail> {
    same(&rt, order(&-1i16, &1)?, Ordering::Greater);
    same(&rt, order(&127i16, &128)?, Ordering::Greater);
    same(&rt, order(&127u8, &128)?, Ordering::Greater);
    same(&rt, order(&u128::MAX, &(1 << 127))?, Ordering::Greater);
    same(&rt, order(&5i64, &5)?, Ordering::Equal);
    Ok(())
}

#[test]
fn lists_within_lists_are_ordered_by_length_first(rt: HostRuntime) -> Result<(), Fail> {
    let alloc = rt.alloc();
    let one = Vec::<Vec<u8>>::from_der(alloc, &[0x30, 5, 0x30, 3, 2, 1, 2])?;
    let less = Vec::<Vec<u8>>::from_der(alloc, &[0x30, 5, 0x30, 3, 2, 1, 1])?;
    let more = [0x30, 10, 0x30, 3, 2, 1, 1, 0x30, 3, 2, 1, 1];
    let more = Vec::<Vec<u8>>::from_der(alloc, &more)?;
    same(&rt, one.der_cmp(&one)?, Ordering::Equal);
    same(&rt, one.der_cmp(&less)?, Ordering::Greater);
    same(&rt, less.der_cmp(&one)?, Ordering::Less);
    // the first items decide of the contents octets, and the lengths of the encodings
    same(&rt, more.value_cmp(&one)?, Ordering::Less);
    same(&rt, more.der_cmp(&one)?, Ordering::Greater);
    same(&rt, one.der_cmp(&more)?, Ordering::Less);
    same(&rt, less.der_cmp(&more)?, Ordering::Less);
    Ok(())
}

#[test]
fn reads_lists_and_boxes(rt: HostRuntime) {
    let alloc = rt.alloc();
    is_read::<Vec<u8>>(&rt, alloc, [true; 3], &[&[], &[0x02, 0x01, 0x05]]);
    is_read::<Box<u8>>(&rt, alloc, [true; 3], &[&[0x05]]);
}

#[test]
fn reads_arrays(rt: HostRuntime) {
    let alloc = rt.alloc();
    is_read::<[u8; 0]>(&rt, alloc, [false, true, false], &[&[]]);
    is_read::<[u8; 2]>(&rt, alloc, [false, true, false], &[&[]]);
}
