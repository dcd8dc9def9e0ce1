//! The built-in types from carried contents octets.

use crate::tests::same;
use der_elem::{Choice, DecodeValue, Tagged};
use der_opaque::{Any, AnyRef};
use der_tlv::{Error, ErrorKind, SliceReader, Tag};
use std::alloc::Global;
use std::test::Fail;

/// Returns the value that the contents octets are read as after a tag, or the number of the
/// refusal.
fn read<'a, T: TryFrom<AnyRef<'a>, Error = Error> + Drop>(
    tag: Tag,
    octets: &'a [u8],
) -> Result<T, u8> {
    let any = match AnyRef::new(tag, octets) {
        Ok(any) => any,
        Err(_) => return Err(0),
    };
    match T::try_from(any) {
        Ok(value) => Ok(value),
        Err(e) => Err(e.kind.number()),
    }
}

#[test]
fn booleans(rt: HostRuntime) {
    same(&rt, read::<bool>(Tag::Boolean, &[0xff]), Ok(true));
    same(&rt, read::<bool>(Tag::Boolean, &[0x00]), Ok(false));
    same(&rt, read::<bool>(Tag::Integer, &[0x00]), Err(4));
    same(&rt, read::<bool>(Tag::Boolean, &[]), Err(7));
    same(&rt, read::<bool>(Tag::Boolean, &[0x00, 0x00]), Err(7));
    same(&rt, read::<bool>(Tag::Boolean, &[0x01]), Err(8));
}

#[test]
fn nothing(rt: HostRuntime) {
    same(&rt, read::<()>(Tag::Null, &[]), Ok(()));
    same(&rt, read::<()>(Tag::Null, &[0x00]), Err(7));
    same(&rt, read::<()>(Tag::Boolean, &[]), Err(4));
}

#[test]
fn texts(rt: HostRuntime) {
    same(&rt, read::<&str>(Tag::Utf8String, &[0x68, 0x69]), Ok("hi"));
    same(&rt, read::<&str>(Tag::Utf8String, &[]), Ok(""));
    same(&rt, read::<&str>(Tag::Utf8String, &[0xff]), Err(12));
    same(&rt, read::<&str>(Tag::PrintableString, &[0x68]), Err(4));
    same(&rt, read::<&str>(Tag::PrintableString, &[0xff]), Err(4));
}

#[test]
fn signed_integers(rt: HostRuntime) {
    same(&rt, read::<i8>(Tag::Integer, &[0x80]), Ok(-128));
    same(&rt, read::<i8>(Tag::Integer, &[0x00, 0x80]), Err(8));
    same(&rt, read::<i8>(Tag::Integer, &[]), Err(7));
    same(&rt, read::<i8>(Tag::Enumerated, &[0x05]), Err(4));
    same(&rt, read::<i16>(Tag::Integer, &[0xff, 0x7f]), Ok(-129));
    same(&rt, read::<i16>(Tag::Integer, &[0xff, 0x80]), Err(8));
    same(
        &rt,
        read::<i32>(Tag::Integer, &[0x01, 0x00, 0x00]),
        Ok(65536),
    );
    same(&rt, read::<i32>(Tag::Null, &[]), Err(4));
    same(
        &rt,
        read::<i64>(Tag::Integer, &[0x80, 0, 0, 0, 0, 0, 0, 0]),
        Ok(i64::MIN),
    );
    same(&rt, read::<i64>(Tag::Integer, &[0x00, 0x7f]), Err(8));
    let mut least = [0; 16];
    least[0] = 0x80;
    same(&rt, read::<i128>(Tag::Integer, &least), Ok(i128::MIN));
    same(&rt, read::<i128>(Tag::Integer, &[0x00; 17]), Err(8));
}

#[test]
fn unsigned_integers(rt: HostRuntime) {
    same(&rt, read::<u8>(Tag::Integer, &[0x00, 0x80]), Ok(128));
    same(&rt, read::<u8>(Tag::Integer, &[0x80]), Err(13));
    same(&rt, read::<u8>(Tag::Integer, &[0x01, 0x00]), Err(7));
    same(&rt, read::<u8>(Tag::Boolean, &[0xff]), Err(4));
    same(
        &rt,
        read::<u16>(Tag::Integer, &[0x00, 0xff, 0xff]),
        Ok(65535),
    );
    same(&rt, read::<u16>(Tag::Integer, &[0x00, 0x7f]), Err(8));
    same(
        &rt,
        read::<u32>(Tag::Integer, &[0x01, 0x00, 0x01]),
        Ok(65537),
    );
    same(&rt, read::<u32>(Tag::Integer, &[]), Err(7));
    same(&rt, read::<u64>(Tag::Integer, &[0x7f]), Ok(127));
    same(&rt, read::<u64>(Tag::Integer, &[0xff]), Err(13));
    let mut most = [0xff; 17];
    most[0] = 0;
    same(&rt, read::<u128>(Tag::Integer, &most), Ok(u128::MAX));
    same(&rt, read::<u128>(Tag::Integer, &[0x01; 17]), Err(7));
    same(&rt, read::<u128>(Tag::Integer, &[0x01; 18]), Err(8));
}

/// Returns the value that the contents octets of an INTEGER are decoded as, or the kind of the
/// refusal.
fn integer_as<'a, T: Choice + DecodeValue<'a, SliceReader<'a>>>(
    alloc: Global,
    octets: &'a [u8],
) -> Result<T, ErrorKind> {
    let any = match AnyRef::new(Tag::Integer, octets) {
        Ok(any) => any,
        Err(e) => return Err(e.kind),
    };
    match any.decode_as(alloc) {
        Ok(value) => Ok(value),
        Err(e) => Err(e.kind),
    }
}

#[test]
fn carried_octets_are_read_under_their_tag(rt: HostRuntime) {
    let alloc = rt.alloc();
    same(&rt, integer_as::<u8>(alloc, &[0x00, 0x80]), Ok(128));
    same(
        &rt,
        integer_as::<bool>(alloc, &[0x00, 0x80]),
        Err(ErrorKind::TagUnexpected {
            expected: None,
            actual: Tag::Integer,
        }),
    );
    same(
        &rt,
        integer_as::<i8>(alloc, &[0x00, 0x80]),
        Err(ErrorKind::Noncanonical { tag: Tag::Integer }),
    );
}

#[test]
fn an_encoding_is_kept_as_any(rt: HostRuntime) -> Result<(), Fail> {
    let alloc = rt.alloc();
    let any = Any::encode_from(alloc, &256u16)?;
    same(&rt, any.tag(), Tag::Integer);
    same(&rt, any.value(), [0x01, 0x00].as_slice());
    same(&rt, any.decode_as::<u16>(alloc)?, 256);
    Ok(())
}
