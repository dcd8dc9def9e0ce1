//! Tests of tags.

use crate::tests::{holds, same, same_in};
use der_tlv::{
    Class, Error, ErrorKind, Header, Length, Reader, SliceReader, SliceWriter, Tag, TagNumber,
};
use std::cmp::Ordering;

/// Returns a constructed context-specific tag.
fn context(number: u32) -> Tag {
    Tag::ContextSpecific {
        constructed: true,
        number: TagNumber(number),
    }
}

/// Returns the tag at the start of the octets.
fn decoded(octets: &[u8]) -> Result<Tag, ErrorKind> {
    match SliceReader::new(octets) {
        Ok(mut reader) => known(Tag::decode(&mut reader)),
        Err(e) => Err(e.kind),
    }
}

#[test]
fn short_form(rt: HostRuntime) {
    same(&rt, decoded(&[0x30, 0x00]), Ok(Tag::Sequence));
    same(&rt, decoded(&[0xbe]), Ok(context(30)));
    let application = Tag::Application {
        constructed: false,
        number: TagNumber(0),
    };
    same(&rt, decoded(&[0x40]), Ok(application));
    let private = Tag::Private {
        constructed: true,
        number: TagNumber(30),
    };
    same(&rt, decoded(&[0xfe]), Ok(private));
}

#[test]
fn long_form(rt: HostRuntime) {
    same(&rt, decoded(&[0xbf, 0x1f]), Ok(context(31)));
    same(&rt, decoded(&[0xbf, 0x7f]), Ok(context(127)));
    same(&rt, decoded(&[0xbf, 0x81, 0x00]), Ok(context(128)));
    same(&rt, decoded(&[0xbf, 0xff, 0x7f]), Ok(context(16383)));
    same(&rt, decoded(&[0xbf, 0x81, 0x80, 0x00]), Ok(context(16384)));
    same(
        &rt,
        decoded(&[0xbf, 0x8f, 0xff, 0xff, 0xff, 0x7f]),
        Ok(context(4294967295)),
    );
}

#[test]
fn invalid_numbers(rt: HostRuntime) {
    let rows = [
        (
            "2 to the power 32",
            [0xbf, 0x90, 0x80, 0x80, 0x80, 0x00].as_slice(),
        ),
        (
            "with no last octet",
            [0xbf, 0x90, 0x80, 0x80, 0x80, 0x80].as_slice(),
        ),
        ("30 in the long form", [0x1f, 0x1e].as_slice()),
        ("0 in the long form", [0xbf, 0x00].as_slice()),
        ("a leading zero digit", [0xbf, 0x80].as_slice()),
    ];
    for (case, octets) in rows {
        same_in(
            &rt,
            &case,
            decoded(octets),
            Err(ErrorKind::TagNumberInvalid),
        );
    }
}

#[test]
fn universal_tags(rt: HostRuntime) {
    same(
        &rt,
        decoded(&[0x19]),
        Err(ErrorKind::TagUnknown { byte: 0x19 }),
    );
    same(
        &rt,
        decoded(&[0x1f, 0x1f]),
        Err(ErrorKind::TagUnknown { byte: 0x1f }),
    );
    same(
        &rt,
        decoded(&[0x22]),
        Err(ErrorKind::Noncanonical { tag: Tag::Integer }),
    );
    same(
        &rt,
        decoded(&[0x10]),
        Err(ErrorKind::Noncanonical { tag: Tag::Sequence }),
    );
}

#[test]
fn missing_octets(rt: HostRuntime) {
    let missing = |expected_len: u32| {
        Err(ErrorKind::Incomplete {
            expected_len: Length::new(expected_len),
            actual_len: Length::new(expected_len - 1),
        })
    };
    same(&rt, decoded(&[]), missing(1));
    same(&rt, decoded(&[0xbf]), missing(2));
    same(&rt, decoded(&[0xbf, 0x81]), missing(3));
}

/// Returns whether these are the identifier octets of a tag, if the length octet for no contents
/// octets follows.
fn identifier_is(tag: Tag, octets: &[u8]) -> bool {
    let mut buffer = [0xff; 7];
    let mut writer = SliceWriter::new(&mut buffer);
    if Header::new(tag, Length::ZERO).encode(&mut writer).is_err() {
        return false;
    }
    match writer.finish().split_last() {
        Some((length, identifier)) => *length == 0 && identifier == octets,
        None => false,
    }
}

#[test]
fn identifier_octets(rt: HostRuntime) {
    holds(&rt, identifier_is(Tag::Set, &[0x31]));
    holds(&rt, identifier_is(context(128), &[0xbf, 0x81, 0x00]));
    holds(
        &rt,
        identifier_is(context(4294967295), &[0xbf, 0x8f, 0xff, 0xff, 0xff, 0x7f]),
    );
}

#[test]
fn order(rt: HostRuntime) {
    holds(&rt, context(16384) < context(16383));
    holds(&rt, context(127) > context(31));
    holds(&rt, Tag::Sequence < context(0));
    holds(&rt, Tag::Utf8String > Tag::Integer);
    same(&rt, context(16384).cmp(&context(16384)), Ordering::Equal);
    same(&rt, Tag::Null.cmp(&Tag::Null), Ordering::Equal);
}

#[test]
fn peeks(rt: HostRuntime) {
    match SliceReader::new(&[0xbf, 0x1f, 0x30]) {
        Ok(mut reader) => {
            same(&rt, known(Tag::peek(&mut reader)), Ok(context(31)));
            same(&rt, reader.position(), Length::ZERO);
            same(&rt, known(Tag::decode(&mut reader)), Ok(context(31)));
            same(&rt, known(Tag::decode(&mut reader)), Ok(Tag::Sequence));
            holds(&rt, Tag::peek(&mut reader).is_err());
            same(&rt, known(Tag::decode(&mut reader)), Err(ErrorKind::Failed));
        }
        Err(_) => assert!(rt; false, "three octets"),
    }
}

#[test]
fn peeks_that_match(rt: HostRuntime) {
    match SliceReader::new(&[0xbf, 0x1f]) {
        Ok(mut reader) => {
            same(
                &rt,
                next_has(&mut reader, Class::ContextSpecific, 31),
                Ok(true),
            );
            same(
                &rt,
                next_has(&mut reader, Class::ContextSpecific, 30),
                Ok(false),
            );
            same(
                &rt,
                next_has(&mut reader, Class::Application, 31),
                Ok(false),
            );
            same(&rt, known(Tag::decode(&mut reader)), Ok(context(31)));
            same(
                &rt,
                next_has(&mut reader, Class::ContextSpecific, 31),
                Ok(false),
            );
            holds(&rt, Tag::decode(&mut reader).is_err());
            let failed = next_has(&mut reader, Class::ContextSpecific, 31);
            same(&rt, failed, Err(ErrorKind::Failed));
        }
        Err(_) => assert!(rt; false, "two octets"),
    }
}

/// Returns whether the next tag has this class and this number.
fn next_has<'a>(
    reader: &mut SliceReader<'a>,
    class: Class,
    number: u32,
) -> Result<bool, ErrorKind> {
    match Tag::peek_matches(reader, class, TagNumber(number)) {
        Ok(found) => Ok(found),
        Err(e) => Err(e.kind),
    }
}

/// Returns the tag, or the kind of the error.
fn known(tag: Result<Tag, Error>) -> Result<Tag, ErrorKind> {
    match tag {
        Ok(tag) => Ok(tag),
        Err(e) => Err(e.kind),
    }
}

#[test]
fn parts(rt: HostRuntime) {
    same(&rt, Tag::Set.class(), Class::Universal);
    holds(&rt, Tag::Set.is_constructed());
    same(&rt, Tag::Set.number().value(), 17);
    same(&rt, context(5).class(), Class::ContextSpecific);
    holds(&rt, context(5).equals(context(5)));
    holds(&rt, !context(5).equals(context(6)));
    holds(&rt, !Tag::Set.equals(Tag::Sequence));
}

#[test]
fn errors(rt: HostRuntime) {
    let expected = Some(Tag::Integer);
    let actual = Tag::Null;
    let unexpected = ErrorKind::TagUnexpected { expected, actual };
    same(
        &rt,
        Tag::Null.assert_eq(Tag::Integer),
        Err(Error::from_kind(unexpected)),
    );
    same(&rt, Tag::Null.assert_eq(Tag::Null), Ok(Tag::Null));
    same(&rt, Tag::Null.unexpected_error(expected).number(), 4);
    same(&rt, Tag::Null.value_error().number(), 13);
    same(&rt, Tag::Null.length_error().number(), 7);
    same(&rt, Tag::Null.non_canonical_error().number(), 8);
}
