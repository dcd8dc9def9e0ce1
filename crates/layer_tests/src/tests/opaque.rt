mod borrowed_identifiers;
mod builtin_types;
mod conversions;
mod real_values;

use crate::tests::{holds, measured, same};
use der_elem::{Decode, DerOrd, Duplicate, Encode, FromDer, Tagged, ValueOrd};
use der_opaque::{Any, AnyRef, Null, ObjectIdentifier, OctetString, OctetStringRef, laws};
use der_tlv::{
    BytesRef, EncodingRules, Error, ErrorKind, Length, Reader, SliceReader, Tag, TagNumber,
};
use std::alloc::Global;
use std::cmp::Ordering;
use std::test::Fail;

/// The octets of an OCTET STRING with the contents Hello, world.
const HELLO: [u8; 14] = *b"\x04\x0cHello, world";

/// The octets of an OBJECT IDENTIFIER.
const NAME: [u8; 5] = [0x06, 0x03, 0x55, 0x04, 0x03];

/// Returns the number of the error with which a borrowed value is refused, or 0.
fn refusal(bytes: &[u8]) -> u8 {
    match AnyRef::try_from(bytes) {
        Ok(_) => 0,
        Err(e) => e.kind.number(),
    }
}

#[test]
fn octet_strings_are_read_and_written(rt: HostRuntime) -> Result<(), Fail> {
    let alloc = rt.alloc();
    let owned = OctetString::from_der(alloc, &HELLO)?;
    same(&rt, owned.as_bytes(), b"Hello, world".as_slice());
    same(&rt, owned.len(), Length::new(12));
    holds(&rt, !owned.is_empty());
    same(&rt, owned.to_der(alloc)?.as_slice(), HELLO.as_slice());
    let copy = owned.duplicate()?;
    holds(&rt, copy == owned);
    same(
        &rt,
        copy.into_bytes().as_slice(),
        b"Hello, world".as_slice(),
    );
    Ok(())
}

#[test]
fn borrowed_octet_strings_are_read_and_written(rt: HostRuntime) -> Result<(), Fail> {
    let alloc = rt.alloc();
    let Ok(borrowed) = OctetStringRef::from_der(alloc, &HELLO) else {
        panic!(rt; "refused")
    };
    same(&rt, borrowed.as_bytes(), b"Hello, world".as_slice());
    same(&rt, borrowed.len(), Length::new(12));
    holds(&rt, !borrowed.is_empty());
    same(&rt, borrowed.to_der(alloc)?.as_slice(), HELLO.as_slice());
    Ok(())
}

#[test]
fn octet_strings_are_read_under_ber(rt: HostRuntime) -> Result<(), Fail> {
    let alloc = rt.alloc();
    let Ok(mut reader) = SliceReader::new_with_encoding_rules(&HELLO, EncodingRules::Ber) else {
        panic!(rt; "refused")
    };
    let owned = OctetString::decode(alloc, &mut reader)?;
    same(&rt, owned.as_bytes(), b"Hello, world".as_slice());
    let Ok(mut reader) = SliceReader::new_with_encoding_rules(&HELLO, EncodingRules::Ber) else {
        panic!(rt; "refused")
    };
    let Ok(borrowed) = OctetStringRef::decode(alloc, &mut reader) else {
        panic!(rt; "refused")
    };
    same(&rt, borrowed.as_bytes(), b"Hello, world".as_slice());
    Ok(())
}

#[test]
fn octet_strings_convert(rt: HostRuntime) -> Result<(), Fail> {
    let alloc = rt.alloc();
    let Ok(string) = OctetStringRef::new(&[1, 2]) else {
        panic!(rt; "refused")
    };
    same(&rt, string.to_vec(alloc)?.as_slice(), [1, 2].as_slice());
    let owned = string.ref_to_owned(alloc)?;
    holds(&rt, owned.owned_to_ref() == string);
    holds(&rt, OctetStringRef::from(&owned) == string);
    same(&rt, <[u8; 2]>::try_from(string)?, [1, 2]);
    holds(
        &rt,
        matches!(<[u8; 3]>::try_from(string), Err(e) if e.kind.number() == 7),
    );
    let any = AnyRef::from(string);
    same(&rt, any.tag(), Tag::OctetString);
    holds(
        &rt,
        matches!(OctetStringRef::try_from(any), Ok(same) if same == string),
    );
    holds(
        &rt,
        matches!(OctetStringRef::try_from(AnyRef::NULL), Err(e) if e.kind.number() == 4),
    );
    let bytes: Vec<u8> = owned.into();
    holds(
        &rt,
        matches!(OctetStringRef::try_from(&bytes), Ok(same) if same == string),
    );
    Ok(())
}

#[test]
fn octet_strings_hold_encodings(rt: HostRuntime) -> Result<(), Fail> {
    let Ok(string) = OctetStringRef::new(&HELLO) else {
        panic!(rt; "refused")
    };
    let held: OctetString = string.decode_into(rt.alloc())?;
    same(&rt, held.as_bytes(), b"Hello, world".as_slice());
    Ok(())
}

#[test]
fn null_has_no_contents(rt: HostRuntime) -> Result<(), Fail> {
    let alloc = rt.alloc();
    same(&rt, Null::from_der(alloc, &[5, 0])?, Null);
    holds(
        &rt,
        matches!(Null::from_der(alloc, &[5, 1, 0xaa]), Err(e) if e.kind.number() == 7),
    );
    same(&rt, Null.to_der(alloc)?.as_slice(), [5, 0].as_slice());
    holds(&rt, AnyRef::NULL.is_null());
    holds(&rt, AnyRef::from(Null).is_null());
    holds(&rt, AnyRef::from(()).is_null());
    holds(&rt, Any::null(alloc).is_null());
    same(&rt, Null::try_from(AnyRef::NULL)?, Null);
    same(&rt, Null::try_from(&Any::null(alloc))?, Null);
    Ok(())
}

#[test]
fn any_header_is_kept(rt: HostRuntime) {
    let Ok(any) = AnyRef::try_from([0x0a, 0x01, 0x05].as_slice()) else {
        panic!(rt; "refused")
    };
    same(&rt, any.tag(), Tag::Enumerated);
    same(&rt, any.value(), [5].as_slice());
    same(&rt, any.header().length, Length::ONE);
    same(&rt, BytesRef::from(any).as_slice(), [5].as_slice());
}

#[test]
fn any_header_is_refused(rt: HostRuntime) {
    same(&rt, refusal(&[0x05, 0x80]), 16);
    same(&rt, refusal(&[0x02, 0x85]), 10);
    same(&rt, refusal(&[0x19, 0x00]), 5);
    same(&rt, refusal(&[0x22, 0x01, 0x05]), 8);
    same(&rt, refusal(&[0x05, 0x00, 0x00]), 3);
    let Err(e) = AnyRef::try_from([].as_slice()) else {
        panic!(rt; "accepted")
    };
    same(
        &rt,
        e.kind,
        ErrorKind::Incomplete {
            expected_len: Length::ONE,
            actual_len: Length::ZERO,
        },
    );
}

#[test]
fn any_keeps_what_it_is_given(rt: HostRuntime) -> Result<(), Fail> {
    let alloc = rt.alloc();
    let any = Any::from_der(alloc, &HELLO)?;
    same(&rt, any.tag(), Tag::OctetString);
    same(&rt, any.value(), b"Hello, world".as_slice());
    same(&rt, any.header().length, Length::new(12));
    same(&rt, any.to_der(alloc)?.as_slice(), HELLO.as_slice());
    Ok(())
}

/// Returns whether a copy of the value, and a value made from its tag and its contents octets,
/// are equal to it.
fn is_made_again(alloc: Global, any: &Any) -> Result<bool, Error> {
    let copy = any.duplicate()?;
    let Ok(octets) = any.value().to_vec(alloc) else {
        return Ok(false);
    };
    let made = Any::new(any.tag(), octets)?;
    Ok(copy == *any && made == *any)
}

/// Returns whether both ways to borrow from the value agree, and whether the owned value made
/// from the borrowed one is equal to it.
fn is_borrowed(alloc: Global, any: &Any) -> Result<bool, Error> {
    let borrowed = any.owned_to_ref();
    let owned = borrowed.ref_to_owned(alloc)?;
    Ok(AnyRef::from(any) == borrowed && owned == *any)
}

/// Returns whether the value is the one that is kept from the OCTET STRING in these octets.
fn is_kept_of(alloc: Global, any: &Any, octets: &[u8]) -> Result<bool, Error> {
    let string = OctetString::from_der(alloc, octets)?;
    let kept = Any::encode_from(alloc, &string)?;
    Ok(kept == *any)
}

#[test]
fn any_is_made_in_several_ways(rt: HostRuntime) -> Result<(), Fail> {
    let alloc = rt.alloc();
    let any = Any::new(Tag::OctetString, b"Hello, world".to_vec(alloc)?)?;
    holds(&rt, Any::from_der(alloc, &HELLO)? == any);
    holds(&rt, is_made_again(alloc, &any)?);
    holds(&rt, is_borrowed(alloc, &any)?);
    holds(&rt, is_kept_of(alloc, &any, &HELLO)?);
    Ok(())
}

#[test]
fn any_is_decoded_as_a_type(rt: HostRuntime) -> Result<(), Fail> {
    let alloc = rt.alloc();
    let Ok(any) = AnyRef::new(Tag::OctetString, &[1, 2]) else {
        panic!(rt; "refused")
    };
    let string: OctetString = any.decode_as(alloc)?;
    same(&rt, string.as_bytes(), [1, 2].as_slice());
    let owned = any.ref_to_owned(alloc)?;
    let string: OctetString = owned.decode_as_encoding(alloc, EncodingRules::Ber)?;
    same(&rt, string.as_bytes(), [1, 2].as_slice());
    let refused: Result<Null, Error> = any.decode_as(alloc);
    let Err(e) = refused else {
        panic!(rt; "accepted")
    };
    same(
        &rt,
        e.kind,
        ErrorKind::TagUnexpected {
            expected: None,
            actual: Tag::OctetString,
        },
    );
    Ok(())
}

/// Reads NULL and an OCTET STRING, and returns the number of octets of the string.
fn read_two(alloc: Global, reader: &mut SliceReader<'_>) -> Result<Length, Error> {
    let _null = Null::decode(alloc, reader)?;
    let string = OctetString::decode(alloc, reader)?;
    Ok(string.len())
}

/// Reads NULL and an OCTET STRING from the contents octets of a value.
fn sequence_of_two(alloc: Global, tag: Tag, contents: &[u8]) -> Result<Length, ErrorKind> {
    let any = match AnyRef::new(tag, contents) {
        Ok(any) => any,
        Err(e) => return Err(e.kind),
    };
    match any.sequence(|reader| read_two(alloc, reader)) {
        Ok(len) => Ok(len),
        Err(e) => refused(e),
    }
}

/// Reads no value from the contents octets, after a refusal that is ignored.
fn sequence_of_none(contents: &[u8]) -> Result<Length, ErrorKind> {
    let any = match AnyRef::new(Tag::Sequence, contents) {
        Ok(any) => any,
        Err(e) => return Err(e.kind),
    };
    match any.sequence(read_too_much) {
        Ok(len) => Ok(len),
        Err(e) => refused(e),
    }
}

/// Asks for more octets than there are, and continues.
fn read_too_much(reader: &mut SliceReader<'_>) -> Result<Length, Error> {
    match reader.read_slice(Length::new(9)) {
        Ok(_) => Ok(Length::ONE),
        Err(_) => Ok(Length::ZERO),
    }
}

/// Returns the kind of an error.
fn refused(e: Error) -> Result<Length, ErrorKind> {
    Err(e.kind)
}

#[test]
fn sequences_are_read_by_a_function(rt: HostRuntime) {
    let alloc = rt.alloc();
    same(
        &rt,
        sequence_of_two(alloc, Tag::Sequence, &[5, 0, 4, 1, 7]),
        Ok(Length::ONE),
    );
    same(
        &rt,
        sequence_of_two(alloc, Tag::Sequence, &[5, 0, 4, 1, 7, 5, 0]),
        Err(ErrorKind::TrailingData {
            decoded: Length::new(5),
            remaining: Length::new(2),
        }),
    );
    same(&rt, sequence_of_none(&[5, 0]), Err(ErrorKind::Failed));
    same(
        &rt,
        sequence_of_two(alloc, Tag::Null, &[]),
        Err(ErrorKind::TagUnexpected {
            expected: Some(Tag::Sequence),
            actual: Tag::Null,
        }),
    );
}

/// Returns an empty value with a constructed context-specific tag.
fn numbered(number: u32) -> Result<AnyRef<'static>, Error> {
    AnyRef::new(
        Tag::ContextSpecific {
            constructed: true,
            number: TagNumber(number),
        },
        &[],
    )
}

#[test]
fn order_is_that_of_identifier_octets(rt: HostRuntime) -> Result<(), Fail> {
    let low = match numbered(16383) {
        Ok(any) => any,
        Err(e) => panic!(rt; "refused: {:?}", e.kind)
    };
    let high = match numbered(16384) {
        Ok(any) => any,
        Err(e) => panic!(rt; "refused: {:?}", e.kind)
    };
    same(&rt, high.der_cmp(&low)?, Ordering::Less);
    same(&rt, high.cmp(&low), Ordering::Less);
    let short = match AnyRef::new(Tag::OctetString, &[9]) {
        Ok(any) => any,
        Err(e) => panic!(rt; "refused: {:?}", e.kind)
    };
    let long = match AnyRef::new(Tag::OctetString, &[1, 2]) {
        Ok(any) => any,
        Err(e) => panic!(rt; "refused: {:?}", e.kind)
    };
    same(&rt, short.der_cmp(&long)?, Ordering::Less);
    same(&rt, short.cmp(&long), Ordering::Greater);
    Ok(())
}

#[test]
fn identifiers_are_opaque(rt: HostRuntime) -> Result<(), Fail> {
    let alloc = rt.alloc();
    let Ok(name) = ObjectIdentifier::<3>::from_bytes(&[0x55, 0x04, 0x03]) else {
        panic!(rt; "refused")
    };
    same(&rt, name.as_bytes(), [0x55, 0x04, 0x03].as_slice());
    same(&rt, name.to_der(alloc)?.as_slice(), NAME.as_slice());
    holds(
        &rt,
        matches!(ObjectIdentifier::<3>::from_der(alloc, &NAME), Ok(same) if same == name),
    );
    holds(
        &rt,
        matches!(ObjectIdentifier::<3>::try_from(AnyRef::from(&name)), Ok(same) if same == name),
    );
    Ok(())
}

#[test]
fn identifiers_are_refused(rt: HostRuntime) {
    let alloc = rt.alloc();
    holds(
        &rt,
        matches!(ObjectIdentifier::<3>::from_der(alloc, &[6, 0]), Err(e) if e.kind.number() == 15),
    );
    holds(
        &rt,
        matches!(ObjectIdentifier::<2>::from_der(alloc, &NAME), Err(e) if e.kind.number() == 7),
    );
    holds(
        &rt,
        matches!(ObjectIdentifier::<3>::try_from(AnyRef::NULL), Err(e) if e.kind.number() == 4),
    );
}

#[test]
fn types_are_used_through_their_traits(rt: HostRuntime) -> Result<(), Fail> {
    same(&rt, measured(&Null)?, (Tag::Null, Length::new(2)));
    let string = match OctetStringRef::new(&[1]) {
        Ok(string) => string,
        Err(e) => panic!(rt; "refused: {:?}", e.kind)
    };
    same(&rt, measured(&string)?, (Tag::OctetString, Length::new(3)));
    Ok(())
}

#[test]
fn any_values_are_ordered_by_their_tags_first(rt: HostRuntime) -> Result<(), Fail> {
    let alloc = rt.alloc();
    let integer = Any::from_der(alloc, &[0x02, 0x01, 0x7f])?;
    let octets = Any::from_der(alloc, &[0x04, 0x01, 0x00])?;
    same(
        &rt,
        laws::tag_then_contents(&integer, &octets),
        Ordering::Less,
    );
    let (Ok(integer), Ok(octets)) = (
        AnyRef::from_der(alloc, &[0x02, 0x01, 0x7f]),
        AnyRef::from_der(alloc, &[0x04, 0x01, 0x00]),
    ) else {
        panic!(rt; "refused")
    };
    same(
        &rt,
        laws::borrowed_tag_then_contents(&integer, &octets),
        Ordering::Less,
    );
    same(
        &rt,
        laws::universal_tags(),
        [
            Tag::Null,
            Tag::OctetString,
            Tag::OctetString,
            Tag::ObjectIdentifier,
            Tag::ObjectIdentifier,
        ],
    );
    same(&rt, laws::null().tag(), Tag::Null);
    Ok(())
}

#[test]
fn a_list_is_before_one_with_more_items(rt: HostRuntime) -> Result<(), Fail> {
    let alloc = rt.alloc();
    let Ok(five) = AnyRef::new(Tag::Integer, &[0x05]) else {
        panic!(rt; "refused")
    };
    let short = vec![in alloc; five]?;
    let long = vec![in alloc; five, AnyRef::NULL]?;
    holds(&rt, matches!(short.value_cmp(&long), Ok(Ordering::Less)));
    Ok(())
}
