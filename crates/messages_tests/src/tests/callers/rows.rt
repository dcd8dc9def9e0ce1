//! Values of several kinds in one another: tagged sets, sets of tagged values, tagged bit strings.

use super::tagged;
use crate::tests::{numbered, same};
use der_asn1_types::asn1::{
    AnyRef, BitStringRef, ContextSpecific, ContextSpecificRef, SetOf, SetOfVec, Utf8StringRef,
};
use der_asn1_types::{DerOrd, Encode, EncodingRules, SliceReader, Tag, TagMode, TagNumber, Tagged};
use std::alloc::Global;
use std::test::Fail;

// Returns the encoding of a value, through the bound.
fn encoding<T: Encode>(alloc: Global, value: &T) -> Result<Vec<u8>, u8> {
    numbered(value.to_der(alloc))
}

#[test]
fn a_tagged_set_of_two_insertions(rt: HostRuntime) -> Result<(), Fail> {
    let mut set: SetOf<u16, 2> = SetOf::new();
    numbered(set.insert(8))?;
    numbered(set.insert(7))?;
    same(&rt, numbered(set.insert(6)).err(), Some(10));
    let octets = [0xa2, 0x08, 0x31, 0x06, 0x02, 0x01, 0x07, 0x02, 0x01, 0x08];
    let written = encoding(rt.alloc(), &tagged(2, TagMode::Explicit, set))?;
    same(&rt, written.as_slice(), octets.as_slice());
    Ok(())
}

// Extends a set of the first item by the others. Returns the number of the refusal, if there is
// one, and the encoding of the set.
fn extended<T: DerOrd + Encode + Tagged>(
    alloc: Global,
    first: T,
    others: Vec<T>,
) -> Result<(Option<u8>, Vec<u8>), u8> {
    let mut set = SetOfVec::new(alloc);
    numbered(set.insert(first))?;
    let refused = numbered(set.extend(others)).err();
    Ok((refused, encoding(alloc, &set)?))
}

// Inserts the others one by one into a set of the first item, up to the first refusal. Returns
// its number, if there is one, and the encoding of the set.
fn inserted<T: DerOrd + Encode + Tagged>(
    alloc: Global,
    first: T,
    others: Vec<T>,
) -> Result<(Option<u8>, Vec<u8>), u8> {
    let mut set = SetOfVec::new(alloc);
    numbered(set.insert(first))?;
    for item in others {
        let answer = numbered(set.insert(item));
        if answer.is_err() {
            return Ok((answer.err(), encoding(alloc, &set)?));
        }
    }
    Ok((None, encoding(alloc, &set)?))
}

// Returns the number with which a set of the items is refused, if it is.
fn collected<T: DerOrd>(alloc: Global, items: Vec<T>) -> Option<u8> {
    numbered(SetOfVec::from_iter(alloc, items)).err()
}

// A list with its own tag.
type TaggedList = ContextSpecific<Vec<AnyRef<'static>>>;

// Returns a list of this value, or of none.
fn list(
    alloc: Global,
    number: u32,
    mode: TagMode,
    item: Option<AnyRef<'static>>,
) -> Result<TaggedList, Fail> {
    let mut items = Vec::new(alloc);
    if let Some(item) = item {
        items.push(item)?;
    }
    Ok(tagged(number, mode, items))
}

// Returns an implicit and an explicit value with the octets A1 05 30 03 02 01 05, which are not
// compared.
fn two_modes(alloc: Global) -> Result<(TaggedList, TaggedList), Fail> {
    let Ok(sequence) = AnyRef::new(Tag::Sequence, &[0x02, 0x01, 0x05]) else {
        return Err(Fail::from("refused"));
    };
    let Ok(integer) = AnyRef::new(Tag::Integer, &[0x05]) else {
        return Err(Fail::from("refused"));
    };
    let implicit = list(alloc, 1, TagMode::Implicit, Some(sequence))?;
    Ok((implicit, list(alloc, 1, TagMode::Explicit, Some(integer))?))
}

#[test]
fn two_modes_do_not_stand_in_one_set(rt: HostRuntime) -> Result<(), Fail> {
    let alloc = rt.alloc();
    let (implicit, explicit) = two_modes(alloc)?;
    let mut others = Vec::new(alloc);
    others.push(list(alloc, 0, TagMode::Explicit, None)?)?;
    others.push(explicit)?;
    others.push(list(alloc, 2, TagMode::Explicit, None)?)?;
    let (refused, stands) = extended(alloc, implicit, others)?;
    same(&rt, refused, Some(13));
    let octets = [
        0x31, 0x0b, 0xa0, 0x02, 0x30, 0x00, 0xa1, 0x05, 0x30, 0x03, 0x02, 0x01, 0x05,
    ];
    same(&rt, stands.as_slice(), octets.as_slice());
    Ok(())
}

#[test]
fn two_modes_are_not_inserted(rt: HostRuntime) -> Result<(), Fail> {
    let alloc = rt.alloc();
    let (implicit, explicit) = two_modes(alloc)?;
    let mut others = Vec::new(alloc);
    others.push(explicit)?;
    let (refused, stands) = inserted(alloc, implicit, others)?;
    same(&rt, refused, Some(13));
    let octets = [0x31, 0x07, 0xa1, 0x05, 0x30, 0x03, 0x02, 0x01, 0x05];
    same(&rt, stands.as_slice(), octets.as_slice());
    let (implicit, explicit) = two_modes(alloc)?;
    let mut items = Vec::new(alloc);
    items.push(implicit)?;
    items.push(explicit)?;
    same(&rt, collected(alloc, items), Some(13));
    Ok(())
}

#[test]
fn identifier_octets_decide_and_not_numbers(rt: HostRuntime) -> Result<(), Fail> {
    let alloc = rt.alloc();
    let first: ContextSpecific<u8> = tagged(16383, TagMode::Explicit, 0);
    let mut others = Vec::new(alloc);
    others.push(tagged(16384, TagMode::Explicit, 0))?;
    let (refused, stands) = extended(alloc, first, others)?;
    same(&rt, refused, None);
    let octets = [
        0x31, 0x0f, 0xbf, 0x81, 0x80, 0x00, 0x03, 0x02, 0x01, 0x00, 0xbf, 0xff, 0x7f, 0x03, 0x02,
        0x01, 0x00,
    ];
    same(&rt, stands.as_slice(), octets.as_slice());
    Ok(())
}

// Returns the octets of a bit string with implicit tagging and the number 1, if it has no unused
// bits.
fn implicit_bits<'a>(
    alloc: Global,
    octets: &'a [u8],
    rules: EncodingRules,
) -> Result<Option<&'a [u8]>, u8> {
    let mut reader = match SliceReader::new_with_encoding_rules(octets, rules) {
        Ok(reader) => reader,
        Err(e) => return Err(e.kind().number()),
    };
    let field: Option<ContextSpecific<BitStringRef<'a>>> = match ContextSpecific::decode_implicit(
        alloc,
        &mut reader,
        TagNumber(1),
    ) {
        Ok(field) => field,
        Err(e) => return Err(e.kind().number()),
    };
    match field {
        Some(field) => Ok(field.value.as_bytes()),
        None => Ok(None),
    }
}

#[test]
fn bit_strings_with_implicit_tagging(rt: HostRuntime) {
    let alloc = rt.alloc();
    let octets: &[u8] = &[0x0f];
    let constructed = [0xa1, 0x02, 0x00, 0x0f];
    same(
        &rt,
        implicit_bits(alloc, &[0x81, 0x02, 0x00, 0x0f], EncodingRules::Der),
        Ok(Some(octets)),
    );
    same(
        &rt,
        implicit_bits(alloc, &constructed, EncodingRules::Der),
        Err(8),
    );
    same(
        &rt,
        implicit_bits(alloc, &constructed, EncodingRules::Ber),
        Ok(Some(octets)),
    );
    same(
        &rt,
        implicit_bits(alloc, &[0x81, 0x02, 0x01, 0x81], EncodingRules::Ber),
        Err(8),
    );
}

#[test]
fn a_public_key_with_implicit_tagging(rt: HostRuntime) {
    let octets = [
        0x81, 0x21, 0x00, 0x19, 0xbf, 0x44, 0x09, 0x69, 0x84, 0xcd, 0xfe, 0x85, 0x41, 0xba, 0xc1,
        0x67, 0xdc, 0x3b, 0x96, 0xc8, 0x50, 0x86, 0xaa, 0x30, 0xb6, 0xb6, 0xcb, 0x0c, 0x5c, 0x38,
        0xad, 0x70, 0x31, 0x66, 0xe1,
    ];
    let key = implicit_bits(rt.alloc(), &octets, EncodingRules::Der);
    same(&rt, key, Ok(Some(&octets[3..])));
}

#[test]
fn a_borrowed_set_of_texts_with_implicit_tagging(rt: HostRuntime) -> Result<(), Fail> {
    let alloc = rt.alloc();
    let (Ok(hello), Ok(world)) = (Utf8StringRef::new(b"Hello"), Utf8StringRef::new(b"world")) else {
        return Err(Fail::from("refused"));
    };
    let mut texts: SetOfVec<Utf8StringRef> = SetOfVec::new(alloc);
    numbered(texts.insert(world))?;
    numbered(texts.insert(hello))?;
    let value = ContextSpecificRef {
        tag_number: TagNumber(2),
        tag_mode: TagMode::Implicit,
        value: &texts,
    };
    let written = encoding(alloc, &value)?;
    same(
        &rt,
        written.as_slice(),
        b"\xa2\x0e\x0c\x05Hello\x0c\x05world".as_slice(),
    );
    Ok(())
}

// Returns the number of texts in a set with implicit tagging and the number 2.
fn implicit_texts(alloc: Global, octets: &[u8]) -> Result<Option<usize>, u8> {
    let mut reader = match SliceReader::new(octets) {
        Ok(reader) => reader,
        Err(e) => return Err(e.kind().number()),
    };
    let field: Option<ContextSpecific<SetOfVec<Utf8StringRef>>> =
        match ContextSpecific::decode_implicit(alloc, &mut reader, TagNumber(2)) {
            Ok(field) => field,
            Err(e) => return Err(e.kind().number()),
        };
    match field {
        Some(field) => Ok(Some(field.value.len())),
        None => Ok(None),
    }
}

#[test]
fn a_set_of_texts_with_implicit_tagging(rt: HostRuntime) {
    let octets = b"\xa2\x0e\x0c\x05Hello\x0c\x05world";
    same(&rt, implicit_texts(rt.alloc(), octets), Ok(Some(2)));
}
