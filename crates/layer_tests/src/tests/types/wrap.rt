//! Tagged values of each class, in both modes.

use crate::tests::types::reads_back_in_order;
use crate::tests::{holds, numbered, same};
use der_elem::{Choice, Decode, DerOrd, Encode, FromDer, Tagged, TakesMemory, ValueOrd};
use der_opaque::{AnyRef, OctetStringRef};
use der_tlv::{EncodingRules, Reader, SliceReader, Tag, TagMode, TagNumber};
use der_wrap::{
    Application, ApplicationRef, ContextSpecific, ContextSpecificRef, Private, PrivateRef, laws,
};
use std::alloc::Global;
use std::cmp::Ordering;
use std::test::Fail;

fn tagged<T>(number: u32, tag_mode: TagMode, value: T) -> ContextSpecific<T> {
    ContextSpecific {
        tag_number: TagNumber(number),
        tag_mode,
        value,
    }
}

#[test]
fn reads_explicit_tagging(rt: HostRuntime) -> Result<(), Fail> {
    let alloc = rt.alloc();
    reads_back_in_order::<ContextSpecific<u8>>(&rt, alloc, &[0xa1, 0x03, 0x02, 0x01, 0x05])?;
    reads_back_in_order::<Application<u8>>(&rt, alloc, &[0x61, 0x03, 0x02, 0x01, 0x05])?;
    reads_back_in_order::<Private<u8>>(&rt, alloc, &[0xe1, 0x03, 0x02, 0x01, 0x05])?;
    reads_back_in_order::<Vec<ContextSpecific<u8>>>(
        &rt,
        alloc,
        &[0x30, 0x05, 0xa1, 0x03, 0x02, 0x01, 0x05],
    )?;
    reads_back_in_order::<ContextSpecific<Application<bool>>>(
        &rt,
        alloc,
        &[0xa0, 0x05, 0x62, 0x03, 0x01, 0x01, 0xff],
    )?;
    Ok(())
}

// Returns the value of a field and the reader's position.
fn explicit(alloc: Global, number: u32, octets: &[u8]) -> Result<(Option<u8>, u32), u8> {
    let mut reader = match SliceReader::new(octets) {
        Ok(reader) => reader,
        Err(e) => return Err(e.kind().number()),
    };
    let number = TagNumber(number);
    let field: Option<ContextSpecific<u8>> = numbered(ContextSpecific::decode_explicit(
        alloc,
        &mut reader,
        number,
    ))?;
    let position = reader.position().value();
    match field {
        Some(field) if field.tag_number != number || field.tag_mode != TagMode::Explicit => Err(0),
        Some(field) => Ok((Some(field.value), position)),
        None => Ok((None, position)),
    }
}

#[test]
fn reads_explicit_fields(rt: HostRuntime) {
    let alloc = rt.alloc();
    let two = [0xa0, 0x03, 0x02, 0x01, 0x00, 0xa1, 0x03, 0x02, 0x01, 0x01];
    same(&rt, explicit(alloc, 1, &two), Ok((None, 0)));
    same(&rt, explicit(alloc, 0, &two), Ok((Some(0), 5)));
    same(&rt, explicit(alloc, 0, &[]), Ok((None, 0)));
    same(&rt, explicit(alloc, 0, &[0x02, 0x01, 0x00]), Ok((None, 0)));
    same(&rt, explicit(alloc, 0, &[0x80, 0x01, 0x00]), Err(8));
    same(&rt, explicit(alloc, 0, &[0xa0, 0x02, 0x02, 0x00]), Err(7));
    same(&rt, explicit(alloc, 0, &[0x1f]), Err(2));
}

// Returns the octets of a field with implicit tagging and the reader's position.
fn implicit<'a>(
    alloc: Global,
    number: u32,
    octets: &'a [u8],
    rules: EncodingRules,
) -> Result<(Option<&'a [u8]>, u32), u8> {
    let mut reader = match SliceReader::new_with_encoding_rules(octets, rules) {
        Ok(reader) => reader,
        Err(e) => return Err(e.kind().number()),
    };
    let number = TagNumber(number);
    let field: Option<ContextSpecific<OctetStringRef<'a>>> = match ContextSpecific::decode_implicit(
        alloc,
        &mut reader,
        number,
    ) {
        Ok(field) => field,
        Err(e) => return Err(e.kind().number()),
    };
    let position = reader.position().value();
    match field {
        Some(field) if field.tag_number != number || field.tag_mode != TagMode::Implicit => Err(0),
        Some(field) => Ok((Some(field.value.as_bytes()), position)),
        None => Ok((None, position)),
    }
}

#[test]
fn reads_implicit_fields(rt: HostRuntime) {
    let alloc = rt.alloc();
    let primitive: &[u8] = &[0x81, 0x02, 0x00, 0x0f];
    let constructed: &[u8] = &[0xa1, 0x02, 0x00, 0x0f];
    let octets: &[u8] = &[0x00, 0x0f];
    same(
        &rt,
        implicit(alloc, 1, primitive, EncodingRules::Der),
        Ok((Some(octets), 4)),
    );
    same(
        &rt,
        implicit(alloc, 1, primitive, EncodingRules::Ber),
        Ok((Some(octets), 4)),
    );
    same(
        &rt,
        implicit(alloc, 1, constructed, EncodingRules::Der),
        Err(8),
    );
    same(
        &rt,
        implicit(alloc, 1, constructed, EncodingRules::Ber),
        Ok((Some(octets), 4)),
    );
    same(
        &rt,
        implicit(alloc, 1, &[], EncodingRules::Der),
        Ok((None, 0)),
    );
    same(
        &rt,
        implicit(alloc, 1, &[0x82, 0x00], EncodingRules::Der),
        Ok((None, 0)),
    );
    same(
        &rt,
        implicit(alloc, 1, &[0x41, 0x00], EncodingRules::Der),
        Ok((None, 0)),
    );
    same(
        &rt,
        implicit(alloc, 1, &[0x81, 0x03, 0x00], EncodingRules::Der),
        Err(2),
    );
    same(
        &rt,
        implicit(alloc, 1, &[0x81, 0x80], EncodingRules::Der),
        Err(16),
    );
}

#[test]
fn reads_implicit_integers(rt: HostRuntime) -> Result<(), Fail> {
    let alloc = rt.alloc();
    let Ok(mut octets) = SliceReader::new(&[0x80, 0x01, 0x05, 0xa0, 0x03, 0x02, 0x01, 0x00]) else {
        return Err(Fail::from("refused"));
    };
    let field: Option<ContextSpecific<u8>> = numbered(ContextSpecific::decode_implicit(
        alloc,
        &mut octets,
        TagNumber(0),
    ))?;
    same(&rt, field, Some(tagged(0, TagMode::Implicit, 5)));
    let constructed: Result<Option<ContextSpecific<u8>>, u8> = numbered(
        ContextSpecific::decode_implicit(alloc, &mut octets, TagNumber(0)),
    );
    same(&rt, constructed.err(), Some(8));
    same(&rt, numbered(octets.read_byte()).err(), Some(17));
    Ok(())
}

#[test]
fn reads_anys(rt: HostRuntime) -> Result<(), Fail> {
    let alloc = rt.alloc();
    let read = |octets: &[u8]| {
        let any = match AnyRef::try_from(octets) {
            Ok(any) => any,
            Err(e) => return Err(e.kind().number()),
        };
        numbered(ContextSpecific::<u8>::from_any(alloc, any))
    };
    let five: &[u8] = &[0xa1, 0x03, 0x02, 0x01, 0x05];
    same(&rt, read(five), Ok(tagged(1, TagMode::Explicit, 5)));
    same(&rt, read(&[0x81, 0x03, 0x02, 0x01, 0x05]).err(), Some(4));
    same(&rt, read(&[0x61, 0x03, 0x02, 0x01, 0x05]).err(), Some(4));
    same(
        &rt,
        read(&[0xa1, 0x04, 0x02, 0x01, 0x05, 0x00]).err(),
        Some(3),
    );
    same(&rt, read(&[0xa1, 0x02, 0x02, 0x00]).err(), Some(7));
    Ok(())
}

// Returns the encoding of a value, through the bound.
fn encoding<T: Encode>(alloc: Global, value: &T) -> Result<Vec<u8>, u8> {
    numbered(value.to_der(alloc))
}

#[test]
fn writes_both_modes(rt: HostRuntime) -> Result<(), Fail> {
    let alloc = rt.alloc();
    let explicit: ContextSpecific<u8> = tagged(1, TagMode::Explicit, 5);
    let implicit: ContextSpecific<u8> = tagged(1, TagMode::Implicit, 5);
    let octets = [
        [0xa1u8, 0x03, 0x02, 0x01, 0x05].as_slice(),
        &[0x81, 0x01, 0x05],
    ];
    same(&rt, encoding(alloc, &explicit)?.as_slice(), octets[0]);
    same(&rt, encoding(alloc, &implicit)?.as_slice(), octets[1]);
    let list = [1u8, 2];
    let borrowed = ApplicationRef {
        tag_number: TagNumber(2),
        tag_mode: TagMode::Implicit,
        value: &list,
    };
    let nested = [0x62u8, 0x06, 0x02, 0x01, 0x01, 0x02, 0x01, 0x02];
    same(
        &rt,
        encoding(alloc, &borrowed)?.as_slice(),
        nested.as_slice(),
    );
    same(&rt, numbered(borrowed.encoded_len())?.value(), 8);
    let five = 5u8;
    for (i, tag_mode) in [TagMode::Explicit, TagMode::Implicit]
        .into_iter()
        .enumerate()
    {
        let tag_number = TagNumber(1);
        let borrowed = ContextSpecificRef {
            tag_number,
            tag_mode,
            value: &five,
        };
        same(&rt, encoding(alloc, &borrowed)?.as_slice(), octets[i]);
        let private = PrivateRef {
            tag_number,
            tag_mode,
            value: &five,
        };
        same(
            &rt,
            private.tag().is_constructed(),
            tag_mode == TagMode::Explicit,
        );
    }
    Ok(())
}

#[test]
fn writes_two_modes_alike(rt: HostRuntime) -> Result<(), Fail> {
    let alloc = rt.alloc();
    let Ok(sequence) = AnyRef::new(Tag::Sequence, &[0x02, 0x01, 0x05]) else {
        return Err(Fail::from("refused"));
    };
    let Ok(integer) = AnyRef::new(Tag::Integer, &[0x05]) else {
        return Err(Fail::from("refused"));
    };
    let implicit: ContextSpecific<Vec<AnyRef>> = tagged(
        1,
        TagMode::Implicit,
        vec![in alloc; sequence]?,
    );
    let integers = tagged(1, TagMode::Explicit, vec![in alloc; integer]?);
    let octets = [0xa1u8, 0x05, 0x30, 0x03, 0x02, 0x01, 0x05];
    same(
        &rt,
        encoding(alloc, &implicit)?.as_slice(),
        octets.as_slice(),
    );
    same(
        &rt,
        encoding(alloc, &integers)?.as_slice(),
        octets.as_slice(),
    );
    same(&rt, numbered(implicit.value_cmp(&integers)).err(), Some(13));
    same(&rt, numbered(implicit.der_cmp(&integers)).err(), Some(13));
    Ok(())
}

fn order<T: DerOrd + ValueOrd>(a: &T, b: &T) -> (Result<Ordering, u8>, Result<Ordering, u8>) {
    (numbered(a.der_cmp(b)), numbered(a.value_cmp(b)))
}

#[test]
fn orders_values(rt: HostRuntime) {
    let both = |mode: TagMode, other: TagMode, a: u8, b: u8| {
        let a: ContextSpecific<u8> = tagged(1, mode, a);
        let b: ContextSpecific<u8> = tagged(1, other, b);
        order(&a, &b)
    };
    let less = (Ok(Ordering::Less), Ok(Ordering::Less));
    same(&rt, both(TagMode::Explicit, TagMode::Explicit, 5, 6), less);
    same(&rt, both(TagMode::Implicit, TagMode::Implicit, 5, 6), less);
    same(
        &rt,
        both(TagMode::Implicit, TagMode::Explicit, 5, 5),
        (Ok(Ordering::Less), Err(13)),
    );
    let first: ContextSpecific<u8> = tagged(16383, TagMode::Explicit, 0);
    let second = tagged(16384, TagMode::Explicit, 0);
    same(&rt, numbered(first.der_cmp(&second)), Ok(Ordering::Greater));
    holds(&rt, first < second);
    let implicit: ContextSpecific<u8> = tagged(1, TagMode::Implicit, 0);
    holds(&rt, tagged(1, TagMode::Explicit, 9) < implicit);
}

#[test]
fn knows_tags(rt: HostRuntime) {
    let number = TagNumber(3);
    let context = Tag::ContextSpecific {
        constructed: true,
        number,
    };
    let private = Tag::Private {
        constructed: false,
        number,
    };
    let value: ContextSpecific<u8> = tagged(3, TagMode::Explicit, 0);
    same(&rt, value.tag(), context);
    holds(&rt, ContextSpecific::<u8>::can_decode(context));
    holds(&rt, !Application::<u8>::can_decode(context));
    holds(&rt, Private::<u8>::can_decode(private));
    holds(&rt, !Private::<u8>::can_decode(Tag::Integer));
    holds(&rt, !<ContextSpecific<u8> as TakesMemory>::TAKES_MEMORY);
    holds(&rt, <Application<Vec<u8>> as TakesMemory>::TAKES_MEMORY);
}

#[test]
fn the_mode_is_compared_before_the_value(rt: HostRuntime) {
    let explicit: ContextSpecific<u8> = tagged(1, TagMode::Explicit, 5);
    let implicit: ContextSpecific<u8> = tagged(1, TagMode::Implicit, 4);
    same(
        &rt,
        laws::number_then_mode_then_value(&explicit, &implicit),
        Ordering::Less,
    );
    let (five, four) = (5u8, 4u8);
    let explicit: ContextSpecificRef<u8> = ContextSpecificRef {
        tag_number: TagNumber(1),
        tag_mode: TagMode::Explicit,
        value: &five,
    };
    let implicit: ContextSpecificRef<u8> = ContextSpecificRef {
        tag_number: TagNumber(1),
        tag_mode: TagMode::Implicit,
        value: &four,
    };
    let order = laws::borrowed_number_then_mode_then_value(&explicit, &implicit);
    same(&rt, order, Ordering::Less);
}
