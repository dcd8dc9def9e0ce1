//! What stands after a refusal: the reader, and where the fault was found.

use crate::tests::{holds, numbered, same, same_in};
use der_elem::{Decode, DecodeValue, FromDer, OneTag};
use der_tlv::{Error, Length, Reader, SliceReader, Tag};
use std::alloc::Global;
use std::process::Abort;
use std::test::Fail;

#[test]
fn a_reader_stays_refused_by_a_value(rt: HostRuntime) -> Result<(), Fail> {
    let Ok(mut reader) = SliceReader::new(&[0x02, 0x00]) else {
        return Err(Fail::from("refused"));
    };
    same(&rt, numbered(u8::decode(rt.alloc(), &mut reader)), Err(7));
    same(&rt, numbered(reader.read_byte()), Err(17));
    same(&rt, numbered(Tag::peek(&mut reader)).err(), Some(17));
    same(&rt, numbered(reader.nest(Length::ZERO)).err(), Some(17));
    same(&rt, numbered(reader.unnest(Length::new(2))), Err(17));
    holds(&rt, reader.is_finished());
    same(&rt, numbered(reader.finish()), Err(17));
    Ok(())
}

// Returns the result of a call, with a refusal as its position.
fn placed<T>(answer: Result<T, Error>) -> Result<T, Option<Length>> {
    match answer {
        Ok(value) => Ok(value),
        Err(e) => Err(e.position()),
    }
}

// Returns the position at which octets are refused as a value.
fn place<'a, T: FromDer<'a>>(alloc: Global, octets: &'a [u8]) -> Option<Option<Length>> {
    placed(T::from_der(alloc, octets)).err()
}

// Asserts that the octets of each row are refused at this position.
fn places<'a, T: DecodeValue<'a, SliceReader<'a>> + OneTag>(
    rt: &impl Abort,
    alloc: Global,
    rows: &[(&'a [u8], u32)],
) {
    for (octets, position) in rows {
        same_in(
            rt,
            octets,
            place::<T>(alloc, octets),
            Some(Some(Length::new(*position))),
        );
    }
}

#[test]
fn a_fault_has_its_position(rt: HostRuntime) {
    let alloc = rt.alloc();
    // Another tag, after its header; contents octets, after them; octets left over, before them.
    let booleans: [(&[u8], u32); 2] = [(&[0x05, 0x00], 2), (&[0x01, 0x01, 0xff, 0x00], 3)];
    places::<bool>(&rt, alloc, &booleans);
    places::<u8>(&rt, alloc, &[(&[0x02, 0x00], 2)]);
    places::<i16>(&rt, alloc, &[(&[0x02, 0x02, 0x00, 0x05], 4)]);
    // In the second item of a list: what is cut, and another tag.
    let lists: [(&[u8], u32); 2] = [
        (&[0x30, 0x05, 0x02, 0x01, 0x05, 0x02, 0x01], 7),
        (&[0x30, 0x05, 0x02, 0x01, 0x05, 0x05, 0x00], 7),
    ];
    places::<Vec<i64>>(&rt, alloc, &lists);
}
