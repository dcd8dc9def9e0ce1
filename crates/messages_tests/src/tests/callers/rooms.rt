//! Writing where there is too little room.

ghost use Rattle.std.specs.Prelude.{true};
ghost use Rattle.der_asn1_types.specs.BackState.{no_back};
ghost use Rattle.der_asn1_types.specs.Writing.{WriterState};

use super::tagged;
use crate::tests::{numbered, same, same_in};
use der_asn1_types::asn1::{AnyRef, SetOf};
use der_asn1_types::{Encode, Error, ErrorKind, SliceWriter, Tag, TagMode, Writer};
use std::alloc::Global;
use std::process::Abort;
use std::test::Fail;

// A writer that accepts `left` octets in all, even the start of a write, and then refuses (10).
#[derive(Drop)]
struct Bounded {
    octets: Vec<u8>,
    left: usize,
    failed: bool,
}

impl Writer for Bounded {
    ghost state = { λ w. record { taken = w.octets.items; start = (0, 0); failed = w.failed; room = 0; may_refuse = λ kind. true; back = no_back } };

    fn write(&mut self, octets: &[u8]) -> Result<(), Error> {
        if self.failed {
            return Err(Error::from_kind(ErrorKind::Failed));
        }
        if octets.is_empty() {
            return Ok(());
        }
        let count = octets.len().min(self.left);
        if self.octets.extend_from_slice(&octets[..count]).is_err() {
            self.failed = true;
            return Err(Error::from_kind(ErrorKind::Memory));
        }
        self.left -= count;
        if count < octets.len() {
            self.failed = true;
            return Err(Error::from_kind(ErrorKind::Overlength));
        }
        Ok(())
    }
}

// Asserts that a writer that accepts `left` octets refuses the value and contains a prefix of its
// encoding.
fn stops_after<T: Encode>(rt: &impl Abort, alloc: Global, value: &T, left: usize, encoding: &[u8]) {
    let mut writer = Bounded {
        octets: Vec::new(alloc),
        left,
        failed: false,
    };
    let answer = numbered(value.encode(&mut writer));
    same_in(rt, &left, answer.err(), Some(10));
    same_in(rt, &left, writer.octets.len() <= left, true);
    same_in(rt, &left, encoding.starts_with(&writer.octets), true);
}

// Asserts that a buffer that is too short is refused and left unchanged, and that a writer into
// it refuses from then on.
fn finds_no_room<T: Encode>(rt: &impl Abort, value: &T, buffer: &mut [u8]) {
    buffer.fill(0x5a);
    same(rt, numbered(value.encode_to_slice(buffer)).err(), Some(10));
    same(rt, buffer.iter().all(|octet| *octet == 0x5a), true);
    let mut writer = SliceWriter::new(buffer);
    same(rt, numbered(value.encode(&mut writer)).err(), Some(10));
    same(rt, numbered(writer.write_byte(0)).err(), Some(17));
    same(rt, numbered(writer.write(&[])).err(), Some(17));
}

// Asserts that a value is refused for each number of octets below its length, and written into a
// buffer of its length.
fn needs_room<T: Encode>(
    rt: &impl Abort,
    alloc: Global,
    value: &T,
    encoding: &[u8],
) -> Result<(), Fail> {
    let mut buffer: Vec<u8> = Vec::new(alloc);
    for left in 0..encoding.len() {
        stops_after(rt, alloc, value, left, encoding);
        finds_no_room(rt, value, &mut buffer);
        buffer.push(0)?;
    }
    same(
        rt,
        numbered(value.encode_to_slice(&mut buffer)),
        Ok(encoding),
    );
    Ok(())
}

#[test]
fn a_number_needs_its_octets(rt: HostRuntime) -> Result<(), Fail> {
    needs_room(&rt, rt.alloc(), &-129i16, &[0x02, 0x02, 0xff, 0x7f])
}

#[test]
fn a_tagged_set_needs_its_octets(rt: HostRuntime) -> Result<(), Fail> {
    let mut set: SetOf<u16, 2> = SetOf::new();
    numbered(set.insert(8))?;
    numbered(set.insert(7))?;
    let octets = [0xa2, 0x08, 0x31, 0x06, 0x02, 0x01, 0x07, 0x02, 0x01, 0x08];
    needs_room(&rt, rt.alloc(), &tagged(2, TagMode::Explicit, set), &octets)
}

#[test]
fn two_modes_need_their_octets(rt: HostRuntime) -> Result<(), Fail> {
    let alloc = rt.alloc();
    let octets = [0xa1, 0x05, 0x30, 0x03, 0x02, 0x01, 0x05];
    let modes = [
        (
            TagMode::Implicit,
            Tag::Sequence,
            [0x02, 0x01, 0x05].as_slice(),
        ),
        (TagMode::Explicit, Tag::Integer, [0x05].as_slice()),
    ];
    for (mode, tag, contents) in modes {
        let Ok(item) = AnyRef::new(tag, contents) else {
            return Err(Fail::from("refused"));
        };
        let value = tagged(1, mode, vec![in alloc; item]?);
        needs_room(&rt, alloc, &value, &octets)?;
    }
    Ok(())
}

#[test]
fn a_set_of_an_array_needs_its_octets(rt: HostRuntime) -> Result<(), Fail> {
    let set: SetOf<u16, 5> = numbered(SetOf::try_from([3, 2, 1, 65535, 0]))?;
    let octets = [
        0x31, 0x11, 0x02, 0x01, 0x00, 0x02, 0x01, 0x01, 0x02, 0x01, 0x02, 0x02, 0x01, 0x03, 0x02,
        0x03, 0x00, 0xff, 0xff,
    ];
    needs_room(&rt, rt.alloc(), &set, &octets)
}
