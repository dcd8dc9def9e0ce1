//! Lengths, headers, readers, writers and errors.

ghost use Rattle.std.specs.Prelude.{◌≡◌, length, ◌<◌, ◌^◌, OnErr};

use crate::tests::{holds, refusal, same, same_in};
use der_tlv::{
    BytesOwned, BytesRef, Class, EncodingRules, Error, ErrorKind, Header, Length, Reader,
    SliceReader, SliceWriter, Source, Tag, TagMode, TagNumber, VecWriter, Writer, default_mode,
    default_rules, explicit_before_implicit, greatest_length,
};
use std::alloc::{AllocError, Global};
use std::cmp::Ordering;
use std::test::Fail;

mod blocks;
mod tag;

/// Returns the error, if there is one.
fn fault<T: Drop>(outcome: Result<T, Error>) -> Option<ErrorKind> {
    outcome.err().map(|e| e.kind)
}

/// Returns a reader of these octets.
fn reader_of(octets: &[u8]) -> SliceReader<'_>
    requires { length octets.now < 2 ^ 32 }
{
    match SliceReader::new(octets) {
        Ok(reader) => reader,
        Err(_) => unreachable!(),
    }
}

/// Returns the next octet, if it is read.
fn next(reader: &mut SliceReader<'_>) -> Option<u8> {
    match reader.read_byte() {
        Ok(octet) => Some(octet),
        Err(_) => None,
    }
}

/// Returns whether these octets are read next.
fn reads_next(reader: &mut SliceReader<'_>, octets: &[u8]) -> bool
    requires { length octets.now < 2 ^ 32 }
{
    match reader.read_slice(Length::new(octets.len() as u32)) {
        Ok(found) => found == octets,
        Err(_) => false,
    }
}

/// Returns the previous end after nesting `len` octets.
fn nested(reader: &mut SliceReader<'_>, len: u32) -> Option<u32> {
    match reader.nest(Length::new(len)) {
        Ok(end) => Some(end.value()),
        Err(_) => None,
    }
}

/// Reads a header, and then the contents octets as a value does.
fn read_value<'a, R: Source<'a>>(reader: &mut R) -> Result<&'a [u8], Error> {
    let header = Header::decode(reader)?;
    let end = reader.nest(header.length())?;
    let contents = reader.read_slice(reader.remaining_len())?;
    reader.unnest(end)?;
    Ok(contents)
}

/// Returns the error in the value at the start of the octets.
fn fault_of_value(octets: &[u8]) -> Option<ErrorKind> {
    match SliceReader::new(octets) {
        Ok(mut reader) => fault(read_value(&mut reader)),
        Err(e) => Some(e.kind),
    }
}

/// Returns the length in the header in these octets.
fn length_of_header(octets: &[u8]) -> Result<u32, Error> {
    match SliceReader::new(octets) {
        Ok(mut reader) => {
            let header = Header::decode(&mut reader)?;
            reader.finish()?;
            Ok(header.length().value())
        }
        Err(e) => Err(e),
    }
}

/// Returns the tag in the header at the start of these octets.
fn tag_of_header(octets: &[u8]) -> Result<Tag, Error> {
    match SliceReader::new(octets) {
        Ok(mut reader) => Ok(Header::decode(&mut reader)?.tag()),
        Err(e) => Err(e),
    }
}

/// Returns the octets of a header.
fn written(alloc: Global, header: Header) -> Result<Vec<u8>, Error> {
    let mut writer = VecWriter::new(alloc);
    header.encode(&mut writer)?;
    Ok(writer.finish())
}

fn incomplete(expected_len: u32, actual_len: u32) -> Option<ErrorKind> {
    Some(ErrorKind::Incomplete {
        expected_len: Length::new(expected_len),
        actual_len: Length::new(actual_len),
    })
}

fn trailing(decoded: u32, remaining: u32) -> Option<ErrorKind> {
    Some(ErrorKind::TrailingData {
        decoded: Length::new(decoded),
        remaining: Length::new(remaining),
    })
}

/// Returns a tag with six identifier octets.
fn long_tag() -> Tag {
    Tag::Private {
        constructed: false,
        number: TagNumber(u32::MAX),
    }
}

/// Returns the header BF FF 7F 82 01 00.
fn header_of_six_octets() -> Header {
    let tag = Tag::ContextSpecific {
        constructed: true,
        number: TagNumber(16383),
    };
    Header::new(tag, Length::new(256))
}

#[test]
fn values(rt: HostRuntime) {
    let rows = [
        ([0x05, 0x00].as_slice(), 0),
        ([0x05, 0x81, 0x00].as_slice(), 10),
        ([0x05, 0x80].as_slice(), 16),
        ([0x02, 0x85].as_slice(), 10),
        ([0x02, 0xff].as_slice(), 10),
        ([0x04, 0x85, 0, 0, 0, 1, 0].as_slice(), 10),
        ([0x04, 0x82, 0x00, 0x80].as_slice(), 10),
        ([0x04, 0x81, 0x7f].as_slice(), 10),
        ([0x04, 0x82, 0x01].as_slice(), 2),
        ([0x04, 0x84, 0xff, 0xff, 0xff, 0xff].as_slice(), 9),
        ([0x19, 0x00].as_slice(), 5),
        ([0x22, 0x01, 0x05].as_slice(), 8),
        ([0x1f, 0x1e, 0x00].as_slice(), 6),
        ([0xbf, 0x8f, 0xff, 0xff, 0xff, 0x7f, 0x00].as_slice(), 0),
        ([0xbf, 0x90, 0x80, 0x80, 0x80, 0x00, 0x00].as_slice(), 6),
    ];
    for (octets, number) in rows {
        let found = fault_of_value(octets).map_or(0, |kind| kind.number());
        same_in(&rt, &octets, found, number);
    }
}

#[test]
fn incomplete_values(rt: HostRuntime) {
    let rows = [
        ([].as_slice(), 1, 0),
        ([0x02].as_slice(), 2, 1),
        ([0x02, 0x02, 0x01].as_slice(), 4, 3),
        ([0x04, 0x82, 0x01].as_slice(), 4, 3),
        (
            [0x04, 0x84, 0xff, 0xff, 0xff, 0xf9].as_slice(),
            4294967295,
            6,
        ),
    ];
    for (octets, expected_len, actual_len) in rows {
        same(
            &rt,
            fault_of_value(octets),
            incomplete(expected_len, actual_len),
        );
    }
}

#[test]
fn lengths_there_and_back(rt: HostRuntime) -> Result<(), Fail> {
    let rows = [
        (0, [0x04, 0x00].as_slice()),
        (127, [0x04, 0x7f].as_slice()),
        (128, [0x04, 0x81, 0x80].as_slice()),
        (255, [0x04, 0x81, 0xff].as_slice()),
        (256, [0x04, 0x82, 0x01, 0x00].as_slice()),
        (65535, [0x04, 0x82, 0xff, 0xff].as_slice()),
        (65536, [0x04, 0x83, 0x01, 0x00, 0x00].as_slice()),
        (16777215, [0x04, 0x83, 0xff, 0xff, 0xff].as_slice()),
        (16777216, [0x04, 0x84, 0x01, 0x00, 0x00, 0x00].as_slice()),
        (4294967295, [0x04, 0x84, 0xff, 0xff, 0xff, 0xff].as_slice()),
    ];
    for (len, octets) in rows {
        let header = Header::new(Tag::OctetString, Length::new(len));
        same_in(&rt, &len, usize::from(header.encoded_len()), octets.len());
        let found = written(rt.alloc(), header)?;
        same_in(&rt, &len, found.as_slice(), octets);
        same(&rt, length_of_header(octets)?, len);
    }
    Ok(())
}

#[test]
fn tag_numbers_there_and_back(rt: HostRuntime) -> Result<(), Fail> {
    let rows = [
        (30, [0xbe, 0x00].as_slice()),
        (31, [0xbf, 0x1f, 0x00].as_slice()),
        (127, [0xbf, 0x7f, 0x00].as_slice()),
        (128, [0xbf, 0x81, 0x00, 0x00].as_slice()),
        (16383, [0xbf, 0xff, 0x7f, 0x00].as_slice()),
        (16384, [0xbf, 0x81, 0x80, 0x00, 0x00].as_slice()),
        (
            4294967295,
            [0xbf, 0x8f, 0xff, 0xff, 0xff, 0x7f, 0x00].as_slice(),
        ),
    ];
    for (number, octets) in rows {
        let tag = Tag::ContextSpecific {
            constructed: true,
            number: TagNumber(number),
        };
        let found = written(rt.alloc(), Header::new(tag, Length::ZERO))?;
        same_in(&rt, &number, found.as_slice(), octets);
        same(&rt, tag_of_header(octets)?, tag);
    }
    Ok(())
}

/// Returns the header of an INTEGER with `len` contents octets.
fn integer_header(len: u32) -> Header {
    Header::new(Tag::Integer, Length::ONE).with_length(Length::new(len))
}

#[test]
fn headers(rt: HostRuntime) {
    same(&rt, integer_header(300).tag(), Tag::Integer);
    same(&rt, integer_header(300).length().value(), 300);
    same(&rt, integer_header(127).encoded_len().value(), 2);
    same(&rt, integer_header(300).encoded_len().value(), 4);
    let longest = Header::new(long_tag(), Length::MAX);
    same(&rt, longest.encoded_len().value(), 11);
}

#[test]
fn length_arithmetic(rt: HostRuntime) -> Result<(), Fail> {
    same(&rt, Length::of(0)?, Length::ZERO);
    same(&rt, Length::of(0xffff_ffff)?, Length::MAX);
    same(&rt, refusal(Length::of(0x1_0000_0000)), 9);
    same(&rt, refusal(Length::of(usize::MAX)), 9);
    same(&rt, Length::new(5).add(Length::ONE)?.value(), 6);
    same(&rt, Length::MAX.add(Length::ZERO)?, Length::MAX);
    same(&rt, refusal(Length::MAX.add(Length::ONE)), 9);
    same(&rt, Length::new(5).sub(Length::ONE)?.value(), 4);
    same(&rt, Length::MAX.sub(Length::MAX)?, Length::ZERO);
    same(&rt, refusal(Length::ZERO.sub(Length::ONE)), 9);
    holds(&rt, Length::ZERO.is_zero());
    holds(&rt, !Length::ONE.is_zero());
    holds(&rt, Length::ONE < Length::MAX);
    Ok(())
}

#[test]
fn length_conversions(rt: HostRuntime) -> Result<(), Fail> {
    same(&rt, Length::try_from(7_usize)?, Length::from(7_u32));
    same(&rt, refusal(Length::try_from(0x1_0000_0000_usize)), 9);
    same(&rt, usize::from(Length::MAX), 0xffff_ffff);
    same(&rt, u32::from(Length::MAX), 0xffff_ffff);
    Ok(())
}

#[test]
fn reads(rt: HostRuntime) {
    let mut reader = reader_of(&[1, 2, 3, 4, 5, 6]);
    same(&rt, next(&mut reader), Some(1));
    holds(&rt, reads_next(&mut reader, &[2, 3]));
    let mut buffer = [0; 2];
    match reader.read_into(&mut buffer) {
        Ok(octets) => same(&rt, octets, [4, 5].as_slice()),
        Err(_) => assert!(rt; false, "three octets are left"),
    }
    same(&rt, buffer, [4, 5]);
    same(&rt, reader.position().value(), 5);
    same(&rt, reader.remaining_len(), Length::ONE);
    holds(&rt, !reader.is_finished());
    same(&rt, next(&mut reader), Some(6));
    holds(&rt, reader.is_finished());
    same(&rt, refusal(reader.finish()), 0);
}

#[test]
fn rewinds(rt: HostRuntime) {
    let mut reader = reader_of(&[1, 2, 3]);
    match reader.read_slice(Length::new(3)) {
        Ok(octets) => {
            reader.rewind(Length::ONE);
            same(&rt, octets, [1, 2, 3].as_slice());
        }
        Err(_) => assert!(rt; false, "three octets are left"),
    }
    same(&rt, reader.position(), Length::ONE);
    same(&rt, reader.remaining_len().value(), 2);
    same(&rt, next(&mut reader), Some(2));
    match reader.finish() {
        Ok(()) => assert!(rt; false, "one octet is left"),
        Err(e) => {
            same(&rt, e.position, Some(Length::new(2)));
            same(&rt, Some(e.kind), trailing(2, 1));
        }
    }
}

#[test]
fn copies_of_readers(rt: HostRuntime) {
    let mut reader = reader_of(&[1, 2]);
    same(&rt, next(&mut reader), Some(1));
    match reader.clone() {
        Ok(mut other) => {
            same(&rt, next(&mut reader), Some(2));
            same(&rt, next(&mut other), Some(2));
            same(&rt, next(&mut other), None);
            same(&rt, refusal(reader.finish()), 0);
            match other.clone() {
                Ok(failed) => same(&rt, refusal(failed.finish()), 17),
                Err(_) => assert!(rt; false, "no memory is taken"),
            }
        }
        Err(_) => assert!(rt; false, "no memory is taken"),
    }
}

#[test]
fn failed_readers(rt: HostRuntime) {
    let mut reader = reader_of(&[0x02, 0x00]);
    same(&rt, next(&mut reader), Some(2));
    let error = reader.error(ErrorKind::Utf8);
    same(&rt, error.kind, ErrorKind::Utf8);
    same(&rt, error.position, Some(Length::ONE));
    same_in(&rt, &"read_byte", refusal(reader.read_byte()), 17);
    same_in(
        &rt,
        &"read_slice",
        refusal(reader.read_slice(Length::ZERO)),
        17,
    );
    same_in(
        &rt,
        &"read_slice",
        refusal(reader.read_slice(Length::ONE)),
        17,
    );
    let mut buffer = [7];
    same_in(
        &rt,
        &"read_into",
        refusal(reader.read_into(&mut buffer)),
        17,
    );
    same(&rt, buffer, [7]);
    same_in(&rt, &"nest", refusal(reader.nest(Length::ZERO)), 17);
    same_in(&rt, &"unnest", refusal(reader.unnest(Length::new(2))), 17);
    same_in(&rt, &"peek", refusal(Tag::peek(&mut reader)), 17);
    same_in(&rt, &"decode", refusal(Tag::decode(&mut reader)), 17);
    same_in(&rt, &"decode", refusal(Length::decode(&mut reader)), 17);
    same_in(&rt, &"decode", refusal(Header::decode(&mut reader)), 17);
    let found = Tag::peek_matches(&mut reader, Class::Universal, TagNumber(2));
    same_in(&rt, &"peek_matches", refusal(found), 17);
    same(&rt, reader.position(), Length::ONE);
    same(&rt, reader.remaining_len(), Length::ONE);
    holds(&rt, !reader.is_finished());
    same_in(&rt, &"finish", refusal(reader.finish()), 17);
}

#[test]
fn failed_readers_at_the_end(rt: HostRuntime) {
    let mut reader = reader_of(&[]);
    same(&rt, fault(reader.read_byte()), incomplete(1, 0));
    holds(&rt, reader.is_finished());
    let found = Tag::peek_matches(&mut reader, Class::Universal, TagNumber(2));
    same(&rt, refusal(found), 17);
    same(&rt, refusal(reader.unnest(Length::ZERO)), 17);
    same(&rt, refusal(reader.finish()), 17);
}

#[test]
fn refused_reads(rt: HostRuntime) {
    let mut reader = reader_of(&[1, 2, 3]);
    same(
        &rt,
        fault(reader.read_slice(Length::new(4))),
        incomplete(4, 3),
    );
    same(&rt, reader.position(), Length::ZERO);
    let mut reader = reader_of(&[1, 2, 3]);
    same(&rt, next(&mut reader), Some(1));
    let mut buffer = [0; 3];
    same(&rt, fault(reader.read_into(&mut buffer)), incomplete(4, 3));
    same(&rt, buffer, [0; 3]);
    let mut reader = reader_of(&[1, 2, 3]);
    same(&rt, next(&mut reader), Some(1));
    same(&rt, refusal(reader.read_slice(Length::MAX)), 9);
    let mut reader = reader_of(&[1, 2, 3]);
    same(
        &rt,
        fault(reader.nest(Length::MAX)),
        incomplete(4294967295, 3),
    );
}

#[test]
fn nesting(rt: HostRuntime) {
    let mut reader = reader_of(&[1, 2, 3, 4]);
    same(&rt, nested(&mut reader, 3), Some(4));
    same(&rt, next(&mut reader), Some(1));
    same(&rt, nested(&mut reader, 1), Some(3));
    same(&rt, reader.remaining_len(), Length::ONE);
    same(&rt, next(&mut reader), Some(2));
    holds(&rt, reader.is_finished());
    same(&rt, refusal(reader.unnest(Length::new(3))), 0);
    holds(&rt, !reader.is_finished());
    same(&rt, next(&mut reader), Some(3));
    holds(&rt, reader.is_finished());
    same(&rt, refusal(reader.unnest(Length::new(4))), 0);
    same(&rt, next(&mut reader), Some(4));
    same(&rt, refusal(reader.finish()), 0);
}

#[test]
fn finishing_in_a_nest(rt: HostRuntime) {
    let mut reader = reader_of(&[1, 2]);
    same(&rt, nested(&mut reader, 1), Some(2));
    same(&rt, next(&mut reader), Some(1));
    holds(&rt, reader.is_finished());
    same(&rt, fault(reader.finish()), trailing(1, 1));
}

/// Returns the number with which restoring an end is refused, after two of four octets are nested
/// and `read` octets are read.
fn unnest_refusal(read: u32, end: u32) -> u8 {
    let mut reader = reader_of(&[1, 2, 3, 4]);
    if nested(&mut reader, 2) != Some(4) || refusal(reader.read_slice(Length::new(read))) != 0 {
        return 1;
    }
    let first = refusal(reader.unnest(Length::new(end)));
    if first != 0 && refusal(reader.unnest(Length::new(end))) != 17 {
        return 1;
    }
    first
}

#[test]
fn refused_nesting(rt: HostRuntime) {
    let rows = [
        (1, 4, 3),
        (1, 1, 3),
        (1, 5, 3),
        (2, 1, 9),
        (2, 5, 9),
        (2, 4, 0),
        (2, 2, 0),
    ];
    for (read, end, number) in rows {
        same_in(&rt, &(read, end), unnest_refusal(read, end), number);
    }
    let mut reader = reader_of(&[1, 2, 3, 4]);
    same(&rt, nested(&mut reader, 2), Some(4));
    same(&rt, next(&mut reader), Some(1));
    same(&rt, fault(reader.unnest(Length::new(4))), trailing(1, 1));
    let mut reader = reader_of(&[1, 2, 3, 4]);
    same(&rt, nested(&mut reader, 2), Some(4));
    same(&rt, next(&mut reader), Some(1));
    same(&rt, fault(reader.nest(Length::new(2))), incomplete(3, 2));
}

#[test]
fn slice_writers_without_room(rt: HostRuntime) {
    for room in 0..6 {
        let mut buffer = [0xaa; 8];
        let mut writer = SliceWriter::new(&mut buffer[..room]);
        same(&rt, refusal(header_of_six_octets().encode(&mut writer)), 10);
        same_in(&rt, &room, refusal(writer.write(&[])), 17);
        same_in(&rt, &room, refusal(writer.write_byte(1)), 17);
        same_in(&rt, &room, writer.finish(), [].as_slice());
        same_in(&rt, &room, buffer, [0xaa; 8]);
    }
}

#[test]
fn slice_writers_with_room(rt: HostRuntime) {
    for room in 6..9 {
        let mut buffer = [0xaa; 8];
        let mut writer = SliceWriter::new(&mut buffer[..room]);
        same(&rt, refusal(header_of_six_octets().encode(&mut writer)), 0);
        let octets = [0xbf, 0xff, 0x7f, 0x82, 0x01, 0x00];
        same_in(&rt, &room, writer.finish(), octets.as_slice());
    }
}

#[test]
fn vector_writers_with_room(rt: HostRuntime) -> Result<(), Fail> {
    let octets = [0xbf, 0xff, 0x7f, 0x82, 0x01, 0x00];
    for room in 0..7 {
        let mut writer = VecWriter::with_capacity(rt.alloc(), room)?;
        header_of_six_octets().encode(&mut writer)?;
        same_in(&rt, &room, writer.finish().as_slice(), octets.as_slice());
    }
    Ok(())
}

#[test]
fn slice_writers_octet_by_octet(rt: HostRuntime) {
    for room in 0..3 {
        let mut buffer = [0xaa; 3];
        let mut writer = SliceWriter::new(&mut buffer[..room]);
        for octet in 0..room {
            same_in(&rt, &room, refusal(writer.write_byte(octet as u8)), 0);
        }
        same_in(&rt, &room, refusal(writer.write_byte(9)), 10);
        same_in(&rt, &room, refusal(writer.write_byte(9)), 17);
        let octets = [0, 1, 2];
        same_in(&rt, &room, writer.finish(), &octets[..room]);
    }
}

/// Writes the octets to the start of the slice. A refusal leaves the slice unchanged.
fn overwrite(slice: &mut [u8], octets: &[u8]) -> Result<(), Error>
    ensures { OnErr result (slice.new ≡ slice.old) }
{
    SliceWriter::new(slice).write(octets)
}

#[test]
fn slice_writers_leave_the_slice(rt: HostRuntime) {
    let mut buffer = [0xaa; 3];
    same(&rt, refusal(overwrite(&mut buffer, &[1, 2, 3, 4])), 10);
    same(&rt, buffer, [0xaa; 3]);
    same(&rt, refusal(overwrite(&mut buffer, &[1, 2])), 0);
    same(&rt, buffer, [1, 2, 0xaa]);
}

#[test]
fn slice_writers_keep_what_they_hold(rt: HostRuntime) -> Result<(), Fail> {
    let mut buffer = [0xaa; 3];
    let mut writer = SliceWriter::new(&mut buffer);
    writer.write_byte(1)?;
    writer.write(&[])?;
    same(&rt, refusal(writer.write(&[2, 3, 4])), 10);
    same(&rt, refusal(writer.write_byte(5)), 17);
    same(&rt, writer.finish(), [1].as_slice());
    same(&rt, buffer, [1, 0xaa, 0xaa]);
    Ok(())
}

#[test]
fn vector_writers(rt: HostRuntime) -> Result<(), Fail> {
    let mut writer = VecWriter::new(rt.alloc());
    writer.write_byte(1)?;
    writer.write(&[2, 3])?;
    same(&rt, writer.finish().as_slice(), [1, 2, 3].as_slice());
    let mut writer = VecWriter::with_capacity(rt.alloc(), 2)?;
    writer.write(&[4, 5])?;
    same(&rt, writer.finish().as_slice(), [4, 5].as_slice());
    same(
        &rt,
        refusal(VecWriter::with_capacity(rt.alloc(), usize::MAX)),
        1,
    );
    Ok(())
}

/// If an allocation fails, the writer keeps its octets and refuses from then on.
#[test]
fn vector_writers_without_memory(rt: HostRuntime) {
    let mut writer = VecWriter::new(rt.alloc());
    let first = refusal(writer.write(&[8; 10]));
    let second = refusal(writer.write(&[9; 100]));
    let third = refusal(writer.write_byte(7));
    let len = writer.finish().len();
    if first != 0 {
        same(&rt, (first, second, third, len), (1, 17, 17, 0));
    } else if second != 0 {
        same(&rt, (second, third, len), (1, 17, 10));
    } else if third != 0 {
        same(&rt, (third, len), (1, 110));
    } else {
        same(&rt, len, 111);
    }
}

#[test]
fn borrowed_bytes(rt: HostRuntime) {
    match BytesRef::new(&[1, 2]) {
        Ok(bytes) => {
            same(&rt, bytes.as_slice(), [1, 2].as_slice());
            same(&rt, bytes.len().value(), 2);
            holds(&rt, !bytes.is_empty());
        }
        Err(_) => assert!(rt; false, "two octets"),
    }
    match BytesRef::new(&[]) {
        Ok(bytes) => holds(&rt, bytes.is_empty()),
        Err(_) => assert!(rt; false, "no octets"),
    }
}

#[test]
fn owned_bytes(rt: HostRuntime) -> Result<(), Fail> {
    let bytes = BytesOwned::new([1, 2].to_vec(rt.alloc())?)?;
    same(&rt, bytes.as_slice(), [1, 2].as_slice());
    same(&rt, bytes.to_ref().as_slice(), [1, 2].as_slice());
    same(&rt, bytes.len().value(), 2);
    holds(&rt, !bytes.is_empty());
    same(&rt, bytes.into_vec().as_slice(), [1, 2].as_slice());
    let nothing = BytesOwned::new(Vec::new(rt.alloc()))?;
    holds(&rt, nothing.is_empty());
    let copied = BytesOwned::new([3].to_vec(rt.alloc())?)?.clone()?;
    same(&rt, copied.as_slice(), [3].as_slice());
    Ok(())
}

#[test]
fn constants(rt: HostRuntime) {
    same(&rt, explicit_before_implicit(), Ordering::Less);
    same(&rt, default_mode(), TagMode::Explicit);
    holds(&rt, default_rules().is_der());
    same(&rt, greatest_length().value(), 0xffff_ffff);
}

#[test]
fn numbers_of_errors(rt: HostRuntime) {
    same(&rt, ErrorKind::Memory.number(), 1);
    same(&rt, incomplete(1, 0).map_or(0, |kind| kind.number()), 2);
    same(&rt, trailing(1, 1).map_or(0, |kind| kind.number()), 3);
    same(&rt, Tag::Null.unexpected_error(None).number(), 4);
    same(&rt, ErrorKind::TagUnknown { byte: 0 }.number(), 5);
    same(&rt, ErrorKind::TagNumberInvalid.number(), 6);
    same(&rt, ErrorKind::Length { tag: Tag::Null }.number(), 7);
    same(&rt, ErrorKind::Noncanonical { tag: Tag::Null }.number(), 8);
    same(&rt, ErrorKind::Overflow.number(), 9);
    same(&rt, ErrorKind::Overlength.number(), 10);
    same(&rt, ErrorKind::SetOrdering.number(), 11);
    same(&rt, ErrorKind::Utf8.number(), 12);
    same(&rt, ErrorKind::Value { tag: Tag::Null }.number(), 13);
    same(&rt, ErrorKind::DateTime.number(), 14);
    same(&rt, ErrorKind::OidMalformed.number(), 15);
    same(&rt, ErrorKind::IndefiniteLength.number(), 16);
    same(&rt, ErrorKind::Failed.number(), 17);
}

#[test]
fn errors_without_a_position(rt: HostRuntime) {
    same(
        &rt,
        Error::from_kind(ErrorKind::Utf8).kind(),
        ErrorKind::Utf8,
    );
    same(&rt, Error::from_kind(ErrorKind::Utf8).position(), None);
}

#[test]
fn rules(rt: HostRuntime) {
    holds(&rt, EncodingRules::default().is_der());
    holds(&rt, !EncodingRules::Ber.is_der());
    same(&rt, TagMode::default(), TagMode::Explicit);
    same(&rt, reader_of(&[]).encoding_rules(), EncodingRules::Der);
    match SliceReader::new_with_encoding_rules(&[0x05, 0x80], EncodingRules::Ber) {
        Ok(mut reader) => {
            same(&rt, reader.encoding_rules(), EncodingRules::Ber);
            same_in(
                &rt,
                &"also under Ber",
                refusal(Header::decode(&mut reader)),
                16,
            );
        }
        Err(_) => assert!(rt; false, "two octets"),
    }
}

/// Returns the result of a call that runs out of memory.
fn refused_memory() -> Result<(), Error> {
    Err(AllocError)?;
    Ok(())
}

#[test]
fn texts(rt: HostRuntime) -> Result<(), Fail> {
    let end = match SliceReader::new(&[0x04]) {
        Ok(mut reader) => {
            let _read = reader.read_byte();
            reader.read_slice(Length::new(3)).err()
        }
        Err(e) => Some(e),
    };
    match end {
        Some(e) => {
            let text = format!(in rt.alloc(); "{e}")?;
            same(
                &rt,
                text.as_str(),
                "the octets end too soon: 4 are needed, and 1 are there, at position 1",
            );
        }
        None => assert!(rt; false, "one octet"),
    }
    let kind = long_tag().unexpected_error(Some(Tag::OctetString));
    let text = format!(in rt.alloc(); "{kind}")?;
    same(
        &rt,
        text.as_str(),
        "primitive [PRIVATE 4294967295] stands where OCTET STRING is expected",
    );
    let text = format!(in rt.alloc(); "{}", ErrorKind::TagUnknown { byte: 0x1f })?;
    same(
        &rt,
        text.as_str(),
        "no known tag begins with the octet 0x1f",
    );
    match refused_memory() {
        Err(e) => same(&rt, e, Error::from_kind(ErrorKind::Memory)),
        Ok(()) => assert!(rt; false, "memory was refused"),
    }
    Ok(())
}
