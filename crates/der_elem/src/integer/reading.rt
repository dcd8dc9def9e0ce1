//! Reading machine integers: the checks of their contents octets, at any width.

ghost use Rattle.std.specs.Prelude.{◌≡◌, ◌<◌, ◌≤◌, length, take, IfOk, IfErr};
ghost use Rattle.der_tlv.specs.ReaderState.{rest};
ghost use Rattle.der_tlv.specs.Reading.{Stands};
ghost use Rattle.der_elem.specs.Contents.{ContentsRead, ContentsRefused};
ghost use Rattle.der_elem.specs.OwnContents.{DecodesOwn};
ghost use Rattle.der_elem.specs.Integer.{natural_contents, integer_contents, FitsSignedWidth, FitsUnsignedWidth};
ghost use Rattle.der_elem.specs.IntegerReading.{has_needless_zero, ReadsSigned, ReadsUnsigned, parse_signed, parse_unsigned};

use super::front::{signed_front, unsigned_front};
use super::octets::{decode_signed, decode_unsigned, fits_unsigned, is_negative, is_redundant};
use crate::contents::read_contents;
use der_tlv::{Error, ErrorKind, Header, Reader, Source, Tag};

/// Returns whether a first octet 00 is before an octet below 80 (X.690 8.3.2).
pub(super) fn has_needless_zero(bytes: &[u8]) -> bool
    ensures { result ≡ has_needless_zero bytes.now }
{
    match bytes {
        [0x00, second, ..] => *second < 0x80,
        _ => false,
    }
}

/// Returns the integer that contents octets represent, at a width of up to 16 octets.
///
/// # Errors
/// In this order: no octets (`ErrorKind::Length`, 7); more octets than the width
/// (`ErrorKind::Noncanonical`, 8); a redundant first octet (`ErrorKind::Noncanonical`, 8).
pub fn signed_of(bytes: &[u8], width: usize) -> Result<i128, ErrorKind>
    requires some { 0 < width }
    requires most { width ≤ 16 }
    ensures { ReadsSigned width bytes.now result }
{
    if bytes.is_empty() {
        return Err(Tag::Integer.length_error());
    }
    if bytes.len() > width || is_redundant(bytes) {
        return Err(Tag::Integer.non_canonical_error());
    }
    Ok(decode_signed(bytes, width))
}

/// Returns the number that contents octets represent, at a width of up to 16 octets.
///
/// # Errors
/// In this order: no octets (`ErrorKind::Length`, 7); more octets than the width plus one
/// (`ErrorKind::Noncanonical`, 8); a 00 before an octet below 80 (`ErrorKind::Noncanonical`, 8);
/// a negative number (`ErrorKind::Value`, 13); one octet more than the width, with a first octet
/// that is not 00 (`ErrorKind::Length`, 7).
pub fn unsigned_of(bytes: &[u8], width: usize) -> Result<u128, ErrorKind>
    requires some { 0 < width }
    requires most { width ≤ 16 }
    ensures { ReadsUnsigned width bytes.now result }
{
    if bytes.is_empty() {
        return Err(Tag::Integer.length_error());
    }
    if bytes.len() > width + 1 || has_needless_zero(bytes) {
        return Err(Tag::Integer.non_canonical_error());
    }
    if is_negative(bytes) {
        return Err(Tag::Integer.value_error());
    }
    if !fits_unsigned(bytes, width) {
        return Err(Tag::Integer.length_error());
    }
    Ok(decode_unsigned(bytes, width))
}

/// Reads all the octets that the reader shows, at most eight, into the front of a block; the
/// header gives their number.
///
/// # Errors
/// `ErrorKind::Failed` (17) on a failed reader.
#[inline(always)]
fn read_front_contents<'a, R: Source<'a>>(reader: &mut R, header: Header) -> Result<[u8; 8], Error>
    requires few { header.length ≤ 8 }
    ensures reader { Stands (R.state reader.old) (R.state reader.new) result }
    ensures ok { length (rest (R.state reader.old)) ≡ header.length → IfOk result (λ block.
        ContentsRead (R.state reader.old) (R.state reader.new) (take header.length block)) }
    ensures err { length (rest (R.state reader.old)) ≡ header.length → IfErr result (λ e.
        ContentsRefused (R.state reader.old) (R.state reader.new) e.kind) }
{
    reader.read_front(header.length)
}

/// Reads the integer from all the contents octets, at most eight, in one block.
///
/// # Errors
/// As `read_signed`.
#[inline(always)]
fn read_short_signed<'a, R: Source<'a>>(
    reader: &mut R,
    header: Header,
    width: usize,
) -> Result<i128, Error>
    requires some { 0 < width }
    requires most { width ≤ 16 }
    requires few { header.length ≤ 8 }
    ensures fits { IfOk result (FitsSignedWidth width) }
    ensures reader { Stands (R.state reader.old) (R.state reader.new) result }
    ensures read { length (rest (R.state reader.old)) ≡ header.length
        → DecodesOwn integer_contents (FitsSignedWidth width) (parse_signed width)
        (R.state reader.old) (R.state reader.new) result }
{
    let len = usize::from(header.length);
    let block = match read_front_contents(reader, header) {
        Ok(block) => block,
        Err(e) => return Err(e),
    };
    match signed_front(block, len, width) {
        Ok(integer) => Ok(integer),
        Err(kind) => Err(reader.error(kind)),
    }
}

/// Reads the integer from all the contents octets, at a width of up to 16 octets.
///
/// # Errors
/// `ErrorKind::Failed` (17) on a failed reader. Else, in this order: no octets
/// (`ErrorKind::Length`, 7); more octets than the width (`ErrorKind::Noncanonical`, 8); a
/// redundant first octet (`ErrorKind::Noncanonical`, 8).
#[inline(always)]
pub fn read_signed<'a, R: Source<'a>>(
    reader: &mut R,
    header: Header,
    width: usize,
) -> Result<i128, Error>
    requires some { 0 < width }
    requires most { width ≤ 16 }
    ensures fits { IfOk result (FitsSignedWidth width) }
    ensures reader { Stands (R.state reader.old) (R.state reader.new) result }
    ensures read { length (rest (R.state reader.old)) ≡ header.length
        → DecodesOwn integer_contents (FitsSignedWidth width) (parse_signed width)
        (R.state reader.old) (R.state reader.new) result }
{
    if header.length.value() <= 8 {
        return read_short_signed(reader, header, width);
    }
    let bytes = read_contents(reader, header)?;
    match signed_of(bytes, width) {
        Ok(integer) => Ok(integer),
        Err(kind) => Err(reader.error(kind)),
    }
}

/// Reads the number from all the contents octets, at most eight, in one block.
///
/// # Errors
/// As `read_unsigned`.
#[inline(always)]
fn read_short_unsigned<'a, R: Source<'a>>(
    reader: &mut R,
    header: Header,
    width: usize,
) -> Result<u128, Error>
    requires some { 0 < width }
    requires most { width ≤ 16 }
    requires few { header.length ≤ 8 }
    ensures fits { IfOk result (FitsUnsignedWidth width) }
    ensures reader { Stands (R.state reader.old) (R.state reader.new) result }
    ensures read { length (rest (R.state reader.old)) ≡ header.length
        → DecodesOwn natural_contents (FitsUnsignedWidth width) (parse_unsigned width)
        (R.state reader.old) (R.state reader.new) result }
{
    let len = usize::from(header.length);
    let block = match read_front_contents(reader, header) {
        Ok(block) => block,
        Err(e) => return Err(e),
    };
    match unsigned_front(block, len, width) {
        Ok(number) => Ok(number),
        Err(kind) => Err(reader.error(kind)),
    }
}

/// Reads the number from all the contents octets, at a width of up to 16 octets.
///
/// # Errors
/// `ErrorKind::Failed` (17) on a failed reader. Else, in this order: no octets
/// (`ErrorKind::Length`, 7); more octets than the width plus one (`ErrorKind::Noncanonical`, 8);
/// a 00 before an octet below 80 (`ErrorKind::Noncanonical`, 8); a negative number
/// (`ErrorKind::Value`, 13); one octet more than the width, with a first octet that is not 00
/// (`ErrorKind::Length`, 7).
#[inline(always)]
pub fn read_unsigned<'a, R: Source<'a>>(
    reader: &mut R,
    header: Header,
    width: usize,
) -> Result<u128, Error>
    requires some { 0 < width }
    requires most { width ≤ 16 }
    ensures fits { IfOk result (FitsUnsignedWidth width) }
    ensures reader { Stands (R.state reader.old) (R.state reader.new) result }
    ensures read { length (rest (R.state reader.old)) ≡ header.length
        → DecodesOwn natural_contents (FitsUnsignedWidth width) (parse_unsigned width)
        (R.state reader.old) (R.state reader.new) result }
{
    if header.length.value() <= 8 {
        return read_short_unsigned(reader, header, width);
    }
    let bytes = read_contents(reader, header)?;
    match unsigned_of(bytes, width) {
        Ok(number) => Ok(number),
        Err(kind) => Err(reader.error(kind)),
    }
}
