//! Reading tags.

ghost use Rattle.std.specs.Prelude.{◌≡◌, ℕ, ◌≤◌, ◌<◌, IfOk};
ghost use Rattle.der_tlv.specs.Identifier.{identifier, number_octets};
ghost use Rattle.der_tlv.specs.HeaderReading.{read_tag, read_number, tag_of_octets, universal_of};
ghost use Rattle.der_tlv.specs.Reading.{ReadsHead, PeeksHead};
ghost use Rattle.der_tlv.specs.TagMatching.{PeeksMatch};
ghost use Rattle.der_tlv.specs.TagDigits.{with_digit};
ghost use Rattle.der_tlv.specs.TagParts.{IsTag, universal_tag};

use crate::error::{Error, ErrorKind};
use crate::length::Length;
use crate::reader::{Reader, Source};
use crate::tag::short::short_tag;
use crate::tag::{Class, Tag, TagNumber};

impl Tag {
    /// Reads identifier octets.
    ///
    /// # Errors
    /// `ErrorKind::Failed` (17) on a failed reader. Else, in this order: no octet
    /// (`ErrorKind::Incomplete`, 2); if bits 5 to 1 of the first octet are ones, a missing octet
    /// of the number (`ErrorKind::Incomplete`, 2), or a number that begins with the octet 80,
    /// exceeds 4294967295 or is below 31 (`ErrorKind::TagNumberInvalid`, 6); an unknown universal
    /// number (`ErrorKind::TagUnknown`, 5); a universal type with the constructed bit that it
    /// does not have (`ErrorKind::Noncanonical`, 8).
    #[inline]
    pub fn decode<'a, R: Source<'a>>(reader: &mut R) -> Result<Tag, Error>
        ensures head { ReadsHead read_tag identifier (R.state reader.old)
            (R.state reader.new) result }
        ensures bounded { IfOk result (λ t. IsTag t) }
    {
        let first = reader.read_byte()?;
        if let Some(tag) = short_tag(first) {
            return Ok(tag);
        }
        let low = first % 32;
        let number = if low < 31 {
            u32::from(low)
        } else {
            decode_number(reader)?
        };
        match tag_of_octets(first, number) {
            Ok(tag) => Ok(tag),
            Err(kind) => Err(reader.error(kind)),
        }
    }

    /// Reads identifier octets, and goes back to the position before them.
    ///
    /// # Errors
    /// As `decode`; the reader has then failed.
    #[inline(always)]
    pub fn peek<'a, R: Source<'a>>(reader: &mut R) -> Result<Tag, Error>
        ensures head { PeeksHead read_tag identifier (R.state reader.old)
            (R.state reader.new) result }
        ensures bounded { IfOk result (λ t. IsTag t) }
    {
        let cursor = reader.cursor();
        if !cursor.failed && cursor.position < cursor.end {
            let first = reader.octets()[cursor.position as usize];
            if let Some(tag) = short_tag(first) {
                return Ok(tag);
            }
        }
        Tag::peek_octets(reader)
    }

    /// Reads identifier octets one by one, and goes back to the position before them.
    ///
    /// # Errors
    /// As `peek`.
    #[cold]
    #[inline(never)]
    fn peek_octets<'a, R: Source<'a>>(reader: &mut R) -> Result<Tag, Error>
        ensures head { PeeksHead read_tag identifier (R.state reader.old)
            (R.state reader.new) result }
        ensures bounded { IfOk result (λ t. IsTag t) }
    {
        let start = reader.position();
        let tag = Tag::decode(reader)?;
        reader.rewind(start);
        Ok(tag)
    }

    /// Returns whether the next tag has this class and this number, or false at the end, where
    /// there is no tag. The reader goes back to the position before the tag.
    ///
    /// # Errors
    /// As `decode`, except at the end; the reader has then failed.
    pub fn peek_matches<'a, R: Source<'a>>(
        reader: &mut R,
        class: Class,
        number: TagNumber,
    ) -> Result<bool, Error>
        ensures { PeeksMatch class number.0 (R.state reader.old) (R.state reader.new) result }
    {
        if reader.is_finished() {
            // Only a failed reader refuses to read nothing.
            reader.read_slice(Length::ZERO)?;
            return Ok(false);
        }
        let tag = Tag::peek(reader)?;
        Ok(tag.class() == class && tag.number() == number)
    }
}

/// Reads the octets of a number above 30: its digits in base 128, highest first, with bit 8 set
/// in all but the last.
fn decode_number<'a, R: Source<'a>>(reader: &mut R) -> Result<u32, Error>
    ensures head { ReadsHead read_number number_octets (R.state reader.old)
        (R.state reader.new) result }
    ensures long { IfOk result (λ n. 31 ≤ n) }
{
    let mut number = 0;
    'digits: loop {
        let octet = reader.read_byte()?;
        match with_digit(number, octet) {
            Some(more) => number = more,
            None => return Err(reader.error(ErrorKind::TagNumberInvalid)),
        }
        if octet < 0x80 {
            return Ok(number);
        }
    }
}

/// Returns the number with the digit of one more octet, or none if it exceeds 4294967295, begins
/// with a zero digit or ends below 31.
#[inline]
fn with_digit(number: u32, octet: u8) -> Option<u32>
    ensures { result ≡ with_digit number octet }
{
    if number >= 1 << 25 || number == 0 && (octet < 31 || octet == 0x80) {
        None
    } else {
        Some(number * 128 + u32::from(octet % 128))
    }
}

/// Returns the tag of a first identifier octet and a number.
///
/// # Errors
/// `ErrorKind::TagUnknown` (5) for an unknown universal tag; `ErrorKind::Noncanonical` (8) for a
/// universal tag with the other constructed bit.
#[inline]
fn tag_of_octets(first: u8, number: u32) -> Result<Tag, ErrorKind>
    ensures { result ≡ tag_of_octets first number }
{
    let constructed = first / 32 % 2 == 1;
    let number = TagNumber(number);
    match first / 64 {
        0 => universal(first, constructed, number),
        1 => Ok(Tag::Application {
            constructed,
            number,
        }),
        2 => Ok(Tag::ContextSpecific {
            constructed,
            number,
        }),
        _ => Ok(Tag::Private {
            constructed,
            number,
        }),
    }
}

fn universal(first: u8, constructed: bool, number: TagNumber) -> Result<Tag, ErrorKind>
    ensures { result ≡ universal_of first constructed (universal_tag number.0) }
{
    match universal_tag(number.0) {
        Some(tag) if tag.is_constructed() == constructed => Ok(tag),
        Some(tag) => Err(tag.non_canonical_error()),
        None => Err(ErrorKind::TagUnknown { byte: first }),
    }
}

/// Returns the universal tag with this number.
fn universal_tag(number: u32) -> Option<Tag>
    ensures { result ≡ universal_tag number }
{
    Some(match number {
        1 => Tag::Boolean,
        2 => Tag::Integer,
        3 => Tag::BitString,
        4 => Tag::OctetString,
        5 => Tag::Null,
        6 => Tag::ObjectIdentifier,
        9 => Tag::Real,
        10 => Tag::Enumerated,
        12 => Tag::Utf8String,
        13 => Tag::RelativeOid,
        16 => Tag::Sequence,
        17 => Tag::Set,
        18 => Tag::NumericString,
        19 => Tag::PrintableString,
        20 => Tag::TeletexString,
        21 => Tag::VideotexString,
        22 => Tag::Ia5String,
        23 => Tag::UtcTime,
        24 => Tag::GeneralizedTime,
        26 => Tag::VisibleString,
        27 => Tag::GeneralString,
        30 => Tag::BmpString,
        _ => return None,
    })
}
