//! Headers.

mod laws;

ghost use Rattle.std.specs.Prelude.{◌≡◌, ◌<◌, ◌≤◌, ◌↔◌, [], ◌∷◌, length, take, IfOk, IfErr, IfSome, IsSome, IsNone};
ghost use Rattle.der_tlv.specs.TagParts.{IsTag, number_of};
ghost use Rattle.der_tlv.specs.HeaderOctets.{header_octets};
ghost use Rattle.der_tlv.specs.LengthOctets.{length_octets};
ghost use Rattle.der_tlv.specs.HeaderReading.{read_header, octets_of};
ghost use Rattle.der_tlv.specs.Opening.{Opens, ContentsRead, ContentsRefused};
ghost use Rattle.der_tlv.specs.Reading.{HeadRead, ReadsHead};
ghost use Rattle.der_tlv.specs.Writing.{Writes};
ghost use Rattle.der_tlv.specs.WritingBack.{Put};

use crate::error::Error;
use crate::header_octets::{HeaderOctets, first_octet};
use crate::length::Length;
use crate::reader::{Cursor, Reader, Source};
use crate::tag::Tag;
use crate::tag::short::short_tag;
use crate::writer::{BackWriter, Writer};
pub use laws::{headers_are_unique, headers_read_back};

/// The header of an encoding: its tag, and the length of its contents in octets.
///
/// The header of an INTEGER with one contents octet is 02 01.
#[derive(Clone, Copy, Debug, PartialEq, Eq)]
pub struct Header {
    /// The tag.
    pub tag: Tag,
    /// The number of contents octets.
    pub length: Length,
}

impl Header {
    /// Makes a header with this tag and this number of contents octets.
    pub const fn new(tag: Tag, length: Length) -> Header
        ensures tag { result.tag ≡ tag }
        ensures length { result.length ≡ length }
    {
        Header { tag, length }
    }

    /// Returns the tag.
    pub const fn tag(self) -> Tag
        ensures { result ≡ self.tag }
    {
        self.tag
    }

    /// Returns the number of contents octets.
    pub const fn length(self) -> Length
        ensures { result ≡ self.length }
    {
        self.length
    }

    /// Returns the header with another length.
    pub const fn with_length(self, length: Length) -> Header
        ensures tag { result.tag ≡ self.tag }
        ensures length { result.length ≡ length }
    {
        Header {
            tag: self.tag,
            length,
        }
    }

    /// Returns the number of octets of the header, at most 11.
    #[inline]
    pub fn encoded_len(self) -> Length
        ensures len { result ≡ length (header_octets self.tag self.length) }
        ensures few { result ≤ 11 }
    {
        if self.two_octets().is_some() {
            return Length::new(2);
        }
        let octets = self.octets();
        Length::new(octets.as_slice().len() as u32)
    }

    /// Writes the identifier octets and the length octets.
    ///
    /// # Errors
    /// The errors of the writer.
    #[inline(always)]
    pub fn encode<W: Writer>(self, writer: &mut W) -> Result<(), Error>
        ensures { Writes (header_octets self.tag self.length) (W.state writer.old)
            (W.state writer.new) result }
    {
        if let Some(octets) = self.two_octets() {
            return writer.write(&octets);
        }
        self.encode_octets(writer)
    }

    /// Puts the identifier octets and the length octets before what the writer holds.
    #[inline(always)]
    pub fn encode_back<W: BackWriter>(self, writer: &mut W)
        requires { length (header_octets self.tag self.length) ≤ (W.state writer.old).back.room }
        ensures { Put (header_octets self.tag self.length) (W.state writer.old)
            (W.state writer.new) }
    {
        if let Some(octets) = self.two_octets() {
            writer.put(&octets);
        } else {
            self.put_octets(writer);
        }
    }

    /// Reads a header.
    ///
    /// # Errors
    /// `ErrorKind::Failed` (17) on a failed reader; the first error of the identifier octets,
    /// then of the length octets.
    #[inline(always)]
    pub fn decode<'a, R: Source<'a>>(reader: &mut R) -> Result<Header, Error>
        ensures head { ReadsHead read_header octets_of (R.state reader.old)
            (R.state reader.new) result }
        ensures bounded { IfOk result (λ h. IsTag h.tag) }
    {
        let cursor = reader.cursor();
        if !cursor.failed && cursor.end - cursor.position >= 2 {
            let start = cursor.position as usize;
            let (first, len) = (reader.octets()[start], reader.octets()[start + 1]);
            match short_tag(first) {
                Some(tag) if len < 0x80 => {
                    let position = cursor.position + 2;
                    reader.set_cursor(Cursor { position, ..cursor });
                    let length = Length::new(u32::from(len));
                    return Ok(Header { tag, length });
                }
                _ => {}
            }
        }
        Header::decode_octets(reader)
    }

    /// Reads a header and the contents octets after it, and returns these as they are in the
    /// input.
    ///
    /// # Errors
    /// `ErrorKind::Failed` (17) on a failed reader; the first error of the header. If fewer
    /// octets are left than the header says: `ErrorKind::Incomplete` (2), or
    /// `ErrorKind::Overflow` (9) if the position plus the length exceeds the greatest length.
    #[inline(always)]
    pub fn decode_with_contents<'a, R: Source<'a>>(
        reader: &mut R,
    ) -> Result<(Header, &'a [u8]), Error>
        ensures ok { IfOk result (λ r. ContentsRead (R.state reader.old) (R.state reader.new) r.0 r.1.now) }
        ensures err { IfErr result (λ e. ContentsRefused (R.state reader.old) (R.state reader.new) e.kind) }
        ensures bounded { IfOk result (λ r. IsTag r.0.tag) }
    {
        let cursor = reader.cursor();
        if !cursor.failed && cursor.end - cursor.position >= 2 {
            let start = cursor.position as usize;
            let (first, len) = (reader.octets()[start], reader.octets()[start + 1]);
            let (position, length) = (cursor.position + 2, u32::from(len));
            match short_tag(first) {
                Some(tag) if length < 0x80 && length <= cursor.end - position => {
                    let end = position + length;
                    reader.set_cursor(Cursor {
                        position: end,
                        ..cursor
                    });
                    let contents = &reader.octets()[position as usize..end as usize];
                    let length = Length::new(length);
                    return Ok((Header { tag, length }, contents));
                }
                _ => {}
            }
        }
        Header::octets_with_contents(reader)
    }

    /// Reads a header of any form, and the contents octets after it.
    ///
    /// # Errors
    /// As `decode_with_contents`.
    #[inline(never)]
    fn octets_with_contents<'a, R: Source<'a>>(reader: &mut R) -> Result<(Header, &'a [u8]), Error>
        ensures ok { IfOk result (λ r. ContentsRead (R.state reader.old) (R.state reader.new) r.0 r.1.now) }
        ensures err { IfErr result (λ e. ContentsRefused (R.state reader.old) (R.state reader.new) e.kind) }
        ensures bounded { IfOk result (λ r. IsTag r.0.tag) }
    {
        let header = Header::decode_octets(reader)?;
        let contents = reader.read_slice(header.length)?;
        Ok((header, contents))
    }

    /// Reads a header with this tag, limits reading to the contents octets, and returns the
    /// header and the former end, for `Reader::unnest`.
    ///
    /// # Errors
    /// `ErrorKind::Failed` (17) on a failed reader; the first error of the header;
    /// `ErrorKind::TagUnexpected` (4), with the expected tag, for another tag, with the reader
    /// after the header. If fewer octets are left than the header says:
    /// `ErrorKind::Incomplete` (2), or `ErrorKind::Overflow` (9) if the position plus the length
    /// exceeds the greatest length.
    #[inline(always)]
    pub fn open<'a, R: Source<'a>>(reader: &mut R, tag: Tag) -> Result<(Header, Length), Error>
        ensures { Opens tag (R.state reader.old) (R.state reader.new) result }
    {
        let cursor = reader.cursor();
        if !cursor.failed && cursor.end - cursor.position >= 2 && tag.number().value() < 31 {
            let start = cursor.position as usize;
            let (first, len) = (reader.octets()[start], reader.octets()[start + 1]);
            let (position, length) = (cursor.position + 2, u32::from(len));
            if first == first_octet(tag) && length < 0x80 && length <= cursor.end - position {
                let end = position + length;
                reader.set_cursor(Cursor {
                    position,
                    end,
                    ..cursor
                });
                let length = Length::new(length);
                return Ok((Header { tag, length }, Length::new(cursor.end)));
            }
        }
        Header::open_octets(reader, tag)
    }

    /// Reads a header of any form with this tag, and limits reading to the contents octets.
    ///
    /// # Errors
    /// As `open`.
    #[inline(never)]
    fn open_octets<'a, R: Source<'a>>(reader: &mut R, tag: Tag) -> Result<(Header, Length), Error>
        ensures { Opens tag (R.state reader.old) (R.state reader.new) result }
    {
        let header = Header::decode_octets(reader)?;
        if !header.tag.equals(tag) {
            return Err(reader.error(header.tag.unexpected_error(Some(tag))));
        }
        let end = reader.nest(header.length)?;
        Ok((header, end))
    }

    /// Reads a header of any form.
    ///
    /// # Errors
    /// As `decode`.
    #[inline(never)]
    fn decode_octets<'a, R: Source<'a>>(reader: &mut R) -> Result<Header, Error>
        ensures head { ReadsHead read_header octets_of (R.state reader.old)
            (R.state reader.new) result }
        ensures bounded { IfOk result (λ h. IsTag h.tag) }
    {
        if let Some(header) = Header::decode_long(reader) {
            return Ok(header);
        }
        Header::decode_each(reader)
    }

    /// Reads a header with one identifier octet and two or three length octets, as 30 81 80 and
    /// 30 82 01 00, if there is one at the position and four octets or more are left.
    #[inline(always)]
    fn decode_long<'a, R: Source<'a>>(reader: &mut R) -> Option<Header>
        ensures some { IfSome result (λ h.
            HeadRead read_header (octets_of h) (R.state reader.old) (R.state reader.new) h) }
        ensures bounded { IfSome result (λ h. IsTag h.tag) }
        ensures none { IsNone result → (R.state reader.new ≡ R.state reader.old) }
    {
        let cursor = reader.cursor();
        if cursor.failed || cursor.end - cursor.position < 4 {
            return None;
        }
        let start = cursor.position as usize;
        let tag = short_tag(reader.octets()[start])?;
        let (count, first) = (reader.octets()[start + 1], reader.octets()[start + 2]);
        let (taken, length) = long_length(count, first, reader.octets()[start + 3])?;
        let position = cursor.position + 1 + taken;
        reader.set_cursor(Cursor { position, ..cursor });
        Some(Header::new(tag, Length::new(length)))
    }

    /// Reads a header octet by octet.
    ///
    /// # Errors
    /// As `decode`.
    #[cold]
    #[inline(never)]
    fn decode_each<'a, R: Source<'a>>(reader: &mut R) -> Result<Header, Error>
        ensures head { ReadsHead read_header octets_of (R.state reader.old)
            (R.state reader.new) result }
        ensures bounded { IfOk result (λ h. IsTag h.tag) }
    {
        let tag = Tag::decode(reader)?;
        let length = Length::decode(reader)?;
        Ok(Header { tag, length })
    }

    /// Returns the octets of the header if there are two, for a number of at most 30 and a length
    /// below 128.
    #[inline(always)]
    fn two_octets(&self) -> Option<[u8; 2]>
        ensures octets { IfSome result (λ octets.
            octets ≡ header_octets self.now.tag self.now.length) }
        ensures some { IsSome result ↔ (number_of self.now.tag < 31) × (self.now.length < 128) }
    {
        let len = self.length.value();
        if self.tag.number().value() < 31 && len < 0x80 {
            Some([first_octet(self.tag), len as u8])
        } else {
            None
        }
    }

    /// Writes the octets of the header, however many there are.
    #[inline(never)]
    fn encode_octets<W: Writer>(&self, writer: &mut W) -> Result<(), Error>
        ensures { Writes (header_octets self.now.tag self.now.length) (W.state writer.old)
            (W.state writer.new) result }
    {
        let octets = self.octets();
        writer.write(octets.as_slice())
    }

    /// Puts the octets of the header, however many there are.
    #[inline(never)]
    fn put_octets<W: BackWriter>(&self, writer: &mut W)
        requires { length (header_octets self.now.tag self.now.length)
            ≤ (W.state writer.old).back.room }
        ensures { Put (header_octets self.now.tag self.now.length) (W.state writer.old)
            (W.state writer.new) }
    {
        let octets = self.octets();
        writer.put(octets.as_slice());
    }

    /// Returns the octets of the header.
    fn octets(&self) -> HeaderOctets
        ensures octets { result ≡ header_octets self.now.tag self.now.length }
    {
        let mut octets = HeaderOctets::new();
        octets.push_identifier(self.tag);
        octets.push_length(self.length);
        octets
    }
}

/// Returns the number of length octets at the front of these three and the length that they
/// encode, if two or three of them are length octets.
#[inline(always)]
fn long_length(count: u8, first: u8, last: u8) -> Option<(u32, u32)>
    ensures octets { IfSome result (λ r. take r.0 (count ∷ first ∷ last ∷ []) ≡ length_octets r.1) }
    ensures few { IfSome result (λ r. r.0 ≤ 3) }
{
    match count {
        0x81 if first >= 0x80 => Some((2, u32::from(first))),
        0x82 if first != 0 => Some((3, u32::from(first) * 256 + u32::from(last))),
        _ => None,
    }
}
