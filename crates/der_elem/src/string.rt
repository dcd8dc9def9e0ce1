//! UTF8String: `String` (X.690 8.23).
//!
//! The tag is 0C, and the contents octets are the text in UTF-8: `hi` is encoded as 0C 02 68 69.
//!
//! Reading refuses octets that are not UTF-8 (12), and then refuses if memory runs out (1).

ghost use Rattle.std.specs.Prelude.{◌≡◌, true, refl};
ghost use Rattle.std.proofs.Common.{sym};
ghost use Rattle.std.specs.Cmp.Lexicographic.{bytes_decides};
ghost use Rattle.std.specs.String.{string_bytes};
ghost use Rattle.der_elem.specs.Utf8String.{parse_utf8, parse_utf8-own, utf8_of_octets};
ghost use Rattle.der_elem.specs.FormatMakers.{format_of_contents, allocating};

use crate::contents::read_contents;
use crate::decode::DecodeValue;
use crate::duplicate::{DuplicateValue, DuplicateValueIsEqual};
use crate::encode::EncodeValue;
use crate::equality::ContentsEq;
use crate::fixed_tag::OneTag;
use crate::form::FormValue;
use crate::ord::OrdIsValueOrd;
use crate::universal_tags::Utf8StringTag;
use crate::utf8_text::text_of;
use der_tlv::{BackWriter, Error, ErrorKind, Header, Length, Reader, Source, Writer};
use std::alloc::Global;

impl FormValue for String {
    ghost value = { allocating (format_of_contents string_bytes parse_utf8 parse_utf8-own utf8_of_octets) };
}

impl OneTag for String {
    type Marker = Utf8StringTag;
}

impl<'a, R: Source<'a>> DecodeValue<'a, R> for String {
    ghost TAKES_MEMORY = { true };

    const TAKES_MEMORY: bool = true;

    /// # Errors
    /// (17) on a failed reader; octets that are not UTF-8 (12); else (1) if memory runs out.
    fn decode_value(alloc: Global, reader: &mut R, header: Header) -> Result<String, Error> {
        let octets = read_contents(reader, header)?;
        match text_of(octets) {
            Ok(text) => match String::from_str(alloc, text) {
                Ok(string) => Ok(string),
                Err(_) => Err(reader.error(ErrorKind::Memory)),
            },
            Err(kind) => Err(reader.error(kind)),
        }
    }

    ghost takes_memory_is = { refl };
}

impl EncodeValue for String {
    fn value_len(&self) -> Result<Length, Error> {
        Length::of(self.as_bytes().len())
    }

    fn encode_value<W: Writer>(&self, writer: &mut W) -> Result<(), Error> {
        writer.write(self.as_bytes())
    }

    fn encode_value_back<W: BackWriter>(&self, writer: &mut W) -> Result<(), Error> {
        writer.put(self.as_bytes());
        Ok(())
    }
}

impl OrdIsValueOrd for String {
    ghost ord_is_value_ord = { λ v w. refl };
}

impl ContentsEq for String {
    ghost contents_eq = { λ v w one. bytes_decides (string_bytes v) (string_bytes w) };
}

impl DuplicateValue for String {
    ghost is_copy_value = { λ v w. string_bytes w ≡ string_bytes v };

    ghost takes_memory_to_copy_value = { true };

    fn duplicate_value(&self) -> Result<String, Error> {
        Ok(self.clone()?)
    }

    ghost copy_contents = { λ v w e. e };

    ghost copy_comparable_value = { λ v w x e f. tt };

    ghost copy_re_reads_value = { λ v w e. refl };
}

impl DuplicateValueIsEqual for String {
    ghost copy_value_is_equal = { λ v w e. (bytes_decides (string_bytes v) (string_bytes w)).1 (sym e) };
}
