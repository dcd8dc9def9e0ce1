//! Values with any tag, borrowed.

ghost use Rattle.std.specs.Prelude.{◌≡◌, ◌≢◌, None, Some, ◌↔◌, ◌^◌, ◌<◌, [], length, true, false, refl, IsTrue, IfOk, IfErr};
ghost use Rattle.std.proofs.Common.{Ok, sym, ap, ◌∙◌};
ghost use Rattle.std.specs.Cmp.Lexicographic.{bytes_decides};
ghost use Rattle.der_tlv.specs.declared.error.ErrorKind.TheVariants as kinds;
ghost use Rattle.der_tlv.specs.declared.tag.Tag.TheVariants as tags;
ghost use Rattle.der_tlv.specs.TagParts.{IsTag};
ghost use Rattle.der_tlv.specs.TagEquality.{tag_eq-decides};
ghost use Rattle.der_tlv.specs.HeaderOctets.{tlv};
ghost use Rattle.der_opaque.specs.Opaque.{parse_octets, KeepsTagged};
ghost use Rattle.der_tlv.specs.declared.encoding_rules.EncodingRules.TheVariants.{Der};
ghost use Rattle.der_elem.specs.Decoding.{Decodes, ReadsAll};
ghost use Rattle.der_opaque.specs.DecodingAs.{DecodesAs};
ghost use Rattle.der_opaque.specs.InSequence.{RefusesWith, CalledOn};
ghost use Rattle.der_opaque.specs.AnyForm.{accepts_any, parse_any};
ghost use Rattle.der_opaque.specs.AnyLaws.{any_of_octets, begins_first_any, parse_of_any, begins_any, same_length_any, encoding_eq_any};
ghost use Rattle.der_tlv.specs.Views.{slice_reader_state};
ghost use Rattle.der_elem.specs.FormatMakers.{format_with_tags};

use crate::any::Any;
use der_elem::{
    Choice, Decode, DecodeField, DecodeValue, Duplicate, DuplicateIsEqual, EncodeValue, EncodingEq,
    Form, FormValue, KnownTags, Tagged, ValueOrd,
};
use der_tlv::{
    BackWriter, BytesRef, EncodingRules, Error, Header, Length, Reader, SliceReader, Source, Tag,
    Writer,
};
use std::alloc::Global;
use std::cmp::Ordering;

/// A tag and contents octets, borrowed. There are at most 4294967295 contents octets.
///
/// The encoding 02 01 05 is kept as the tag INTEGER and the octet 05.
#[derive(Clone, Copy, Debug, PartialEq, Eq, PartialOrd, Ord, Hash)]
pub struct AnyRef<'a> {
    pub(crate) tag: Tag,
    pub(crate) value: &'a [u8],
    ghost short: { length value.now < 2 ^ 32 },
    ghost numbered: { IsTag tag },
}

impl<'a> AnyRef<'a> {
    ghost use Rattle.der_opaque.specs.contracts.any_ref.AnyRefForm.TheImpl.{ghosts as any_form};
    ghost use Rattle.der_opaque.specs.AnyRef.{tag_of, contents_of};
    ghost use Rattle.der_opaque.specs.Any as owned;

    /// NULL, 05 00.
    pub const NULL: AnyRef<'static> = AnyRef {
        tag: Tag::Null,
        value: &[],
    };

    /// Creates a value with this tag and these contents octets.
    ///
    /// # Errors
    /// `ErrorKind::Length` (7) with the tag for more than 4294967295 octets.
    pub fn new(tag: Tag, value: &'a [u8]) -> Result<AnyRef<'a>, Error>
        ensures { KeepsTagged tag_of contents_of tag value.now result }
    {
        let _number = tag.number();
        match Length::of(value.len()) {
            Ok(_) => Ok(AnyRef { tag, value }),
            Err(_) => Err(Error::from_kind(tag.length_error())),
        }
    }

    /// Returns the contents octets.
    pub fn value(self) -> &'a [u8]
        ensures { result.now ≡ contents_of self.entry }
    {
        self.value
    }

    /// Returns the header of the encoding.
    pub fn header(&self) -> Header
        ensures tag { result.tag ≡ tag_of self.now }
        ensures length { result.length ≡ length (contents_of self.now) }
    {
        Header::new(self.tag, Length::new(self.value.len() as u32))
    }

    /// Returns whether this is NULL, 05 00.
    pub fn is_null(self) -> bool
        ensures { IsTrue result
            ↔ ((tag_of self.entry ≡ tags.Null) × (contents_of self.entry ≡ [])) }
    {
        self.tag == Tag::Null && self.value.is_empty()
    }

    /// Decodes the contents octets as a value of the type, under DER.
    ///
    /// # Errors
    /// `ErrorKind::TagUnexpected` (4) with no expected tag if no value of the type has the tag;
    /// the first error of the contents octets; `ErrorKind::Memory` (1) if the type takes memory
    /// and none is left.
    pub fn decode_as<T: Choice + DecodeValue<'a, SliceReader<'a>>>(
        self,
        alloc: Global,
    ) -> Result<T, Error>
        ensures { DecodesAs T.Form T.value Der (tag_of self.entry)
            (contents_of self.entry) result }
    {
        self.decode_as_encoding(alloc, EncodingRules::Der)
    }

    /// Decodes the contents octets as a value of the type, under these rules.
    ///
    /// # Errors
    /// `ErrorKind::TagUnexpected` (4) with no expected tag if no value of the type has the tag;
    /// the first error of the contents octets; `ErrorKind::Memory` (1) if the type takes memory
    /// and none is left.
    pub fn decode_as_encoding<T: Choice + DecodeValue<'a, SliceReader<'a>>>(
        self,
        alloc: Global,
        rules: EncodingRules,
    ) -> Result<T, Error>
        ensures { DecodesAs T.Form T.value rules (tag_of self.entry)
            (contents_of self.entry) result }
    {
        if !T::can_decode(self.tag) {
            return Err(Error::from_kind(self.tag.unexpected_error(None)));
        }
        let mut reader = match SliceReader::new_with_encoding_rules(self.value, rules) {
            Ok(reader) => reader,
            Err(e) => return Err(e),
        };
        T::decode_value(alloc, &mut reader, self.header())
    }

    /// Reads all contents octets of a SEQUENCE with a function.
    ///
    /// # Errors
    /// `ErrorKind::TagUnexpected` (4) with SEQUENCE expected for another tag; the function's
    /// error; `ErrorKind::Failed` (17) if the function returned a value although its reader had
    /// failed; `ErrorKind::TrailingData` (3) if octets are left over.
    pub fn sequence<T: Drop, E: From<Error>, F: FnOnce(&mut SliceReader<'a>) -> Result<T, E>>(
        self,
        f: F,
    ) -> Result<T, E>
        requires { F.IsAlwaysCallable f }
        ensures other { tag_of self.entry ≢ tags.Sequence → RefusesWith E.from_gives
            (kinds.TagUnexpected (Some tags.Sequence) (tag_of self.entry)) result }
        ensures called { tag_of self.entry ≡ tags.Sequence
            → CalledOn F.FnOnce slice_reader_state E.from_gives f (contents_of self.entry) result }
    {
        if let Err(e) = self.tag.assert_eq(Tag::Sequence) {
            return Err(E::from(e));
        }
        let mut reader = match SliceReader::new(self.value) {
            Ok(reader) => reader,
            Err(e) => return Err(E::from(e)),
        };
        match f(&mut reader) {
            Ok(value) => match reader.finish() {
                Ok(()) => Ok(value),
                Err(e) => Err(E::from(e)),
            },
            Err(e) => Err(e),
        }
    }

    /// Copies the value.
    ///
    /// # Errors
    /// `ErrorKind::Memory` (1) if memory runs out.
    pub fn ref_to_owned(self, alloc: Global) -> Result<Any, Error>
        ensures value { IfOk result (λ v.
            (owned.tag_of v ≡ tag_of self.entry) × (owned.contents_of v ≡ contents_of self.entry)) }
        ensures err { IfErr result (λ e. e.kind ≡ kinds.Memory) }
    {
        Any::from_ref(alloc, self)
    }

    /// Reads an encoding with any tag.
    #[inline(always)]
    fn read<R: Source<'a>>(reader: &mut R) -> Result<AnyRef<'a>, Error>
        ensures { Decodes any_form (R.state reader.old) (R.state reader.new) result }
    {
        match Header::decode_with_contents(reader) {
            Ok((header, value)) => Ok(AnyRef {
                tag: header.tag,
                value,
            }),
            Err(e) => Err(e),
        }
    }
}

impl<'a> FormValue for AnyRef<'a> {
    ghost use Rattle.der_opaque.specs.AnyRef.{tag_of, contents_of};

    ghost value = { format_with_tags contents_of (λ v t. v.tag ≡ t) parse_octets (λ rules v p. refl) (λ rules p c. tt) };
}

impl<'a> Form for AnyRef<'a> {
    ghost use Rattle.der_opaque.specs.AnyRef.{tag_of, contents_of};

    ghost encoding = { λ v. tlv v.tag v.value.now };

    ghost comparable = { λ v w. Unit {0} };

    ghost re_reads = { λ v. false };

    ghost accepts = { accepts_any tag_of contents_of };

    ghost parse = { parse_any };

    ghost tags = { λ t. true };

    ghost first_tag_of = { λ v. Some v.tag };

    ghost readable = { λ v. IsTag v.tag };

    ghost TAKES_MEMORY = { false };

    ghost FAULTS_FIRST = { true };

    ghost parse_of_accepted = { parse_of_any tag_of contents_of };

    ghost faults_of_octets = { any_of_octets };

    ghost begins = { begins_any tag_of contents_of };

    ghost begins_first = { begins_first_any tag_of contents_of };

    ghost same_length = { same_length_any tag_of contents_of };

    ghost accepts_encoding = { λ rules v r. (r, refl) };

    ghost only_readable = { λ rules v b a. a.0 };

    ghost accepts_comparable = { λ rules v w b c d e. tt };

    ghost re_reads_memory = { λ v e. e };
}

impl<'a> Tagged for AnyRef<'a> {
    ghost use Rattle.der_opaque.specs.AnyRef.{tag_of, contents_of};

    ghost tag_of = { tag_of };

    fn tag(&self) -> Tag {
        self.tag
    }

    ghost encoding_is = { λ v. refl };

    ghost accepted_is_tlv = { λ rules v b a.
        record { tag = v.tag; contents = v.value.now; octets_are = a.1 } };

    ghost own_tag = { λ v. refl };

    ghost first_tag_is = { λ v. refl };

    ghost re_reads_alike = { λ v h. h };

    ghost comparable_alike = { λ v w h. h };
}

impl<'a> Choice for AnyRef<'a> {
    ghost use Rattle.der_opaque.specs.AnyRef.{tag_of};

    /// Returns `true`: an encoding with any tag can be decoded.
    fn can_decode(_tag: Tag) -> bool
        ensures { result ≡ true }
    {
        true
    }

    ghost has_first_tag = { λ v. record { tag = tag_of v; is_tag = refl } };
}

impl<'a> KnownTags for AnyRef<'a> {
    ghost known_tags = { None };

    ghost MAY_BE_ABSENT = { false };

    ghost are_known = { λ t e. refl };

    ghost is_there = { λ e v. record { tag = v.tag; is_tag = refl } };
}

impl<'a, R: Source<'a>> DecodeValue<'a, R> for AnyRef<'a> {
    ghost TAKES_MEMORY = { false };

    const TAKES_MEMORY: bool = false;

    fn decode_value(_alloc: Global, reader: &mut R, header: Header) -> Result<AnyRef<'a>, Error> {
        let _number = header.tag.number();
        let value = reader.read_slice(header.length)?;
        Ok(AnyRef {
            tag: header.tag,
            value,
        })
    }

    ghost takes_memory_is = { refl };
}

impl<'a, R: Source<'a>> Decode<'a, R> for AnyRef<'a> {
    ghost TAKES_MEMORY = { false };

    const TAKES_MEMORY: bool = false;

    #[inline(always)]
    fn decode(_alloc: Global, reader: &mut R) -> Result<AnyRef<'a>, Error> {
        AnyRef::read(reader)
    }

    ghost takes_memory_is = { refl };
}

impl<'a, R: Source<'a>> DecodeField<'a, R> for AnyRef<'a> {
    ghost TAKES_MEMORY = { false };

    const TAKES_MEMORY: bool = false;

    fn decode_field(_alloc: Global, reader: &mut R) -> Result<AnyRef<'a>, Error> {
        AnyRef::read(reader)
    }

    ghost takes_memory_is = { refl };
}

impl<'a> EncodeValue for AnyRef<'a> {
    fn value_len(&self) -> Result<Length, Error> {
        Ok(Length::new(self.value.len() as u32))
    }

    fn encode_value<W: Writer>(&self, writer: &mut W) -> Result<(), Error> {
        writer.write(self.value)
    }

    fn encode_value_back<W: BackWriter>(&self, writer: &mut W) -> Result<(), Error> {
        writer.put(self.value);
        Ok(())
    }
}

impl<'a> ValueOrd for AnyRef<'a> {
    fn value_cmp(&self, other: &AnyRef<'a>) -> Result<Ordering, Error> {
        Ok(self.value.cmp(other.value))
    }
}

impl<'a> EncodingEq for AnyRef<'a> {
    ghost encoding_eq = { λ v w one. encoding_eq_any _ _ v.tag w.tag v.value.now w.value.now
        (tag_eq-decides v.tag w.tag) (bytes_decides v.value.now w.value.now) };
}

impl<'a> Duplicate for AnyRef<'a> {
    ghost is_copy = { λ v w. (w.tag ≡ v.tag) × (w.value.now ≡ v.value.now) };

    ghost takes_memory_to_copy = { false };

    fn duplicate(&self) -> Result<AnyRef<'a>, Error> {
        Ok(*self)
    }

    ghost copy_encoding = { λ v w e. Prim.cc };

    ghost copy_comparable = { λ v w x e f. tt };

    ghost copy_re_reads = { λ v w e. refl };
}

impl<'a> DuplicateIsEqual for AnyRef<'a> {
    ghost copy_is_equal = { λ v w e. (encoding_eq_any _ _ v.tag w.tag v.value.now w.value.now
        (tag_eq-decides v.tag w.tag) (bytes_decides v.value.now w.value.now)).1
        (ap (λ t. tlv t v.value.now) (sym e.0) ∙ ap (tlv w.tag) (sym e.1)) };
}

impl<'a> From<AnyRef<'a>> for BytesRef<'a> {
    ghost use Rattle.der_opaque.specs.AnyRef.{tag_of, contents_of};

    ghost from_gives = { λ v b. b.octets.now ≡ contents_of v };

    fn from(any: AnyRef<'a>) -> BytesRef<'a> {
        BytesRef { octets: any.value }
    }
}

impl<'a> TryFrom<&'a [u8]> for AnyRef<'a> {
    ghost use Rattle.der_opaque.specs.contracts.any_ref.AnyRefForm.TheImpl.{ghosts as any_form};

    type Error = Error;

    ghost try_from_gives = { λ b r. ReadsAll any_form b.now r };

    /// Decodes these octets as one value and nothing else, under DER.
    ///
    /// # Errors
    /// `ErrorKind::Overflow` (9) for more than 4294967295 octets; the first error of the header;
    /// `ErrorKind::Incomplete` (2) or `ErrorKind::Overflow` (9) for contents octets that are
    /// longer than what is left; `ErrorKind::TrailingData` (3) if octets are left over.
    fn try_from(bytes: &'a [u8]) -> Result<AnyRef<'a>, Error> {
        let mut reader = match SliceReader::new(bytes) {
            Ok(reader) => reader,
            Err(e) => return Err(e),
        };
        let value = match AnyRef::read(&mut reader) {
            Ok(value) => value,
            Err(e) => return Err(e),
        };
        match reader.finish() {
            Ok(()) => Ok(value),
            Err(e) => Err(e),
        }
    }
}

impl<'a> From<()> for AnyRef<'a> {
    ghost use Rattle.der_opaque.specs.AnyRef.{tag_of, contents_of};

    ghost from_gives = { λ u a. (tag_of a ≡ tags.Null) × (contents_of a ≡ []) };

    fn from(_null: ()) -> AnyRef<'a> {
        AnyRef {
            tag: Tag::Null,
            value: &[],
        }
    }
}
