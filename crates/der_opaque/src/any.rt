//! Values with any tag.

ghost use Rattle.std.specs.Prelude.{◌≡◌, ◌≢◌, None, Some, ◌↔◌, ◌^◌, ◌<◌, [], length, true, false, refl, IsTrue, IfOk, IfErr};
ghost use Rattle.std.proofs.Common.{Ok, sym, ap, ◌∙◌};
ghost use Rattle.std.specs.Cmp.Lexicographic.{bytes_decides};
ghost use Rattle.der_tlv.specs.declared.error.ErrorKind.TheVariants as kinds;
ghost use Rattle.der_tlv.specs.declared.tag.Tag.TheVariants as tags;
ghost use Rattle.der_tlv.specs.TagParts.{IsTag};
ghost use Rattle.der_tlv.specs.TagEquality.{tag_eq-decides};
ghost use Rattle.der_tlv.specs.HeaderOctets.{tlv};
ghost use Rattle.der_elem.specs.Encoding.{NoVector};
ghost use Rattle.der_opaque.specs.Opaque.{parse_octets, KeepsTagged};
ghost use Rattle.der_tlv.specs.declared.encoding_rules.EncodingRules.TheVariants.{Der};
ghost use Rattle.der_opaque.specs.DecodingAs.{DecodesAs};
ghost use Rattle.der_opaque.specs.InSequence.{RefusesWith, CalledOn};
ghost use Rattle.der_opaque.specs.AnyForm.{accepts_any, parse_any};
ghost use Rattle.der_opaque.specs.AnyLaws.{any_of_octets, begins_first_any, parse_of_any, begins_any, same_length_any, encoding_eq_any};
ghost use Rattle.der_opaque.specs.AnyRef as borrowed;
ghost use Rattle.der_tlv.specs.Views.{slice_reader_state};
ghost use Rattle.der_elem.specs.FormatMakers.{format_with_tags, allocating};

use crate::any_ref::AnyRef;
use der_elem::{
    Choice, Decode, DecodeField, DecodeValue, Duplicate, DuplicateIsEqual, EncodeValue, EncodingEq,
    Form, FormValue, KnownTags, Tagged, ValueOrd,
};
use der_tlv::{
    BackWriter, EncodingRules, Error, ErrorKind, Header, Length, Reader, SliceReader, Source, Tag,
    VecWriter, Writer,
};
use std::alloc::{AllocError, Global};
use std::cmp::Ordering;

/// A tag and contents octets. There are at most 4294967295 contents octets.
///
/// The encoding 02 01 05 is kept as the tag INTEGER and the octet 05.
#[derive(Debug, Drop, PartialEq, Eq, PartialOrd, Ord, Hash)]
pub struct Any {
    pub(crate) tag: Tag,
    pub(crate) value: Vec<u8>,
    ghost short: { length value.items < 2 ^ 32 },
    ghost numbered: { IsTag tag },
}

impl Any {
    ghost use Rattle.der_opaque.specs.Any.{tag_of, contents_of};

    /// Creates a value with this tag and these contents octets.
    ///
    /// # Errors
    /// `ErrorKind::Length` (7) with the tag for more than 4294967295 octets.
    pub fn new(tag: Tag, value: Vec<u8>) -> Result<Any, Error>
        ensures { KeepsTagged tag_of contents_of tag value.items result }
    {
        let _number = tag.number();
        match Length::of(value.len()) {
            Ok(_) => Ok(Any { tag, value }),
            Err(_) => Err(Error::from_kind(tag.length_error())),
        }
    }

    /// Returns NULL, 05 00. It takes no memory.
    pub fn null(alloc: Global) -> Any
        ensures tag { tag_of result ≡ tags.Null }
        ensures value { contents_of result ≡ [] }
    {
        Any {
            tag: Tag::Null,
            value: Vec::new(alloc),
        }
    }

    /// Copies a borrowed value.
    ///
    /// # Errors
    /// `ErrorKind::Memory` (1) if memory runs out.
    pub fn from_ref(alloc: Global, any: AnyRef<'_>) -> Result<Any, Error>
        ensures value { IfOk result (λ v. (tag_of v ≡ borrowed.tag_of any.entry)
            × (contents_of v ≡ borrowed.contents_of any.entry)) }
        ensures err { IfErr result (λ e. e.kind ≡ kinds.Memory) }
    {
        let value = any.value.to_vec(alloc)?;
        Ok(Any {
            tag: any.tag,
            value,
        })
    }

    /// Encodes another value and keeps its tag and contents octets.
    ///
    /// # Errors
    /// `ErrorKind::Overflow` (9) if the value has more than 4294967295 contents octets;
    /// `ErrorKind::Memory` (1) if it has no more and memory runs out, or if items are read again
    /// and no memory is left.
    pub fn encode_from<T: Tagged + EncodeValue>(alloc: Global, value: &T) -> Result<Any, Error>
        ensures ok { IfOk result (λ any.
            (tag_of any ≡ T.tag_of value.now) × (contents_of any ≡ T.value.contents value.now)) }
        ensures err { IfErr result (λ e.
            NoVector (T.value.contents value.now) (T.value.re_reads value.now) e.kind) }
    {
        let len = value.value_len()?;
        let mut writer = VecWriter::with_capacity(alloc, usize::from(len))?;
        value.encode_value(&mut writer)?;
        Ok(Any {
            tag: value.tag(),
            value: writer.finish(),
        })
    }

    /// Returns the contents octets.
    pub fn value(&self) -> &[u8]
        ensures { result.now ≡ contents_of self.now }
    {
        &self.value
    }

    /// Returns the header of the encoding.
    pub fn header(&self) -> Header
        ensures tag { result.tag ≡ tag_of self.now }
        ensures length { result.length ≡ length (contents_of self.now) }
    {
        self.to_ref().header()
    }

    /// Decodes the contents octets as a value of the type, under DER.
    ///
    /// # Errors
    /// `ErrorKind::TagUnexpected` (4) with no expected tag if no value of the type has the tag;
    /// the first error of the contents octets; `ErrorKind::Memory` (1) if the type takes memory
    /// and none is left.
    pub fn decode_as<'a, T: Choice + DecodeValue<'a, SliceReader<'a>>>(
        &'a self,
        alloc: Global,
    ) -> Result<T, Error>
        ensures { DecodesAs T.Form T.value Der (tag_of self.now) (contents_of self.now) result }
    {
        self.to_ref().decode_as(alloc)
    }

    /// Decodes the contents octets as a value of the type, under these rules.
    ///
    /// # Errors
    /// `ErrorKind::TagUnexpected` (4) with no expected tag if no value of the type has the tag;
    /// the first error of the contents octets; `ErrorKind::Memory` (1) if the type takes memory
    /// and none is left.
    pub fn decode_as_encoding<'a, T: Choice + DecodeValue<'a, SliceReader<'a>>>(
        &'a self,
        alloc: Global,
        rules: EncodingRules,
    ) -> Result<T, Error>
        ensures { DecodesAs T.Form T.value rules (tag_of self.now)
            (contents_of self.now) result }
    {
        self.to_ref().decode_as_encoding(alloc, rules)
    }

    /// Reads all contents octets of a SEQUENCE with a function.
    ///
    /// # Errors
    /// `ErrorKind::TagUnexpected` (4) with SEQUENCE expected for another tag; the function's
    /// error; `ErrorKind::Failed` (17) if the function returned a value although its reader had
    /// failed; `ErrorKind::TrailingData` (3) if octets are left over.
    pub fn sequence<'a, T: Drop, E: From<Error>, F: FnOnce(&mut SliceReader<'a>) -> Result<T, E>>(
        &'a self,
        f: F,
    ) -> Result<T, E>
        requires { F.IsAlwaysCallable f }
        ensures other { tag_of self.now ≢ tags.Sequence → RefusesWith E.from_gives
            (kinds.TagUnexpected (Some tags.Sequence) (tag_of self.now)) result }
        ensures called { tag_of self.now ≡ tags.Sequence
            → CalledOn F.FnOnce slice_reader_state E.from_gives f (contents_of self.now) result }
    {
        self.to_ref().sequence(f)
    }

    /// Borrows the value.
    pub fn to_ref(&self) -> AnyRef<'_>
        ensures tag { borrowed.tag_of result ≡ tag_of self.now }
        ensures value { borrowed.contents_of result ≡ contents_of self.now }
    {
        AnyRef {
            tag: self.tag,
            value: self.value(),
        }
    }

    /// Borrows the value, like `to_ref`.
    pub fn owned_to_ref(&self) -> AnyRef<'_>
        ensures tag { borrowed.tag_of result ≡ tag_of self.now }
        ensures value { borrowed.contents_of result ≡ contents_of self.now }
    {
        AnyRef::from(self)
    }

    /// Returns whether this is NULL, 05 00.
    pub fn is_null(&self) -> bool
        ensures { IsTrue result ↔ ((tag_of self.now ≡ tags.Null) × (contents_of self.now ≡ [])) }
    {
        self.to_ref().is_null()
    }
}

impl Clone for Any {
    ghost use Rattle.der_opaque.specs.Any.{tag_of, contents_of};

    ghost is_clone = { λ v w. (tag_of w ≡ tag_of v) × (contents_of w ≡ contents_of v) };

    fn clone(&self) -> Result<Any, AllocError> {
        let value = self.value.clone()?;
        Ok(Any {
            tag: self.tag,
            value,
        })
    }
}

impl FormValue for Any {
    ghost use Rattle.der_opaque.specs.Any.{tag_of, contents_of};

    ghost value = { allocating (format_with_tags contents_of (λ v t. v.tag ≡ t) parse_octets (λ rules v p. refl) (λ rules p c. tt)) };
}

impl Form for Any {
    ghost use Rattle.der_opaque.specs.Any.{tag_of, contents_of};

    ghost encoding = { λ v. tlv v.tag v.value.items };

    ghost comparable = { λ v w. Unit {0} };

    ghost re_reads = { λ v. false };

    ghost accepts = { accepts_any tag_of contents_of };

    ghost parse = { parse_any };

    ghost tags = { λ t. true };

    ghost first_tag_of = { λ v. Some v.tag };

    ghost readable = { λ v. IsTag v.tag };

    ghost TAKES_MEMORY = { true };

    ghost FAULTS_FIRST = { true };

    ghost parse_of_accepted = { parse_of_any tag_of contents_of };

    ghost faults_of_octets = { any_of_octets };

    ghost begins = { begins_any tag_of contents_of };

    ghost begins_first = { begins_first_any tag_of contents_of };

    ghost same_length = { same_length_any tag_of contents_of };

    ghost accepts_encoding = { λ rules v r. (r, refl) };

    ghost only_readable = { λ rules v b a. a.0 };

    ghost accepts_comparable = { λ rules v w b c d e. tt };

    ghost re_reads_memory = { λ v e. refl };
}

impl Tagged for Any {
    ghost use Rattle.der_opaque.specs.Any.{tag_of, contents_of};

    ghost tag_of = { tag_of };

    fn tag(&self) -> Tag {
        self.tag
    }

    ghost encoding_is = { λ v. refl };

    ghost accepted_is_tlv = { λ rules v b a.
        record { tag = v.tag; contents = v.value.items; octets_are = a.1 } };

    ghost own_tag = { λ v. refl };

    ghost first_tag_is = { λ v. refl };

    ghost re_reads_alike = { λ v h. h };

    ghost comparable_alike = { λ v w h. h };
}

impl Choice for Any {
    ghost use Rattle.der_opaque.specs.Any.{tag_of};

    fn can_decode(_tag: Tag) -> bool {
        true
    }

    ghost has_first_tag = { λ v. record { tag = tag_of v; is_tag = refl } };
}

impl KnownTags for Any {
    ghost known_tags = { None };

    ghost MAY_BE_ABSENT = { false };

    ghost are_known = { λ t e. refl };

    ghost is_there = { λ e v. record { tag = v.tag; is_tag = refl } };
}

impl<'a, R: Source<'a>> DecodeValue<'a, R> for Any {
    ghost TAKES_MEMORY = { true };

    const TAKES_MEMORY: bool = true;

    /// # Errors
    /// (17) on a failed reader; else (1) if memory runs out.
    fn decode_value(alloc: Global, reader: &mut R, header: Header) -> Result<Any, Error> {
        match AnyRef::decode_value(alloc, reader, header) {
            Ok(any) => match Any::from_ref(alloc, any) {
                Ok(any) => Ok(any),
                Err(e) => Err(reader.error(e.kind)),
            },
            Err(e) => Err(e),
        }
    }

    ghost takes_memory_is = { refl };
}

impl<'a, R: Source<'a>> Decode<'a, R> for Any {
    ghost TAKES_MEMORY = { true };

    const TAKES_MEMORY: bool = true;

    /// # Errors
    /// (17) on a failed reader; the errors of the header; (2) or (9) for contents octets that are
    /// longer than what is left; else `ErrorKind::Memory` (1) if memory runs out.
    fn decode(alloc: Global, reader: &mut R) -> Result<Any, Error> {
        match AnyRef::decode(alloc, reader) {
            Ok(any) => match Any::from_ref(alloc, any) {
                Ok(any) => Ok(any),
                Err(e) => Err(reader.error(e.kind)),
            },
            Err(e) => Err(e),
        }
    }

    ghost takes_memory_is = { refl };
}

impl<'a, R: Source<'a>> DecodeField<'a, R> for Any {
    ghost TAKES_MEMORY = { true };

    const TAKES_MEMORY: bool = true;

    fn decode_field(alloc: Global, reader: &mut R) -> Result<Any, Error> {
        Any::decode(alloc, reader)
    }

    ghost takes_memory_is = { refl };
}

impl EncodeValue for Any {
    fn value_len(&self) -> Result<Length, Error> {
        Ok(Length::new(self.value.len() as u32))
    }

    fn encode_value<W: Writer>(&self, writer: &mut W) -> Result<(), Error> {
        writer.write(self.value())
    }

    fn encode_value_back<W: BackWriter>(&self, writer: &mut W) -> Result<(), Error> {
        writer.put(self.value());
        Ok(())
    }
}

impl ValueOrd for Any {
    fn value_cmp(&self, other: &Any) -> Result<Ordering, Error> {
        Ok(self.value().cmp(other.value()))
    }
}

impl EncodingEq for Any {
    ghost encoding_eq = { λ v w one. encoding_eq_any _ _ v.tag w.tag v.value.items w.value.items
        (tag_eq-decides v.tag w.tag) (bytes_decides v.value.items w.value.items) };
}

impl Duplicate for Any {
    ghost is_copy = { λ v w. (w.tag ≡ v.tag) × (w.value.items ≡ v.value.items) };

    ghost takes_memory_to_copy = { true };

    fn duplicate(&self) -> Result<Any, Error> {
        Ok(self.clone()?)
    }

    ghost copy_encoding = { λ v w e. Prim.cc };

    ghost copy_comparable = { λ v w x e f. tt };

    ghost copy_re_reads = { λ v w e. refl };
}

impl DuplicateIsEqual for Any {
    ghost copy_is_equal = { λ v w e. (encoding_eq_any _ _ v.tag w.tag v.value.items w.value.items
        (tag_eq-decides v.tag w.tag) (bytes_decides v.value.items w.value.items)).1
        (ap (λ t. tlv t v.value.items) (sym e.0) ∙ ap (tlv w.tag) (sym e.1)) };
}

impl<'a> From<&'a Any> for AnyRef<'a> {
    ghost use Rattle.der_opaque.specs.Any.{tag_of, contents_of};

    ghost from_gives = { λ a r. (borrowed.tag_of r ≡ tag_of a.now)
        × (borrowed.contents_of r ≡ contents_of a.now) };

    fn from(any: &'a Any) -> AnyRef<'a> {
        any.to_ref()
    }
}
