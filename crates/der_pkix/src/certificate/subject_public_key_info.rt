//! SubjectPublicKeyInfo, a SEQUENCE of 2 fields.
//!
//! Made by tools/asn1 from certificate.asn1.

ghost use Rattle.std.specs.Prelude.{◌∷◌, ◌≡◌, [], false, refl};
ghost use Rattle.der_elem.specs.FormatMakers.{mapped_format};
ghost use Rattle.der_modules.specs.Asn1.{joined, parse_of};
ghost use Rattle.der_modules.specs.Members.{field, no_fields, struct_member};
ghost use Rattle.der_pkix.specs.Certificate.Grammar.{subject_public_key_info};
ghost use Rattle.der_pkix.specs.Certificate.SubjectPublicKeyInfo as subject_public_key_info_fields;
ghost use Rattle.der_pkix.specs.declared.certificate.subject_public_key_info.SubjectPublicKeyInfo.{SubjectPublicKeyInfo};

use crate::AlgorithmIdentifier;
use der_bits::BitStringRef;
use der_elem::{
    ContentsEq, CopyIsDuplicate, DecodeValue, EncodeValue, Form, FormValue, OneTag, Sequence,
    SequenceTag, TagMarker, ValueOrd,
};
use der_fields::{DecodeFields, EncodeFields, FieldList, Fields2, FieldsOrd};
use der_modules::{Member, copy_of, field_list};
use der_tlv::{BackWriter, Error, Header, Length, Source, Writer};
use std::alloc::Global;
use std::cmp::Ordering;
use std::fmt;

/// The list of the fields.
type Fields<'a> = Fields2<AlgorithmIdentifier<'a>, BitStringRef<'a>>;

/// ```text
/// SubjectPublicKeyInfo ::= SEQUENCE {
///      algorithm         AlgorithmIdentifier,
///      subjectPublicKey  BIT STRING }
/// ```
///
/// Reading refuses the first fault of the octets, in their order.
#[derive(Clone, Copy, PartialEq, Eq)]
pub struct SubjectPublicKeyInfo<'a> {
    fields: Fields<'a>,
}

impl<'a> SubjectPublicKeyInfo<'a> {
    ghost use Rattle.der_pkix.specs.Certificate.SubjectPublicKeyInfo as subject_public_key_info_fields;

    /// A value of these fields.
    pub fn new(
        algorithm: &AlgorithmIdentifier<'a>,
        subject_public_key: BitStringRef<'a>,
    ) -> SubjectPublicKeyInfo<'a>
        ensures algorithm { subject_public_key_info_fields.algorithm result ≡ algorithm.now }
        ensures subject_public_key { subject_public_key_info_fields.subject_public_key result ≡ subject_public_key.entry }
    {
        let list = field_list![copy_of(algorithm), subject_public_key];
        let fields = Fields2 { list };
        SubjectPublicKeyInfo { fields }
    }

    /// `algorithm`, `AlgorithmIdentifier`.
    pub fn algorithm(&self) -> &AlgorithmIdentifier<'a>
        ensures { result.now ≡ subject_public_key_info_fields.algorithm self.now }
    {
        &self.fields.list.first
    }

    /// `subjectPublicKey`, `BIT STRING`.
    pub fn subject_public_key(&self) -> &BitStringRef<'a>
        ensures { result.now ≡ subject_public_key_info_fields.subject_public_key self.now }
    {
        &self.fields.list.rest.first
    }
}

impl<'a> fmt::Debug for SubjectPublicKeyInfo<'a> {
    fn fmt<W: fmt::Write>(&self, f: &mut fmt::Formatter<W>) -> fmt::Result {
        f.debug_struct("SubjectPublicKeyInfo")
            .field("algorithm", self.algorithm())
            .field("subject_public_key", self.subject_public_key())
            .finish()
    }
}

impl<'a> OneTag for SubjectPublicKeyInfo<'a> {
    type Marker = SequenceTag;
}

impl<'a> Sequence<'a> for SubjectPublicKeyInfo<'a> {
    ghost is_sequence = { refl };
}

impl<'a> FormValue for SubjectPublicKeyInfo<'a> {
    ghost value = { mapped_format (λ v. v.fields) ⟦<Fields<'a> as FieldList>⟧.list.octets };
}

impl<'a, R: Source<'a>> DecodeValue<'a, R> for SubjectPublicKeyInfo<'a> {
    ghost TAKES_MEMORY = { false };

    const TAKES_MEMORY: bool = false;

    fn decode_value(
        alloc: Global,
        reader: &mut R,
        _header: Header,
    ) -> Result<SubjectPublicKeyInfo<'a>, Error> {
        match Fields::<'a>::decode_fields(alloc, reader) {
            Ok(fields) => Ok(SubjectPublicKeyInfo { fields }),
            Err(e) => Err(e),
        }
    }

    ghost takes_memory_is = { refl };
}

impl<'a> EncodeValue for SubjectPublicKeyInfo<'a> {
    fn value_len(&self) -> Result<Length, Error> {
        self.fields.fields_len()
    }

    fn encode_value<W: Writer>(&self, writer: &mut W) -> Result<(), Error> {
        self.fields.encode_fields(writer)
    }

    fn encode_value_back<W: BackWriter>(&self, writer: &mut W) -> Result<(), Error> {
        self.fields.encode_fields_back(writer)
    }
}

impl<'a> ValueOrd for SubjectPublicKeyInfo<'a> {
    fn value_cmp(&self, other: &SubjectPublicKeyInfo<'a>) -> Result<Ordering, Error> {
        self.fields.cmp_fields(&other.fields)
    }
}

impl<'a> Member for SubjectPublicKeyInfo<'a> {
    ghost member = { struct_member ⟦<SequenceTag as TagMarker>⟧.TAG (λ v. v.fields.list)
        (field ⟦<AlgorithmIdentifier<'a> as Member>⟧.member
        (field ⟦<BitStringRef<'a> as Member>⟧.member
        no_fields)) };
}

impl<'a> ContentsEq for SubjectPublicKeyInfo<'a> {
    ghost contents_eq = { ⟦<SubjectPublicKeyInfo<'a> as Member>⟧.member.equal };
}

impl<'a> CopyIsDuplicate for SubjectPublicKeyInfo<'a> {}

/// What is read as `SubjectPublicKeyInfo` is what the grammar page says.
pub fn grammar_of_subject_public_key_info<'a>()
    ensures { ⟦<SubjectPublicKeyInfo<'a> as Form>⟧.parse ≡ parse_of subject_public_key_info }
{}

/// The contents octets of `SubjectPublicKeyInfo` are the encodings of its fields, one after
/// another.
pub fn octets_of_subject_public_key_info<'a>()
    ensures { (v : SubjectPublicKeyInfo) → ⟦<SubjectPublicKeyInfo<'a> as FormValue>⟧.value.contents v ≡ joined (
        (⟦<AlgorithmIdentifier<'a> as Form>⟧.encoding (subject_public_key_info_fields.algorithm v))
        ∷ (⟦<BitStringRef<'a> as Form>⟧.encoding (subject_public_key_info_fields.subject_public_key v))
        ∷ []) }
{}
