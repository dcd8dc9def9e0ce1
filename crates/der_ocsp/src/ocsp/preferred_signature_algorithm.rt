//! PreferredSignatureAlgorithm, a SEQUENCE of 2 fields.
//!
//! Made by tools/asn1 from ocsp.asn1.

ghost use Rattle.std.specs.Prelude.{◌∷◌, ◌≡◌, [], false, refl};
ghost use Rattle.der_elem.specs.FormatMakers.{mapped_format};
ghost use Rattle.der_modules.specs.Asn1.{joined, optional, parse_of};
ghost use Rattle.der_modules.specs.Members.{field, no_fields, optional_field, struct_member};
ghost use Rattle.der_ocsp.specs.Ocsp.Grammar.{preferred_signature_algorithm};
ghost use Rattle.der_ocsp.specs.Ocsp.PreferredSignatureAlgorithm as preferred_signature_algorithm_fields;
ghost use Rattle.der_ocsp.specs.declared.ocsp.preferred_signature_algorithm.PreferredSignatureAlgorithm.{PreferredSignatureAlgorithm};

use der_elem::{
    ContentsEq, CopyIsDuplicate, DecodeValue, EncodeValue, Form, FormValue, OneTag, Sequence,
    SequenceTag, TagMarker, ValueOrd,
};
use der_fields::{DecodeFields, EncodeFields, FieldList, Fields2, FieldsOrd};
use der_modules::{Member, copy_of, field_list, if_present};
use der_pkix::AlgorithmIdentifier;
use der_tlv::{BackWriter, Error, Header, Length, Source, Writer};
use std::alloc::Global;
use std::cmp::Ordering;
use std::fmt;

/// The list of the fields.
type Fields<'a> = Fields2<AlgorithmIdentifier<'a>, Option<AlgorithmIdentifier<'a>>>;

/// ```text
/// PreferredSignatureAlgorithm ::= SEQUENCE {
///      sigIdentifier   AlgorithmIdentifier,
///      certIdentifier  AlgorithmIdentifier OPTIONAL }
/// ```
///
/// Reading refuses the first fault of the octets, in their order.
#[derive(Clone, Copy, PartialEq, Eq)]
pub struct PreferredSignatureAlgorithm<'a> {
    fields: Fields<'a>,
}

impl<'a> PreferredSignatureAlgorithm<'a> {
    ghost use Rattle.der_ocsp.specs.Ocsp.PreferredSignatureAlgorithm as preferred_signature_algorithm_fields;
    ghost use Rattle.std.specs.Prelude.{option_copied};

    /// A value of these fields.
    pub fn new(
        sig_identifier: &AlgorithmIdentifier<'a>,
        cert_identifier: Option<&AlgorithmIdentifier<'a>>,
    ) -> PreferredSignatureAlgorithm<'a>
        ensures sig_identifier { preferred_signature_algorithm_fields.sig_identifier result ≡ sig_identifier.now }
        ensures cert_identifier { preferred_signature_algorithm_fields.cert_identifier result ≡ option_copied cert_identifier.entry }
    {
        let list = field_list![
            copy_of(sig_identifier),
            if_present!(value in cert_identifier => copy_of(value))
        ];
        let fields = Fields2 { list };
        PreferredSignatureAlgorithm { fields }
    }

    /// `sigIdentifier`, `AlgorithmIdentifier`.
    pub fn sig_identifier(&self) -> &AlgorithmIdentifier<'a>
        ensures { result.now ≡ preferred_signature_algorithm_fields.sig_identifier self.now }
    {
        &self.fields.list.first
    }

    /// `certIdentifier`, `AlgorithmIdentifier OPTIONAL`.
    pub fn cert_identifier(&self) -> Option<&AlgorithmIdentifier<'a>>
        ensures { option_copied result ≡ preferred_signature_algorithm_fields.cert_identifier self.now }
    {
        if_present!(value in &self.fields.list.rest.first => value)
    }
}

impl<'a> fmt::Debug for PreferredSignatureAlgorithm<'a> {
    fn fmt<W: fmt::Write>(&self, f: &mut fmt::Formatter<W>) -> fmt::Result {
        f.debug_struct("PreferredSignatureAlgorithm")
            .field("sig_identifier", self.sig_identifier())
            .field("cert_identifier", &self.cert_identifier())
            .finish()
    }
}

impl<'a> OneTag for PreferredSignatureAlgorithm<'a> {
    type Marker = SequenceTag;
}

impl<'a> Sequence<'a> for PreferredSignatureAlgorithm<'a> {
    ghost is_sequence = { refl };
}

impl<'a> FormValue for PreferredSignatureAlgorithm<'a> {
    ghost value = { mapped_format (λ v. v.fields) ⟦<Fields<'a> as FieldList>⟧.list.octets };
}

impl<'a, R: Source<'a>> DecodeValue<'a, R> for PreferredSignatureAlgorithm<'a> {
    ghost TAKES_MEMORY = { false };

    const TAKES_MEMORY: bool = false;

    fn decode_value(
        alloc: Global,
        reader: &mut R,
        _header: Header,
    ) -> Result<PreferredSignatureAlgorithm<'a>, Error> {
        match Fields::<'a>::decode_fields(alloc, reader) {
            Ok(fields) => Ok(PreferredSignatureAlgorithm { fields }),
            Err(e) => Err(e),
        }
    }

    ghost takes_memory_is = { refl };
}

impl<'a> EncodeValue for PreferredSignatureAlgorithm<'a> {
    fn value_len(&self) -> Result<Length, Error> {
        self.fields.fields_len()
    }

    fn encode_value<W: Writer>(&self, writer: &mut W) -> Result<(), Error> {
        self.fields.encode_fields(writer)
    }

    fn encode_value_back<W: BackWriter>(&self, writer: &mut W) -> Result<(), Error> {
        self.fields.encode_fields_back(writer)
    }
}

impl<'a> ValueOrd for PreferredSignatureAlgorithm<'a> {
    fn value_cmp(&self, other: &PreferredSignatureAlgorithm<'a>) -> Result<Ordering, Error> {
        self.fields.cmp_fields(&other.fields)
    }
}

impl<'a> Member for PreferredSignatureAlgorithm<'a> {
    ghost member = { struct_member ⟦<SequenceTag as TagMarker>⟧.TAG (λ v. v.fields.list)
        (field ⟦<AlgorithmIdentifier<'a> as Member>⟧.member
        (optional_field ⟦<AlgorithmIdentifier<'a> as Member>⟧.member
        no_fields)) };
}

impl<'a> ContentsEq for PreferredSignatureAlgorithm<'a> {
    ghost contents_eq = { ⟦<PreferredSignatureAlgorithm<'a> as Member>⟧.member.equal };
}

impl<'a> CopyIsDuplicate for PreferredSignatureAlgorithm<'a> {}

/// What is read as `PreferredSignatureAlgorithm` is what the grammar page says.
pub fn grammar_of_preferred_signature_algorithm<'a>()
    ensures { ⟦<PreferredSignatureAlgorithm<'a> as Form>⟧.parse ≡ parse_of preferred_signature_algorithm }
{}

/// The contents octets of `PreferredSignatureAlgorithm` are the encodings of its fields, one after
/// another.
pub fn octets_of_preferred_signature_algorithm<'a>()
    ensures { (v : PreferredSignatureAlgorithm) → ⟦<PreferredSignatureAlgorithm<'a> as FormValue>⟧.value.contents v ≡ joined (
        (⟦<AlgorithmIdentifier<'a> as Form>⟧.encoding (preferred_signature_algorithm_fields.sig_identifier v))
        ∷ optional (λ x. (⟦<AlgorithmIdentifier<'a> as Form>⟧.encoding x)) (preferred_signature_algorithm_fields.cert_identifier v)
        ∷ []) }
{}
