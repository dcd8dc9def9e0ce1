//! Signature, a SEQUENCE of 3 fields.
//!
//! Made by tools/asn1 from ocsp.asn1.

ghost use Rattle.std.specs.Prelude.{◌∷◌, ◌≡◌, [], false, refl};
ghost use Rattle.der_elem.specs.FormatMakers.{mapped_format};
ghost use Rattle.der_modules.specs.Asn1.{context, explicit_encoding, joined, optional, parse_of};
ghost use Rattle.der_modules.specs.Members.{field, no_fields, optional_field, struct_member};
ghost use Rattle.der_ocsp.specs.Ocsp.Grammar.{signature};
ghost use Rattle.der_ocsp.specs.Ocsp.Signature as signature_fields;
ghost use Rattle.der_ocsp.specs.declared.ocsp.signature.Signature.{Signature};

use crate::ocsp::certificates::Certificates;
use der_bits::BitStringRef;
use der_elem::{
    ContentsEq, CopyIsDuplicate, DecodeValue, EncodeValue, Form, FormValue, OneTag, Sequence,
    SequenceTag, TagMarker, ValueOrd,
};
use der_fields::{DecodeFields, EncodeFields, Explicit, FieldList, Fields3, FieldsOrd};
use der_modules::{Member, copy_of, field_list, if_present, tagged};
use der_pkix::AlgorithmIdentifier;
use der_tlv::{BackWriter, Error, Header, Length, Source, Writer};
use std::alloc::Global;
use std::cmp::Ordering;
use std::fmt;

/// The list of the fields.
type Fields<'a> = Fields3<
    AlgorithmIdentifier<'a>,
    BitStringRef<'a>,
    Option<Explicit<Certificates<'a>, 0>>,
>;

/// ```text
/// Signature ::= SEQUENCE {
///      signatureAlgorithm  AlgorithmIdentifier,
///      signature           BIT STRING,
///      certs           [0] EXPLICIT Certificates OPTIONAL }
/// ```
///
/// Reading refuses the first fault of the octets, in their order.
#[derive(Clone, Copy, PartialEq, Eq)]
pub struct Signature<'a> {
    fields: Fields<'a>,
}

impl<'a> Signature<'a> {
    ghost use Rattle.der_ocsp.specs.Ocsp.Signature as signature_fields;
    ghost use Rattle.std.specs.Prelude.{option_copied};

    /// A value of these fields.
    pub fn new(
        signature_algorithm: &AlgorithmIdentifier<'a>,
        signature: BitStringRef<'a>,
        certs: Option<&Certificates<'a>>,
    ) -> Signature<'a>
        ensures signature_algorithm { signature_fields.signature_algorithm result ≡ signature_algorithm.now }
        ensures signature { signature_fields.signature result ≡ signature.entry }
        ensures certs { signature_fields.certs result ≡ option_copied certs.entry }
    {
        let list = field_list![
            copy_of(signature_algorithm),
            signature,
            if_present!(value in certs => tagged!(Explicit, copy_of(value)))
        ];
        let fields = Fields3 { list };
        Signature { fields }
    }

    /// `signatureAlgorithm`, `AlgorithmIdentifier`.
    pub fn signature_algorithm(&self) -> &AlgorithmIdentifier<'a>
        ensures { result.now ≡ signature_fields.signature_algorithm self.now }
    {
        &self.fields.list.first
    }

    /// `signature`, `BIT STRING`.
    pub fn signature(&self) -> &BitStringRef<'a>
        ensures { result.now ≡ signature_fields.signature self.now }
    {
        &self.fields.list.rest.first
    }

    /// `certs`, `[0] EXPLICIT Certificates OPTIONAL`.
    pub fn certs(&self) -> Option<&Certificates<'a>>
        ensures { option_copied result ≡ signature_fields.certs self.now }
    {
        if_present!(value in &self.fields.list.rest.rest.first => &value.fields.first)
    }
}

impl<'a> fmt::Debug for Signature<'a> {
    fn fmt<W: fmt::Write>(&self, f: &mut fmt::Formatter<W>) -> fmt::Result {
        f.debug_struct("Signature")
            .field("signature_algorithm", self.signature_algorithm())
            .field("signature", self.signature())
            .field("certs", &self.certs())
            .finish()
    }
}

impl<'a> OneTag for Signature<'a> {
    type Marker = SequenceTag;
}

impl<'a> Sequence<'a> for Signature<'a> {
    ghost is_sequence = { refl };
}

impl<'a> FormValue for Signature<'a> {
    ghost value = { mapped_format (λ v. v.fields) ⟦<Fields<'a> as FieldList>⟧.list.octets };
}

impl<'a, R: Source<'a>> DecodeValue<'a, R> for Signature<'a> {
    ghost TAKES_MEMORY = { false };

    const TAKES_MEMORY: bool = false;

    fn decode_value(
        alloc: Global,
        reader: &mut R,
        _header: Header,
    ) -> Result<Signature<'a>, Error> {
        match Fields::<'a>::decode_fields(alloc, reader) {
            Ok(fields) => Ok(Signature { fields }),
            Err(e) => Err(e),
        }
    }

    ghost takes_memory_is = { refl };
}

impl<'a> EncodeValue for Signature<'a> {
    fn value_len(&self) -> Result<Length, Error> {
        self.fields.fields_len()
    }

    fn encode_value<W: Writer>(&self, writer: &mut W) -> Result<(), Error> {
        self.fields.encode_fields(writer)
    }

    fn encode_value_back<W: BackWriter>(&self, writer: &mut W) -> Result<(), Error> {
        self.fields.encode_fields_back(writer)
    }
}

impl<'a> ValueOrd for Signature<'a> {
    fn value_cmp(&self, other: &Signature<'a>) -> Result<Ordering, Error> {
        self.fields.cmp_fields(&other.fields)
    }
}

impl<'a> Member for Signature<'a> {
    ghost member = { struct_member ⟦<SequenceTag as TagMarker>⟧.TAG (λ v. v.fields.list)
        (field ⟦<AlgorithmIdentifier<'a> as Member>⟧.member
        (field ⟦<BitStringRef<'a> as Member>⟧.member
        (optional_field ⟦<Explicit<Certificates<'a>, 0> as Member>⟧.member
        no_fields))) };
}

impl<'a> ContentsEq for Signature<'a> {
    ghost contents_eq = { ⟦<Signature<'a> as Member>⟧.member.equal };
}

impl<'a> CopyIsDuplicate for Signature<'a> {}

/// What is read as `Signature` is what the grammar page says.
pub fn grammar_of_signature<'a>()
    ensures { ⟦<Signature<'a> as Form>⟧.parse ≡ parse_of signature }
{}

/// The contents octets of `Signature` are the encodings of its fields, one after another.
#[tactic(auto, using(der_modules::specs::Asn1::optional_of))]
pub fn octets_of_signature<'a>()
    ensures { (v : Signature) → ⟦<Signature<'a> as FormValue>⟧.value.contents v ≡ joined (
        (⟦<AlgorithmIdentifier<'a> as Form>⟧.encoding (signature_fields.signature_algorithm v))
        ∷ (⟦<BitStringRef<'a> as Form>⟧.encoding (signature_fields.signature v))
        ∷ optional (λ x. (explicit_encoding context 0 (⟦<Certificates<'a> as Form>⟧.encoding x))) (signature_fields.certs v)
        ∷ []) }
{}
