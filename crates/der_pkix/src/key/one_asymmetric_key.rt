//! OneAsymmetricKey, a SEQUENCE of 5 fields.
//!
//! Made by tools/asn1 from key.asn1.

ghost use Rattle.std.specs.Prelude.{◌∷◌, ◌≡◌, [], false, refl, true};
ghost use Rattle.der_elem.specs.FormatMakers.{mapped_format};
ghost use Rattle.der_modules.specs.Asn1.{context, implicit_encoding, joined, optional, parse_of};
ghost use Rattle.der_modules.specs.Members.{field, no_fields, optional_field, struct_member};
ghost use Rattle.der_pkix.specs.Key.Grammar.{one_asymmetric_key};
ghost use Rattle.der_pkix.specs.Key.OneAsymmetricKey as one_asymmetric_key_fields;
ghost use Rattle.der_pkix.specs.declared.key.one_asymmetric_key.OneAsymmetricKey.{OneAsymmetricKey};

use crate::AlgorithmIdentifier;
use crate::key::aliases::OneAsymmetricKeyVersion;
use crate::key::attributes::Attributes;
use der_bits::BitStringRef;
use der_elem::{
    ContentsEq, CopyIsDuplicate, DecodeValue, EncodeValue, Form, FormValue, OneTag, Sequence,
    SequenceTag, TagMarker, ValueOrd,
};
use der_fields::{DecodeFields, EncodeFields, FieldList, Fields5, FieldsOrd, Implicit};
use der_modules::{Member, copy_of, field_list, if_present};
use der_opaque::OctetStringRef;
use der_tlv::{BackWriter, Error, Header, Length, Source, Writer};
use std::alloc::Global;
use std::cmp::Ordering;
use std::fmt;

/// The list of the fields.
type Fields<'a> = Fields5<
    OneAsymmetricKeyVersion,
    AlgorithmIdentifier<'a>,
    OctetStringRef<'a>,
    Option<Implicit<Attributes<'a>, 0>>,
    Option<Implicit<BitStringRef<'a>, 1>>,
>;

/// ```text
/// OneAsymmetricKey ::= SEQUENCE {
///      version              INTEGER { v1(0), v2(1) },
///      privateKeyAlgorithm  AlgorithmIdentifier,
///      privateKey           OCTET STRING,
///      attributes       [0] IMPLICIT Attributes OPTIONAL,
///      ...,
///      publicKey        [1] IMPLICIT BIT STRING OPTIONAL,
///                           -- if present, version MUST be v2
///      ... }
/// ```
///
/// Reading refuses the first fault of the octets, in their order.
///
/// Not checked: '...': fields that this module does not have are refused.
#[derive(Clone, Copy, PartialEq, Eq)]
pub struct OneAsymmetricKey<'a> {
    fields: Fields<'a>,
}

impl<'a> OneAsymmetricKey<'a> {
    ghost use Rattle.der_pkix.specs.Key.OneAsymmetricKey as one_asymmetric_key_fields;
    ghost use Rattle.std.specs.Prelude.{option_copied};

    /// A value of these fields.
    pub fn new(
        version: OneAsymmetricKeyVersion,
        private_key_algorithm: &AlgorithmIdentifier<'a>,
        private_key: OctetStringRef<'a>,
        attributes: Option<&Attributes<'a>>,
        public_key: Option<BitStringRef<'a>>,
    ) -> OneAsymmetricKey<'a>
        ensures version { one_asymmetric_key_fields.version result ≡ version }
        ensures private_key_algorithm { one_asymmetric_key_fields.private_key_algorithm result ≡ private_key_algorithm.now }
        ensures private_key { one_asymmetric_key_fields.private_key result ≡ private_key.entry }
        ensures attributes { one_asymmetric_key_fields.attributes result ≡ option_copied attributes.entry }
        ensures public_key { one_asymmetric_key_fields.public_key result ≡ public_key.entry }
    {
        let list = field_list![
            version,
            copy_of(private_key_algorithm),
            private_key,
            if_present!(value in attributes => Implicit { value: copy_of(value) }),
            if_present!(value in public_key => Implicit { value })
        ];
        let fields = Fields5 { list };
        OneAsymmetricKey { fields }
    }

    /// `version`, `INTEGER { v1 (0), v2 (1) }`.
    pub fn version(&self) -> OneAsymmetricKeyVersion
        ensures { result ≡ one_asymmetric_key_fields.version self.now }
    {
        self.fields.list.first
    }

    /// `privateKeyAlgorithm`, `AlgorithmIdentifier`.
    pub fn private_key_algorithm(&self) -> &AlgorithmIdentifier<'a>
        ensures { result.now ≡ one_asymmetric_key_fields.private_key_algorithm self.now }
    {
        &self.fields.list.rest.first
    }

    /// `privateKey`, `OCTET STRING`.
    pub fn private_key(&self) -> &OctetStringRef<'a>
        ensures { result.now ≡ one_asymmetric_key_fields.private_key self.now }
    {
        &self.fields.list.rest.rest.first
    }

    /// `attributes`, `[0] IMPLICIT Attributes OPTIONAL`.
    pub fn attributes(&self) -> Option<&Attributes<'a>>
        ensures { option_copied result ≡ one_asymmetric_key_fields.attributes self.now }
    {
        if_present!(value in &self.fields.list.rest.rest.rest.first => &value.value)
    }

    /// `publicKey`, `[1] IMPLICIT BIT STRING OPTIONAL`.
    pub fn public_key(&self) -> Option<&BitStringRef<'a>>
        ensures { option_copied result ≡ one_asymmetric_key_fields.public_key self.now }
    {
        if_present!(value in &self.fields.list.rest.rest.rest.rest.first => &value.value)
    }
}

impl<'a> fmt::Debug for OneAsymmetricKey<'a> {
    fn fmt<W: fmt::Write>(&self, f: &mut fmt::Formatter<W>) -> fmt::Result {
        f.debug_struct("OneAsymmetricKey")
            .field("version", &self.version())
            .field("private_key_algorithm", self.private_key_algorithm())
            .field("private_key", self.private_key())
            .field("attributes", &self.attributes())
            .field("public_key", &self.public_key())
            .finish()
    }
}

impl<'a> OneTag for OneAsymmetricKey<'a> {
    type Marker = SequenceTag;
}

impl<'a> Sequence<'a> for OneAsymmetricKey<'a> {
    ghost is_sequence = { refl };
}

impl<'a> FormValue for OneAsymmetricKey<'a> {
    ghost value = { mapped_format (λ v. v.fields) ⟦<Fields<'a> as FieldList>⟧.list.octets };
}

impl<'a, R: Source<'a>> DecodeValue<'a, R> for OneAsymmetricKey<'a> {
    ghost TAKES_MEMORY = { false };

    const TAKES_MEMORY: bool = false;

    fn decode_value(
        alloc: Global,
        reader: &mut R,
        _header: Header,
    ) -> Result<OneAsymmetricKey<'a>, Error> {
        match Fields::<'a>::decode_fields(alloc, reader) {
            Ok(fields) => Ok(OneAsymmetricKey { fields }),
            Err(e) => Err(e),
        }
    }

    ghost takes_memory_is = { refl };
}

impl<'a> EncodeValue for OneAsymmetricKey<'a> {
    fn value_len(&self) -> Result<Length, Error> {
        self.fields.fields_len()
    }

    fn encode_value<W: Writer>(&self, writer: &mut W) -> Result<(), Error> {
        self.fields.encode_fields(writer)
    }

    fn encode_value_back<W: BackWriter>(&self, writer: &mut W) -> Result<(), Error> {
        self.fields.encode_fields_back(writer)
    }
}

impl<'a> ValueOrd for OneAsymmetricKey<'a> {
    fn value_cmp(&self, other: &OneAsymmetricKey<'a>) -> Result<Ordering, Error> {
        self.fields.cmp_fields(&other.fields)
    }
}

impl<'a> Member for OneAsymmetricKey<'a> {
    ghost member = { struct_member ⟦<SequenceTag as TagMarker>⟧.TAG (λ v. v.fields.list)
        (field ⟦<OneAsymmetricKeyVersion as Member>⟧.member
        (field ⟦<AlgorithmIdentifier<'a> as Member>⟧.member
        (field ⟦<OctetStringRef<'a> as Member>⟧.member
        (optional_field ⟦<Implicit<Attributes<'a>, 0> as Member>⟧.member
        (optional_field ⟦<Implicit<BitStringRef<'a>, 1> as Member>⟧.member
        no_fields))))) };
}

impl<'a> ContentsEq for OneAsymmetricKey<'a> {
    ghost contents_eq = { ⟦<OneAsymmetricKey<'a> as Member>⟧.member.equal };
}

impl<'a> CopyIsDuplicate for OneAsymmetricKey<'a> {}

/// What is read as `OneAsymmetricKey` is what the grammar page says.
pub fn grammar_of_one_asymmetric_key<'a>()
    ensures { ⟦<OneAsymmetricKey<'a> as Form>⟧.parse ≡ parse_of one_asymmetric_key }
{}

/// The contents octets of `OneAsymmetricKey` are the encodings of its fields, one after another.
#[tactic(auto, using(der_modules::specs::Asn1::optional_of))]
pub fn octets_of_one_asymmetric_key<'a>()
    ensures { (v : OneAsymmetricKey) → ⟦<OneAsymmetricKey<'a> as FormValue>⟧.value.contents v ≡ joined (
        (⟦<OneAsymmetricKeyVersion as Form>⟧.encoding (one_asymmetric_key_fields.version v))
        ∷ (⟦<AlgorithmIdentifier<'a> as Form>⟧.encoding (one_asymmetric_key_fields.private_key_algorithm v))
        ∷ (⟦<OctetStringRef<'a> as Form>⟧.encoding (one_asymmetric_key_fields.private_key v))
        ∷ optional (λ x. (implicit_encoding context true 0 (⟦<Attributes<'a> as FormValue>⟧.value.contents x))) (one_asymmetric_key_fields.attributes v)
        ∷ optional (λ x. (implicit_encoding context false 1 (⟦<BitStringRef<'a> as FormValue>⟧.value.contents x))) (one_asymmetric_key_fields.public_key v)
        ∷ []) }
{}
