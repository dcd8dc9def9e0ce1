//! ECPrivateKey, a SEQUENCE of 4 fields.
//!
//! Made by tools/asn1 from key.asn1.

ghost use Rattle.std.specs.Prelude.{◌∷◌, ◌≡◌, [], false, refl};
ghost use Rattle.der_elem.specs.FormatMakers.{mapped_format};
ghost use Rattle.der_modules.specs.Asn1.{context, explicit_encoding, joined, optional, parse_of};
ghost use Rattle.der_modules.specs.Members.{field, no_fields, optional_field, struct_member};
ghost use Rattle.der_pkix.specs.Key.EcPrivateKey as ec_private_key_fields;
ghost use Rattle.der_pkix.specs.Key.Grammar.{ec_private_key};
ghost use Rattle.der_pkix.specs.declared.key.ec_private_key.EcPrivateKey.{EcPrivateKey};

use crate::key::aliases::EcPrivateKeyVersion;
use crate::key::ec_parameters::EcParameters;
use der_bits::BitStringRef;
use der_elem::{
    ContentsEq, CopyIsDuplicate, DecodeValue, EncodeValue, Form, FormValue, OneTag, Sequence,
    SequenceTag, TagMarker, ValueOrd,
};
use der_fields::{DecodeFields, EncodeFields, Explicit, FieldList, Fields4, FieldsOrd};
use der_modules::{Member, copy_of, field_list, if_present, tagged};
use der_opaque::OctetStringRef;
use der_tlv::{BackWriter, Error, Header, Length, Source, Writer};
use std::alloc::Global;
use std::cmp::Ordering;
use std::fmt;

/// The list of the fields.
type Fields<'a> = Fields4<
    EcPrivateKeyVersion,
    OctetStringRef<'a>,
    Option<Explicit<EcParameters<'a>, 0>>,
    Option<Explicit<BitStringRef<'a>, 1>>,
>;

/// ```text
/// ECPrivateKey ::= SEQUENCE {
///      version        INTEGER { ecPrivkeyVer1(1) },
///      privateKey     OCTET STRING,
///      parameters [0] ECParameters OPTIONAL,
///      publicKey  [1] BIT STRING OPTIONAL }
/// ```
///
/// Reading refuses the first fault of the octets, in their order.
#[derive(Clone, Copy, PartialEq, Eq)]
pub struct EcPrivateKey<'a> {
    fields: Fields<'a>,
}

impl<'a> EcPrivateKey<'a> {
    ghost use Rattle.der_pkix.specs.Key.EcPrivateKey as ec_private_key_fields;
    ghost use Rattle.std.specs.Prelude.{option_copied};

    /// A value of these fields.
    pub fn new(
        version: EcPrivateKeyVersion,
        private_key: OctetStringRef<'a>,
        parameters: Option<&EcParameters<'a>>,
        public_key: Option<BitStringRef<'a>>,
    ) -> EcPrivateKey<'a>
        ensures version { ec_private_key_fields.version result ≡ version }
        ensures private_key { ec_private_key_fields.private_key result ≡ private_key.entry }
        ensures parameters { ec_private_key_fields.parameters result ≡ option_copied parameters.entry }
        ensures public_key { ec_private_key_fields.public_key result ≡ public_key.entry }
    {
        let list = field_list![
            version,
            private_key,
            if_present!(value in parameters => tagged!(Explicit, copy_of(value))),
            if_present!(value in public_key => tagged!(Explicit, value))
        ];
        let fields = Fields4 { list };
        EcPrivateKey { fields }
    }

    /// `version`, `INTEGER { ecPrivkeyVer1 (1) }`.
    pub fn version(&self) -> EcPrivateKeyVersion
        ensures { result ≡ ec_private_key_fields.version self.now }
    {
        self.fields.list.first
    }

    /// `privateKey`, `OCTET STRING`.
    pub fn private_key(&self) -> &OctetStringRef<'a>
        ensures { result.now ≡ ec_private_key_fields.private_key self.now }
    {
        &self.fields.list.rest.first
    }

    /// `parameters`, `[0] ECParameters OPTIONAL`.
    pub fn parameters(&self) -> Option<&EcParameters<'a>>
        ensures { option_copied result ≡ ec_private_key_fields.parameters self.now }
    {
        if_present!(value in &self.fields.list.rest.rest.first => &value.fields.first)
    }

    /// `publicKey`, `[1] BIT STRING OPTIONAL`.
    pub fn public_key(&self) -> Option<&BitStringRef<'a>>
        ensures { option_copied result ≡ ec_private_key_fields.public_key self.now }
    {
        if_present!(value in &self.fields.list.rest.rest.rest.first => &value.fields.first)
    }
}

impl<'a> fmt::Debug for EcPrivateKey<'a> {
    fn fmt<W: fmt::Write>(&self, f: &mut fmt::Formatter<W>) -> fmt::Result {
        f.debug_struct("EcPrivateKey")
            .field("version", &self.version())
            .field("private_key", self.private_key())
            .field("parameters", &self.parameters())
            .field("public_key", &self.public_key())
            .finish()
    }
}

impl<'a> OneTag for EcPrivateKey<'a> {
    type Marker = SequenceTag;
}

impl<'a> Sequence<'a> for EcPrivateKey<'a> {
    ghost is_sequence = { refl };
}

impl<'a> FormValue for EcPrivateKey<'a> {
    ghost value = { mapped_format (λ v. v.fields) ⟦<Fields<'a> as FieldList>⟧.list.octets };
}

impl<'a, R: Source<'a>> DecodeValue<'a, R> for EcPrivateKey<'a> {
    ghost TAKES_MEMORY = { false };

    const TAKES_MEMORY: bool = false;

    fn decode_value(
        alloc: Global,
        reader: &mut R,
        _header: Header,
    ) -> Result<EcPrivateKey<'a>, Error> {
        match Fields::<'a>::decode_fields(alloc, reader) {
            Ok(fields) => Ok(EcPrivateKey { fields }),
            Err(e) => Err(e),
        }
    }

    ghost takes_memory_is = { refl };
}

impl<'a> EncodeValue for EcPrivateKey<'a> {
    fn value_len(&self) -> Result<Length, Error> {
        self.fields.fields_len()
    }

    fn encode_value<W: Writer>(&self, writer: &mut W) -> Result<(), Error> {
        self.fields.encode_fields(writer)
    }

    fn encode_value_back<W: BackWriter>(&self, writer: &mut W) -> Result<(), Error> {
        self.fields.encode_fields_back(writer)
    }
}

impl<'a> ValueOrd for EcPrivateKey<'a> {
    fn value_cmp(&self, other: &EcPrivateKey<'a>) -> Result<Ordering, Error> {
        self.fields.cmp_fields(&other.fields)
    }
}

impl<'a> Member for EcPrivateKey<'a> {
    ghost member = { struct_member ⟦<SequenceTag as TagMarker>⟧.TAG (λ v. v.fields.list)
        (field ⟦<EcPrivateKeyVersion as Member>⟧.member
        (field ⟦<OctetStringRef<'a> as Member>⟧.member
        (optional_field ⟦<Explicit<EcParameters<'a>, 0> as Member>⟧.member
        (optional_field ⟦<Explicit<BitStringRef<'a>, 1> as Member>⟧.member
        no_fields)))) };
}

impl<'a> ContentsEq for EcPrivateKey<'a> {
    ghost contents_eq = { ⟦<EcPrivateKey<'a> as Member>⟧.member.equal };
}

impl<'a> CopyIsDuplicate for EcPrivateKey<'a> {}

/// What is read as `ECPrivateKey` is what the grammar page says.
pub fn grammar_of_ec_private_key<'a>()
    ensures { ⟦<EcPrivateKey<'a> as Form>⟧.parse ≡ parse_of ec_private_key }
{}

/// The contents octets of `ECPrivateKey` are the encodings of its fields, one after another.
#[tactic(auto, using(der_modules::specs::Asn1::optional_of))]
pub fn octets_of_ec_private_key<'a>()
    ensures { (v : EcPrivateKey) → ⟦<EcPrivateKey<'a> as FormValue>⟧.value.contents v ≡ joined (
        (⟦<EcPrivateKeyVersion as Form>⟧.encoding (ec_private_key_fields.version v))
        ∷ (⟦<OctetStringRef<'a> as Form>⟧.encoding (ec_private_key_fields.private_key v))
        ∷ optional (λ x. (explicit_encoding context 0 (⟦<EcParameters<'a> as Form>⟧.encoding x))) (ec_private_key_fields.parameters v)
        ∷ optional (λ x. (explicit_encoding context 1 (⟦<BitStringRef<'a> as Form>⟧.encoding x))) (ec_private_key_fields.public_key v)
        ∷ []) }
{}
