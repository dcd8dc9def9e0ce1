//! RSAPublicKey, a SEQUENCE of 2 fields.
//!
//! Made by tools/asn1 from key.asn1.

ghost use Rattle.std.specs.Prelude.{◌∷◌, ◌≡◌, [], false, refl};
ghost use Rattle.der_elem.specs.FormatMakers.{mapped_format};
ghost use Rattle.der_modules.specs.Asn1.{joined, parse_of};
ghost use Rattle.der_modules.specs.Members.{field, no_fields, struct_member};
ghost use Rattle.der_pkix.specs.Key.Grammar.{rsa_public_key};
ghost use Rattle.der_pkix.specs.Key.RsaPublicKey as rsa_public_key_fields;
ghost use Rattle.der_pkix.specs.declared.key.rsa_public_key.RsaPublicKey.{RsaPublicKey};

use der_elem::{
    ContentsEq, CopyIsDuplicate, DecodeValue, EncodeValue, Form, FormValue, OneTag, Sequence,
    SequenceTag, TagMarker, ValueOrd,
};
use der_fields::{DecodeFields, EncodeFields, FieldList, Fields2, FieldsOrd};
use der_modules::{Member, field_list};
use der_numbers::UintRef;
use der_tlv::{BackWriter, Error, Header, Length, Source, Writer};
use std::alloc::Global;
use std::cmp::Ordering;
use std::fmt;

/// The list of the fields.
type Fields<'a> = Fields2<UintRef<'a>, UintRef<'a>>;

/// ```text
/// RSAPublicKey ::= SEQUENCE {
///      modulus         INTEGER (0..MAX),  -- n
///      publicExponent  INTEGER (0..MAX) }
/// ```
///
/// Reading refuses the first fault of the octets, in their order.
#[derive(Clone, Copy, PartialEq, Eq)]
pub struct RsaPublicKey<'a> {
    fields: Fields<'a>,
}

impl<'a> RsaPublicKey<'a> {
    ghost use Rattle.der_pkix.specs.Key.RsaPublicKey as rsa_public_key_fields;

    /// A value of these fields.
    pub fn new(modulus: UintRef<'a>, public_exponent: UintRef<'a>) -> RsaPublicKey<'a>
        ensures modulus { rsa_public_key_fields.modulus result ≡ modulus.entry }
        ensures public_exponent { rsa_public_key_fields.public_exponent result ≡ public_exponent.entry }
    {
        let list = field_list![modulus, public_exponent];
        let fields = Fields2 { list };
        RsaPublicKey { fields }
    }

    /// `modulus`, `INTEGER (0..MAX)`.
    pub fn modulus(&self) -> &UintRef<'a>
        ensures { result.now ≡ rsa_public_key_fields.modulus self.now }
    {
        &self.fields.list.first
    }

    /// `publicExponent`, `INTEGER (0..MAX)`.
    pub fn public_exponent(&self) -> &UintRef<'a>
        ensures { result.now ≡ rsa_public_key_fields.public_exponent self.now }
    {
        &self.fields.list.rest.first
    }
}

impl<'a> fmt::Debug for RsaPublicKey<'a> {
    fn fmt<W: fmt::Write>(&self, f: &mut fmt::Formatter<W>) -> fmt::Result {
        f.debug_struct("RsaPublicKey")
            .field("modulus", self.modulus())
            .field("public_exponent", self.public_exponent())
            .finish()
    }
}

impl<'a> OneTag for RsaPublicKey<'a> {
    type Marker = SequenceTag;
}

impl<'a> Sequence<'a> for RsaPublicKey<'a> {
    ghost is_sequence = { refl };
}

impl<'a> FormValue for RsaPublicKey<'a> {
    ghost value = { mapped_format (λ v. v.fields) ⟦<Fields<'a> as FieldList>⟧.list.octets };
}

impl<'a, R: Source<'a>> DecodeValue<'a, R> for RsaPublicKey<'a> {
    ghost TAKES_MEMORY = { false };

    const TAKES_MEMORY: bool = false;

    fn decode_value(
        alloc: Global,
        reader: &mut R,
        _header: Header,
    ) -> Result<RsaPublicKey<'a>, Error> {
        match Fields::<'a>::decode_fields(alloc, reader) {
            Ok(fields) => Ok(RsaPublicKey { fields }),
            Err(e) => Err(e),
        }
    }

    ghost takes_memory_is = { refl };
}

impl<'a> EncodeValue for RsaPublicKey<'a> {
    fn value_len(&self) -> Result<Length, Error> {
        self.fields.fields_len()
    }

    fn encode_value<W: Writer>(&self, writer: &mut W) -> Result<(), Error> {
        self.fields.encode_fields(writer)
    }

    fn encode_value_back<W: BackWriter>(&self, writer: &mut W) -> Result<(), Error> {
        self.fields.encode_fields_back(writer)
    }
}

impl<'a> ValueOrd for RsaPublicKey<'a> {
    fn value_cmp(&self, other: &RsaPublicKey<'a>) -> Result<Ordering, Error> {
        self.fields.cmp_fields(&other.fields)
    }
}

impl<'a> Member for RsaPublicKey<'a> {
    ghost member = { struct_member ⟦<SequenceTag as TagMarker>⟧.TAG (λ v. v.fields.list)
        (field ⟦<UintRef<'a> as Member>⟧.member
        (field ⟦<UintRef<'a> as Member>⟧.member
        no_fields)) };
}

impl<'a> ContentsEq for RsaPublicKey<'a> {
    ghost contents_eq = { ⟦<RsaPublicKey<'a> as Member>⟧.member.equal };
}

impl<'a> CopyIsDuplicate for RsaPublicKey<'a> {}

/// What is read as `RSAPublicKey` is what the grammar page says.
pub fn grammar_of_rsa_public_key<'a>()
    ensures { ⟦<RsaPublicKey<'a> as Form>⟧.parse ≡ parse_of rsa_public_key }
{}

/// The contents octets of `RSAPublicKey` are the encodings of its fields, one after another.
pub fn octets_of_rsa_public_key<'a>()
    ensures { (v : RsaPublicKey) → ⟦<RsaPublicKey<'a> as FormValue>⟧.value.contents v ≡ joined (
        (⟦<UintRef<'a> as Form>⟧.encoding (rsa_public_key_fields.modulus v))
        ∷ (⟦<UintRef<'a> as Form>⟧.encoding (rsa_public_key_fields.public_exponent v))
        ∷ []) }
{}
