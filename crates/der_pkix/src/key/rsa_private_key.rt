//! RSAPrivateKey, a SEQUENCE of 10 fields.
//!
//! Made by tools/asn1 from key.asn1.

ghost use Rattle.std.specs.Prelude.{◌∷◌, ◌≡◌, [], false, refl};
ghost use Rattle.der_elem.specs.FormatMakers.{mapped_format};
ghost use Rattle.der_modules.specs.Asn1.{joined, optional, parse_of};
ghost use Rattle.der_modules.specs.Members.{field, no_fields, optional_field, part, struct_member};
ghost use Rattle.der_pkix.specs.Key.Grammar.{rsa_private_key};
ghost use Rattle.der_pkix.specs.Key.RsaPrivateKey as rsa_private_key_fields;
ghost use Rattle.der_pkix.specs.declared.key.rsa_private_key.RsaPrivateKey.{RsaPrivateKey};

use crate::key::aliases::RsaPrivateKeyVersion;
use crate::key::other_prime_infos::OtherPrimeInfos;
use der_elem::{
    ContentsEq, CopyIsDuplicate, DecodeValue, EncodeValue, Form, FormValue, OneTag, Sequence,
    SequenceTag, TagMarker, ValueOrd,
};
use der_fields::{DecodeFields, EncodeFields, FieldList, Fields2, Fields8, FieldsOrd};
use der_modules::{Member, copy_of, field_list, if_present};
use der_numbers::UintRef;
use der_tlv::{BackWriter, Error, Header, Length, Source, Writer};
use std::alloc::Global;
use std::cmp::Ordering;
use std::fmt;

/// The list of the fields.
type Fields<'a> = Fields8<
    RsaPrivateKeyVersion,
    UintRef<'a>,
    UintRef<'a>,
    UintRef<'a>,
    UintRef<'a>,
    UintRef<'a>,
    UintRef<'a>,
    UintRef<'a>,
    Fields2<UintRef<'a>, Option<OtherPrimeInfos<'a>>>,
>;

/// ```text
/// RSAPrivateKey ::= SEQUENCE {
///      version          INTEGER { two-prime(0), multi(1) },
///      modulus          INTEGER (0..MAX),  -- n
///      publicExponent   INTEGER (0..MAX),  -- e
///      privateExponent  INTEGER (0..MAX),  -- d
///      prime1           INTEGER (0..MAX),  -- p
///      prime2           INTEGER (0..MAX),  -- q
///      exponent1        INTEGER (0..MAX),  -- d mod (p-1)
///      exponent2        INTEGER (0..MAX),  -- d mod (q-1)
///      coefficient      INTEGER (0..MAX),  -- (inverse of q) mod p
///      otherPrimeInfos  OtherPrimeInfos OPTIONAL }
/// ```
///
/// Reading refuses the first fault of the octets, in their order.
#[derive(Clone, Copy, PartialEq, Eq)]
pub struct RsaPrivateKey<'a> {
    fields: Fields<'a>,
}

impl<'a> RsaPrivateKey<'a> {
    ghost use Rattle.der_pkix.specs.Key.RsaPrivateKey as rsa_private_key_fields;
    ghost use Rattle.std.specs.Prelude.{option_copied};

    /// A value of these fields.
    pub fn new(
        version: RsaPrivateKeyVersion,
        modulus: UintRef<'a>,
        public_exponent: UintRef<'a>,
        private_exponent: UintRef<'a>,
        prime1: UintRef<'a>,
        prime2: UintRef<'a>,
        exponent1: UintRef<'a>,
        exponent2: UintRef<'a>,
        coefficient: UintRef<'a>,
        other_prime_infos: Option<&OtherPrimeInfos<'a>>,
    ) -> RsaPrivateKey<'a>
        ensures version { rsa_private_key_fields.version result ≡ version }
        ensures modulus { rsa_private_key_fields.modulus result ≡ modulus.entry }
        ensures public_exponent { rsa_private_key_fields.public_exponent result ≡ public_exponent.entry }
        ensures private_exponent { rsa_private_key_fields.private_exponent result ≡ private_exponent.entry }
        ensures prime1 { rsa_private_key_fields.prime1 result ≡ prime1.entry }
        ensures prime2 { rsa_private_key_fields.prime2 result ≡ prime2.entry }
        ensures exponent1 { rsa_private_key_fields.exponent1 result ≡ exponent1.entry }
        ensures exponent2 { rsa_private_key_fields.exponent2 result ≡ exponent2.entry }
        ensures coefficient { rsa_private_key_fields.coefficient result ≡ coefficient.entry }
        ensures other_prime_infos { rsa_private_key_fields.other_prime_infos result ≡ option_copied other_prime_infos.entry }
    {
        let list = field_list![
            coefficient,
            if_present!(value in other_prime_infos => copy_of(value))
        ];
        let rest = Fields2 { list };
        let list =
            field_list![version, modulus, public_exponent, private_exponent, prime1, prime2, exponent1, exponent2; rest];
        let fields = Fields8 { list };
        RsaPrivateKey { fields }
    }

    /// `version`, `INTEGER { two-prime (0), multi (1) }`.
    pub fn version(&self) -> RsaPrivateKeyVersion
        ensures { result ≡ rsa_private_key_fields.version self.now }
    {
        self.fields.list.first
    }

    /// `modulus`, `INTEGER (0..MAX)`.
    pub fn modulus(&self) -> &UintRef<'a>
        ensures { result.now ≡ rsa_private_key_fields.modulus self.now }
    {
        &self.fields.list.rest.first
    }

    /// `publicExponent`, `INTEGER (0..MAX)`.
    pub fn public_exponent(&self) -> &UintRef<'a>
        ensures { result.now ≡ rsa_private_key_fields.public_exponent self.now }
    {
        &self.fields.list.rest.rest.first
    }

    /// `privateExponent`, `INTEGER (0..MAX)`.
    pub fn private_exponent(&self) -> &UintRef<'a>
        ensures { result.now ≡ rsa_private_key_fields.private_exponent self.now }
    {
        &self.fields.list.rest.rest.rest.first
    }

    /// `prime1`, `INTEGER (0..MAX)`.
    pub fn prime1(&self) -> &UintRef<'a>
        ensures { result.now ≡ rsa_private_key_fields.prime1 self.now }
    {
        &self.fields.list.rest.rest.rest.rest.first
    }

    /// `prime2`, `INTEGER (0..MAX)`.
    pub fn prime2(&self) -> &UintRef<'a>
        ensures { result.now ≡ rsa_private_key_fields.prime2 self.now }
    {
        &self.fields.list.rest.rest.rest.rest.rest.first
    }

    /// `exponent1`, `INTEGER (0..MAX)`.
    pub fn exponent1(&self) -> &UintRef<'a>
        ensures { result.now ≡ rsa_private_key_fields.exponent1 self.now }
    {
        &self.fields.list.rest.rest.rest.rest.rest.rest.first
    }

    /// `exponent2`, `INTEGER (0..MAX)`.
    pub fn exponent2(&self) -> &UintRef<'a>
        ensures { result.now ≡ rsa_private_key_fields.exponent2 self.now }
    {
        &self.fields.list.rest.rest.rest.rest.rest.rest.rest.first
    }

    /// `coefficient`, `INTEGER (0..MAX)`.
    pub fn coefficient(&self) -> &UintRef<'a>
        ensures { result.now ≡ rsa_private_key_fields.coefficient self.now }
    {
        let tail = &self.fields.list.rest.rest.rest.rest.rest.rest.rest.rest;
        &tail.list.first
    }

    /// `otherPrimeInfos`, `OtherPrimeInfos OPTIONAL`.
    pub fn other_prime_infos(&self) -> Option<&OtherPrimeInfos<'a>>
        ensures { option_copied result ≡ rsa_private_key_fields.other_prime_infos self.now }
    {
        let tail = &self.fields.list.rest.rest.rest.rest.rest.rest.rest.rest;
        if_present!(value in &tail.list.rest.first => value)
    }
}

impl<'a> fmt::Debug for RsaPrivateKey<'a> {
    fn fmt<W: fmt::Write>(&self, f: &mut fmt::Formatter<W>) -> fmt::Result {
        f.debug_struct("RsaPrivateKey")
            .field("version", &self.version())
            .field("modulus", self.modulus())
            .field("public_exponent", self.public_exponent())
            .field("private_exponent", self.private_exponent())
            .field("prime1", self.prime1())
            .field("prime2", self.prime2())
            .field("exponent1", self.exponent1())
            .field("exponent2", self.exponent2())
            .field("coefficient", self.coefficient())
            .field("other_prime_infos", &self.other_prime_infos())
            .finish()
    }
}

impl<'a> OneTag for RsaPrivateKey<'a> {
    type Marker = SequenceTag;
}

impl<'a> Sequence<'a> for RsaPrivateKey<'a> {
    ghost is_sequence = { refl };
}

impl<'a> FormValue for RsaPrivateKey<'a> {
    ghost value = { mapped_format (λ v. v.fields) ⟦<Fields<'a> as FieldList>⟧.list.octets };
}

impl<'a, R: Source<'a>> DecodeValue<'a, R> for RsaPrivateKey<'a> {
    ghost TAKES_MEMORY = { false };

    const TAKES_MEMORY: bool = false;

    fn decode_value(
        alloc: Global,
        reader: &mut R,
        _header: Header,
    ) -> Result<RsaPrivateKey<'a>, Error> {
        match Fields::<'a>::decode_fields(alloc, reader) {
            Ok(fields) => Ok(RsaPrivateKey { fields }),
            Err(e) => Err(e),
        }
    }

    ghost takes_memory_is = { refl };
}

impl<'a> EncodeValue for RsaPrivateKey<'a> {
    fn value_len(&self) -> Result<Length, Error> {
        self.fields.fields_len()
    }

    fn encode_value<W: Writer>(&self, writer: &mut W) -> Result<(), Error> {
        self.fields.encode_fields(writer)
    }

    fn encode_value_back<W: BackWriter>(&self, writer: &mut W) -> Result<(), Error> {
        self.fields.encode_fields_back(writer)
    }
}

impl<'a> ValueOrd for RsaPrivateKey<'a> {
    fn value_cmp(&self, other: &RsaPrivateKey<'a>) -> Result<Ordering, Error> {
        self.fields.cmp_fields(&other.fields)
    }
}

impl<'a> Member for RsaPrivateKey<'a> {
    ghost member = { struct_member ⟦<SequenceTag as TagMarker>⟧.TAG (λ v. v.fields.list)
        (field ⟦<RsaPrivateKeyVersion as Member>⟧.member
        (field ⟦<UintRef<'a> as Member>⟧.member
        (field ⟦<UintRef<'a> as Member>⟧.member
        (field ⟦<UintRef<'a> as Member>⟧.member
        (field ⟦<UintRef<'a> as Member>⟧.member
        (field ⟦<UintRef<'a> as Member>⟧.member
        (field ⟦<UintRef<'a> as Member>⟧.member
        (field ⟦<UintRef<'a> as Member>⟧.member
        (part (λ v. v.list)
        (field ⟦<UintRef<'a> as Member>⟧.member
        (optional_field ⟦<OtherPrimeInfos<'a> as Member>⟧.member
        no_fields))))))))))) };
}

impl<'a> ContentsEq for RsaPrivateKey<'a> {
    ghost contents_eq = { ⟦<RsaPrivateKey<'a> as Member>⟧.member.equal };
}

impl<'a> CopyIsDuplicate for RsaPrivateKey<'a> {}

/// What is read as `RSAPrivateKey` is what the grammar page says.
pub fn grammar_of_rsa_private_key<'a>()
    ensures { ⟦<RsaPrivateKey<'a> as Form>⟧.parse ≡ parse_of rsa_private_key }
{}

/// The contents octets of `RSAPrivateKey` are the encodings of its fields, one after another.
pub fn octets_of_rsa_private_key<'a>()
    ensures { (v : RsaPrivateKey) → ⟦<RsaPrivateKey<'a> as FormValue>⟧.value.contents v ≡ joined (
        (⟦<RsaPrivateKeyVersion as Form>⟧.encoding (rsa_private_key_fields.version v))
        ∷ (⟦<UintRef<'a> as Form>⟧.encoding (rsa_private_key_fields.modulus v))
        ∷ (⟦<UintRef<'a> as Form>⟧.encoding (rsa_private_key_fields.public_exponent v))
        ∷ (⟦<UintRef<'a> as Form>⟧.encoding (rsa_private_key_fields.private_exponent v))
        ∷ (⟦<UintRef<'a> as Form>⟧.encoding (rsa_private_key_fields.prime1 v))
        ∷ (⟦<UintRef<'a> as Form>⟧.encoding (rsa_private_key_fields.prime2 v))
        ∷ (⟦<UintRef<'a> as Form>⟧.encoding (rsa_private_key_fields.exponent1 v))
        ∷ (⟦<UintRef<'a> as Form>⟧.encoding (rsa_private_key_fields.exponent2 v))
        ∷ (⟦<UintRef<'a> as Form>⟧.encoding (rsa_private_key_fields.coefficient v))
        ∷ optional (λ x. (⟦<OtherPrimeInfos<'a> as Form>⟧.encoding x)) (rsa_private_key_fields.other_prime_infos v)
        ∷ []) }
{}
