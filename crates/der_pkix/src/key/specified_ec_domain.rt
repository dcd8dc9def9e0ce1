//! SpecifiedECDomain, a SEQUENCE of 7 fields.
//!
//! Made by tools/asn1 from key.asn1.

ghost use Rattle.std.specs.Prelude.{◌∷◌, ◌≡◌, [], false, refl};
ghost use Rattle.der_elem.specs.FormatMakers.{mapped_format};
ghost use Rattle.der_modules.specs.Asn1.{joined, optional, parse_of};
ghost use Rattle.der_modules.specs.Members.{field, no_fields, optional_field, struct_member};
ghost use Rattle.der_pkix.specs.Key.Grammar.{specified_ec_domain};
ghost use Rattle.der_pkix.specs.Key.SpecifiedEcDomain as specified_ec_domain_fields;
ghost use Rattle.der_pkix.specs.declared.key.specified_ec_domain.SpecifiedEcDomain.{SpecifiedEcDomain};

use crate::AlgorithmIdentifier;
use crate::key::aliases::SpecifiedEcDomainVersion;
use crate::key::curve::Curve;
use crate::key::field_id::FieldId;
use der_elem::{
    ContentsEq, CopyIsDuplicate, DecodeValue, EncodeValue, Form, FormValue, OneTag, Sequence,
    SequenceTag, TagMarker, ValueOrd,
};
use der_fields::{DecodeFields, EncodeFields, FieldList, Fields7, FieldsOrd};
use der_modules::{Member, copy_of, field_list, if_present};
use der_numbers::IntRef;
use der_opaque::OctetStringRef;
use der_tlv::{BackWriter, Error, Header, Length, Source, Writer};
use std::alloc::Global;
use std::cmp::Ordering;
use std::fmt;

/// The list of the fields.
type Fields<'a> = Fields7<
    SpecifiedEcDomainVersion,
    FieldId<'a>,
    Curve<'a>,
    OctetStringRef<'a>,
    IntRef<'a>,
    Option<IntRef<'a>>,
    Option<AlgorithmIdentifier<'a>>,
>;

/// ```text
/// SpecifiedECDomain ::= SEQUENCE {
///      version   INTEGER { ecdpVer1(1), ecdpVer2(2), ecdpVer3(3) },
///      fieldID   FieldID,
///      curve     Curve,
///      base      OCTET STRING, -- a point of the curve
///      order     INTEGER,
///      cofactor  INTEGER OPTIONAL,
///      hash      AlgorithmIdentifier OPTIONAL }
/// ```
///
/// Reading refuses the first fault of the octets, in their order.
#[derive(Clone, Copy, PartialEq, Eq)]
pub struct SpecifiedEcDomain<'a> {
    fields: Fields<'a>,
}

impl<'a> SpecifiedEcDomain<'a> {
    ghost use Rattle.der_pkix.specs.Key.SpecifiedEcDomain as specified_ec_domain_fields;
    ghost use Rattle.std.specs.Prelude.{option_copied};

    /// A value of these fields.
    pub fn new(
        version: SpecifiedEcDomainVersion,
        field_id: &FieldId<'a>,
        curve: &Curve<'a>,
        base: OctetStringRef<'a>,
        order: IntRef<'a>,
        cofactor: Option<IntRef<'a>>,
        hash: Option<&AlgorithmIdentifier<'a>>,
    ) -> SpecifiedEcDomain<'a>
        ensures version { specified_ec_domain_fields.version result ≡ version }
        ensures field_id { specified_ec_domain_fields.field_id result ≡ field_id.now }
        ensures curve { specified_ec_domain_fields.curve result ≡ curve.now }
        ensures base { specified_ec_domain_fields.base result ≡ base.entry }
        ensures order { specified_ec_domain_fields.order result ≡ order.entry }
        ensures cofactor { specified_ec_domain_fields.cofactor result ≡ cofactor.entry }
        ensures hash { specified_ec_domain_fields.hash result ≡ option_copied hash.entry }
    {
        let list = field_list![
            version,
            copy_of(field_id),
            copy_of(curve),
            base,
            order,
            cofactor,
            if_present!(value in hash => copy_of(value))
        ];
        let fields = Fields7 { list };
        SpecifiedEcDomain { fields }
    }

    /// `version`, `INTEGER { ecdpVer1 (1), ecdpVer2 (2), ecdpVer3 (3) }`.
    pub fn version(&self) -> SpecifiedEcDomainVersion
        ensures { result ≡ specified_ec_domain_fields.version self.now }
    {
        self.fields.list.first
    }

    /// `fieldID`, `FieldID`.
    pub fn field_id(&self) -> &FieldId<'a>
        ensures { result.now ≡ specified_ec_domain_fields.field_id self.now }
    {
        &self.fields.list.rest.first
    }

    /// `curve`, `Curve`.
    pub fn curve(&self) -> &Curve<'a>
        ensures { result.now ≡ specified_ec_domain_fields.curve self.now }
    {
        &self.fields.list.rest.rest.first
    }

    /// `base`, `OCTET STRING`.
    pub fn base(&self) -> &OctetStringRef<'a>
        ensures { result.now ≡ specified_ec_domain_fields.base self.now }
    {
        &self.fields.list.rest.rest.rest.first
    }

    /// `order`, `INTEGER`.
    pub fn order(&self) -> &IntRef<'a>
        ensures { result.now ≡ specified_ec_domain_fields.order self.now }
    {
        &self.fields.list.rest.rest.rest.rest.first
    }

    /// `cofactor`, `INTEGER OPTIONAL`.
    pub fn cofactor(&self) -> Option<&IntRef<'a>>
        ensures { option_copied result ≡ specified_ec_domain_fields.cofactor self.now }
    {
        if_present!(value in &self.fields.list.rest.rest.rest.rest.rest.first => value)
    }

    /// `hash`, `AlgorithmIdentifier OPTIONAL`.
    pub fn hash(&self) -> Option<&AlgorithmIdentifier<'a>>
        ensures { option_copied result ≡ specified_ec_domain_fields.hash self.now }
    {
        if_present!(value in &self.fields.list.rest.rest.rest.rest.rest.rest.first => value)
    }
}

impl<'a> fmt::Debug for SpecifiedEcDomain<'a> {
    fn fmt<W: fmt::Write>(&self, f: &mut fmt::Formatter<W>) -> fmt::Result {
        f.debug_struct("SpecifiedEcDomain")
            .field("version", &self.version())
            .field("field_id", self.field_id())
            .field("curve", self.curve())
            .field("base", self.base())
            .field("order", self.order())
            .field("cofactor", &self.cofactor())
            .field("hash", &self.hash())
            .finish()
    }
}

impl<'a> OneTag for SpecifiedEcDomain<'a> {
    type Marker = SequenceTag;
}

impl<'a> Sequence<'a> for SpecifiedEcDomain<'a> {
    ghost is_sequence = { refl };
}

impl<'a> FormValue for SpecifiedEcDomain<'a> {
    ghost value = { mapped_format (λ v. v.fields) ⟦<Fields<'a> as FieldList>⟧.list.octets };
}

impl<'a, R: Source<'a>> DecodeValue<'a, R> for SpecifiedEcDomain<'a> {
    ghost TAKES_MEMORY = { false };

    const TAKES_MEMORY: bool = false;

    fn decode_value(
        alloc: Global,
        reader: &mut R,
        _header: Header,
    ) -> Result<SpecifiedEcDomain<'a>, Error> {
        match Fields::<'a>::decode_fields(alloc, reader) {
            Ok(fields) => Ok(SpecifiedEcDomain { fields }),
            Err(e) => Err(e),
        }
    }

    ghost takes_memory_is = { refl };
}

impl<'a> EncodeValue for SpecifiedEcDomain<'a> {
    fn value_len(&self) -> Result<Length, Error> {
        self.fields.fields_len()
    }

    fn encode_value<W: Writer>(&self, writer: &mut W) -> Result<(), Error> {
        self.fields.encode_fields(writer)
    }

    fn encode_value_back<W: BackWriter>(&self, writer: &mut W) -> Result<(), Error> {
        self.fields.encode_fields_back(writer)
    }
}

impl<'a> ValueOrd for SpecifiedEcDomain<'a> {
    fn value_cmp(&self, other: &SpecifiedEcDomain<'a>) -> Result<Ordering, Error> {
        self.fields.cmp_fields(&other.fields)
    }
}

impl<'a> Member for SpecifiedEcDomain<'a> {
    ghost member = { struct_member ⟦<SequenceTag as TagMarker>⟧.TAG (λ v. v.fields.list)
        (field ⟦<SpecifiedEcDomainVersion as Member>⟧.member
        (field ⟦<FieldId<'a> as Member>⟧.member
        (field ⟦<Curve<'a> as Member>⟧.member
        (field ⟦<OctetStringRef<'a> as Member>⟧.member
        (field ⟦<IntRef<'a> as Member>⟧.member
        (optional_field ⟦<IntRef<'a> as Member>⟧.member
        (optional_field ⟦<AlgorithmIdentifier<'a> as Member>⟧.member
        no_fields))))))) };
}

impl<'a> ContentsEq for SpecifiedEcDomain<'a> {
    ghost contents_eq = { ⟦<SpecifiedEcDomain<'a> as Member>⟧.member.equal };
}

impl<'a> CopyIsDuplicate for SpecifiedEcDomain<'a> {}

/// What is read as `SpecifiedECDomain` is what the grammar page says.
pub fn grammar_of_specified_ec_domain<'a>()
    ensures { ⟦<SpecifiedEcDomain<'a> as Form>⟧.parse ≡ parse_of specified_ec_domain }
{}

/// The contents octets of `SpecifiedECDomain` are the encodings of its fields, one after another.
pub fn octets_of_specified_ec_domain<'a>()
    ensures { (v : SpecifiedEcDomain) → ⟦<SpecifiedEcDomain<'a> as FormValue>⟧.value.contents v ≡ joined (
        (⟦<SpecifiedEcDomainVersion as Form>⟧.encoding (specified_ec_domain_fields.version v))
        ∷ (⟦<FieldId<'a> as Form>⟧.encoding (specified_ec_domain_fields.field_id v))
        ∷ (⟦<Curve<'a> as Form>⟧.encoding (specified_ec_domain_fields.curve v))
        ∷ (⟦<OctetStringRef<'a> as Form>⟧.encoding (specified_ec_domain_fields.base v))
        ∷ (⟦<IntRef<'a> as Form>⟧.encoding (specified_ec_domain_fields.order v))
        ∷ optional (λ x. (⟦<IntRef<'a> as Form>⟧.encoding x)) (specified_ec_domain_fields.cofactor v)
        ∷ optional (λ x. (⟦<AlgorithmIdentifier<'a> as Form>⟧.encoding x)) (specified_ec_domain_fields.hash v)
        ∷ []) }
{}
