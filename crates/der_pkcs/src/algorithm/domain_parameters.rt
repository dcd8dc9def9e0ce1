//! DomainParameters, a SEQUENCE of 5 fields.
//!
//! Made by tools/asn1 from algorithm.asn1.

ghost use Rattle.std.specs.Prelude.{◌∷◌, ◌≡◌, [], false, refl};
ghost use Rattle.der_elem.specs.FormatMakers.{mapped_format};
ghost use Rattle.der_modules.specs.Asn1.{joined, optional, parse_of};
ghost use Rattle.der_modules.specs.Members.{field, no_fields, optional_field, struct_member};
ghost use Rattle.der_pkcs.specs.Algorithm.DomainParameters as domain_parameters_fields;
ghost use Rattle.der_pkcs.specs.Algorithm.Grammar.{domain_parameters};
ghost use Rattle.der_pkcs.specs.declared.algorithm.domain_parameters.DomainParameters.{DomainParameters};

use crate::algorithm::validation_parms::ValidationParms;
use der_elem::{
    ContentsEq, CopyIsDuplicate, DecodeValue, EncodeValue, Form, FormValue, OneTag, Sequence,
    SequenceTag, TagMarker, ValueOrd,
};
use der_fields::{DecodeFields, EncodeFields, FieldList, Fields5, FieldsOrd};
use der_modules::{Member, copy_of, field_list, if_present};
use der_numbers::UintRef;
use der_tlv::{BackWriter, Error, Header, Length, Source, Writer};
use std::alloc::Global;
use std::cmp::Ordering;
use std::fmt;

/// The list of the fields.
type Fields<'a> = Fields5<
    UintRef<'a>,
    UintRef<'a>,
    UintRef<'a>,
    Option<UintRef<'a>>,
    Option<ValidationParms<'a>>,
>;

/// ```text
/// DomainParameters ::= SEQUENCE {
///      p                INTEGER (0..MAX),          -- odd prime, p=jq +1
///      g                INTEGER (0..MAX),          -- generator, g
///      q                INTEGER (0..MAX),          -- factor of p-1
///      j                INTEGER (0..MAX) OPTIONAL, -- subgroup factor
///      validationParms  ValidationParms OPTIONAL }
/// ```
///
/// Reading refuses the first fault of the octets, in their order.
#[derive(Clone, Copy, PartialEq, Eq)]
pub struct DomainParameters<'a> {
    fields: Fields<'a>,
}

impl<'a> DomainParameters<'a> {
    ghost use Rattle.der_pkcs.specs.Algorithm.DomainParameters as domain_parameters_fields;
    ghost use Rattle.std.specs.Prelude.{option_copied};

    /// A value of these fields.
    pub fn new(
        p: UintRef<'a>,
        g: UintRef<'a>,
        q: UintRef<'a>,
        j: Option<UintRef<'a>>,
        validation_parms: Option<&ValidationParms<'a>>,
    ) -> DomainParameters<'a>
        ensures p { domain_parameters_fields.p result ≡ p.entry }
        ensures g { domain_parameters_fields.g result ≡ g.entry }
        ensures q { domain_parameters_fields.q result ≡ q.entry }
        ensures j { domain_parameters_fields.j result ≡ j.entry }
        ensures validation_parms { domain_parameters_fields.validation_parms result ≡ option_copied validation_parms.entry }
    {
        let list = field_list![
            p,
            g,
            q,
            j,
            if_present!(value in validation_parms => copy_of(value))
        ];
        let fields = Fields5 { list };
        DomainParameters { fields }
    }

    /// `p`, `INTEGER (0..MAX)`.
    pub fn p(&self) -> &UintRef<'a>
        ensures { result.now ≡ domain_parameters_fields.p self.now }
    {
        &self.fields.list.first
    }

    /// `g`, `INTEGER (0..MAX)`.
    pub fn g(&self) -> &UintRef<'a>
        ensures { result.now ≡ domain_parameters_fields.g self.now }
    {
        &self.fields.list.rest.first
    }

    /// `q`, `INTEGER (0..MAX)`.
    pub fn q(&self) -> &UintRef<'a>
        ensures { result.now ≡ domain_parameters_fields.q self.now }
    {
        &self.fields.list.rest.rest.first
    }

    /// `j`, `INTEGER (0..MAX) OPTIONAL`.
    pub fn j(&self) -> Option<&UintRef<'a>>
        ensures { option_copied result ≡ domain_parameters_fields.j self.now }
    {
        if_present!(value in &self.fields.list.rest.rest.rest.first => value)
    }

    /// `validationParms`, `ValidationParms OPTIONAL`.
    pub fn validation_parms(&self) -> Option<&ValidationParms<'a>>
        ensures { option_copied result ≡ domain_parameters_fields.validation_parms self.now }
    {
        if_present!(value in &self.fields.list.rest.rest.rest.rest.first => value)
    }
}

impl<'a> fmt::Debug for DomainParameters<'a> {
    fn fmt<W: fmt::Write>(&self, f: &mut fmt::Formatter<W>) -> fmt::Result {
        f.debug_struct("DomainParameters")
            .field("p", self.p())
            .field("g", self.g())
            .field("q", self.q())
            .field("j", &self.j())
            .field("validation_parms", &self.validation_parms())
            .finish()
    }
}

impl<'a> OneTag for DomainParameters<'a> {
    type Marker = SequenceTag;
}

impl<'a> Sequence<'a> for DomainParameters<'a> {
    ghost is_sequence = { refl };
}

impl<'a> FormValue for DomainParameters<'a> {
    ghost value = { mapped_format (λ v. v.fields) ⟦<Fields<'a> as FieldList>⟧.list.octets };
}

impl<'a, R: Source<'a>> DecodeValue<'a, R> for DomainParameters<'a> {
    ghost TAKES_MEMORY = { false };

    const TAKES_MEMORY: bool = false;

    fn decode_value(
        alloc: Global,
        reader: &mut R,
        _header: Header,
    ) -> Result<DomainParameters<'a>, Error> {
        match Fields::<'a>::decode_fields(alloc, reader) {
            Ok(fields) => Ok(DomainParameters { fields }),
            Err(e) => Err(e),
        }
    }

    ghost takes_memory_is = { refl };
}

impl<'a> EncodeValue for DomainParameters<'a> {
    fn value_len(&self) -> Result<Length, Error> {
        self.fields.fields_len()
    }

    fn encode_value<W: Writer>(&self, writer: &mut W) -> Result<(), Error> {
        self.fields.encode_fields(writer)
    }

    fn encode_value_back<W: BackWriter>(&self, writer: &mut W) -> Result<(), Error> {
        self.fields.encode_fields_back(writer)
    }
}

impl<'a> ValueOrd for DomainParameters<'a> {
    fn value_cmp(&self, other: &DomainParameters<'a>) -> Result<Ordering, Error> {
        self.fields.cmp_fields(&other.fields)
    }
}

impl<'a> Member for DomainParameters<'a> {
    ghost member = { struct_member ⟦<SequenceTag as TagMarker>⟧.TAG (λ v. v.fields.list)
        (field ⟦<UintRef<'a> as Member>⟧.member
        (field ⟦<UintRef<'a> as Member>⟧.member
        (field ⟦<UintRef<'a> as Member>⟧.member
        (optional_field ⟦<UintRef<'a> as Member>⟧.member
        (optional_field ⟦<ValidationParms<'a> as Member>⟧.member
        no_fields))))) };
}

impl<'a> ContentsEq for DomainParameters<'a> {
    ghost contents_eq = { ⟦<DomainParameters<'a> as Member>⟧.member.equal };
}

impl<'a> CopyIsDuplicate for DomainParameters<'a> {}

/// What is read as `DomainParameters` is what the grammar page says.
pub fn grammar_of_domain_parameters<'a>()
    ensures { ⟦<DomainParameters<'a> as Form>⟧.parse ≡ parse_of domain_parameters }
{}

/// The contents octets of `DomainParameters` are the encodings of its fields, one after another.
pub fn octets_of_domain_parameters<'a>()
    ensures { (v : DomainParameters) → ⟦<DomainParameters<'a> as FormValue>⟧.value.contents v ≡ joined (
        (⟦<UintRef<'a> as Form>⟧.encoding (domain_parameters_fields.p v))
        ∷ (⟦<UintRef<'a> as Form>⟧.encoding (domain_parameters_fields.g v))
        ∷ (⟦<UintRef<'a> as Form>⟧.encoding (domain_parameters_fields.q v))
        ∷ optional (λ x. (⟦<UintRef<'a> as Form>⟧.encoding x)) (domain_parameters_fields.j v)
        ∷ optional (λ x. (⟦<ValidationParms<'a> as Form>⟧.encoding x)) (domain_parameters_fields.validation_parms v)
        ∷ []) }
{}
