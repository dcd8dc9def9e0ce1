//! RecipientKeyIdentifier, a SEQUENCE of 3 fields.
//!
//! Made by tools/asn1 from enveloped.asn1.

ghost use Rattle.std.specs.Prelude.{◌∷◌, ◌≡◌, [], false, refl};
ghost use Rattle.der_elem.specs.FormatMakers.{mapped_format};
ghost use Rattle.der_enveloped.specs.Enveloped.Grammar.{recipient_key_identifier};
ghost use Rattle.der_enveloped.specs.Enveloped.RecipientKeyIdentifier as recipient_key_identifier_fields;
ghost use Rattle.der_enveloped.specs.declared.enveloped.recipient_key_identifier.RecipientKeyIdentifier.{RecipientKeyIdentifier};
ghost use Rattle.der_modules.specs.Asn1.{joined, optional, parse_of};
ghost use Rattle.der_modules.specs.Members.{field, no_fields, optional_field, struct_member};

use crate::enveloped::aliases::OtherKeyAttribute;
use der_elem::{
    ContentsEq, CopyIsDuplicate, DecodeValue, EncodeValue, Form, FormValue, OneTag, Sequence,
    SequenceTag, TagMarker, ValueOrd,
};
use der_extensions::extension::SubjectKeyIdentifier;
use der_fields::{DecodeFields, EncodeFields, FieldList, Fields3, FieldsOrd};
use der_modules::{Member, copy_of, field_list, if_present};
use der_time::GeneralizedTime;
use der_tlv::{BackWriter, Error, Header, Length, Source, Writer};
use std::alloc::Global;
use std::cmp::Ordering;
use std::fmt;

/// The list of the fields.
type Fields<'a> = Fields3<
    SubjectKeyIdentifier<'a>,
    Option<GeneralizedTime>,
    Option<OtherKeyAttribute<'a>>,
>;

/// ```text
/// RecipientKeyIdentifier ::= SEQUENCE {
///      subjectKeyIdentifier  SubjectKeyIdentifier,
///      date                  GeneralizedTime OPTIONAL,
///      other                 OtherKeyAttribute OPTIONAL }
/// ```
///
/// Reading refuses the first fault of the octets, in their order.
#[derive(Clone, Copy, PartialEq, Eq)]
pub struct RecipientKeyIdentifier<'a> {
    fields: Fields<'a>,
}

impl<'a> RecipientKeyIdentifier<'a> {
    ghost use Rattle.der_enveloped.specs.Enveloped.RecipientKeyIdentifier as recipient_key_identifier_fields;
    ghost use Rattle.std.specs.Prelude.{option_copied};

    /// A value of these fields.
    pub fn new(
        subject_key_identifier: SubjectKeyIdentifier<'a>,
        date: Option<GeneralizedTime>,
        other: Option<&OtherKeyAttribute<'a>>,
    ) -> RecipientKeyIdentifier<'a>
        ensures subject_key_identifier { recipient_key_identifier_fields.subject_key_identifier result ≡ subject_key_identifier.entry }
        ensures date { recipient_key_identifier_fields.date result ≡ date }
        ensures other { recipient_key_identifier_fields.other result ≡ option_copied other.entry }
    {
        let list = field_list![
            subject_key_identifier,
            date,
            if_present!(value in other => copy_of(value))
        ];
        let fields = Fields3 { list };
        RecipientKeyIdentifier { fields }
    }

    /// `subjectKeyIdentifier`, `SubjectKeyIdentifier`.
    pub fn subject_key_identifier(&self) -> &SubjectKeyIdentifier<'a>
        ensures { result.now ≡ recipient_key_identifier_fields.subject_key_identifier self.now }
    {
        &self.fields.list.first
    }

    /// `date`, `GeneralizedTime OPTIONAL`.
    pub fn date(&self) -> Option<GeneralizedTime>
        ensures { result ≡ recipient_key_identifier_fields.date self.now }
    {
        self.fields.list.rest.first
    }

    /// `other`, `OtherKeyAttribute OPTIONAL`.
    pub fn other(&self) -> Option<&OtherKeyAttribute<'a>>
        ensures { option_copied result ≡ recipient_key_identifier_fields.other self.now }
    {
        if_present!(value in &self.fields.list.rest.rest.first => value)
    }
}

impl<'a> fmt::Debug for RecipientKeyIdentifier<'a> {
    fn fmt<W: fmt::Write>(&self, f: &mut fmt::Formatter<W>) -> fmt::Result {
        f.debug_struct("RecipientKeyIdentifier")
            .field("subject_key_identifier", self.subject_key_identifier())
            .field("date", &self.date())
            .field("other", &self.other())
            .finish()
    }
}

impl<'a> OneTag for RecipientKeyIdentifier<'a> {
    type Marker = SequenceTag;
}

impl<'a> Sequence<'a> for RecipientKeyIdentifier<'a> {
    ghost is_sequence = { refl };
}

impl<'a> FormValue for RecipientKeyIdentifier<'a> {
    ghost value = { mapped_format (λ v. v.fields) ⟦<Fields<'a> as FieldList>⟧.list.octets };
}

impl<'a, R: Source<'a>> DecodeValue<'a, R> for RecipientKeyIdentifier<'a> {
    ghost TAKES_MEMORY = { false };

    const TAKES_MEMORY: bool = false;

    fn decode_value(
        alloc: Global,
        reader: &mut R,
        _header: Header,
    ) -> Result<RecipientKeyIdentifier<'a>, Error> {
        match Fields::<'a>::decode_fields(alloc, reader) {
            Ok(fields) => Ok(RecipientKeyIdentifier { fields }),
            Err(e) => Err(e),
        }
    }

    ghost takes_memory_is = { refl };
}

impl<'a> EncodeValue for RecipientKeyIdentifier<'a> {
    fn value_len(&self) -> Result<Length, Error> {
        self.fields.fields_len()
    }

    fn encode_value<W: Writer>(&self, writer: &mut W) -> Result<(), Error> {
        self.fields.encode_fields(writer)
    }

    fn encode_value_back<W: BackWriter>(&self, writer: &mut W) -> Result<(), Error> {
        self.fields.encode_fields_back(writer)
    }
}

impl<'a> ValueOrd for RecipientKeyIdentifier<'a> {
    fn value_cmp(&self, other: &RecipientKeyIdentifier<'a>) -> Result<Ordering, Error> {
        self.fields.cmp_fields(&other.fields)
    }
}

impl<'a> Member for RecipientKeyIdentifier<'a> {
    ghost member = { struct_member ⟦<SequenceTag as TagMarker>⟧.TAG (λ v. v.fields.list)
        (field ⟦<SubjectKeyIdentifier<'a> as Member>⟧.member
        (optional_field ⟦<GeneralizedTime as Member>⟧.member
        (optional_field ⟦<OtherKeyAttribute<'a> as Member>⟧.member
        no_fields))) };
}

impl<'a> ContentsEq for RecipientKeyIdentifier<'a> {
    ghost contents_eq = { ⟦<RecipientKeyIdentifier<'a> as Member>⟧.member.equal };
}

impl<'a> CopyIsDuplicate for RecipientKeyIdentifier<'a> {}

/// What is read as `RecipientKeyIdentifier` is what the grammar page says.
pub fn grammar_of_recipient_key_identifier<'a>()
    ensures { ⟦<RecipientKeyIdentifier<'a> as Form>⟧.parse ≡ parse_of recipient_key_identifier }
{}

/// The contents octets of `RecipientKeyIdentifier` are the encodings of its fields, one after
/// another.
pub fn octets_of_recipient_key_identifier<'a>()
    ensures { (v : RecipientKeyIdentifier) → ⟦<RecipientKeyIdentifier<'a> as FormValue>⟧.value.contents v ≡ joined (
        (⟦<SubjectKeyIdentifier<'a> as Form>⟧.encoding (recipient_key_identifier_fields.subject_key_identifier v))
        ∷ optional (λ x. (⟦<GeneralizedTime as Form>⟧.encoding x)) (recipient_key_identifier_fields.date v)
        ∷ optional (λ x. (⟦<OtherKeyAttribute<'a> as Form>⟧.encoding x)) (recipient_key_identifier_fields.other v)
        ∷ []) }
{}
