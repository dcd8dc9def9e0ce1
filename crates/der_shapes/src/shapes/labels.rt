//! Labels, a SEQUENCE of 4 fields.
//!
//! Made by tools/asn1 from shapes.asn1.

ghost use Rattle.std.specs.Prelude.{◌∷◌, ◌≡◌, [], refl, true};
ghost use Rattle.der_elem.specs.FormatMakers.{mapped_format};
ghost use Rattle.der_modules.specs.Asn1.{context, explicit_encoding, joined, optional, parse_of, unless_default};
ghost use Rattle.der_modules.specs.MemberLaws.{copies_of, default_copies, held_copies, listed_copies, member_copies, no_copies, one_tag_copies, optional_copies, same_copies};
ghost use Rattle.der_modules.specs.Members.{choice_field, default_field, first_of, first_of_default, first_of_option, no_fields, optional_field, struct_member};
ghost use Rattle.der_opaque.specs.contracts.octet_string.OctetStringDuplicateValue.TheImpl.Laws as octetstring_duplicate_value;
ghost use Rattle.der_opaque.specs.contracts.octet_string.OctetStringDuplicateValueIsEqual.TheImpl.Laws as octetstring_duplicate_value_is_equal;
ghost use Rattle.der_shapes.specs.Shapes.Grammar.{labels};
ghost use Rattle.der_shapes.specs.Shapes.Labels as labels_fields;
ghost use Rattle.der_shapes.specs.contracts.shapes.label.LabelDuplicate.TheImpl.Laws as label_duplicate;
ghost use Rattle.der_shapes.specs.contracts.shapes.label.LabelDuplicateIsEqual.TheImpl.Laws as label_duplicate_is_equal;
ghost use Rattle.der_shapes.specs.declared.shapes.labels.Labels.{Labels};

use crate::shapes::label::Label;
use der_elem::{
    BooleanTag, ContentsEq, DecodeValue, DuplicateValue, DuplicateValueIsEqual, EncodeValue, Form,
    FormValue, OctetStringTag, OneTag, Sequence, SequenceTag, TagMarker, ValueOrd,
};
use der_fields::{
    DecodeFields, DefaultFalse, DefaultOf, DuplicateFields, EncodeFields, Explicit, ExplicitTag,
    Field, FieldList, Fields4, FieldsOrd, WithDefault,
};
use der_modules::{Choosing, CopyLaws, Member, field_list, if_present, tagged};
use der_opaque::OctetString;
use der_tlv::{BackWriter, Error, Header, Length, Source, Writer};
use std::alloc::Global;
use std::cmp::Ordering;
use std::fmt;

/// The list of the fields.
type Fields<'a> = Fields4<
    Label<'a>,
    Option<OctetString>,
    Option<Explicit<OctetString, 1>>,
    WithDefault<bool, DefaultFalse>,
>;

/// ```text
/// Labels ::= SEQUENCE {
///     label    Label,
///     title    OCTET STRING OPTIONAL,
///     other    [1] EXPLICIT OCTET STRING OPTIONAL,
///     visible  BOOLEAN DEFAULT FALSE }
/// ```
///
/// Reading refuses the first fault of the octets, in their order; `ErrorKind::Memory` (1) where
/// memory runs out.
#[derive(PartialEq, Eq, Drop)]
pub struct Labels<'a> {
    fields: Fields<'a>,
}

impl<'a> Labels<'a> {
    ghost use Rattle.der_shapes.specs.Shapes.Labels as labels_fields;
    ghost use Rattle.std.specs.Prelude.{option_copied};

    /// A value of these fields.
    pub fn new(
        label: Label<'a>,
        title: Option<OctetString>,
        other: Option<OctetString>,
        visible: bool,
    ) -> Labels<'a>
        ensures label { labels_fields.label result ≡ label.entry }
        ensures title { labels_fields.title result ≡ title }
        ensures other { labels_fields.other result ≡ other }
        ensures visible { labels_fields.visible result ≡ visible }
    {
        let list = field_list![
            label,
            title,
            if_present!(value in other => tagged!(Explicit, value)),
            WithDefault::new(visible)
        ];
        let fields = Fields4 { list };
        Labels { fields }
    }

    /// The values of the fields, in their order.
    pub fn into_parts(self) -> (Label<'a>, Option<OctetString>, Option<OctetString>, bool)
        ensures label { labels_fields.label self.entry ≡ result.0 }
        ensures title { labels_fields.title self.entry ≡ result.1 }
        ensures other { labels_fields.other self.entry ≡ result.2 }
        ensures visible { labels_fields.visible self.entry ≡ result.3 }
    {
        let Fields4 { list } = self.fields;
        let Field { first: label, rest } = list;
        let Field { first: title, rest } = rest;
        let Field { first: other, rest } = rest;
        let Field { first: visible, .. } = rest;
        let other = if_present!(value in other => value.fields.first);
        let visible = visible.value;
        (label, title, other, visible)
    }

    /// `label`, `Label`.
    pub fn label(&self) -> &Label<'a>
        ensures { result.now ≡ labels_fields.label self.now }
    {
        &self.fields.list.first
    }

    /// `title`, `OCTET STRING OPTIONAL`.
    pub fn title(&self) -> Option<&OctetString>
        ensures { option_copied result ≡ labels_fields.title self.now }
    {
        if_present!(value in &self.fields.list.rest.first => value)
    }

    /// `other`, `[1] EXPLICIT OCTET STRING OPTIONAL`.
    pub fn other(&self) -> Option<&OctetString>
        ensures { option_copied result ≡ labels_fields.other self.now }
    {
        if_present!(value in &self.fields.list.rest.rest.first => &value.fields.first)
    }

    /// `visible`, `BOOLEAN DEFAULT FALSE`.
    pub fn visible(&self) -> bool
        ensures { result ≡ labels_fields.visible self.now }
    {
        self.fields.list.rest.rest.rest.first.value
    }
}

impl<'a> fmt::Debug for Labels<'a> {
    fn fmt<W: fmt::Write>(&self, f: &mut fmt::Formatter<W>) -> fmt::Result {
        f.debug_struct("Labels")
            .field("label", self.label())
            .field("title", &self.title())
            .field("other", &self.other())
            .field("visible", &self.visible())
            .finish()
    }
}

impl<'a> OneTag for Labels<'a> {
    type Marker = SequenceTag;
}

impl<'a> Sequence<'a> for Labels<'a> {
    ghost is_sequence = { refl };
}

impl<'a> FormValue for Labels<'a> {
    ghost value = { mapped_format (λ v. v.fields) ⟦<Fields<'a> as FieldList>⟧.list.octets };
}

impl<'a, R: Source<'a>> DecodeValue<'a, R> for Labels<'a> {
    ghost TAKES_MEMORY = { true };

    const TAKES_MEMORY: bool = true;

    fn decode_value(alloc: Global, reader: &mut R, _header: Header) -> Result<Labels<'a>, Error> {
        match Fields::<'a>::decode_fields(alloc, reader) {
            Ok(fields) => Ok(Labels { fields }),
            Err(e) => Err(e),
        }
    }

    ghost takes_memory_is = { refl };
}

impl<'a> EncodeValue for Labels<'a> {
    fn value_len(&self) -> Result<Length, Error> {
        self.fields.fields_len()
    }

    fn encode_value<W: Writer>(&self, writer: &mut W) -> Result<(), Error> {
        self.fields.encode_fields(writer)
    }

    fn encode_value_back<W: BackWriter>(&self, writer: &mut W) -> Result<(), Error> {
        self.fields.encode_fields_back(writer)
    }
}

impl<'a> ValueOrd for Labels<'a> {
    fn value_cmp(&self, other: &Labels<'a>) -> Result<Ordering, Error> {
        self.fields.cmp_fields(&other.fields)
    }
}

impl<'a> Member for Labels<'a> {
    ghost member = { struct_member ⟦<SequenceTag as TagMarker>⟧.TAG (λ v. v.fields.list)
        (choice_field ⟦<Label<'a> as Choosing>⟧.choice
        (optional_field ⟦<OctetString as Member>⟧.member
        (optional_field ⟦<Explicit<OctetString, 1> as Member>⟧.member
        (default_field ⟦<DefaultFalse as DefaultOf<bool>>⟧.octets ⟦<bool as Member>⟧.member
        no_fields)))) };
}

impl<'a> ContentsEq for Labels<'a> {
    ghost contents_eq = { ⟦<Labels<'a> as Member>⟧.member.equal };
}

impl<'a> CopyLaws for Labels<'a> {
    ghost copies = { copies_of (held_copies (λ v. v.fields.list)
        (listed_copies (member_copies ⟦<Label<'a> as Form>⟧
        (first_of ⟦<Label<'a> as Choosing>⟧.choice)
        (record { octets_are = label_duplicate.copy_encoding-law; comparable_are = label_duplicate.copy_comparable-law; re_reads_are = label_duplicate.copy_re_reads-law; equal_are = label_duplicate_is_equal.copy_is_equal-law })
        (member_copies ⟦<Option<OctetString> as Form>⟧
        (first_of_option ⟦<OctetString as Choosing>⟧.choice)
        (optional_copies ⟦<OctetString as Form>⟧ (one_tag_copies ⟦<OctetStringTag as TagMarker>⟧.TAG (record { octets_are = octetstring_duplicate_value.copy_contents-law; comparable_are = octetstring_duplicate_value.copy_comparable_value-law; re_reads_are = octetstring_duplicate_value.copy_re_reads_value-law; equal_are = octetstring_duplicate_value_is_equal.copy_value_is_equal-law })))
        (member_copies ⟦<Option<Explicit<OctetString, 1>> as Form>⟧
        (first_of_option ⟦<Explicit<OctetString, 1> as Choosing>⟧.choice)
        (optional_copies ⟦<Explicit<OctetString, 1> as Form>⟧ (one_tag_copies ⟦<ExplicitTag<1> as TagMarker>⟧.TAG (held_copies (λ x. x.fields) (listed_copies (member_copies ⟦<OctetString as Form>⟧
        (first_of ⟦<OctetString as Choosing>⟧.choice)
        (one_tag_copies ⟦<OctetStringTag as TagMarker>⟧.TAG (record { octets_are = octetstring_duplicate_value.copy_contents-law; comparable_are = octetstring_duplicate_value.copy_comparable_value-law; re_reads_are = octetstring_duplicate_value.copy_re_reads_value-law; equal_are = octetstring_duplicate_value_is_equal.copy_value_is_equal-law }))
        no_copies)))))
        (member_copies ⟦<WithDefault<bool, DefaultFalse> as Form>⟧
        (first_of_default ⟦<bool as Choosing>⟧.choice (λ x. x.value) ⟦<DefaultFalse as DefaultOf<bool>>⟧.octets)
        (default_copies ⟦<bool as Form>⟧ (one_tag_copies ⟦<BooleanTag as TagMarker>⟧.TAG (same_copies ⟦<bool as FormValue>⟧.value.contents ⟦<bool as FormValue>⟧.value.comparable ⟦<bool as FormValue>⟧.value.re_reads ⟦<bool as PartialEq>⟧.eq (λ v. (⟦<bool as Member>⟧.member.equal v v tt).1 refl))) (λ x. x.value) ⟦<DefaultFalse as DefaultOf<bool>>⟧.octets)
        no_copies)))))) };
}

impl<'a> DuplicateValue for Labels<'a> {
    ghost is_copy_value = { λ v w. ⟦<Fields<'a> as DuplicateFields>⟧.are_copies v.fields w.fields };

    ghost takes_memory_to_copy_value = { ⟦<Fields<'a> as DuplicateFields>⟧.take_memory_to_copy };

    fn duplicate_value(&self) -> Result<Labels<'a>, Error> {
        match self.fields.duplicate_fields() {
            Ok(fields) => Ok(Labels { fields }),
            Err(e) => Err(e),
        }
    }

    ghost copy_contents = { ⟦<Labels<'a> as CopyLaws>⟧.copies.laws.octets_are };

    ghost copy_comparable_value = { ⟦<Labels<'a> as CopyLaws>⟧.copies.laws.comparable_are };

    ghost copy_re_reads_value = { ⟦<Labels<'a> as CopyLaws>⟧.copies.laws.re_reads_are };
}

impl<'a> DuplicateValueIsEqual for Labels<'a> {
    ghost copy_value_is_equal = { ⟦<Labels<'a> as CopyLaws>⟧.copies.laws.equal_are };
}

/// What is read as `Labels` is what the grammar page says.
pub fn grammar_of_labels<'a>()
    ensures { ⟦<Labels<'a> as Form>⟧.parse ≡ parse_of labels }
{}

/// The contents octets of `Labels` are the encodings of its fields, one after another.
#[tactic(auto, using(der_modules::specs::Asn1::optional_of))]
pub fn octets_of_labels<'a>()
    ensures { (v : Labels) → ⟦<Labels<'a> as FormValue>⟧.value.contents v ≡ joined (
        (⟦<Label<'a> as Form>⟧.encoding (labels_fields.label v))
        ∷ optional (λ x. (⟦<OctetString as Form>⟧.encoding x)) (labels_fields.title v)
        ∷ optional (λ x. (explicit_encoding context 1 (⟦<OctetString as Form>⟧.encoding x))) (labels_fields.other v)
        ∷ unless_default ⟦<DefaultFalse as DefaultOf<bool>>⟧.octets (⟦<bool as Form>⟧.encoding (labels_fields.visible v))
        ∷ []) }
{}
