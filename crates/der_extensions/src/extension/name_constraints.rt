//! NameConstraints, a SEQUENCE of 2 fields.
//!
//! Made by tools/asn1 from extension.asn1.

ghost use Rattle.std.specs.Prelude.{◌∷◌, ◌≡◌, [], false, refl, true};
ghost use Rattle.der_elem.specs.FormatMakers.{mapped_format};
ghost use Rattle.der_extensions.specs.Extension.Grammar.{name_constraints};
ghost use Rattle.der_extensions.specs.Extension.NameConstraints as name_constraints_fields;
ghost use Rattle.der_extensions.specs.declared.extension.name_constraints.NameConstraints.{NameConstraints};
ghost use Rattle.der_modules.specs.Asn1.{context, implicit_encoding, joined, optional, parse_of};
ghost use Rattle.der_modules.specs.Members.{no_fields, optional_field, struct_member};

use crate::extension::general_subtrees::GeneralSubtrees;
use der_elem::{
    ContentsEq, CopyIsDuplicate, DecodeValue, EncodeValue, Form, FormValue, OneTag, Sequence,
    SequenceTag, TagMarker, ValueOrd,
};
use der_fields::{DecodeFields, EncodeFields, FieldList, Fields2, FieldsOrd, Implicit};
use der_modules::{Member, copy_of, field_list, if_present};
use der_tlv::{BackWriter, Error, Header, Length, Source, Writer};
use std::alloc::Global;
use std::cmp::Ordering;
use std::fmt;

/// The list of the fields.
type Fields<'a> = Fields2<
    Option<Implicit<GeneralSubtrees<'a>, 0>>,
    Option<Implicit<GeneralSubtrees<'a>, 1>>,
>;

/// ```text
/// NameConstraints ::= SEQUENCE {
///      permittedSubtrees       [0]     GeneralSubtrees OPTIONAL,
///      excludedSubtrees        [1]     GeneralSubtrees OPTIONAL }
/// ```
///
/// Reading refuses the first fault of the octets, in their order.
#[derive(Clone, Copy, PartialEq, Eq)]
pub struct NameConstraints<'a> {
    fields: Fields<'a>,
}

impl<'a> NameConstraints<'a> {
    ghost use Rattle.der_extensions.specs.Extension.NameConstraints as name_constraints_fields;
    ghost use Rattle.std.specs.Prelude.{option_copied};

    /// A value of these fields.
    pub fn new(
        permitted_subtrees: Option<&GeneralSubtrees<'a>>,
        excluded_subtrees: Option<&GeneralSubtrees<'a>>,
    ) -> NameConstraints<'a>
        ensures permitted_subtrees { name_constraints_fields.permitted_subtrees result ≡ option_copied permitted_subtrees.entry }
        ensures excluded_subtrees { name_constraints_fields.excluded_subtrees result ≡ option_copied excluded_subtrees.entry }
    {
        let list = field_list![
            if_present!(value in permitted_subtrees => Implicit { value: copy_of(value) }),
            if_present!(value in excluded_subtrees => Implicit { value: copy_of(value) })
        ];
        let fields = Fields2 { list };
        NameConstraints { fields }
    }

    /// `permittedSubtrees`, `[0] GeneralSubtrees OPTIONAL`.
    pub fn permitted_subtrees(&self) -> Option<&GeneralSubtrees<'a>>
        ensures { option_copied result ≡ name_constraints_fields.permitted_subtrees self.now }
    {
        if_present!(value in &self.fields.list.first => &value.value)
    }

    /// `excludedSubtrees`, `[1] GeneralSubtrees OPTIONAL`.
    pub fn excluded_subtrees(&self) -> Option<&GeneralSubtrees<'a>>
        ensures { option_copied result ≡ name_constraints_fields.excluded_subtrees self.now }
    {
        if_present!(value in &self.fields.list.rest.first => &value.value)
    }
}

impl<'a> fmt::Debug for NameConstraints<'a> {
    fn fmt<W: fmt::Write>(&self, f: &mut fmt::Formatter<W>) -> fmt::Result {
        f.debug_struct("NameConstraints")
            .field("permitted_subtrees", &self.permitted_subtrees())
            .field("excluded_subtrees", &self.excluded_subtrees())
            .finish()
    }
}

impl<'a> OneTag for NameConstraints<'a> {
    type Marker = SequenceTag;
}

impl<'a> Sequence<'a> for NameConstraints<'a> {
    ghost is_sequence = { refl };
}

impl<'a> FormValue for NameConstraints<'a> {
    ghost value = { mapped_format (λ v. v.fields) ⟦<Fields<'a> as FieldList>⟧.list.octets };
}

impl<'a, R: Source<'a>> DecodeValue<'a, R> for NameConstraints<'a> {
    ghost TAKES_MEMORY = { false };

    const TAKES_MEMORY: bool = false;

    fn decode_value(
        alloc: Global,
        reader: &mut R,
        _header: Header,
    ) -> Result<NameConstraints<'a>, Error> {
        match Fields::<'a>::decode_fields(alloc, reader) {
            Ok(fields) => Ok(NameConstraints { fields }),
            Err(e) => Err(e),
        }
    }

    ghost takes_memory_is = { refl };
}

impl<'a> EncodeValue for NameConstraints<'a> {
    fn value_len(&self) -> Result<Length, Error> {
        self.fields.fields_len()
    }

    fn encode_value<W: Writer>(&self, writer: &mut W) -> Result<(), Error> {
        self.fields.encode_fields(writer)
    }

    fn encode_value_back<W: BackWriter>(&self, writer: &mut W) -> Result<(), Error> {
        self.fields.encode_fields_back(writer)
    }
}

impl<'a> ValueOrd for NameConstraints<'a> {
    fn value_cmp(&self, other: &NameConstraints<'a>) -> Result<Ordering, Error> {
        self.fields.cmp_fields(&other.fields)
    }
}

impl<'a> Member for NameConstraints<'a> {
    ghost member = { struct_member ⟦<SequenceTag as TagMarker>⟧.TAG (λ v. v.fields.list)
        (optional_field ⟦<Implicit<GeneralSubtrees<'a>, 0> as Member>⟧.member
        (optional_field ⟦<Implicit<GeneralSubtrees<'a>, 1> as Member>⟧.member
        no_fields)) };
}

impl<'a> ContentsEq for NameConstraints<'a> {
    ghost contents_eq = { ⟦<NameConstraints<'a> as Member>⟧.member.equal };
}

impl<'a> CopyIsDuplicate for NameConstraints<'a> {}

/// What is read as `NameConstraints` is what the grammar page says.
pub fn grammar_of_name_constraints<'a>()
    ensures { ⟦<NameConstraints<'a> as Form>⟧.parse ≡ parse_of name_constraints }
{}

/// The contents octets of `NameConstraints` are the encodings of its fields, one after another.
#[tactic(auto, using(der_modules::specs::Asn1::optional_of))]
pub fn octets_of_name_constraints<'a>()
    ensures { (v : NameConstraints) → ⟦<NameConstraints<'a> as FormValue>⟧.value.contents v ≡ joined (
        optional (λ x. (implicit_encoding context true 0 (⟦<GeneralSubtrees<'a> as FormValue>⟧.value.contents x))) (name_constraints_fields.permitted_subtrees v)
        ∷ optional (λ x. (implicit_encoding context true 1 (⟦<GeneralSubtrees<'a> as FormValue>⟧.value.contents x))) (name_constraints_fields.excluded_subtrees v)
        ∷ []) }
{}
