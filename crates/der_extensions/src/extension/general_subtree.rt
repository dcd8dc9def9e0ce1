//! GeneralSubtree, a SEQUENCE of 3 fields.
//!
//! Made by tools/asn1 from extension.asn1.

ghost use Rattle.std.specs.Prelude.{◌∷◌, ◌≡◌, [], false, refl};
ghost use Rattle.der_elem.specs.FormatMakers.{mapped_format};
ghost use Rattle.der_extensions.specs.Extension.GeneralSubtree as general_subtree_fields;
ghost use Rattle.der_extensions.specs.Extension.Grammar.{general_subtree};
ghost use Rattle.der_extensions.specs.declared.extension.general_subtree.GeneralSubtree.{GeneralSubtree};
ghost use Rattle.der_modules.specs.Asn1.{context, implicit_encoding, joined, optional, parse_of, unless_default};
ghost use Rattle.der_modules.specs.Members.{choice_field, default_field, no_fields, optional_field, struct_member};

use crate::extension::aliases::BaseDistance;
use crate::extension::general_name::GeneralName;
use der_elem::{
    ContentsEq, CopyIsDuplicate, DecodeValue, EncodeValue, Form, FormValue, OneTag, Sequence,
    SequenceTag, TagMarker, ValueOrd,
};
use der_fields::{
    DecodeFields, DefaultNumber, DefaultOf, EncodeFields, FieldList, Fields3, FieldsOrd, Implicit,
    WithDefault,
};
use der_modules::{Choosing, Member, copy_of, field_list, if_present};
use der_tlv::{BackWriter, Error, Header, Length, Source, Writer};
use std::alloc::Global;
use std::cmp::Ordering;
use std::fmt;

/// The list of the fields.
type Fields<'a> = Fields3<
    GeneralName<'a>,
    WithDefault<Implicit<BaseDistance, 0>, DefaultNumber<0>>,
    Option<Implicit<BaseDistance, 1>>,
>;

/// ```text
/// GeneralSubtree ::= SEQUENCE {
///      base                    GeneralName,
///      minimum         [0]     BaseDistance DEFAULT 0,
///      maximum         [1]     BaseDistance OPTIONAL }
/// ```
///
/// Reading refuses the first fault of the octets, in their order.
#[derive(Clone, Copy, PartialEq, Eq)]
pub struct GeneralSubtree<'a> {
    fields: Fields<'a>,
}

impl<'a> GeneralSubtree<'a> {
    ghost use Rattle.der_extensions.specs.Extension.GeneralSubtree as general_subtree_fields;

    /// A value of these fields.
    pub fn new(
        base: &GeneralName<'a>,
        minimum: BaseDistance,
        maximum: Option<BaseDistance>,
    ) -> GeneralSubtree<'a>
        ensures base { general_subtree_fields.base result ≡ base.now }
        ensures minimum { general_subtree_fields.minimum result ≡ minimum }
        ensures maximum { general_subtree_fields.maximum result ≡ maximum }
    {
        let list = field_list![
            copy_of(base),
            WithDefault::new(Implicit { value: minimum }),
            if_present!(value in maximum => Implicit { value })
        ];
        let fields = Fields3 { list };
        GeneralSubtree { fields }
    }

    /// `base`, `GeneralName`.
    pub fn base(&self) -> &GeneralName<'a>
        ensures { result.now ≡ general_subtree_fields.base self.now }
    {
        &self.fields.list.first
    }

    /// `minimum`, `[0] BaseDistance DEFAULT 0`.
    pub fn minimum(&self) -> BaseDistance
        ensures { result ≡ general_subtree_fields.minimum self.now }
    {
        self.fields.list.rest.first.value.value
    }

    /// `maximum`, `[1] BaseDistance OPTIONAL`.
    pub fn maximum(&self) -> Option<BaseDistance>
        ensures { result ≡ general_subtree_fields.maximum self.now }
    {
        if_present!(value in self.fields.list.rest.rest.first => value.value)
    }
}

impl<'a> fmt::Debug for GeneralSubtree<'a> {
    fn fmt<W: fmt::Write>(&self, f: &mut fmt::Formatter<W>) -> fmt::Result {
        f.debug_struct("GeneralSubtree")
            .field("base", self.base())
            .field("minimum", &self.minimum())
            .field("maximum", &self.maximum())
            .finish()
    }
}

impl<'a> OneTag for GeneralSubtree<'a> {
    type Marker = SequenceTag;
}

impl<'a> Sequence<'a> for GeneralSubtree<'a> {
    ghost is_sequence = { refl };
}

impl<'a> FormValue for GeneralSubtree<'a> {
    ghost value = { mapped_format (λ v. v.fields) ⟦<Fields<'a> as FieldList>⟧.list.octets };
}

impl<'a, R: Source<'a>> DecodeValue<'a, R> for GeneralSubtree<'a> {
    ghost TAKES_MEMORY = { false };

    const TAKES_MEMORY: bool = false;

    fn decode_value(
        alloc: Global,
        reader: &mut R,
        _header: Header,
    ) -> Result<GeneralSubtree<'a>, Error> {
        match Fields::<'a>::decode_fields(alloc, reader) {
            Ok(fields) => Ok(GeneralSubtree { fields }),
            Err(e) => Err(e),
        }
    }

    ghost takes_memory_is = { refl };
}

impl<'a> EncodeValue for GeneralSubtree<'a> {
    fn value_len(&self) -> Result<Length, Error> {
        self.fields.fields_len()
    }

    fn encode_value<W: Writer>(&self, writer: &mut W) -> Result<(), Error> {
        self.fields.encode_fields(writer)
    }

    fn encode_value_back<W: BackWriter>(&self, writer: &mut W) -> Result<(), Error> {
        self.fields.encode_fields_back(writer)
    }
}

impl<'a> ValueOrd for GeneralSubtree<'a> {
    fn value_cmp(&self, other: &GeneralSubtree<'a>) -> Result<Ordering, Error> {
        self.fields.cmp_fields(&other.fields)
    }
}

impl<'a> Member for GeneralSubtree<'a> {
    ghost member = { struct_member ⟦<SequenceTag as TagMarker>⟧.TAG (λ v. v.fields.list)
        (choice_field ⟦<GeneralName<'a> as Choosing>⟧.choice
        (default_field ⟦<DefaultNumber<0> as DefaultOf<Implicit<BaseDistance, 0>>>⟧.octets ⟦<Implicit<BaseDistance, 0> as Member>⟧.member
        (optional_field ⟦<Implicit<BaseDistance, 1> as Member>⟧.member
        no_fields))) };
}

impl<'a> ContentsEq for GeneralSubtree<'a> {
    ghost contents_eq = { ⟦<GeneralSubtree<'a> as Member>⟧.member.equal };
}

impl<'a> CopyIsDuplicate for GeneralSubtree<'a> {}

/// What is read as `GeneralSubtree` is what the grammar page says.
pub fn grammar_of_general_subtree<'a>()
    ensures { ⟦<GeneralSubtree<'a> as Form>⟧.parse ≡ parse_of general_subtree }
{}

/// The contents octets of `GeneralSubtree` are the encodings of its fields, one after another.
#[tactic(auto, using(der_modules::specs::Asn1::optional_of))]
pub fn octets_of_general_subtree<'a>()
    ensures { (v : GeneralSubtree) → ⟦<GeneralSubtree<'a> as FormValue>⟧.value.contents v ≡ joined (
        (⟦<GeneralName<'a> as Form>⟧.encoding (general_subtree_fields.base v))
        ∷ unless_default ⟦<DefaultNumber<0> as DefaultOf<Implicit<BaseDistance, 0>>>⟧.octets (implicit_encoding context false 0 (⟦<BaseDistance as FormValue>⟧.value.contents (general_subtree_fields.minimum v)))
        ∷ optional (λ x. (implicit_encoding context false 1 (⟦<BaseDistance as FormValue>⟧.value.contents x))) (general_subtree_fields.maximum v)
        ∷ []) }
{}
