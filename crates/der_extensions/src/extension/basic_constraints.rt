//! BasicConstraints, a SEQUENCE of 2 fields.
//!
//! Made by tools/asn1 from extension.asn1.

ghost use Rattle.std.specs.Prelude.{◌∷◌, ◌≡◌, [], false, refl};
ghost use Rattle.der_elem.specs.FormatMakers.{mapped_format};
ghost use Rattle.der_extensions.specs.Extension.BasicConstraints as basic_constraints_fields;
ghost use Rattle.der_extensions.specs.Extension.Grammar.{basic_constraints};
ghost use Rattle.der_extensions.specs.declared.extension.basic_constraints.BasicConstraints.{BasicConstraints};
ghost use Rattle.der_modules.specs.Asn1.{joined, optional, parse_of, unless_default};
ghost use Rattle.der_modules.specs.Members.{default_field, no_fields, optional_field, struct_member};

use der_elem::{
    ContentsEq, CopyIsDuplicate, DecodeValue, EncodeValue, Form, FormValue, OneTag, Sequence,
    SequenceTag, TagMarker, ValueOrd,
};
use der_fields::{
    DecodeFields, DefaultFalse, DefaultOf, EncodeFields, FieldList, Fields2, FieldsOrd, WithDefault,
};
use der_modules::{Member, field_list, if_present};
use der_numbers::UintRef;
use der_tlv::{BackWriter, Error, Header, Length, Source, Writer};
use std::alloc::Global;
use std::cmp::Ordering;
use std::fmt;

/// The list of the fields.
type Fields<'a> = Fields2<WithDefault<bool, DefaultFalse>, Option<UintRef<'a>>>;

/// ```text
/// BasicConstraints ::= SEQUENCE {
///      cA                      BOOLEAN DEFAULT FALSE,
///      pathLenConstraint       INTEGER (0..MAX) OPTIONAL }
/// ```
///
/// Reading refuses the first fault of the octets, in their order.
#[derive(Clone, Copy, PartialEq, Eq)]
pub struct BasicConstraints<'a> {
    fields: Fields<'a>,
}

impl<'a> BasicConstraints<'a> {
    ghost use Rattle.der_extensions.specs.Extension.BasicConstraints as basic_constraints_fields;
    ghost use Rattle.std.specs.Prelude.{option_copied};

    /// A value of these fields.
    pub fn new(ca: bool, path_len_constraint: Option<UintRef<'a>>) -> BasicConstraints<'a>
        ensures ca { basic_constraints_fields.ca result ≡ ca }
        ensures path_len_constraint { basic_constraints_fields.path_len_constraint result ≡ path_len_constraint.entry }
    {
        let list = field_list![WithDefault::new(ca), path_len_constraint];
        let fields = Fields2 { list };
        BasicConstraints { fields }
    }

    /// `cA`, `BOOLEAN DEFAULT FALSE`.
    pub fn ca(&self) -> bool
        ensures { result ≡ basic_constraints_fields.ca self.now }
    {
        self.fields.list.first.value
    }

    /// `pathLenConstraint`, `INTEGER (0..MAX) OPTIONAL`.
    pub fn path_len_constraint(&self) -> Option<&UintRef<'a>>
        ensures { option_copied result ≡ basic_constraints_fields.path_len_constraint self.now }
    {
        if_present!(value in &self.fields.list.rest.first => value)
    }
}

impl<'a> fmt::Debug for BasicConstraints<'a> {
    fn fmt<W: fmt::Write>(&self, f: &mut fmt::Formatter<W>) -> fmt::Result {
        f.debug_struct("BasicConstraints")
            .field("ca", &self.ca())
            .field("path_len_constraint", &self.path_len_constraint())
            .finish()
    }
}

impl<'a> OneTag for BasicConstraints<'a> {
    type Marker = SequenceTag;
}

impl<'a> Sequence<'a> for BasicConstraints<'a> {
    ghost is_sequence = { refl };
}

impl<'a> FormValue for BasicConstraints<'a> {
    ghost value = { mapped_format (λ v. v.fields) ⟦<Fields<'a> as FieldList>⟧.list.octets };
}

impl<'a, R: Source<'a>> DecodeValue<'a, R> for BasicConstraints<'a> {
    ghost TAKES_MEMORY = { false };

    const TAKES_MEMORY: bool = false;

    fn decode_value(
        alloc: Global,
        reader: &mut R,
        _header: Header,
    ) -> Result<BasicConstraints<'a>, Error> {
        match Fields::<'a>::decode_fields(alloc, reader) {
            Ok(fields) => Ok(BasicConstraints { fields }),
            Err(e) => Err(e),
        }
    }

    ghost takes_memory_is = { refl };
}

impl<'a> EncodeValue for BasicConstraints<'a> {
    fn value_len(&self) -> Result<Length, Error> {
        self.fields.fields_len()
    }

    fn encode_value<W: Writer>(&self, writer: &mut W) -> Result<(), Error> {
        self.fields.encode_fields(writer)
    }

    fn encode_value_back<W: BackWriter>(&self, writer: &mut W) -> Result<(), Error> {
        self.fields.encode_fields_back(writer)
    }
}

impl<'a> ValueOrd for BasicConstraints<'a> {
    fn value_cmp(&self, other: &BasicConstraints<'a>) -> Result<Ordering, Error> {
        self.fields.cmp_fields(&other.fields)
    }
}

impl<'a> Member for BasicConstraints<'a> {
    ghost member = { struct_member ⟦<SequenceTag as TagMarker>⟧.TAG (λ v. v.fields.list)
        (default_field ⟦<DefaultFalse as DefaultOf<bool>>⟧.octets ⟦<bool as Member>⟧.member
        (optional_field ⟦<UintRef<'a> as Member>⟧.member
        no_fields)) };
}

impl<'a> ContentsEq for BasicConstraints<'a> {
    ghost contents_eq = { ⟦<BasicConstraints<'a> as Member>⟧.member.equal };
}

impl<'a> CopyIsDuplicate for BasicConstraints<'a> {}

/// What is read as `BasicConstraints` is what the grammar page says.
pub fn grammar_of_basic_constraints<'a>()
    ensures { ⟦<BasicConstraints<'a> as Form>⟧.parse ≡ parse_of basic_constraints }
{}

/// The contents octets of `BasicConstraints` are the encodings of its fields, one after another.
pub fn octets_of_basic_constraints<'a>()
    ensures { (v : BasicConstraints) → ⟦<BasicConstraints<'a> as FormValue>⟧.value.contents v ≡ joined (
        unless_default ⟦<DefaultFalse as DefaultOf<bool>>⟧.octets (⟦<bool as Form>⟧.encoding (basic_constraints_fields.ca v))
        ∷ optional (λ x. (⟦<UintRef<'a> as Form>⟧.encoding x)) (basic_constraints_fields.path_len_constraint v)
        ∷ []) }
{}
