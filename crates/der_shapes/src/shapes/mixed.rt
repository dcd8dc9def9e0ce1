//! Mixed, a SET of 3 fields.
//!
//! Made by tools/asn1 from shapes.asn1.

ghost use Rattle.std.specs.Prelude.{◌∷◌, ◌≡◌, [], false, refl};
ghost use Rattle.der_elem.specs.FormatMakers.{mapped_format};
ghost use Rattle.der_modules.specs.Asn1.{context, implicit_encoding, joined, parse_of};
ghost use Rattle.der_modules.specs.Members.{field, no_fields, struct_member};
ghost use Rattle.der_shapes.specs.Shapes.Grammar.{mixed};
ghost use Rattle.der_shapes.specs.Shapes.Mixed as mixed_fields;
ghost use Rattle.der_shapes.specs.declared.shapes.mixed.Mixed.{Mixed};

use der_elem::{
    ContentsEq, CopyIsDuplicate, DecodeValue, EncodeValue, Form, FormValue, OneTag, SetTag,
    TagMarker, ValueOrd,
};
use der_fields::{DecodeFields, EncodeFields, FieldList, Fields3, FieldsOrd, Implicit};
use der_modules::{Member, field_list};
use der_numbers::IntRef;
use der_tlv::{BackWriter, Error, Header, Length, Source, Writer};
use std::alloc::Global;
use std::cmp::Ordering;
use std::fmt;

/// The list of the fields.
type Fields<'a> = Fields3<bool, i8, Implicit<IntRef<'a>, 1>>;

/// ```text
/// Mixed ::= SET {
///     third   [1] INTEGER,
///     first   BOOLEAN,
///     second  INTEGER (-128..127) }
/// ```
///
/// The fields are encoded in the order of their tags (X.690 10.3).
///
/// Reading refuses the first fault of the octets, in their order.
#[derive(Clone, Copy, PartialEq, Eq)]
pub struct Mixed<'a> {
    fields: Fields<'a>,
}

impl<'a> Mixed<'a> {
    ghost use Rattle.der_shapes.specs.Shapes.Mixed as mixed_fields;

    /// A value of these fields.
    pub fn new(first_: bool, second: i8, third: IntRef<'a>) -> Mixed<'a>
        ensures first { mixed_fields.first result ≡ first_ }
        ensures second { mixed_fields.second result ≡ second }
        ensures third { mixed_fields.third result ≡ third.entry }
    {
        let list = field_list![first_, second, Implicit { value: third }];
        let fields = Fields3 { list };
        Mixed { fields }
    }

    /// `first`, `BOOLEAN`.
    pub fn first(&self) -> bool
        ensures { result ≡ mixed_fields.first self.now }
    {
        self.fields.list.first
    }

    /// `second`, `INTEGER (- 128..127)`.
    pub fn second(&self) -> i8
        ensures { result ≡ mixed_fields.second self.now }
    {
        self.fields.list.rest.first
    }

    /// `third`, `[1] INTEGER`.
    pub fn third(&self) -> &IntRef<'a>
        ensures { result.now ≡ mixed_fields.third self.now }
    {
        &self.fields.list.rest.rest.first.value
    }
}

impl<'a> fmt::Debug for Mixed<'a> {
    fn fmt<W: fmt::Write>(&self, f: &mut fmt::Formatter<W>) -> fmt::Result {
        f.debug_struct("Mixed")
            .field("first", &self.first())
            .field("second", &self.second())
            .field("third", self.third())
            .finish()
    }
}

impl<'a> OneTag for Mixed<'a> {
    type Marker = SetTag;
}

impl<'a> FormValue for Mixed<'a> {
    ghost value = { mapped_format (λ v. v.fields) ⟦<Fields<'a> as FieldList>⟧.list.octets };
}

impl<'a, R: Source<'a>> DecodeValue<'a, R> for Mixed<'a> {
    ghost TAKES_MEMORY = { false };

    const TAKES_MEMORY: bool = false;

    fn decode_value(alloc: Global, reader: &mut R, _header: Header) -> Result<Mixed<'a>, Error> {
        match Fields::<'a>::decode_fields(alloc, reader) {
            Ok(fields) => Ok(Mixed { fields }),
            Err(e) => Err(e),
        }
    }

    ghost takes_memory_is = { refl };
}

impl<'a> EncodeValue for Mixed<'a> {
    fn value_len(&self) -> Result<Length, Error> {
        self.fields.fields_len()
    }

    fn encode_value<W: Writer>(&self, writer: &mut W) -> Result<(), Error> {
        self.fields.encode_fields(writer)
    }

    fn encode_value_back<W: BackWriter>(&self, writer: &mut W) -> Result<(), Error> {
        self.fields.encode_fields_back(writer)
    }
}

impl<'a> ValueOrd for Mixed<'a> {
    fn value_cmp(&self, other: &Mixed<'a>) -> Result<Ordering, Error> {
        self.fields.cmp_fields(&other.fields)
    }
}

impl<'a> Member for Mixed<'a> {
    ghost member = { struct_member ⟦<SetTag as TagMarker>⟧.TAG (λ v. v.fields.list)
        (field ⟦<bool as Member>⟧.member
        (field ⟦<i8 as Member>⟧.member
        (field ⟦<Implicit<IntRef<'a>, 1> as Member>⟧.member
        no_fields))) };
}

impl<'a> ContentsEq for Mixed<'a> {
    ghost contents_eq = { ⟦<Mixed<'a> as Member>⟧.member.equal };
}

impl<'a> CopyIsDuplicate for Mixed<'a> {}

/// What is read as `Mixed` is what the grammar page says.
pub fn grammar_of_mixed<'a>()
    ensures { ⟦<Mixed<'a> as Form>⟧.parse ≡ parse_of mixed }
{}

/// The contents octets of `Mixed` are the encodings of its fields, one after another.
pub fn octets_of_mixed<'a>()
    ensures { (v : Mixed) → ⟦<Mixed<'a> as FormValue>⟧.value.contents v ≡ joined (
        (⟦<bool as Form>⟧.encoding (mixed_fields.first v))
        ∷ (⟦<i8 as Form>⟧.encoding (mixed_fields.second v))
        ∷ (implicit_encoding context false 1 (⟦<IntRef<'a> as FormValue>⟧.value.contents (mixed_fields.third v)))
        ∷ []) }
{}
