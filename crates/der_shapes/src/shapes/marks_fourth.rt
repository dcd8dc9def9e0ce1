//! MarksFourth, a SET of no fields.
//!
//! Made by tools/asn1 from shapes.asn1.

ghost use Rattle.std.specs.Prelude.{◌≡◌, [], false, refl};
ghost use Rattle.der_elem.specs.FormatMakers.{mapped_format};
ghost use Rattle.der_modules.specs.Asn1.{joined, parse_of};
ghost use Rattle.der_modules.specs.Members.{no_fields, struct_member};
ghost use Rattle.der_shapes.specs.Shapes.Grammar.{marks_fourth};
ghost use Rattle.der_shapes.specs.declared.shapes.marks_fourth.MarksFourth.{MarksFourth};

use der_elem::{
    ContentsEq, CopyIsDuplicate, DecodeValue, EncodeValue, Form, FormValue, OneTag, SetTag,
    TagMarker, ValueOrd,
};
use der_fields::{DecodeFields, EncodeFields, End, FieldList, FieldsOrd};
use der_modules::Member;
use der_tlv::{BackWriter, Error, Header, Length, Source, Writer};
use std::alloc::Global;
use std::cmp::Ordering;
use std::fmt;

/// The list of the fields.
type Fields = End;

/// A type that is written out within another, as `MarksFourth`.
///
/// The fields are encoded in the order of their tags (X.690 10.3).
///
/// Reading refuses the first fault of the octets, in their order.
///
/// Not checked: '...': fields that this module does not have are refused.
#[derive(Clone, Copy, PartialEq, Eq)]
pub struct MarksFourth {
    fields: Fields,
}

impl MarksFourth {
    /// The value, which has no fields.
    pub fn new() -> MarksFourth {
        MarksFourth { fields: End }
    }
}

impl fmt::Debug for MarksFourth {
    fn fmt<W: fmt::Write>(&self, f: &mut fmt::Formatter<W>) -> fmt::Result {
        f.debug_struct("MarksFourth").finish()
    }
}

impl OneTag for MarksFourth {
    type Marker = SetTag;
}

impl FormValue for MarksFourth {
    ghost value = { mapped_format (λ v. v.fields) ⟦<Fields as FieldList>⟧.list.octets };
}

impl<'a, R: Source<'a>> DecodeValue<'a, R> for MarksFourth {
    ghost TAKES_MEMORY = { false };

    const TAKES_MEMORY: bool = false;

    fn decode_value(alloc: Global, reader: &mut R, _header: Header) -> Result<MarksFourth, Error> {
        match Fields::decode_fields(alloc, reader) {
            Ok(fields) => Ok(MarksFourth { fields }),
            Err(e) => Err(e),
        }
    }

    ghost takes_memory_is = { refl };
}

impl EncodeValue for MarksFourth {
    fn value_len(&self) -> Result<Length, Error> {
        self.fields.fields_len()
    }

    fn encode_value<W: Writer>(&self, writer: &mut W) -> Result<(), Error> {
        self.fields.encode_fields(writer)
    }

    fn encode_value_back<W: BackWriter>(&self, writer: &mut W) -> Result<(), Error> {
        self.fields.encode_fields_back(writer)
    }
}

impl ValueOrd for MarksFourth {
    fn value_cmp(&self, other: &MarksFourth) -> Result<Ordering, Error> {
        self.fields.cmp_fields(&other.fields)
    }
}

impl Member for MarksFourth {
    ghost member = { struct_member ⟦<SetTag as TagMarker>⟧.TAG (λ v. v.fields)
        no_fields };
}

impl ContentsEq for MarksFourth {
    ghost contents_eq = { ⟦<MarksFourth as Member>⟧.member.equal };
}

impl CopyIsDuplicate for MarksFourth {}

/// What is read as `MarksFourth` is what the grammar page says.
pub fn grammar_of_marks_fourth()
    ensures { ⟦<MarksFourth as Form>⟧.parse ≡ parse_of marks_fourth }
{}

/// The contents octets of `MarksFourth` are the encodings of its fields, one after another.
pub fn octets_of_marks_fourth()
    ensures { (v : MarksFourth) → ⟦<MarksFourth as FormValue>⟧.value.contents v ≡ joined (
        []) }
{}
