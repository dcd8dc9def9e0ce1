//! Nothing, a SEQUENCE of no fields.
//!
//! Made by tools/asn1 from shapes.asn1.

ghost use Rattle.std.specs.Prelude.{◌≡◌, [], false, refl};
ghost use Rattle.der_elem.specs.FormatMakers.{mapped_format};
ghost use Rattle.der_modules.specs.Asn1.{joined, parse_of};
ghost use Rattle.der_modules.specs.Members.{no_fields, struct_member};
ghost use Rattle.der_shapes.specs.Shapes.Grammar.{nothing};
ghost use Rattle.der_shapes.specs.declared.shapes.nothing.Nothing.{Nothing};

use der_elem::{
    ContentsEq, CopyIsDuplicate, DecodeValue, EncodeValue, Form, FormValue, OneTag, Sequence,
    SequenceTag, TagMarker, ValueOrd,
};
use der_fields::{DecodeFields, EncodeFields, End, FieldList, FieldsOrd};
use der_modules::Member;
use der_tlv::{BackWriter, Error, Header, Length, Source, Writer};
use std::alloc::Global;
use std::cmp::Ordering;
use std::fmt;

/// The list of the fields.
type Fields = End;

/// ```text
/// Nothing ::= SEQUENCE { }
/// ```
///
/// Reading refuses the first fault of the octets, in their order.
#[derive(Clone, Copy, PartialEq, Eq)]
pub struct Nothing {
    fields: Fields,
}

impl Nothing {
    /// The value, which has no fields.
    pub fn new() -> Nothing {
        Nothing { fields: End }
    }
}

impl fmt::Debug for Nothing {
    fn fmt<W: fmt::Write>(&self, f: &mut fmt::Formatter<W>) -> fmt::Result {
        f.debug_struct("Nothing").finish()
    }
}

impl OneTag for Nothing {
    type Marker = SequenceTag;
}

impl<'a> Sequence<'a> for Nothing {
    ghost is_sequence = { refl };
}

impl FormValue for Nothing {
    ghost value = { mapped_format (λ v. v.fields) ⟦<Fields as FieldList>⟧.list.octets };
}

impl<'a, R: Source<'a>> DecodeValue<'a, R> for Nothing {
    ghost TAKES_MEMORY = { false };

    const TAKES_MEMORY: bool = false;

    fn decode_value(alloc: Global, reader: &mut R, _header: Header) -> Result<Nothing, Error> {
        match Fields::decode_fields(alloc, reader) {
            Ok(fields) => Ok(Nothing { fields }),
            Err(e) => Err(e),
        }
    }

    ghost takes_memory_is = { refl };
}

impl EncodeValue for Nothing {
    fn value_len(&self) -> Result<Length, Error> {
        self.fields.fields_len()
    }

    fn encode_value<W: Writer>(&self, writer: &mut W) -> Result<(), Error> {
        self.fields.encode_fields(writer)
    }

    fn encode_value_back<W: BackWriter>(&self, writer: &mut W) -> Result<(), Error> {
        self.fields.encode_fields_back(writer)
    }
}

impl ValueOrd for Nothing {
    fn value_cmp(&self, other: &Nothing) -> Result<Ordering, Error> {
        self.fields.cmp_fields(&other.fields)
    }
}

impl Member for Nothing {
    ghost member = { struct_member ⟦<SequenceTag as TagMarker>⟧.TAG (λ v. v.fields)
        no_fields };
}

impl ContentsEq for Nothing {
    ghost contents_eq = { ⟦<Nothing as Member>⟧.member.equal };
}

impl CopyIsDuplicate for Nothing {}

/// What is read as `Nothing` is what the grammar page says.
pub fn grammar_of_nothing()
    ensures { ⟦<Nothing as Form>⟧.parse ≡ parse_of nothing }
{}

/// The contents octets of `Nothing` are the encodings of its fields, one after another.
pub fn octets_of_nothing()
    ensures { (v : Nothing) → ⟦<Nothing as FormValue>⟧.value.contents v ≡ joined (
        []) }
{}
