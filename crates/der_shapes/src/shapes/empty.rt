//! Empty, a SET of no fields.
//!
//! Made by tools/asn1 from shapes.asn1.

ghost use Rattle.std.specs.Prelude.{◌≡◌, [], false, refl};
ghost use Rattle.der_elem.specs.FormatMakers.{mapped_format};
ghost use Rattle.der_modules.specs.Asn1.{joined, parse_of};
ghost use Rattle.der_modules.specs.Members.{no_fields, struct_member};
ghost use Rattle.der_shapes.specs.Shapes.Grammar.{empty};
ghost use Rattle.der_shapes.specs.declared.shapes.empty.Empty.{Empty};

use der_elem::{
    ContentsEq, CopyIsDuplicate, DecodeValue, EncodeValue, Form, FormValue, OneTag, SetTag,
    TagMarker, ValueOrd,
};
use der_fields::{DecodeFields, EncodeFields, End, FieldList, FieldsOrd};
use der_modules::Member;
use der_tlv::{BackWriter, Error, Header, Length, Source, Writer};
use std::alloc::Global;
use std::cmp::Ordering;
use std::fmt;

/// The list of the fields.
type Fields = End;

/// ```text
/// Empty ::= SET { }
/// ```
///
/// The fields are encoded in the order of their tags (X.690 10.3).
///
/// Reading refuses the first fault of the octets, in their order.
#[derive(Clone, Copy, PartialEq, Eq)]
pub struct Empty {
    fields: Fields,
}

impl Empty {
    /// The value, which has no fields.
    pub fn new() -> Empty {
        Empty { fields: End }
    }
}

impl fmt::Debug for Empty {
    fn fmt<W: fmt::Write>(&self, f: &mut fmt::Formatter<W>) -> fmt::Result {
        f.debug_struct("Empty").finish()
    }
}

impl OneTag for Empty {
    type Marker = SetTag;
}

impl FormValue for Empty {
    ghost value = { mapped_format (λ v. v.fields) ⟦<Fields as FieldList>⟧.list.octets };
}

impl<'a, R: Source<'a>> DecodeValue<'a, R> for Empty {
    ghost TAKES_MEMORY = { false };

    const TAKES_MEMORY: bool = false;

    fn decode_value(alloc: Global, reader: &mut R, _header: Header) -> Result<Empty, Error> {
        match Fields::decode_fields(alloc, reader) {
            Ok(fields) => Ok(Empty { fields }),
            Err(e) => Err(e),
        }
    }

    ghost takes_memory_is = { refl };
}

impl EncodeValue for Empty {
    fn value_len(&self) -> Result<Length, Error> {
        self.fields.fields_len()
    }

    fn encode_value<W: Writer>(&self, writer: &mut W) -> Result<(), Error> {
        self.fields.encode_fields(writer)
    }

    fn encode_value_back<W: BackWriter>(&self, writer: &mut W) -> Result<(), Error> {
        self.fields.encode_fields_back(writer)
    }
}

impl ValueOrd for Empty {
    fn value_cmp(&self, other: &Empty) -> Result<Ordering, Error> {
        self.fields.cmp_fields(&other.fields)
    }
}

impl Member for Empty {
    ghost member = { struct_member ⟦<SetTag as TagMarker>⟧.TAG (λ v. v.fields)
        no_fields };
}

impl ContentsEq for Empty {
    ghost contents_eq = { ⟦<Empty as Member>⟧.member.equal };
}

impl CopyIsDuplicate for Empty {}

/// What is read as `Empty` is what the grammar page says.
pub fn grammar_of_empty()
    ensures { ⟦<Empty as Form>⟧.parse ≡ parse_of empty }
{}

/// The contents octets of `Empty` are the encodings of its fields, one after another.
pub fn octets_of_empty()
    ensures { (v : Empty) → ⟦<Empty as FormValue>⟧.value.contents v ≡ joined (
        []) }
{}
