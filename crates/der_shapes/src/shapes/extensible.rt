//! Extensible, a SEQUENCE of 2 fields and what comes after.
//!
//! Made by tools/asn1 from shapes.asn1.

ghost use Rattle.std.specs.Prelude.{◌∷◌, ◌≡◌, [], false, refl};
ghost use Rattle.der_additions.specs.Additions.{octets_of};
ghost use Rattle.der_additions.specs.AdditionsLaws.{additions_members};
ghost use Rattle.der_additions.specs.Asn1.{joined_before};
ghost use Rattle.der_elem.specs.FormatMakers.{mapped_format};
ghost use Rattle.der_modules.specs.Asn1.{context, implicit_encoding, optional, parse_of};
ghost use Rattle.der_modules.specs.Members.{field, optional_field, struct_member};
ghost use Rattle.der_shapes.specs.Shapes.Extensible as extensible_fields;
ghost use Rattle.der_shapes.specs.Shapes.Grammar.{extensible};
ghost use Rattle.der_shapes.specs.declared.shapes.extensible.Extensible.{Extensible};

use der_additions::Additions;
use der_elem::{
    ContentsEq, CopyIsDuplicate, DecodeValue, EncodeValue, Form, FormValue, OneTag, Sequence,
    SequenceTag, TagMarker, ValueOrd,
};
use der_fields::{DecodeFields, EncodeFields, FieldList, Fields2, FieldsOrd, Implicit};
use der_modules::{Member, copy_of, field_list, if_present};
use der_tlv::{BackWriter, Error, Header, Length, Source, Writer};
use std::alloc::Global;
use std::cmp::Ordering;
use std::fmt;

/// The list of the fields.
type Fields<'a> = Fields2<u8, Option<Implicit<bool, 0>>, Additions<'a>>;

/// ```text
/// Extensible ::= SEQUENCE {
///     a  INTEGER (0..255),
///     b  [0] BOOLEAN OPTIONAL,
///     ...
/// }
/// ```
///
/// Elements after these are kept, not looked at, and written as they came.
///
/// A field that may be absent is told from what follows by its tag: where it is absent, and the
/// elements kept begin with its tag, what is written is read as another value.
///
/// Reading refuses the first fault of the octets, in their order.
#[derive(Clone, Copy, PartialEq, Eq)]
pub struct Extensible<'a> {
    fields: Fields<'a>,
}

impl<'a> Extensible<'a> {
    ghost use Rattle.der_shapes.specs.Shapes.Extensible as extensible_fields;

    /// A value of these fields.
    pub fn new(a: u8, b: Option<bool>, additions: &Additions<'a>) -> Extensible<'a>
        ensures a { extensible_fields.a result ≡ a }
        ensures b { extensible_fields.b result ≡ b }
        ensures additions { extensible_fields.additions result ≡ additions.now }
    {
        let list =
            field_list![a, if_present!(value in b => Implicit { value }); copy_of(additions)];
        let fields = Fields2 { list };
        Extensible { fields }
    }

    /// `a`, `INTEGER (0..255)`.
    pub fn a(&self) -> u8
        ensures { result ≡ extensible_fields.a self.now }
    {
        self.fields.list.first
    }

    /// `b`, `[0] BOOLEAN OPTIONAL`.
    pub fn b(&self) -> Option<bool>
        ensures { result ≡ extensible_fields.b self.now }
    {
        if_present!(value in self.fields.list.rest.first => value.value)
    }

    /// The elements after the fields, which the module does not have (X.680 7), as they came.
    pub fn additions(&self) -> &Additions<'a>
        ensures { result.now ≡ extensible_fields.additions self.now }
    {
        &self.fields.list.rest.rest
    }
}

impl<'a> fmt::Debug for Extensible<'a> {
    fn fmt<W: fmt::Write>(&self, f: &mut fmt::Formatter<W>) -> fmt::Result {
        f.debug_struct("Extensible")
            .field("a", &self.a())
            .field("b", &self.b())
            .field("additions", self.additions())
            .finish()
    }
}

impl<'a> OneTag for Extensible<'a> {
    type Marker = SequenceTag;
}

impl<'a> Sequence<'a> for Extensible<'a> {
    ghost is_sequence = { refl };
}

impl<'a> FormValue for Extensible<'a> {
    ghost value = { mapped_format (λ v. v.fields) ⟦<Fields<'a> as FieldList>⟧.list.octets };
}

impl<'a, R: Source<'a>> DecodeValue<'a, R> for Extensible<'a> {
    ghost TAKES_MEMORY = { false };

    const TAKES_MEMORY: bool = false;

    fn decode_value(
        alloc: Global,
        reader: &mut R,
        _header: Header,
    ) -> Result<Extensible<'a>, Error> {
        match Fields::<'a>::decode_fields(alloc, reader) {
            Ok(fields) => Ok(Extensible { fields }),
            Err(e) => Err(e),
        }
    }

    ghost takes_memory_is = { refl };
}

impl<'a> EncodeValue for Extensible<'a> {
    fn value_len(&self) -> Result<Length, Error> {
        self.fields.fields_len()
    }

    fn encode_value<W: Writer>(&self, writer: &mut W) -> Result<(), Error> {
        self.fields.encode_fields(writer)
    }

    fn encode_value_back<W: BackWriter>(&self, writer: &mut W) -> Result<(), Error> {
        self.fields.encode_fields_back(writer)
    }
}

impl<'a> ValueOrd for Extensible<'a> {
    fn value_cmp(&self, other: &Extensible<'a>) -> Result<Ordering, Error> {
        self.fields.cmp_fields(&other.fields)
    }
}

impl<'a> Member for Extensible<'a> {
    ghost member = { struct_member ⟦<SequenceTag as TagMarker>⟧.TAG (λ v. v.fields.list)
        (field ⟦<u8 as Member>⟧.member
        (optional_field ⟦<Implicit<bool, 0> as Member>⟧.member
        additions_members)) };
}

impl<'a> ContentsEq for Extensible<'a> {
    ghost contents_eq = { ⟦<Extensible<'a> as Member>⟧.member.equal };
}

impl<'a> CopyIsDuplicate for Extensible<'a> {}

/// What is read as `Extensible` is what the grammar page says.
pub fn grammar_of_extensible<'a>()
    ensures { ⟦<Extensible<'a> as Form>⟧.parse ≡ parse_of extensible }
{}

/// The contents octets of `Extensible` are the encodings of its fields, one after another, and then
/// the elements after them.
#[tactic(auto, using(der_modules::specs::Asn1::optional_of))]
pub fn octets_of_extensible<'a>()
    ensures { (v : Extensible) → ⟦<Extensible<'a> as FormValue>⟧.value.contents v ≡ joined_before (octets_of (extensible_fields.additions v)) (
        (⟦<u8 as Form>⟧.encoding (extensible_fields.a v))
        ∷ optional (λ x. (implicit_encoding context false 0 (⟦<bool as FormValue>⟧.value.contents x))) (extensible_fields.b v)
        ∷ []) }
{}
