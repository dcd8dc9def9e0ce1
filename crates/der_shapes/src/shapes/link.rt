//! Link, a SEQUENCE of 2 fields.
//!
//! Made by tools/asn1 from shapes.asn1.

ghost use Rattle.std.specs.Prelude.{◌∷◌, ◌≡◌, [], false, refl, true};
ghost use Rattle.der_elem.specs.FormatMakers.{mapped_format};
ghost use Rattle.der_modules.specs.Asn1.{application, implicit_encoding, joined, optional, parse_of};
ghost use Rattle.der_modules.specs.Members.{field, no_fields, optional_field, struct_member};
ghost use Rattle.der_shapes.specs.Shapes.Grammar.{link};
ghost use Rattle.der_shapes.specs.Shapes.Link as link_fields;
ghost use Rattle.der_shapes.specs.declared.shapes.link.Link.{Link};

use der_elem::{
    ContentsEq, CopyIsDuplicate, DecodeValue, EncodeValue, Form, FormValue, OneTag, Sequence,
    SequenceTag, TagMarker, ValueOrd,
};
use der_fields::{DecodeFields, EncodeFields, FieldList, Fields2, FieldsOrd, ImplicitApplication};
use der_modules::{Member, field_list, if_present};
use der_nest::SequenceRef;
use der_text::Utf8StringRef;
use der_tlv::{BackWriter, Error, Header, Length, Source, Writer};
use std::alloc::Global;
use std::cmp::Ordering;
use std::fmt;

/// The list of the fields.
type Fields<'a> = Fields2<Utf8StringRef<'a>, Option<ImplicitApplication<SequenceRef<'a>, 4>>>;

/// ```text
/// Link ::= SEQUENCE {
///     name   UTF8String,
///     after  [APPLICATION 4] Chain OPTIONAL }
/// ```
///
/// Reading refuses the first fault of the octets, in their order.
///
/// 'after' leads back to Chain: its contents octets are kept, and not read.
#[derive(Clone, Copy, PartialEq, Eq)]
pub struct Link<'a> {
    fields: Fields<'a>,
}

impl<'a> Link<'a> {
    ghost use Rattle.der_shapes.specs.Shapes.Link as link_fields;
    ghost use Rattle.std.specs.Prelude.{option_copied};

    /// A value of these fields.
    pub fn new(name: Utf8StringRef<'a>, after: Option<SequenceRef<'a>>) -> Link<'a>
        ensures name { link_fields.name result ≡ name.entry }
        ensures after { link_fields.after result ≡ after.entry }
    {
        let list = field_list![
            name,
            if_present!(value in after => ImplicitApplication { value })
        ];
        let fields = Fields2 { list };
        Link { fields }
    }

    /// `name`, `UTF8String`.
    pub fn name(&self) -> &Utf8StringRef<'a>
        ensures { result.now ≡ link_fields.name self.now }
    {
        &self.fields.list.first
    }

    /// `after`, `[APPLICATION 4] Chain OPTIONAL`.
    pub fn after(&self) -> Option<&SequenceRef<'a>>
        ensures { option_copied result ≡ link_fields.after self.now }
    {
        if_present!(value in &self.fields.list.rest.first => &value.value)
    }
}

impl<'a> fmt::Debug for Link<'a> {
    fn fmt<W: fmt::Write>(&self, f: &mut fmt::Formatter<W>) -> fmt::Result {
        f.debug_struct("Link")
            .field("name", self.name())
            .field("after", &self.after())
            .finish()
    }
}

impl<'a> OneTag for Link<'a> {
    type Marker = SequenceTag;
}

impl<'a> Sequence<'a> for Link<'a> {
    ghost is_sequence = { refl };
}

impl<'a> FormValue for Link<'a> {
    ghost value = { mapped_format (λ v. v.fields) ⟦<Fields<'a> as FieldList>⟧.list.octets };
}

impl<'a, R: Source<'a>> DecodeValue<'a, R> for Link<'a> {
    ghost TAKES_MEMORY = { false };

    const TAKES_MEMORY: bool = false;

    fn decode_value(alloc: Global, reader: &mut R, _header: Header) -> Result<Link<'a>, Error> {
        match Fields::<'a>::decode_fields(alloc, reader) {
            Ok(fields) => Ok(Link { fields }),
            Err(e) => Err(e),
        }
    }

    ghost takes_memory_is = { refl };
}

impl<'a> EncodeValue for Link<'a> {
    fn value_len(&self) -> Result<Length, Error> {
        self.fields.fields_len()
    }

    fn encode_value<W: Writer>(&self, writer: &mut W) -> Result<(), Error> {
        self.fields.encode_fields(writer)
    }

    fn encode_value_back<W: BackWriter>(&self, writer: &mut W) -> Result<(), Error> {
        self.fields.encode_fields_back(writer)
    }
}

impl<'a> ValueOrd for Link<'a> {
    fn value_cmp(&self, other: &Link<'a>) -> Result<Ordering, Error> {
        self.fields.cmp_fields(&other.fields)
    }
}

impl<'a> Member for Link<'a> {
    ghost member = { struct_member ⟦<SequenceTag as TagMarker>⟧.TAG (λ v. v.fields.list)
        (field ⟦<Utf8StringRef<'a> as Member>⟧.member
        (optional_field ⟦<ImplicitApplication<SequenceRef<'a>, 4> as Member>⟧.member
        no_fields)) };
}

impl<'a> ContentsEq for Link<'a> {
    ghost contents_eq = { ⟦<Link<'a> as Member>⟧.member.equal };
}

impl<'a> CopyIsDuplicate for Link<'a> {}

/// What is read as `Link` is what the grammar page says.
pub fn grammar_of_link<'a>()
    ensures { ⟦<Link<'a> as Form>⟧.parse ≡ parse_of link }
{}

/// The contents octets of `Link` are the encodings of its fields, one after another.
#[tactic(auto, using(der_modules::specs::Asn1::optional_of))]
pub fn octets_of_link<'a>()
    ensures { (v : Link) → ⟦<Link<'a> as FormValue>⟧.value.contents v ≡ joined (
        (⟦<Utf8StringRef<'a> as Form>⟧.encoding (link_fields.name v))
        ∷ optional (λ x. (implicit_encoding application true 4 (⟦<SequenceRef<'a> as FormValue>⟧.value.contents x))) (link_fields.after v)
        ∷ []) }
{}
