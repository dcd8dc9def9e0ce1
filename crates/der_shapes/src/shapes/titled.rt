//! Titled, a SEQUENCE of 2 fields and what comes after.
//!
//! Made by tools/asn1 from shapes.asn1.

ghost use Rattle.std.specs.Prelude.{◌∷◌, ◌≡◌, [], false, refl, true};
ghost use Rattle.der_additions.specs.Additions.{octets_of};
ghost use Rattle.der_additions.specs.AdditionsLaws.{additions_copies, additions_members};
ghost use Rattle.der_additions.specs.Asn1.{joined_before};
ghost use Rattle.der_elem.specs.FormatMakers.{mapped_format};
ghost use Rattle.der_modules.specs.Asn1.{context, implicit_encoding, optional, parse_of};
ghost use Rattle.der_modules.specs.MemberLaws.{copies_of, held_copies, listed_copies, member_copies, one_tag_copies, optional_copies, same_copies};
ghost use Rattle.der_modules.specs.Members.{field, first_of, first_of_option, optional_field, struct_member};
ghost use Rattle.der_opaque.specs.contracts.octet_string.OctetStringDuplicateValue.TheImpl.Laws as octetstring_duplicate_value;
ghost use Rattle.der_opaque.specs.contracts.octet_string.OctetStringDuplicateValueIsEqual.TheImpl.Laws as octetstring_duplicate_value_is_equal;
ghost use Rattle.der_shapes.specs.Shapes.Grammar.{titled};
ghost use Rattle.der_shapes.specs.Shapes.Titled as titled_fields;
ghost use Rattle.der_shapes.specs.declared.shapes.titled.Titled.{Titled};

use der_additions::Additions;
use der_elem::{
    ContentsEq, DecodeValue, DuplicateValue, DuplicateValueIsEqual, EncodeValue, Form, FormValue,
    OctetStringTag, OneTag, Sequence, SequenceTag, TagMarker, Utf8StringTag, ValueOrd,
};
use der_fields::{
    DecodeFields, DuplicateFields, EncodeFields, Field, FieldList, Fields2, FieldsOrd, Implicit,
    ImplicitTag,
};
use der_modules::{Choosing, CopyLaws, Member, copy_of, field_list, if_present};
use der_opaque::OctetString;
use der_text::Utf8StringRef;
use der_tlv::{BackWriter, Error, Header, Length, Source, Writer};
use std::alloc::Global;
use std::cmp::Ordering;
use std::fmt;

/// The list of the fields.
type Fields<'a> = Fields2<OctetString, Option<Implicit<Utf8StringRef<'a>, 0>>, Additions<'a>>;

/// ```text
/// Titled ::= SEQUENCE {
///     title  OCTET STRING,
///     ...,
///     note   [0] UTF8String OPTIONAL }
/// ```
///
/// Elements after these are kept, not looked at, and written as they came.
///
/// A field that may be absent is told from what follows by its tag: where it is absent, and the
/// elements kept begin with its tag, what is written is read as another value.
///
/// Reading refuses the first fault of the octets, in their order; `ErrorKind::Memory` (1) where
/// memory runs out.
#[derive(PartialEq, Eq, Drop)]
pub struct Titled<'a> {
    fields: Fields<'a>,
}

impl<'a> Titled<'a> {
    ghost use Rattle.der_shapes.specs.Shapes.Titled as titled_fields;
    ghost use Rattle.std.specs.Prelude.{option_copied};

    /// A value of these fields.
    pub fn new(
        title: OctetString,
        note: Option<Utf8StringRef<'a>>,
        additions: &Additions<'a>,
    ) -> Titled<'a>
        ensures title { titled_fields.title result ≡ title }
        ensures note { titled_fields.note result ≡ note.entry }
        ensures additions { titled_fields.additions result ≡ additions.now }
    {
        let list =
            field_list![title, if_present!(value in note => Implicit { value }); copy_of(additions)];
        let fields = Fields2 { list };
        Titled { fields }
    }

    /// The values of the fields, in their order.
    pub fn into_parts(self) -> (OctetString, Option<Utf8StringRef<'a>>, Additions<'a>)
        ensures title { titled_fields.title self.entry ≡ result.0 }
        ensures note { titled_fields.note self.entry ≡ result.1 }
        ensures additions { titled_fields.additions self.entry ≡ result.2 }
    {
        let Fields2 { list } = self.fields;
        let Field { first: title, rest } = list;
        let Field {
            first: note,
            rest: additions,
        } = rest;
        let note = if_present!(value in note => value.value);
        (title, note, additions)
    }

    /// `title`, `OCTET STRING`.
    pub fn title(&self) -> &OctetString
        ensures { result.now ≡ titled_fields.title self.now }
    {
        &self.fields.list.first
    }

    /// `note`, `[0] UTF8String OPTIONAL`.
    pub fn note(&self) -> Option<&Utf8StringRef<'a>>
        ensures { option_copied result ≡ titled_fields.note self.now }
    {
        if_present!(value in &self.fields.list.rest.first => &value.value)
    }

    /// The elements after the fields, which the module does not have (X.680 7), as they came.
    pub fn additions(&self) -> &Additions<'a>
        ensures { result.now ≡ titled_fields.additions self.now }
    {
        &self.fields.list.rest.rest
    }
}

impl<'a> fmt::Debug for Titled<'a> {
    fn fmt<W: fmt::Write>(&self, f: &mut fmt::Formatter<W>) -> fmt::Result {
        f.debug_struct("Titled")
            .field("title", self.title())
            .field("note", &self.note())
            .field("additions", self.additions())
            .finish()
    }
}

impl<'a> OneTag for Titled<'a> {
    type Marker = SequenceTag;
}

impl<'a> Sequence<'a> for Titled<'a> {
    ghost is_sequence = { refl };
}

impl<'a> FormValue for Titled<'a> {
    ghost value = { mapped_format (λ v. v.fields) ⟦<Fields<'a> as FieldList>⟧.list.octets };
}

impl<'a, R: Source<'a>> DecodeValue<'a, R> for Titled<'a> {
    ghost TAKES_MEMORY = { true };

    const TAKES_MEMORY: bool = true;

    fn decode_value(alloc: Global, reader: &mut R, _header: Header) -> Result<Titled<'a>, Error> {
        match Fields::<'a>::decode_fields(alloc, reader) {
            Ok(fields) => Ok(Titled { fields }),
            Err(e) => Err(e),
        }
    }

    ghost takes_memory_is = { refl };
}

impl<'a> EncodeValue for Titled<'a> {
    fn value_len(&self) -> Result<Length, Error> {
        self.fields.fields_len()
    }

    fn encode_value<W: Writer>(&self, writer: &mut W) -> Result<(), Error> {
        self.fields.encode_fields(writer)
    }

    fn encode_value_back<W: BackWriter>(&self, writer: &mut W) -> Result<(), Error> {
        self.fields.encode_fields_back(writer)
    }
}

impl<'a> ValueOrd for Titled<'a> {
    fn value_cmp(&self, other: &Titled<'a>) -> Result<Ordering, Error> {
        self.fields.cmp_fields(&other.fields)
    }
}

impl<'a> Member for Titled<'a> {
    ghost member = { struct_member ⟦<SequenceTag as TagMarker>⟧.TAG (λ v. v.fields.list)
        (field ⟦<OctetString as Member>⟧.member
        (optional_field ⟦<Implicit<Utf8StringRef<'a>, 0> as Member>⟧.member
        additions_members)) };
}

impl<'a> ContentsEq for Titled<'a> {
    ghost contents_eq = { ⟦<Titled<'a> as Member>⟧.member.equal };
}

impl<'a> CopyLaws for Titled<'a> {
    ghost copies = { copies_of (held_copies (λ v. v.fields.list)
        (listed_copies (member_copies ⟦<OctetString as Form>⟧
        (first_of ⟦<OctetString as Choosing>⟧.choice)
        (one_tag_copies ⟦<OctetStringTag as TagMarker>⟧.TAG (record { octets_are = octetstring_duplicate_value.copy_contents-law; comparable_are = octetstring_duplicate_value.copy_comparable_value-law; re_reads_are = octetstring_duplicate_value.copy_re_reads_value-law; equal_are = octetstring_duplicate_value_is_equal.copy_value_is_equal-law }))
        (member_copies ⟦<Option<Implicit<Utf8StringRef<'a>, 0>> as Form>⟧
        (first_of_option ⟦<Implicit<Utf8StringRef<'a>, 0> as Choosing>⟧.choice)
        (optional_copies ⟦<Implicit<Utf8StringRef<'a>, 0> as Form>⟧ (one_tag_copies ⟦<ImplicitTag<Utf8StringTag, 0> as TagMarker>⟧.TAG (held_copies (λ x. x.value) (same_copies ⟦<Utf8StringRef<'a> as FormValue>⟧.value.contents ⟦<Utf8StringRef<'a> as FormValue>⟧.value.comparable ⟦<Utf8StringRef<'a> as FormValue>⟧.value.re_reads ⟦<Utf8StringRef<'a> as PartialEq>⟧.eq (λ v. (⟦<Utf8StringRef<'a> as Member>⟧.member.equal v v tt).1 refl)))))
        additions_copies)))) };
}

impl<'a> DuplicateValue for Titled<'a> {
    ghost is_copy_value = { λ v w. ⟦<Fields<'a> as DuplicateFields>⟧.are_copies v.fields w.fields };

    ghost takes_memory_to_copy_value = { ⟦<Fields<'a> as DuplicateFields>⟧.take_memory_to_copy };

    fn duplicate_value(&self) -> Result<Titled<'a>, Error> {
        match self.fields.duplicate_fields() {
            Ok(fields) => Ok(Titled { fields }),
            Err(e) => Err(e),
        }
    }

    ghost copy_contents = { ⟦<Titled<'a> as CopyLaws>⟧.copies.laws.octets_are };

    ghost copy_comparable_value = { ⟦<Titled<'a> as CopyLaws>⟧.copies.laws.comparable_are };

    ghost copy_re_reads_value = { ⟦<Titled<'a> as CopyLaws>⟧.copies.laws.re_reads_are };
}

impl<'a> DuplicateValueIsEqual for Titled<'a> {
    ghost copy_value_is_equal = { ⟦<Titled<'a> as CopyLaws>⟧.copies.laws.equal_are };
}

/// What is read as `Titled` is what the grammar page says.
pub fn grammar_of_titled<'a>()
    ensures { ⟦<Titled<'a> as Form>⟧.parse ≡ parse_of titled }
{}

/// The contents octets of `Titled` are the encodings of its fields, one after another, and then the
/// elements after them.
#[tactic(auto, using(der_modules::specs::Asn1::optional_of))]
pub fn octets_of_titled<'a>()
    ensures { (v : Titled) → ⟦<Titled<'a> as FormValue>⟧.value.contents v ≡ joined_before (octets_of (titled_fields.additions v)) (
        (⟦<OctetString as Form>⟧.encoding (titled_fields.title v))
        ∷ optional (λ x. (implicit_encoding context false 0 (⟦<Utf8StringRef<'a> as FormValue>⟧.value.contents x))) (titled_fields.note v)
        ∷ []) }
{}
