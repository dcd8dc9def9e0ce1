//! SafeBag, a SEQUENCE of 3 fields.
//!
//! Made by tools/asn1 from pkcs12.asn1.

ghost use Rattle.std.specs.Prelude.{◌∷◌, ◌≡◌, [], false, refl};
ghost use Rattle.der_elem.specs.FormatMakers.{mapped_format};
ghost use Rattle.der_modules.specs.Asn1.{context, explicit_encoding, joined, optional, parse_of};
ghost use Rattle.der_modules.specs.Members.{field, no_fields, optional_field, struct_member};
ghost use Rattle.der_pkcs.specs.Pkcs12.Grammar.{safe_bag};
ghost use Rattle.der_pkcs.specs.Pkcs12.SafeBag as safe_bag_fields;
ghost use Rattle.der_pkcs.specs.declared.pkcs12.safe_bag.SafeBag.{SafeBag};

use der_elem::{
    ContentsEq, CopyIsDuplicate, DecodeValue, EncodeValue, Form, FormValue, OneTag, Sequence,
    SequenceTag, TagMarker, ValueOrd,
};
use der_fields::{DecodeFields, EncodeFields, Explicit, FieldList, Fields3, FieldsOrd};
use der_modules::{Member, copy_of, field_list, if_present, tagged};
use der_opaque::{AnyRef, ObjectIdentifierRef};
use der_pkix::key::Attributes;
use der_tlv::{BackWriter, Error, Header, Length, Source, Writer};
use std::alloc::Global;
use std::cmp::Ordering;
use std::fmt;

/// The list of the fields.
type Fields<'a> = Fields3<
    ObjectIdentifierRef<'a, 39>,
    Explicit<AnyRef<'a>, 0>,
    Option<Attributes<'a>>,
>;

/// ```text
/// SafeBag ::= SEQUENCE {
///      bagId          OBJECT IDENTIFIER,
///      bagValue       [0] EXPLICIT ANY DEFINED BY bagId,
///      bagAttributes  Attributes OPTIONAL }
/// ```
///
/// Reading refuses the first fault of the octets, in their order.
#[derive(Clone, Copy, PartialEq, Eq)]
pub struct SafeBag<'a> {
    fields: Fields<'a>,
}

impl<'a> SafeBag<'a> {
    ghost use Rattle.der_pkcs.specs.Pkcs12.SafeBag as safe_bag_fields;
    ghost use Rattle.std.specs.Prelude.{option_copied};

    /// A value of these fields.
    pub fn new(
        bag_id: ObjectIdentifierRef<'a, 39>,
        bag_value: AnyRef<'a>,
        bag_attributes: Option<&Attributes<'a>>,
    ) -> SafeBag<'a>
        ensures bag_id { safe_bag_fields.bag_id result ≡ bag_id.entry }
        ensures bag_value { safe_bag_fields.bag_value result ≡ bag_value.entry }
        ensures bag_attributes { safe_bag_fields.bag_attributes result ≡ option_copied bag_attributes.entry }
    {
        let list = field_list![
            bag_id,
            tagged!(Explicit, bag_value),
            if_present!(value in bag_attributes => copy_of(value))
        ];
        let fields = Fields3 { list };
        SafeBag { fields }
    }

    /// `bagId`, `OBJECT IDENTIFIER`.
    pub fn bag_id(&self) -> &ObjectIdentifierRef<'a, 39>
        ensures { result.now ≡ safe_bag_fields.bag_id self.now }
    {
        &self.fields.list.first
    }

    /// `bagValue`, `[0] EXPLICIT ANY DEFINED BY bagId`.
    pub fn bag_value(&self) -> &AnyRef<'a>
        ensures { result.now ≡ safe_bag_fields.bag_value self.now }
    {
        &self.fields.list.rest.first.fields.first
    }

    /// `bagAttributes`, `Attributes OPTIONAL`.
    pub fn bag_attributes(&self) -> Option<&Attributes<'a>>
        ensures { option_copied result ≡ safe_bag_fields.bag_attributes self.now }
    {
        if_present!(value in &self.fields.list.rest.rest.first => value)
    }
}

impl<'a> fmt::Debug for SafeBag<'a> {
    fn fmt<W: fmt::Write>(&self, f: &mut fmt::Formatter<W>) -> fmt::Result {
        f.debug_struct("SafeBag")
            .field("bag_id", self.bag_id())
            .field("bag_value", self.bag_value())
            .field("bag_attributes", &self.bag_attributes())
            .finish()
    }
}

impl<'a> OneTag for SafeBag<'a> {
    type Marker = SequenceTag;
}

impl<'a> Sequence<'a> for SafeBag<'a> {
    ghost is_sequence = { refl };
}

impl<'a> FormValue for SafeBag<'a> {
    ghost value = { mapped_format (λ v. v.fields) ⟦<Fields<'a> as FieldList>⟧.list.octets };
}

impl<'a, R: Source<'a>> DecodeValue<'a, R> for SafeBag<'a> {
    ghost TAKES_MEMORY = { false };

    const TAKES_MEMORY: bool = false;

    fn decode_value(alloc: Global, reader: &mut R, _header: Header) -> Result<SafeBag<'a>, Error> {
        match Fields::<'a>::decode_fields(alloc, reader) {
            Ok(fields) => Ok(SafeBag { fields }),
            Err(e) => Err(e),
        }
    }

    ghost takes_memory_is = { refl };
}

impl<'a> EncodeValue for SafeBag<'a> {
    fn value_len(&self) -> Result<Length, Error> {
        self.fields.fields_len()
    }

    fn encode_value<W: Writer>(&self, writer: &mut W) -> Result<(), Error> {
        self.fields.encode_fields(writer)
    }

    fn encode_value_back<W: BackWriter>(&self, writer: &mut W) -> Result<(), Error> {
        self.fields.encode_fields_back(writer)
    }
}

impl<'a> ValueOrd for SafeBag<'a> {
    fn value_cmp(&self, other: &SafeBag<'a>) -> Result<Ordering, Error> {
        self.fields.cmp_fields(&other.fields)
    }
}

impl<'a> Member for SafeBag<'a> {
    ghost member = { struct_member ⟦<SequenceTag as TagMarker>⟧.TAG (λ v. v.fields.list)
        (field ⟦<ObjectIdentifierRef<'a, 39> as Member>⟧.member
        (field ⟦<Explicit<AnyRef<'a>, 0> as Member>⟧.member
        (optional_field ⟦<Attributes<'a> as Member>⟧.member
        no_fields))) };
}

impl<'a> ContentsEq for SafeBag<'a> {
    ghost contents_eq = { ⟦<SafeBag<'a> as Member>⟧.member.equal };
}

impl<'a> CopyIsDuplicate for SafeBag<'a> {}

/// What is read as `SafeBag` is what the grammar page says.
pub fn grammar_of_safe_bag<'a>()
    ensures { ⟦<SafeBag<'a> as Form>⟧.parse ≡ parse_of safe_bag }
{}

/// The contents octets of `SafeBag` are the encodings of its fields, one after another.
pub fn octets_of_safe_bag<'a>()
    ensures { (v : SafeBag) → ⟦<SafeBag<'a> as FormValue>⟧.value.contents v ≡ joined (
        (⟦<ObjectIdentifierRef<'a, 39> as Form>⟧.encoding (safe_bag_fields.bag_id v))
        ∷ (explicit_encoding context 0 (⟦<AnyRef<'a> as Form>⟧.encoding (safe_bag_fields.bag_value v)))
        ∷ optional (λ x. (⟦<Attributes<'a> as Form>⟧.encoding x)) (safe_bag_fields.bag_attributes v)
        ∷ []) }
{}
