//! Described, a SEQUENCE of 7 fields.
//!
//! Made by tools/asn1 from shapes.asn1.

ghost use Rattle.std.specs.Prelude.{◌∷◌, ◌≡◌, [], false, refl};
ghost use Rattle.der_elem.specs.FormatMakers.{mapped_format};
ghost use Rattle.der_modules.specs.Asn1.{context, implicit_encoding, joined, parse_of, unless_default};
ghost use Rattle.der_modules.specs.Members.{default_field, no_fields, struct_member};
ghost use Rattle.der_shapes.specs.Shapes.Described as described_fields;
ghost use Rattle.der_shapes.specs.Shapes.Grammar.{described};
ghost use Rattle.der_shapes.specs.declared.shapes.described.Described.{Described};

use crate::shapes::color::Color;
use crate::shapes::defaults::{
    DefaultOfDescribedBits, DefaultOfDescribedColor, DefaultOfDescribedKey, DefaultOfDescribedMail,
    DefaultOfDescribedName, DefaultOfDescribedPlace, DefaultOfDescribedType,
};
use der_ascii::{Ia5StringRef, PrintableStringRef};
use der_bits::BitStringRef;
use der_elem::{
    ContentsEq, CopyIsDuplicate, DecodeValue, EncodeValue, Form, FormValue, OneTag, Sequence,
    SequenceTag, TagMarker, ValueOrd,
};
use der_fields::{
    DecodeFields, DefaultOf, EncodeFields, FieldList, Fields7, FieldsOrd, Implicit, WithDefault,
};
use der_modules::{Member, field_list};
use der_numbers::Enumerated;
use der_opaque::{ObjectIdentifierRef, OctetStringRef};
use der_text::Utf8StringRef;
use der_tlv::{BackWriter, Error, Header, Length, Source, Writer};
use std::alloc::Global;
use std::cmp::Ordering;
use std::fmt;

/// The list of the fields.
type Fields<'a> = Fields7<
    WithDefault<Utf8StringRef<'a>, DefaultOfDescribedName>,
    WithDefault<PrintableStringRef<'a>, DefaultOfDescribedPlace>,
    WithDefault<Implicit<Ia5StringRef<'a>, 0>, DefaultOfDescribedMail>,
    WithDefault<OctetStringRef<'a>, DefaultOfDescribedKey>,
    WithDefault<BitStringRef<'a>, DefaultOfDescribedBits>,
    WithDefault<ObjectIdentifierRef<'a, 39>, DefaultOfDescribedType>,
    WithDefault<Implicit<Enumerated<Color>, 4>, DefaultOfDescribedColor>,
>;

/// ```text
/// Described ::= SEQUENCE {
///     name    UTF8String DEFAULT "none",
///     place   PrintableString DEFAULT "",
///     mail    [0] IA5String DEFAULT "a@b",
///     key     OCTET STRING DEFAULT '00FF'H,
///     bits    BIT STRING DEFAULT '101'B,
///     type    OBJECT IDENTIFIER DEFAULT { iso(1) member-body(2) us(840) },
///     color   [4] Color DEFAULT blue }
/// ```
///
/// Reading refuses the first fault of the octets, in their order.
#[derive(Clone, Copy, PartialEq, Eq)]
pub struct Described<'a> {
    fields: Fields<'a>,
}

impl<'a> Described<'a> {
    ghost use Rattle.der_shapes.specs.Shapes.Described as described_fields;

    /// A value of these fields.
    pub fn new(
        name: Utf8StringRef<'a>,
        place: PrintableStringRef<'a>,
        mail: Ia5StringRef<'a>,
        key: OctetStringRef<'a>,
        bits: BitStringRef<'a>,
        type_: ObjectIdentifierRef<'a, 39>,
        color: Color,
    ) -> Described<'a>
        ensures name { described_fields.name result ≡ name.entry }
        ensures place { described_fields.place result ≡ place.entry }
        ensures mail { described_fields.mail result ≡ mail.entry }
        ensures key { described_fields.key result ≡ key.entry }
        ensures bits { described_fields.bits result ≡ bits.entry }
        ensures type_ { described_fields.type_ result ≡ type_.entry }
        ensures color { described_fields.color result ≡ color }
    {
        let list = field_list![
            WithDefault::new(name),
            WithDefault::new(place),
            WithDefault::new(Implicit { value: mail }),
            WithDefault::new(key),
            WithDefault::new(bits),
            WithDefault::new(type_),
            WithDefault::new(Implicit {
                value: Enumerated { value: color }
            })
        ];
        let fields = Fields7 { list };
        Described { fields }
    }

    /// `name`, `UTF8String DEFAULT "none"`.
    pub fn name(&self) -> &Utf8StringRef<'a>
        ensures { result.now ≡ described_fields.name self.now }
    {
        &self.fields.list.first.value
    }

    /// `place`, `PrintableString DEFAULT ""`.
    pub fn place(&self) -> &PrintableStringRef<'a>
        ensures { result.now ≡ described_fields.place self.now }
    {
        &self.fields.list.rest.first.value
    }

    /// `mail`, `[0] IA5String DEFAULT "a@b"`.
    pub fn mail(&self) -> &Ia5StringRef<'a>
        ensures { result.now ≡ described_fields.mail self.now }
    {
        &self.fields.list.rest.rest.first.value.value
    }

    /// `key`, `OCTET STRING DEFAULT '00FF'H`.
    pub fn key(&self) -> &OctetStringRef<'a>
        ensures { result.now ≡ described_fields.key self.now }
    {
        &self.fields.list.rest.rest.rest.first.value
    }

    /// `bits`, `BIT STRING DEFAULT '101'B`.
    pub fn bits(&self) -> &BitStringRef<'a>
        ensures { result.now ≡ described_fields.bits self.now }
    {
        &self.fields.list.rest.rest.rest.rest.first.value
    }

    /// `type`, `OBJECT IDENTIFIER DEFAULT { iso (1) member-body (2) us (840) }`.
    pub fn type_(&self) -> &ObjectIdentifierRef<'a, 39>
        ensures { result.now ≡ described_fields.type_ self.now }
    {
        &self.fields.list.rest.rest.rest.rest.rest.first.value
    }

    /// `color`, `[4] Color DEFAULT blue`.
    pub fn color(&self) -> Color
        ensures { result ≡ described_fields.color self.now }
    {
        self.fields
            .list
            .rest
            .rest
            .rest
            .rest
            .rest
            .rest
            .first
            .value
            .value
            .value
    }
}

impl<'a> fmt::Debug for Described<'a> {
    fn fmt<W: fmt::Write>(&self, f: &mut fmt::Formatter<W>) -> fmt::Result {
        f.debug_struct("Described")
            .field("name", self.name())
            .field("place", self.place())
            .field("mail", self.mail())
            .field("key", self.key())
            .field("bits", self.bits())
            .field("type_", self.type_())
            .field("color", &self.color())
            .finish()
    }
}

impl<'a> OneTag for Described<'a> {
    type Marker = SequenceTag;
}

impl<'a> Sequence<'a> for Described<'a> {
    ghost is_sequence = { refl };
}

impl<'a> FormValue for Described<'a> {
    ghost value = { mapped_format (λ v. v.fields) ⟦<Fields<'a> as FieldList>⟧.list.octets };
}

impl<'a, R: Source<'a>> DecodeValue<'a, R> for Described<'a> {
    ghost TAKES_MEMORY = { false };

    const TAKES_MEMORY: bool = false;

    fn decode_value(
        alloc: Global,
        reader: &mut R,
        _header: Header,
    ) -> Result<Described<'a>, Error> {
        match Fields::<'a>::decode_fields(alloc, reader) {
            Ok(fields) => Ok(Described { fields }),
            Err(e) => Err(e),
        }
    }

    ghost takes_memory_is = { refl };
}

impl<'a> EncodeValue for Described<'a> {
    fn value_len(&self) -> Result<Length, Error> {
        self.fields.fields_len()
    }

    fn encode_value<W: Writer>(&self, writer: &mut W) -> Result<(), Error> {
        self.fields.encode_fields(writer)
    }

    fn encode_value_back<W: BackWriter>(&self, writer: &mut W) -> Result<(), Error> {
        self.fields.encode_fields_back(writer)
    }
}

impl<'a> ValueOrd for Described<'a> {
    fn value_cmp(&self, other: &Described<'a>) -> Result<Ordering, Error> {
        self.fields.cmp_fields(&other.fields)
    }
}

impl<'a> Member for Described<'a> {
    ghost member = { struct_member ⟦<SequenceTag as TagMarker>⟧.TAG (λ v. v.fields.list)
        (default_field ⟦<DefaultOfDescribedName as DefaultOf<Utf8StringRef<'a>>>⟧.octets ⟦<Utf8StringRef<'a> as Member>⟧.member
        (default_field ⟦<DefaultOfDescribedPlace as DefaultOf<PrintableStringRef<'a>>>⟧.octets ⟦<PrintableStringRef<'a> as Member>⟧.member
        (default_field ⟦<DefaultOfDescribedMail as DefaultOf<Implicit<Ia5StringRef<'a>, 0>>>⟧.octets ⟦<Implicit<Ia5StringRef<'a>, 0> as Member>⟧.member
        (default_field ⟦<DefaultOfDescribedKey as DefaultOf<OctetStringRef<'a>>>⟧.octets ⟦<OctetStringRef<'a> as Member>⟧.member
        (default_field ⟦<DefaultOfDescribedBits as DefaultOf<BitStringRef<'a>>>⟧.octets ⟦<BitStringRef<'a> as Member>⟧.member
        (default_field ⟦<DefaultOfDescribedType as DefaultOf<ObjectIdentifierRef<'a, 39>>>⟧.octets ⟦<ObjectIdentifierRef<'a, 39> as Member>⟧.member
        (default_field ⟦<DefaultOfDescribedColor as DefaultOf<Implicit<Enumerated<Color>, 4>>>⟧.octets ⟦<Implicit<Enumerated<Color>, 4> as Member>⟧.member
        no_fields))))))) };
}

impl<'a> ContentsEq for Described<'a> {
    ghost contents_eq = { ⟦<Described<'a> as Member>⟧.member.equal };
}

impl<'a> CopyIsDuplicate for Described<'a> {}

/// What is read as `Described` is what the grammar page says.
pub fn grammar_of_described<'a>()
    ensures { ⟦<Described<'a> as Form>⟧.parse ≡ parse_of described }
{}

/// The contents octets of `Described` are the encodings of its fields, one after another.
pub fn octets_of_described<'a>()
    ensures { (v : Described) → ⟦<Described<'a> as FormValue>⟧.value.contents v ≡ joined (
        unless_default ⟦<DefaultOfDescribedName as DefaultOf<Utf8StringRef<'a>>>⟧.octets (⟦<Utf8StringRef<'a> as Form>⟧.encoding (described_fields.name v))
        ∷ unless_default ⟦<DefaultOfDescribedPlace as DefaultOf<PrintableStringRef<'a>>>⟧.octets (⟦<PrintableStringRef<'a> as Form>⟧.encoding (described_fields.place v))
        ∷ unless_default ⟦<DefaultOfDescribedMail as DefaultOf<Implicit<Ia5StringRef<'a>, 0>>>⟧.octets (implicit_encoding context false 0 (⟦<Ia5StringRef<'a> as FormValue>⟧.value.contents (described_fields.mail v)))
        ∷ unless_default ⟦<DefaultOfDescribedKey as DefaultOf<OctetStringRef<'a>>>⟧.octets (⟦<OctetStringRef<'a> as Form>⟧.encoding (described_fields.key v))
        ∷ unless_default ⟦<DefaultOfDescribedBits as DefaultOf<BitStringRef<'a>>>⟧.octets (⟦<BitStringRef<'a> as Form>⟧.encoding (described_fields.bits v))
        ∷ unless_default ⟦<DefaultOfDescribedType as DefaultOf<ObjectIdentifierRef<'a, 39>>>⟧.octets (⟦<ObjectIdentifierRef<'a, 39> as Form>⟧.encoding (described_fields.type_ v))
        ∷ unless_default ⟦<DefaultOfDescribedColor as DefaultOf<Implicit<Enumerated<Color>, 4>>>⟧.octets (implicit_encoding context false 4 (⟦<Enumerated<Color> as FormValue>⟧.value.contents (record { value = (described_fields.color v) })))
        ∷ []) }
{}
