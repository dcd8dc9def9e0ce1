//! Counted, a SEQUENCE of 8 fields.
//!
//! Made by tools/asn1 from shapes.asn1.

ghost use Rattle.std.specs.Prelude.{◌∷◌, ◌≡◌, [], false, refl};
ghost use Rattle.der_elem.specs.FormatMakers.{mapped_format};
ghost use Rattle.der_modules.specs.Asn1.{context, explicit_encoding, implicit_encoding, joined, parse_of, unless_default};
ghost use Rattle.der_modules.specs.Members.{default_field, no_fields, struct_member};
ghost use Rattle.der_shapes.specs.Shapes.Counted as counted_fields;
ghost use Rattle.der_shapes.specs.Shapes.Grammar.{counted};
ghost use Rattle.der_shapes.specs.declared.shapes.counted.Counted.{Counted};

use crate::shapes::aliases::Level;
use crate::shapes::color::Color;
use crate::shapes::defaults::{
    Default200, Default300, Default8080, DefaultMinus1, DefaultMinus40000, DefaultNull,
    DefaultOfCountedColor, DefaultTrue,
};
use der_elem::{
    ContentsEq, CopyIsDuplicate, DecodeValue, EncodeValue, Form, FormValue, OneTag, Sequence,
    SequenceTag, TagMarker, ValueOrd,
};
use der_fields::{
    DecodeFields, DefaultOf, EncodeFields, Explicit, FieldList, Fields8, FieldsOrd, Implicit,
    WithDefault,
};
use der_modules::{Member, field_list, tagged};
use der_numbers::{Enumerated, IntRef, UintRef};
use der_opaque::Null;
use der_tlv::{BackWriter, Error, Header, Length, Source, Writer};
use std::alloc::Global;
use std::cmp::Ordering;
use std::fmt;

/// The list of the fields.
type Fields<'a> = Fields8<
    WithDefault<bool, DefaultTrue>,
    WithDefault<u16, Default8080>,
    WithDefault<Implicit<i8, 0>, DefaultMinus1>,
    WithDefault<Explicit<Level, 1>, Default300>,
    WithDefault<Implicit<IntRef<'a>, 2>, DefaultMinus40000>,
    WithDefault<Implicit<UintRef<'a>, 3>, Default200>,
    WithDefault<Null, DefaultNull>,
    WithDefault<Enumerated<Color>, DefaultOfCountedColor>,
>;

/// ```text
/// Counted ::= SEQUENCE {
///     visible  BOOLEAN DEFAULT TRUE,
///     port     INTEGER (0..65535) DEFAULT 8080,
///     offset   [0] INTEGER (-128..127) DEFAULT -1,
///     level    [1] EXPLICIT Level DEFAULT high,
///     balance  [2] INTEGER DEFAULT -40000,
///     serial   [3] INTEGER (0..MAX) DEFAULT 200,
///     nothing  NULL DEFAULT NULL,
///     color    Color DEFAULT green }
/// ```
///
/// Reading refuses the first fault of the octets, in their order.
#[derive(Clone, Copy, PartialEq, Eq)]
pub struct Counted<'a> {
    fields: Fields<'a>,
}

impl<'a> Counted<'a> {
    ghost use Rattle.der_shapes.specs.Shapes.Counted as counted_fields;

    /// A value of these fields.
    pub fn new(
        visible: bool,
        port: u16,
        offset: i8,
        level: Level,
        balance: IntRef<'a>,
        serial: UintRef<'a>,
        nothing: Null,
        color: Color,
    ) -> Counted<'a>
        ensures visible { counted_fields.visible result ≡ visible }
        ensures port { counted_fields.port result ≡ port }
        ensures offset { counted_fields.offset result ≡ offset }
        ensures level { counted_fields.level result ≡ level }
        ensures balance { counted_fields.balance result ≡ balance.entry }
        ensures serial { counted_fields.serial result ≡ serial.entry }
        ensures nothing { counted_fields.nothing result ≡ nothing }
        ensures color { counted_fields.color result ≡ color }
    {
        let list = field_list![
            WithDefault::new(visible),
            WithDefault::new(port),
            WithDefault::new(Implicit { value: offset }),
            WithDefault::new(tagged!(Explicit, level)),
            WithDefault::new(Implicit { value: balance }),
            WithDefault::new(Implicit { value: serial }),
            WithDefault::new(nothing),
            WithDefault::new(Enumerated { value: color })
        ];
        let fields = Fields8 { list };
        Counted { fields }
    }

    /// `visible`, `BOOLEAN DEFAULT TRUE`.
    pub fn visible(&self) -> bool
        ensures { result ≡ counted_fields.visible self.now }
    {
        self.fields.list.first.value
    }

    /// `port`, `INTEGER (0..65535) DEFAULT 8080`.
    pub fn port(&self) -> u16
        ensures { result ≡ counted_fields.port self.now }
    {
        self.fields.list.rest.first.value
    }

    /// `offset`, `[0] INTEGER (- 128..127) DEFAULT - 1`.
    pub fn offset(&self) -> i8
        ensures { result ≡ counted_fields.offset self.now }
    {
        self.fields.list.rest.rest.first.value.value
    }

    /// `level`, `[1] EXPLICIT Level DEFAULT high`.
    pub fn level(&self) -> Level
        ensures { result ≡ counted_fields.level self.now }
    {
        self.fields.list.rest.rest.rest.first.value.fields.first
    }

    /// `balance`, `[2] INTEGER DEFAULT - 40000`.
    pub fn balance(&self) -> &IntRef<'a>
        ensures { result.now ≡ counted_fields.balance self.now }
    {
        &self.fields.list.rest.rest.rest.rest.first.value.value
    }

    /// `serial`, `[3] INTEGER (0..MAX) DEFAULT 200`.
    pub fn serial(&self) -> &UintRef<'a>
        ensures { result.now ≡ counted_fields.serial self.now }
    {
        &self.fields.list.rest.rest.rest.rest.rest.first.value.value
    }

    /// `nothing`, `NULL DEFAULT NULL`.
    pub fn nothing(&self) -> Null
        ensures { result ≡ counted_fields.nothing self.now }
    {
        self.fields.list.rest.rest.rest.rest.rest.rest.first.value
    }

    /// `color`, `Color DEFAULT green`.
    pub fn color(&self) -> Color
        ensures { result ≡ counted_fields.color self.now }
    {
        self.fields
            .list
            .rest
            .rest
            .rest
            .rest
            .rest
            .rest
            .rest
            .first
            .value
            .value
    }
}

impl<'a> fmt::Debug for Counted<'a> {
    fn fmt<W: fmt::Write>(&self, f: &mut fmt::Formatter<W>) -> fmt::Result {
        f.debug_struct("Counted")
            .field("visible", &self.visible())
            .field("port", &self.port())
            .field("offset", &self.offset())
            .field("level", &self.level())
            .field("balance", self.balance())
            .field("serial", self.serial())
            .field("nothing", &self.nothing())
            .field("color", &self.color())
            .finish()
    }
}

impl<'a> OneTag for Counted<'a> {
    type Marker = SequenceTag;
}

impl<'a> Sequence<'a> for Counted<'a> {
    ghost is_sequence = { refl };
}

impl<'a> FormValue for Counted<'a> {
    ghost value = { mapped_format (λ v. v.fields) ⟦<Fields<'a> as FieldList>⟧.list.octets };
}

impl<'a, R: Source<'a>> DecodeValue<'a, R> for Counted<'a> {
    ghost TAKES_MEMORY = { false };

    const TAKES_MEMORY: bool = false;

    fn decode_value(alloc: Global, reader: &mut R, _header: Header) -> Result<Counted<'a>, Error> {
        match Fields::<'a>::decode_fields(alloc, reader) {
            Ok(fields) => Ok(Counted { fields }),
            Err(e) => Err(e),
        }
    }

    ghost takes_memory_is = { refl };
}

impl<'a> EncodeValue for Counted<'a> {
    fn value_len(&self) -> Result<Length, Error> {
        self.fields.fields_len()
    }

    fn encode_value<W: Writer>(&self, writer: &mut W) -> Result<(), Error> {
        self.fields.encode_fields(writer)
    }

    fn encode_value_back<W: BackWriter>(&self, writer: &mut W) -> Result<(), Error> {
        self.fields.encode_fields_back(writer)
    }
}

impl<'a> ValueOrd for Counted<'a> {
    fn value_cmp(&self, other: &Counted<'a>) -> Result<Ordering, Error> {
        self.fields.cmp_fields(&other.fields)
    }
}

impl<'a> Member for Counted<'a> {
    ghost member = { struct_member ⟦<SequenceTag as TagMarker>⟧.TAG (λ v. v.fields.list)
        (default_field ⟦<DefaultTrue as DefaultOf<bool>>⟧.octets ⟦<bool as Member>⟧.member
        (default_field ⟦<Default8080 as DefaultOf<u16>>⟧.octets ⟦<u16 as Member>⟧.member
        (default_field ⟦<DefaultMinus1 as DefaultOf<Implicit<i8, 0>>>⟧.octets ⟦<Implicit<i8, 0> as Member>⟧.member
        (default_field ⟦<Default300 as DefaultOf<Explicit<Level, 1>>>⟧.octets ⟦<Explicit<Level, 1> as Member>⟧.member
        (default_field ⟦<DefaultMinus40000 as DefaultOf<Implicit<IntRef<'a>, 2>>>⟧.octets ⟦<Implicit<IntRef<'a>, 2> as Member>⟧.member
        (default_field ⟦<Default200 as DefaultOf<Implicit<UintRef<'a>, 3>>>⟧.octets ⟦<Implicit<UintRef<'a>, 3> as Member>⟧.member
        (default_field ⟦<DefaultNull as DefaultOf<Null>>⟧.octets ⟦<Null as Member>⟧.member
        (default_field ⟦<DefaultOfCountedColor as DefaultOf<Enumerated<Color>>>⟧.octets ⟦<Enumerated<Color> as Member>⟧.member
        no_fields)))))))) };
}

impl<'a> ContentsEq for Counted<'a> {
    ghost contents_eq = { ⟦<Counted<'a> as Member>⟧.member.equal };
}

impl<'a> CopyIsDuplicate for Counted<'a> {}

/// What is read as `Counted` is what the grammar page says.
pub fn grammar_of_counted<'a>()
    ensures { ⟦<Counted<'a> as Form>⟧.parse ≡ parse_of counted }
{}

/// The contents octets of `Counted` are the encodings of its fields, one after another.
pub fn octets_of_counted<'a>()
    ensures { (v : Counted) → ⟦<Counted<'a> as FormValue>⟧.value.contents v ≡ joined (
        unless_default ⟦<DefaultTrue as DefaultOf<bool>>⟧.octets (⟦<bool as Form>⟧.encoding (counted_fields.visible v))
        ∷ unless_default ⟦<Default8080 as DefaultOf<u16>>⟧.octets (⟦<u16 as Form>⟧.encoding (counted_fields.port v))
        ∷ unless_default ⟦<DefaultMinus1 as DefaultOf<Implicit<i8, 0>>>⟧.octets (implicit_encoding context false 0 (⟦<i8 as FormValue>⟧.value.contents (counted_fields.offset v)))
        ∷ unless_default ⟦<Default300 as DefaultOf<Explicit<Level, 1>>>⟧.octets (explicit_encoding context 1 (⟦<Level as Form>⟧.encoding (counted_fields.level v)))
        ∷ unless_default ⟦<DefaultMinus40000 as DefaultOf<Implicit<IntRef<'a>, 2>>>⟧.octets (implicit_encoding context false 2 (⟦<IntRef<'a> as FormValue>⟧.value.contents (counted_fields.balance v)))
        ∷ unless_default ⟦<Default200 as DefaultOf<Implicit<UintRef<'a>, 3>>>⟧.octets (implicit_encoding context false 3 (⟦<UintRef<'a> as FormValue>⟧.value.contents (counted_fields.serial v)))
        ∷ unless_default ⟦<DefaultNull as DefaultOf<Null>>⟧.octets (⟦<Null as Form>⟧.encoding (counted_fields.nothing v))
        ∷ unless_default ⟦<DefaultOfCountedColor as DefaultOf<Enumerated<Color>>>⟧.octets (⟦<Enumerated<Color> as Form>⟧.encoding (record { value = (counted_fields.color v) }))
        ∷ []) }
{}
