//! Session, a SEQUENCE of 4 fields.
//!
//! Made by tools/asn1 from shapes.asn1.

ghost use Rattle.std.specs.Prelude.{◌∷◌, ◌≡◌, [], false, refl};
ghost use Rattle.der_elem.specs.FormatMakers.{mapped_format};
ghost use Rattle.der_modules.specs.Asn1.{context, implicit_encoding, joined, optional, parse_of};
ghost use Rattle.der_modules.specs.Members.{field, no_fields, optional_field, struct_member};
ghost use Rattle.der_shapes.specs.Shapes.Grammar.{session};
ghost use Rattle.der_shapes.specs.Shapes.Session as session_fields;
ghost use Rattle.der_shapes.specs.declared.shapes.session.Session.{Session};

use der_elem::{
    ContentsEq, CopyIsDuplicate, DecodeValue, EncodeValue, Form, FormValue, OneTag, Sequence,
    SequenceTag, TagMarker, ValueOrd,
};
use der_fields::{DecodeFields, EncodeFields, FieldList, Fields4, FieldsOrd, Implicit};
use der_lists::ListRef;
use der_modules::{Member, copy_of, field_list, if_present};
use der_simple::FractionalTimeRef;
use der_time::GeneralizedTime;
use der_tlv::{BackWriter, Error, Header, Length, Source, Writer};
use std::alloc::Global;
use std::cmp::Ordering;
use std::fmt;

/// The list of the fields.
type Fields<'a> = Fields4<
    FractionalTimeRef<'a>,
    Option<Implicit<FractionalTimeRef<'a>, 0>>,
    Option<Implicit<GeneralizedTime, 1>>,
    ListRef<'a, FractionalTimeRef<'a>>,
>;

/// ```text
/// Session ::= SEQUENCE {
///     begin   GeneralizedTime,
///     end     [0] GeneralizedTime OPTIONAL,
///     day     [1] GeneralizedTime OPTIONAL,
///     pauses  SEQUENCE OF GeneralizedTime
/// }
/// ```
///
/// Reading refuses the first fault of the octets, in their order.
#[derive(Clone, Copy, PartialEq, Eq)]
pub struct Session<'a> {
    fields: Fields<'a>,
}

impl<'a> Session<'a> {
    ghost use Rattle.der_shapes.specs.Shapes.Session as session_fields;
    ghost use Rattle.std.specs.Prelude.{option_copied};

    /// A value of these fields.
    pub fn new(
        begin: FractionalTimeRef<'a>,
        end: Option<FractionalTimeRef<'a>>,
        day: Option<GeneralizedTime>,
        pauses: &ListRef<'a, FractionalTimeRef<'a>>,
    ) -> Session<'a>
        ensures begin { session_fields.begin result ≡ begin.entry }
        ensures end { session_fields.end result ≡ end.entry }
        ensures day { session_fields.day result ≡ day }
        ensures pauses { session_fields.pauses result ≡ pauses.now }
    {
        let list = field_list![
            begin,
            if_present!(value in end => Implicit { value }),
            if_present!(value in day => Implicit { value }),
            copy_of(pauses)
        ];
        let fields = Fields4 { list };
        Session { fields }
    }

    /// `begin`, `GeneralizedTime`.
    pub fn begin(&self) -> &FractionalTimeRef<'a>
        ensures { result.now ≡ session_fields.begin self.now }
    {
        &self.fields.list.first
    }

    /// `end`, `[0] GeneralizedTime OPTIONAL`.
    pub fn end(&self) -> Option<&FractionalTimeRef<'a>>
        ensures { option_copied result ≡ session_fields.end self.now }
    {
        if_present!(value in &self.fields.list.rest.first => &value.value)
    }

    /// `day`, `[1] GeneralizedTime OPTIONAL`.
    pub fn day(&self) -> Option<GeneralizedTime>
        ensures { result ≡ session_fields.day self.now }
    {
        if_present!(value in self.fields.list.rest.rest.first => value.value)
    }

    /// `pauses`, `SEQUENCE OF GeneralizedTime`.
    pub fn pauses(&self) -> &ListRef<'a, FractionalTimeRef<'a>>
        ensures { result.now ≡ session_fields.pauses self.now }
    {
        &self.fields.list.rest.rest.rest.first
    }
}

impl<'a> fmt::Debug for Session<'a> {
    fn fmt<W: fmt::Write>(&self, f: &mut fmt::Formatter<W>) -> fmt::Result {
        f.debug_struct("Session")
            .field("begin", self.begin())
            .field("end", &self.end())
            .field("day", &self.day())
            .field("pauses", self.pauses())
            .finish()
    }
}

impl<'a> OneTag for Session<'a> {
    type Marker = SequenceTag;
}

impl<'a> Sequence<'a> for Session<'a> {
    ghost is_sequence = { refl };
}

impl<'a> FormValue for Session<'a> {
    ghost value = { mapped_format (λ v. v.fields) ⟦<Fields<'a> as FieldList>⟧.list.octets };
}

impl<'a, R: Source<'a>> DecodeValue<'a, R> for Session<'a> {
    ghost TAKES_MEMORY = { false };

    const TAKES_MEMORY: bool = false;

    fn decode_value(alloc: Global, reader: &mut R, _header: Header) -> Result<Session<'a>, Error> {
        match Fields::<'a>::decode_fields(alloc, reader) {
            Ok(fields) => Ok(Session { fields }),
            Err(e) => Err(e),
        }
    }

    ghost takes_memory_is = { refl };
}

impl<'a> EncodeValue for Session<'a> {
    fn value_len(&self) -> Result<Length, Error> {
        self.fields.fields_len()
    }

    fn encode_value<W: Writer>(&self, writer: &mut W) -> Result<(), Error> {
        self.fields.encode_fields(writer)
    }

    fn encode_value_back<W: BackWriter>(&self, writer: &mut W) -> Result<(), Error> {
        self.fields.encode_fields_back(writer)
    }
}

impl<'a> ValueOrd for Session<'a> {
    fn value_cmp(&self, other: &Session<'a>) -> Result<Ordering, Error> {
        self.fields.cmp_fields(&other.fields)
    }
}

impl<'a> Member for Session<'a> {
    ghost member = { struct_member ⟦<SequenceTag as TagMarker>⟧.TAG (λ v. v.fields.list)
        (field ⟦<FractionalTimeRef<'a> as Member>⟧.member
        (optional_field ⟦<Implicit<FractionalTimeRef<'a>, 0> as Member>⟧.member
        (optional_field ⟦<Implicit<GeneralizedTime, 1> as Member>⟧.member
        (field ⟦<ListRef<'a, FractionalTimeRef<'a>> as Member>⟧.member
        no_fields)))) };
}

impl<'a> ContentsEq for Session<'a> {
    ghost contents_eq = { ⟦<Session<'a> as Member>⟧.member.equal };
}

impl<'a> CopyIsDuplicate for Session<'a> {}

/// What is read as `Session` is what the grammar page says.
pub fn grammar_of_session<'a>()
    ensures { ⟦<Session<'a> as Form>⟧.parse ≡ parse_of session }
{}

/// The contents octets of `Session` are the encodings of its fields, one after another.
#[tactic(auto, using(der_modules::specs::Asn1::optional_of))]
pub fn octets_of_session<'a>()
    ensures { (v : Session) → ⟦<Session<'a> as FormValue>⟧.value.contents v ≡ joined (
        (⟦<FractionalTimeRef<'a> as Form>⟧.encoding (session_fields.begin v))
        ∷ optional (λ x. (implicit_encoding context false 0 (⟦<FractionalTimeRef<'a> as FormValue>⟧.value.contents x))) (session_fields.end v)
        ∷ optional (λ x. (implicit_encoding context false 1 (⟦<GeneralizedTime as FormValue>⟧.value.contents x))) (session_fields.day v)
        ∷ (⟦<ListRef<'a, FractionalTimeRef<'a>> as Form>⟧.encoding (session_fields.pauses v))
        ∷ []) }
{}
