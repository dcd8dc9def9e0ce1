//! SEQUENCE of the fields of a user's own struct, with names (X.690 8.9, X.680 25).
//!
//! The tag is 30. The contents octets, the first error in decoding, and the order are those of
//! the list of the fields, as for a `FieldSequence`.
//!
//! The fields are copied when a value is written, compared or tested for equality. So they are
//! small, as borrowed values are.

ghost use Rattle.std.specs.Prelude.{◌≡◌, refl};
ghost use Rattle.std.specs.Cmp.{on_per, on_equiv};
ghost use Rattle.der_elem.specs.Decoding.{ReadsAll};
ghost use Rattle.der_elem.specs.FormatMakers.{mapped_format};
ghost use Rattle.der_fields.specs.SequenceWriting.{WritesAll};

use crate::coded::{DecodeFields, EncodeFields};
use crate::copied::{DuplicateFields, DuplicateFieldsAreEqual};
use crate::equal::FieldsEq;
use crate::field_list::FieldList;
use crate::ordered::FieldsOrd;
use der_elem::{
    ContentsEq, DecodeValue, DuplicateValue, DuplicateValueIsEqual, Encode, EncodeValue, Form,
    FormValue, FromDer, OneTag, Sequence, SequenceTag, ValueOrd,
};
use der_tlv::{BackWriter, Error, Header, Length, SliceReader, Source, Writer};
use std::alloc::Global;
use std::cmp::Ordering;

/// A user's own struct whose members are the fields of a SEQUENCE.
///
/// The list of the fields, as in a `FieldSequence`, determines their octets; the struct gives
/// them names. `list_of` is the list of a value. It is written with `field`, `with_default` and
/// `end` of `specs/Listing.antt`.
pub trait NamedFields: Sized + Drop {
    /// The list of the fields.
    type List: FieldList;

    // the list that a value is seen as
    ghost list_of: { Self → Self.List };

    /// Creates the struct from these fields.
    fn of_list(list: &Self::List) -> Self
        ensures { list_of result ≡ list.now };

    /// Returns the fields of the struct.
    fn to_list(&self) -> Self::List
        ensures { result ≡ list_of self.now };
}

/// The body of `of_list`, which makes a struct of a list:
/// `from_list!(list => Name { a, default b })` names the fields in their order. `default` is before
/// a field with a DEFAULT.
#[macro_export]
macro_rules! from_list {
    (@ $name:ident, $at:expr, { $($done:tt)* };) => {
        $name { $($done)* }
    };
    (@ $name:ident, $at:expr, { $($done:tt)* }; default $field:ident $(, $($rest:tt)*)?) => {
        $crate::from_list!(@ $name, $at.rest, { $($done)* $field: $at.first.value, }; $($($rest)*)?)
    };
    (@ $name:ident, $at:expr, { $($done:tt)* }; $field:ident $(, $($rest:tt)*)?) => {
        $crate::from_list!(@ $name, $at.rest, { $($done)* $field: $at.first, }; $($($rest)*)?)
    };
    ($list:expr => $name:ident { $($fields:tt)* }) => {
        $crate::from_list!(@ $name, $list, {}; $($fields)*)
    };
}

/// The body of `to_list`, which makes a list of a struct: `to_list!(self => a, default b)`.
#[macro_export]
macro_rules! to_list {
    ($value:expr =>) => {
        $crate::End
    };
    ($value:expr => default $field:ident $(, $($rest:tt)*)?) => {
        $crate::Field::new(
            $crate::WithDefault::new($value.$field),
            $crate::to_list!($value => $($($rest)*)?),
        )
    };
    ($value:expr => $field:ident $(, $($rest:tt)*)?) => {
        $crate::Field::new($value.$field, $crate::to_list!($value => $($($rest)*)?))
    };
}

/// A SEQUENCE of the fields of a user's own struct, which is the member `fields`.
#[derive(Clone, Copy, Debug, Drop)]
pub struct NamedSequence<S> {
    /// The fields.
    pub fields: S,
}

impl<S: NamedFields> FormValue for NamedSequence<S> {
    ghost value = { mapped_format (λ v. S.list_of v.fields) S.List.list.octets };
}

impl<S> OneTag for NamedSequence<S> {
    type Marker = SequenceTag;
}

impl<'a, S> Sequence<'a> for NamedSequence<S> {
    ghost is_sequence = { refl };
}

impl<'a, R: Source<'a>, S: NamedFields> DecodeValue<'a, R> for NamedSequence<S>
where
    S::List: DecodeFields<'a, R>,
{
    ghost TAKES_MEMORY = { S.List.DecodeFields.TAKES_MEMORY };

    const TAKES_MEMORY: bool = <S::List as DecodeFields<'a, R>>::TAKES_MEMORY;

    fn decode_value(
        alloc: Global,
        reader: &mut R,
        _header: Header,
    ) -> Result<NamedSequence<S>, Error> {
        let list = S::List::decode_fields(alloc, reader)?;
        let fields = S::of_list(&list);
        Ok(NamedSequence { fields })
    }

    ghost takes_memory_is = { S.List.DecodeFields.takes_memory_is };
}

impl<S: NamedFields> EncodeValue for NamedSequence<S>
where
    S::List: EncodeFields,
{
    fn value_len(&self) -> Result<Length, Error> {
        self.fields.to_list().fields_len()
    }

    fn encode_value<W: Writer>(&self, writer: &mut W) -> Result<(), Error> {
        self.fields.to_list().encode_fields(writer)
    }

    fn encode_value_back<W: BackWriter>(&self, writer: &mut W) -> Result<(), Error> {
        self.fields.to_list().encode_fields_back(writer)
    }
}

impl<S: NamedFields> ValueOrd for NamedSequence<S>
where
    S::List: FieldsOrd,
{
    fn value_cmp(&self, other: &NamedSequence<S>) -> Result<Ordering, Error> {
        self.fields.to_list().cmp_fields(&other.fields.to_list())
    }
}

impl<S: NamedFields> PartialEq for NamedSequence<S>
where
    S::List: PartialEq,
{
    ghost eq = { λ v w. S.List.eq (S.list_of v.fields) (S.list_of w.fields) };

    ghost laws = { on_per (λ v. S.list_of v.fields) S.List.laws };

    fn eq(&self, other: &NamedSequence<S>) -> bool {
        self.fields.to_list() == other.fields.to_list()
    }
}

impl<S: NamedFields> Eq for NamedSequence<S>
where
    S::List: Eq,
{
    ghost laws = { on_equiv (λ v. S.list_of v.fields) S.List.Eq.laws };
}

impl<S: NamedFields> ContentsEq for NamedSequence<S>
where
    S::List: FieldsEq,
{
    ghost contents_eq = { λ v w. S.List.fields_eq (S.list_of v.fields) (S.list_of w.fields) };
}

impl<S: NamedFields> DuplicateValue for NamedSequence<S>
where
    S::List: DuplicateFields,
{
    ghost is_copy_value = { λ v w. S.List.are_copies (S.list_of v.fields) (S.list_of w.fields) };

    ghost takes_memory_to_copy_value = { S.List.take_memory_to_copy };

    fn duplicate_value(&self) -> Result<NamedSequence<S>, Error> {
        let list = self.fields.to_list().duplicate_fields()?;
        let fields = S::of_list(&list);
        Ok(NamedSequence { fields })
    }

    ghost copy_contents = { λ v w c. S.List.copy_joined (S.list_of v.fields) (S.list_of w.fields) c };

    ghost copy_comparable_value = { λ v w x c f. S.List.copy_all_comparable (S.list_of v.fields)
        (S.list_of w.fields) (S.list_of x.fields) c f };

    ghost copy_re_reads_value = { λ v w c. S.List.copy_re_read (S.list_of v.fields)
        (S.list_of w.fields) c };
}

impl<S: NamedFields> DuplicateValueIsEqual for NamedSequence<S>
where
    S::List: DuplicateFieldsAreEqual,
{
    ghost copy_value_is_equal = { λ v w. S.List.copies_are_equal (S.list_of v.fields)
        (S.list_of w.fields) };
}

/// Reads a SEQUENCE with these fields from all of the octets, under DER.
///
/// It is `from_der`, proved once for every struct of fields, so that the prover checks a call
/// sooner.
///
/// # Errors
/// The first error of the octets, in the order of the fields; `ErrorKind::TrailingData` (3) if
/// octets are left over; `ErrorKind::Overflow` (9) if there are more than 4294967295;
/// `ErrorKind::Memory` (1) if a type takes memory and memory runs out.
pub fn read_named_sequence<'a, S: NamedFields>(
    alloc: Global,
    bytes: &'a [u8],
) -> Result<NamedSequence<S>, Error>
where
    S::List: DecodeFields<'a, SliceReader<'a>>,
    ensures { ReadsAll ⟦<NamedSequence<S> as Form>⟧ bytes.now result }
{
    NamedSequence::<S>::from_der(alloc, bytes)
}

/// Writes the one encoding of a SEQUENCE with these fields.
///
/// It is `to_der`, proved once for every struct of fields.
///
/// # Errors
/// `ErrorKind::Memory` (1) if memory runs out; `ErrorKind::Overflow` (9) if there are more than
/// 4294967295 octets.
pub fn write_named_sequence<S: NamedFields>(
    alloc: Global,
    value: &NamedSequence<S>,
) -> Result<Vec<u8>, Error>
where
    S::List: EncodeFields,
    ensures { WritesAll ⟦<NamedSequence<S> as Form>⟧ value.now result }
{
    value.to_der(alloc)
}
