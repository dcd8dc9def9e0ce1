//! Named numbers: ENUMERATED (X.690 8.4, X.680 20), and INTEGER whose only values are the named
//! numbers (X.690 8.3, X.680 19.5).
//!
//! The contents octets are those of the INTEGER with the number: keyCompromise (1) of a CRLReason
//! is encoded as 0A 01 01.
//!
//! Decoding fails, in this order: on no contents octets (7); on more than eight (8); on a first
//! octet 00 before one below 80, or FF before one of 80 or more (`ErrorKind::Noncanonical`, 8);
//! on a number that has no name (`ErrorKind::Value`, 13).

ghost use Rattle.std.specs.Prelude.{◌≡◌, false, refl};
ghost use Rattle.std.proofs.Common.{lit<};
ghost use Rattle.std.specs.Cmp.{on_per, on_equiv, int_eq_equiv, partial_equiv_from_equiv};
ghost use Rattle.std.specs.Ordering.{int_eq};
ghost use Rattle.std.proofs.lemmas.Bool.Decides.{Decides-int_eq};
ghost use Rattle.der_tlv.specs.declared.tag.Tag.TheVariants as tags;
ghost use Rattle.der_elem.specs.Integer.{integer_contents};
ghost use Rattle.der_elem.specs.IntegerLaws.{integer_contents-injective};
ghost use Rattle.der_elem.specs.IntegerReading.{ReadsSigned};
ghost use Rattle.der_elem.specs.FormatMakers.{format_of_contents};
ghost use Rattle.der_numbers.specs.AnyLength.{TakesContents};
ghost use Rattle.der_numbers.specs.Enumerated.{Names, named, named_or_fault, parse_named};
ghost use Rattle.der_numbers.specs.EnumeratedLaws.{named-own, named_of_octets, numbers_decide};

use der_elem::{
    ContentsEq, CopyIsDuplicate, DecodeValue, EncodeValue, FormValue, OneTag, TagMarker, ValueOrd,
    read_contents, signed_of,
};
use der_tlv::{BackWriter, Error, ErrorKind, Header, Length, Reader, Source, Tag, Writer};
use std::alloc::Global;
use std::cmp::Ordering;

/// The tag of ENUMERATED, 0A.
pub struct EnumeratedTag;

impl TagMarker for EnumeratedTag {
    ghost TAG = { tags.Enumerated };

    const TAG: Tag = Tag::Enumerated;

    ghost tag_in_range = { lit< tt };
}

/// A user's own type, mostly an `enum`, whose values are names of numbers.
///
/// `names` lists the values and their numbers. Each value is found in the list by its number, so
/// no two values have the same number (X.680 20.2).
pub trait Enumeration: Copy {
    /// The tag: [`EnumeratedTag`], or `IntegerTag` for an INTEGER whose only values are the named
    /// numbers.
    type Marker: TagMarker;

    // the numbers of its values
    ghost names: { Names Self };

    /// Returns the number of the value.
    fn number(self) -> i64
        ensures { result ≡ names.number_of self };

    /// Returns the value with this number, if it has a name.
    fn of_number(number: i64) -> Option<Self>
        ensures { result ≡ named names.number_of names.values number };
}

/// A value of an enumeration. It is encoded as the INTEGER with its number, after the
/// enumeration's tag.
///
/// keyCompromise (1) of a CRLReason is encoded as 0A 01 01.
///
/// # Errors
/// Decoding fails on no contents octets (`ErrorKind::Length`, 7), on more than eight or a
/// redundant first octet (`ErrorKind::Noncanonical`, 8), and on a number without a name
/// (`ErrorKind::Value`, 13).
#[derive(Clone, Copy, Debug)]
pub struct Enumerated<E> {
    /// The value.
    pub value: E,
}

/// Decodes at most eight contents octets as an integer.
///
/// # Errors
/// In this order: no octets (`ErrorKind::Length`, 7); more than eight
/// (`ErrorKind::Noncanonical`, 8); a redundant first octet (`ErrorKind::Noncanonical`, 8).
fn integer_of(octets: &[u8]) -> Result<i64, ErrorKind>
    ensures { ReadsSigned 8 octets.now result }
{
    match signed_of(octets, 8) {
        Ok(number) => Ok(number as i64),
        Err(kind) => Err(kind),
    }
}

/// Decodes contents octets as the value with their number.
///
/// # Errors
/// In this order: no octets (`ErrorKind::Length`, 7); more than eight
/// (`ErrorKind::Noncanonical`, 8); a redundant first octet (`ErrorKind::Noncanonical`, 8); a number
/// without a name (`ErrorKind::Value`, 13).
fn named_value<E: Enumeration>(octets: &[u8]) -> Result<E, ErrorKind>
    ensures { TakesContents (λ v. integer_contents (E.names.number_of v))
        (named_or_fault E.Marker.TAG E.names.number_of E.names.values) octets.now result }
{
    let tag = <E::Marker as TagMarker>::TAG;
    if octets.is_empty() {
        return Err(tag.length_error());
    }
    match integer_of(octets) {
        Ok(number) => match E::of_number(number) {
            Some(value) => Ok(value),
            None => Err(tag.value_error()),
        },
        Err(_) => Err(tag.non_canonical_error()),
    }
}

impl<E: Enumeration> FormValue for Enumerated<E> {
    ghost value = { format_of_contents (λ v. integer_contents (E.names.number_of v.value)) (parse_named E.Marker.TAG E.names.number_of E.names.values) (λ rules v p. named-own E.Marker.TAG E.names v.value rules p) (named_of_octets E.Marker.TAG E.names.number_of E.names.values) };
}

impl<E: Enumeration> OneTag for Enumerated<E> {
    type Marker = <E as Enumeration>::Marker;
}

impl<'a, R: Source<'a>, E: Enumeration> DecodeValue<'a, R> for Enumerated<E> {
    ghost TAKES_MEMORY = { false };

    const TAKES_MEMORY: bool = false;

    fn decode_value(
        _alloc: Global,
        reader: &mut R,
        header: Header,
    ) -> Result<Enumerated<E>, Error> {
        match named_value(read_contents(reader, header)?) {
            Ok(value) => Ok(Enumerated { value }),
            Err(kind) => Err(reader.error(kind)),
        }
    }

    ghost takes_memory_is = { refl };
}

impl<E: Enumeration> EncodeValue for Enumerated<E> {
    fn value_len(&self) -> Result<Length, Error> {
        self.value.number().value_len()
    }

    fn encode_value<W: Writer>(&self, writer: &mut W) -> Result<(), Error> {
        self.value.number().encode_value(writer)
    }

    fn encode_value_back<W: BackWriter>(&self, writer: &mut W) -> Result<(), Error> {
        self.value.number().encode_value_back(writer)
    }
}

impl<E: Enumeration> ValueOrd for Enumerated<E> {
    fn value_cmp(&self, other: &Enumerated<E>) -> Result<Ordering, Error> {
        self.value.number().value_cmp(&other.value.number())
    }
}

impl<E: Enumeration> PartialEq for Enumerated<E> {
    ghost eq = { λ v w. int_eq (E.names.number_of v.value) (E.names.number_of w.value) };

    ghost laws = { on_per (λ v. E.names.number_of v.value) (partial_equiv_from_equiv int_eq_equiv) };

    /// Returns whether the two values have the same number.
    fn eq(&self, other: &Enumerated<E>) -> bool {
        self.value.number() == other.value.number()
    }
}

impl<E: Enumeration> Eq for Enumerated<E> {
    ghost laws = { on_equiv (λ v. E.names.number_of v.value) int_eq_equiv };
}

impl<E: Enumeration> ContentsEq for Enumerated<E> {
    ghost contents_eq = { λ v w one. numbers_decide (E.names.number_of v.value) (E.names.number_of w.value) };
}

impl<E: Enumeration> CopyIsDuplicate for Enumerated<E> {}
