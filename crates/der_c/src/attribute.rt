//! The byte ranges of the fields of attributes, which are read one after another.

ghost use Rattle.std.specs.Prelude.{◌≡◌, take, List, ℕ};
ghost use Rattle.der_places.specs.Layout.{LaidOut};
ghost use Rattle.der_c.specs.Answers.{AnswersFront};
ghost use Rattle.der_c.specs.Items.{ReadAt};

use crate::fault::{Fault, refuse};
use crate::front::read_front;
use der_elem::Form;
use der_pkix::name::{Attribute, AttributeTypeAndValue};
use der_places::name::{AttributePlaces, AttributeTypeAndValuePlaces};
use der_places::{Place, Placed, places_of};
use std::alloc::Global;

/// The byte ranges of the fields of an attribute of a name.
#[repr(C)]
#[derive(Clone, Copy, Debug, PartialEq, Eq)]
pub struct AttributeTypeAndValueAt {
    /// The whole attribute; the next one begins after it.
    pub whole: Place,
    /// Its fields.
    pub fields: AttributeTypeAndValuePlaces,
}

/// Reads the AttributeTypeAndValue at the front of the octets (RFC 5280 4.1.2.4), and writes the
/// byte ranges of its fields. The next attribute of the part of a name begins after it.
///
/// Returns 0 and writes the byte ranges to `out`, or returns the number of the first error and
/// leaves `out` unchanged.
#[unsafe(no_mangle)]
pub extern "C" fn der_attribute_type_and_value<'a>(
    alloc: Global,
    octets: &'a [u8],
    out: &mut AttributeTypeAndValueAt,
    fault: &mut Fault,
) -> u32
    ensures { AnswersFront ⟦<AttributeTypeAndValue<'a> as Form>⟧ octets.now (λ v taken at.
        (at.whole.offset ≡ 0) × (at.whole.length ≡ taken)
        × LaidOut (⟦<AttributeTypeAndValue<'a> as Placed>⟧.layout v) 0 (⟦<AttributeTypeAndValue<'a> as Placed>⟧.listed at.fields) (take taken octets.now))
        out.old out.new fault.old fault.new result }
{
    match read_front::<AttributeTypeAndValue<'a>>(alloc, octets) {
        Ok((value, length)) => {
            *out = attribute_type_and_value_at(&value, octets, Place { offset: 0, length });
            0
        }
        Err(error) => refuse(error, fault),
    }
}

/// Returns the byte ranges of an attribute that was read from a byte range.
pub(crate) fn attribute_type_and_value_at<'a>(
    value: &AttributeTypeAndValue<'a>,
    octets: &[u8],
    whole: Place,
) -> AttributeTypeAndValueAt
    ensures fields { (own : List ℕ) → ReadAt ⟦<AttributeTypeAndValue<'a> as Form>⟧ octets.now whole.offset value.now own
        → LaidOut (⟦<AttributeTypeAndValue<'a> as Placed>⟧.layout value.now) whole.offset (⟦<AttributeTypeAndValue<'a> as Placed>⟧.listed result.fields) own }
    ensures offset { result.whole.offset ≡ whole.offset }
    ensures length { result.whole.length ≡ whole.length }
{
    AttributeTypeAndValueAt {
        whole,
        fields: places_of(value, octets, whole.offset),
    }
}

/// The byte ranges of the fields of an attribute with a set of values.
#[repr(C)]
#[derive(Clone, Copy, Debug, PartialEq, Eq)]
pub struct AttributeAt {
    /// The whole attribute; the next one begins after it.
    pub whole: Place,
    /// Its fields.
    pub fields: AttributePlaces,
}

/// Reads the Attribute at the front of the octets (RFC 5652 5.3, RFC 2986 4.1, RFC 5958
/// section 2), and writes the byte ranges of its fields. The next attribute of the signer, the request or the private key
/// begins after it.
///
/// Returns 0 and writes the byte ranges to `out`, or returns the number of the first error and
/// leaves `out` unchanged.
#[unsafe(no_mangle)]
pub extern "C" fn der_attribute<'a>(
    alloc: Global,
    octets: &'a [u8],
    out: &mut AttributeAt,
    fault: &mut Fault,
) -> u32
    ensures { AnswersFront ⟦<Attribute<'a> as Form>⟧ octets.now (λ v taken at.
        (at.whole.offset ≡ 0) × (at.whole.length ≡ taken)
        × LaidOut (⟦<Attribute<'a> as Placed>⟧.layout v) 0 (⟦<Attribute<'a> as Placed>⟧.listed at.fields) (take taken octets.now))
        out.old out.new fault.old fault.new result }
{
    match read_front::<Attribute<'a>>(alloc, octets) {
        Ok((value, length)) => {
            *out = attribute_at(&value, octets, Place { offset: 0, length });
            0
        }
        Err(error) => refuse(error, fault),
    }
}

/// Returns the byte ranges of an attribute that was read from a byte range.
pub(crate) fn attribute_at<'a>(value: &Attribute<'a>, octets: &[u8], whole: Place) -> AttributeAt
    ensures fields { (own : List ℕ) → ReadAt ⟦<Attribute<'a> as Form>⟧ octets.now whole.offset value.now own
        → LaidOut (⟦<Attribute<'a> as Placed>⟧.layout value.now) whole.offset (⟦<Attribute<'a> as Placed>⟧.listed result.fields) own }
    ensures offset { result.whole.offset ≡ whole.offset }
    ensures length { result.whole.length ≡ whole.length }
{
    AttributeAt {
        whole,
        fields: places_of(value, octets, whole.offset),
    }
}
