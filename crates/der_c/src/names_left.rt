//! The attributes of a name, which are read one after another.

ghost use Rattle.std.specs.Prelude.{◌≡◌, ◌+◌, ◌<◌, ◌≤◌, true, false, length};
ghost use Rattle.der_places.specs.Layout.{LaidOut};
ghost use Rattle.der_places.specs.Walking.{HoldsContents};
ghost use Rattle.der_c.specs.Bits.{bit};
ghost use Rattle.der_c.specs.Items.{EndsWithin};
ghost use Rattle.der_c.specs.NamesLeft.{AnswersNextAttribute, EntersNext, FindsNext, has_attribute};

use crate::attribute::{AttributeTypeAndValueAt, attribute_type_and_value_at};
use crate::bits::number_of_flag;
use crate::contents::der_items;
use crate::fault::{BAD_PLACE, Fault, refuse_call};
use crate::items::{behind, read_left, refuse_with};
use der_elem::Form;
use der_pkix::name::AttributeTypeAndValue;
use der_places::{Place, Placed, contents_of, next_place};
use std::alloc::Global;

/// The attributes of a name that are left: parts that were not entered, and attributes of the
/// part that was.
#[repr(C)]
#[derive(Clone, Copy, Debug, PartialEq, Eq)]
pub struct NameLeft {
    /// The parts that were not entered.
    pub parts: Place,
    /// The attributes that are left of the part that was entered.
    pub attributes: Place,
}

/// Writes all attributes of a name (RFC 5280 4.1.2.4) to `out`: its parts are left, and none was
/// entered.
#[unsafe(no_mangle)]
pub extern "C" fn der_name(octets: &[u8], name: &Place, out: &mut NameLeft)
    ensures absent { name.now.length ≡ 0 → out.new.parts ≡ name.now }
    ensures parts { 0 < name.now.length → HoldsContents octets.now name.now out.new.parts }
    ensures within { 0 < name.now.length → out.new.parts.offset + out.new.parts.length ≤ length octets.now }
    ensures begins { out.new.attributes.offset ≡ out.new.parts.offset }
    ensures none { out.new.attributes.length ≡ 0 }
{
    let parts = der_items(octets, name);
    let offset = parts.offset;
    *out = NameLeft {
        parts,
        attributes: Place { offset, length: 0 },
    };
}

/// Returns 1 if an attribute is left, else 0.
#[unsafe(no_mangle)]
pub extern "C" fn der_has_attribute(left: &NameLeft) -> u32
    ensures { result ≡ bit (has_attribute left.now) }
{
    number_of_flag(left.parts.length != 0 || left.attributes.length != 0)
}

/// Reads the next attribute that is left (AttributeTypeAndValue, RFC 5280 4.1.2.4), writes the byte
/// ranges of its fields, and moves `left` past it.
///
/// Returns 0, or the number of the first error: 100 if `left` is not within the octets, or no part
/// of a name is next. `out` and `left` are then unchanged.
#[unsafe(no_mangle)]
pub extern "C" fn der_next_name_attribute<'a>(
    alloc: Global,
    octets: &'a [u8],
    left: &mut NameLeft,
    out: &mut AttributeTypeAndValueAt,
    fault: &mut Fault,
) -> u32
    ensures { AnswersNextAttribute ⟦<AttributeTypeAndValue<'a> as Form>⟧ octets.now left.old left.new (λ v own at.
        (at.whole.offset + at.whole.length ≡ left.new.attributes.offset) × (at.whole.length ≡ length own)
        × LaidOut (⟦<AttributeTypeAndValue<'a> as Placed>⟧.layout v) at.whole.offset (⟦<AttributeTypeAndValue<'a> as Placed>⟧.listed at.fields) own)
        out.old out.new fault.old fault.new result }
{
    let Some(next) = next_attributes(octets, *left) else {
        return refuse_call(BAD_PLACE, fault);
    };
    match read_left::<AttributeTypeAndValue<'a>>(alloc, octets, next.attributes) {
        Ok((value, whole)) => {
            *out = attribute_type_and_value_at(&value, octets, whole);
            *left = NameLeft {
                parts: next.parts,
                attributes: behind(next.attributes, whole.length),
            };
            0
        }
        Err(reason) => refuse_with(reason, fault),
    }
}

/// Returns what is left of a name when its next attribute is read: a part is entered if no
/// attribute is left of the last one.
fn next_attributes(octets: &[u8], left: NameLeft) -> Option<NameLeft>
    ensures { FindsNext octets.now left result }
{
    if !ends_within(octets, left.parts) {
        return None;
    }
    if !ends_within(octets, left.attributes) {
        return None;
    }
    if left.attributes.length != 0 {
        return Some(left);
    }
    enter(octets, left)
}

/// Enters the next part of a name: its attributes are left.
fn enter(octets: &[u8], left: NameLeft) -> Option<NameLeft>
    ensures { EndsWithin octets.now left.parts → EntersNext octets.now left result }
{
    let start = Place {
        offset: left.parts.offset,
        length: 0,
    };
    let part = next_place(octets, start, true);
    if part.length == 0 {
        return None;
    }
    if left.parts.length < part.length {
        return None;
    }
    Some(NameLeft {
        parts: behind(left.parts, part.length),
        attributes: contents_of(octets, part),
    })
}

/// Returns whether a byte range ends within the octets.
fn ends_within(octets: &[u8], place: Place) -> bool
    ensures within { result ≡ true → EndsWithin octets.now place }
    ensures outside { result ≡ false → EndsWithin octets.now place → ⊥ }
{
    u64::from(place.offset) + u64::from(place.length) <= octets.len() as u64
}
