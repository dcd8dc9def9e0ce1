//! Names as text (RFC 4514).

ghost use Rattle.std.specs.Prelude.{ℕ, List};
ghost use Rattle.der_c.specs.NameText.{AnswersNameText, IsNameText, WritesName};

use crate::attribute_text::put_attribute;
use crate::fault::{Fault, SHORT_ROOM, refuse, refuse_call};
use crate::joined_text::{ItemText, joined_length, put_joined, write_last_first};
use crate::room_text::end_text;
use der_elem::{Form, FromDer};
use der_pkix::name::{AttributeTypeAndValue, Name, RelativeDistinguishedName};
use std::alloc::Global;

/// Reads all octets as a Name (RFC 5280 4.1.2.4), and writes it as text to a buffer, with a zero
/// octet at its end (RFC 4514), and the length of the text to `count`.
///
/// Returns 0; 103 if the buffer is too short, and it is then unchanged; or the number of the first
/// error of the octets, and the buffer and `count` are then unchanged.
#[unsafe(no_mangle)]
pub extern "C" fn der_name_text<'a>(
    alloc: Global,
    octets: &'a [u8],
    room: &mut [u8],
    count: &mut usize,
    fault: &mut Fault,
) -> u32
    ensures { AnswersNameText ⟦<RelativeDistinguishedName<'a> as Form>⟧ ⟦<AttributeTypeAndValue<'a> as Form>⟧ ⟦<Name<'a> as Form>⟧
        octets.now room.old room.new count.old count.new fault.old fault.new result }
{
    match Name::from_der(alloc, octets) {
        Ok(name) => write_name(alloc, &name, room, count, fault),
        Err(error) => refuse(error, fault),
    }
}

/// Writes a name as text to the front of a buffer, with a zero octet at its end, and the length of
/// the text to `count`. If the buffer is too short, it is unchanged, and the result is 103.
fn write_name<'a>(
    alloc: Global,
    name: &Name<'a>,
    room: &mut [u8],
    count: &mut usize,
    fault: &mut Fault,
) -> u32
    ensures { (text : List ℕ)
        → IsNameText ⟦<RelativeDistinguishedName<'a> as Form>⟧ ⟦<AttributeTypeAndValue<'a> as Form>⟧ name.now text
        → WritesName text room.old room.new count.new fault.old fault.new result }
{
    let texts = PartTexts { alloc };
    let length = joined_length(name.items().iter(alloc), &texts);
    *count = length;
    if room.len() <= length {
        return refuse_call(SHORT_ROOM, fault);
    }
    write_last_first(name.items().iter(alloc), &texts, room, length);
    end_text(room, length);
    0
}

/// The texts of the parts of a name (RFC 4514 2.2).
#[derive(Drop)]
struct PartTexts {
    alloc: Global,
}

impl<'a> ItemText<RelativeDistinguishedName<'a>> for PartTexts {
    ghost use Rattle.der_c.specs.NameLaws.{same_part_text};
    ghost use Rattle.der_c.specs.NameText.{IsPartText};

    ghost shows = { λ p. IsPartText ⟦<AttributeTypeAndValue<'a> as Form>⟧ };

    fn put_text(
        &self,
        item: &RelativeDistinguishedName<'a>,
        room: &mut [u8],
        position: usize,
    ) -> usize {
        put_joined(
            item.items().iter(self.alloc),
            &AttributeTexts,
            room,
            position,
        )
    }

    ghost respects = { λ p. same_part_text ⟦<AttributeTypeAndValue<'a> as Form>⟧ };
}

/// The texts of attributes (RFC 4514 2.3).
struct AttributeTexts;

impl<'a> ItemText<AttributeTypeAndValue<'a>> for AttributeTexts {
    ghost use Rattle.der_c.specs.NameLaws.{same_attribute_text};
    ghost use Rattle.der_c.specs.NameText.{ShowsAttribute};

    ghost shows = { λ p. ShowsAttribute };

    fn put_text(
        &self,
        item: &AttributeTypeAndValue<'a>,
        room: &mut [u8],
        position: usize,
    ) -> usize {
        put_attribute(item.type_().as_bytes(), item.value(), room, position)
    }

    ghost respects = { λ p. same_attribute_text };
}
