//! Extensions that are built (RFC 5280 4.2).

ghost use Rattle.std.specs.Prelude.{refl};
ghost use Rattle.der_pkix.specs.Certificate.Extension as extension;
ghost use Rattle.der_c.specs.Building.{BuildsFrom, field, no_more};
ghost use Rattle.der_c.specs.Numbers.{flag};

use super::parts::FromPlaces;
use super::{FromParts, write_from_parts};
use crate::extension::ExtensionAt;
use crate::fault::Fault;
use der_elem::Form;
use der_fields::{End, Field};
use der_modules::field_list;
use der_opaque::{ObjectIdentifierRef, OctetStringRef};
use der_pkix::certificate::Extension;
use std::alloc::Global;

/// The fields of an extension that are read from byte ranges.
type Fields<'a> = Field<ObjectIdentifierRef<'a, 39>, Field<OctetStringRef<'a>, End>>;

impl<'a> FromParts<'a> for Extension<'a> {
    type At = ExtensionAt;

    ghost parts = { λ at.
        flag extension.critical at.is_critical
        (field ⟦<ObjectIdentifierRef<'a, 39> as Form>⟧ at.fields.extn_id extension.extn_id
        (field ⟦<OctetStringRef<'a> as Form>⟧ at.fields.extn_value extension.extn_value
        no_more)) };

    fn from_parts(
        alloc: Global,
        octets: &'a [u8],
        at: &ExtensionAt,
    ) -> Result<Extension<'a>, Fault> {
        let places = field_list![at.fields.extn_id, at.fields.extn_value];
        match Fields::<'a>::from_places(alloc, octets, &places) {
            Ok(fields) => Ok(Extension::new(fields.first, at.is_critical > 0, fields.rest.first)),
            Err(fault) => Err(fault),
        }
    }

    ghost takes_no_memory = { refl };
}

/// Writes an Extension (RFC 5280 4.2) of its identifier, `is_critical`, and its value.
///
/// Returns 0, 100, 103 or the number of the first error, as the module says.
#[unsafe(no_mangle)]
pub extern "C" fn der_write_extension<'a>(
    alloc: Global,
    octets: &'a [u8],
    at: &ExtensionAt,
    room: &mut [u8],
    count: &mut usize,
    fault: &mut Fault,
) -> u32
    ensures { BuildsFrom ⟦<Extension<'a> as Form>⟧ octets.now (⟦<Extension<'a> as FromParts<'a>>⟧.parts at.now)
        room.old room.new count.old count.new fault.old fault.new result }
{
    write_from_parts::<Extension<'a>>(alloc, octets, at, room, count, fault)
}
