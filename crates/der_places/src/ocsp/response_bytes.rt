//! The fields of a ResponseBytes.
//!
//! Made by tools/asn1 from ocsp.asn1.

ghost use Rattle.std.proofs.Common.{lit<};
ghost use Rattle.std.specs.Prelude.{◌∷◌, []};
ghost use Rattle.der_ocsp.specs.Ocsp.ResponseBytes as fields_of;
ghost use Rattle.der_places.specs.Layout.{field, no_more};
ghost use Rattle.der_places.specs.LayoutLaws.{first_of, is_encoding};
ghost use Rattle.der_tlv.specs.declared.encoding_rules.EncodingRules.TheVariants.{Der};
ghost use Rattle.der_tlv.specs.declared.tag.Tag.TheVariants as tags;

use crate::place::Place;
use crate::placed::Placed;
use crate::walk::next_place;
use der_elem::Form;
use der_ocsp::ocsp::ResponseBytes;
use der_opaque::{ObjectIdentifierRef, OctetStringRef};

/// Byte ranges of the fields of a `ResponseBytes`.
#[repr(C)]
#[derive(Clone, Copy, Debug, PartialEq, Eq)]
pub struct ResponseBytesPlaces {
    /// `responseType`, `OBJECT IDENTIFIER`.
    pub response_type: Place,
    /// `response`, `OCTET STRING`.
    pub response: Place,
}

impl<'a> Placed for ResponseBytes<'a> {
    type Places = ResponseBytesPlaces;

    ghost listed = { λ p. p.response_type ∷ p.response ∷ [] };

    ghost layout = { λ v.
        field (⟦<ObjectIdentifierRef<'a, 39> as Form>⟧.accepts Der (fields_of.response_type v))
        (field (⟦<OctetStringRef<'a> as Form>⟧.accepts Der (fields_of.response v))
        no_more) };

    fn walk(&self, octets: &[u8], start: Place) -> ResponseBytesPlaces {
        let response_type = next_place(octets, start, true);
        let response = next_place(octets, response_type, true);
        ResponseBytesPlaces {
            response_type,
            response,
        }
    }

    ghost are_fields = { λ v c a.
        let field1 = a in
        let field2 = field1.rest in
        (first_of field1 (is_encoding tags.ObjectIdentifier (lit< tt) field1.front field1.first.0 field1.first.1, field1.first)
        (first_of field2 (is_encoding tags.OctetString (lit< tt) field2.front field2.first.0 field2.first.1, field2.first)
        field2.rest)) };
}
