//! The fields of an OCSPResponse.
//!
//! Made by tools/asn1 from ocsp.asn1.

ghost use Rattle.std.proofs.Common.{lit<, true};
ghost use Rattle.std.specs.Prelude.{◌∷◌, []};
ghost use Rattle.der_fields.specs.MarkerTags.{marker_tag, marker_tag-in_range};
ghost use Rattle.der_ocsp.specs.Ocsp.OcspResponse as fields_of;
ghost use Rattle.der_places.specs.Layout.{explicit, field, no_more, optional};
ghost use Rattle.der_places.specs.LayoutLaws.{first_of, is_encoding, maybe};
ghost use Rattle.der_tlv.specs.declared.encoding_rules.EncodingRules.TheVariants.{Der};
ghost use Rattle.der_tlv.specs.declared.tag.Tag.TheVariants as tags;

use crate::place::Place;
use crate::placed::Placed;
use crate::presence::is_there;
use crate::walk::next_place;
use der_elem::Form;
use der_fields::Explicit;
use der_numbers::Enumerated;
use der_ocsp::ocsp::{OcspResponse, OcspResponseStatus, ResponseBytes};

/// Byte ranges of the fields of an `OCSPResponse`.
#[repr(C)]
#[derive(Clone, Copy, Debug, PartialEq, Eq)]
pub struct OcspResponsePlaces {
    /// `responseStatus`, `OCSPResponseStatus`.
    pub response_status: Place,
    /// `responseBytes`, `[0] EXPLICIT ResponseBytes OPTIONAL`; empty if it is absent.
    pub response_bytes: Place,
}

impl<'a> Placed for OcspResponse<'a> {
    type Places = OcspResponsePlaces;

    ghost listed = { λ p. p.response_status ∷ p.response_bytes ∷ [] };

    ghost layout = { λ v.
        field (⟦<Enumerated<OcspResponseStatus> as Form>⟧.accepts Der (record { value = fields_of.response_status v }))
        (optional (λ x. ⟦<Explicit<ResponseBytes<'a>, 0> as Form>⟧.accepts Der (explicit x)) (fields_of.response_bytes v)
        no_more) };

    fn walk(&self, octets: &[u8], start: Place) -> OcspResponsePlaces {
        let response_status = next_place(octets, start, true);
        let response_bytes = next_place(octets, response_status, is_there(self.response_bytes()));
        OcspResponsePlaces {
            response_status,
            response_bytes,
        }
    }

    ghost are_fields = { λ v c a.
        let field1 = a in
        let field2 = field1.rest in
        (first_of field1 (is_encoding tags.Enumerated (lit< tt) field1.front field1.first.0 field1.first.1, field1.first)
        (first_of field2 (maybe (λ x. x.fields.first) (⟦<Explicit<ResponseBytes<'a>, 0> as Form>⟧.accepts Der) (λ x. ⟦<Explicit<ResponseBytes<'a>, 0> as Form>⟧.accepts Der (explicit x)) (λ x o b. (is_encoding (marker_tag 2 true 0) (marker_tag-in_range 2 true 0) o b.0 b.1, b)) v.fields.list.rest.first field2.front field2.first)
        field2.rest)) };
}
