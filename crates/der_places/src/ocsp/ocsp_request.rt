//! The fields of an OCSPRequest.
//!
//! Made by tools/asn1 from ocsp.asn1.

ghost use Rattle.std.proofs.Common.{lit<, true};
ghost use Rattle.std.specs.Prelude.{◌∷◌, []};
ghost use Rattle.der_fields.specs.MarkerTags.{marker_tag, marker_tag-in_range};
ghost use Rattle.der_ocsp.specs.Ocsp.OcspRequest as fields_of;
ghost use Rattle.der_places.specs.Layout.{explicit, field, no_more, optional};
ghost use Rattle.der_places.specs.LayoutLaws.{first_of, is_encoding, maybe};
ghost use Rattle.der_tlv.specs.declared.encoding_rules.EncodingRules.TheVariants.{Der};
ghost use Rattle.der_tlv.specs.declared.tag.Tag.TheVariants as tags;

use crate::place::Place;
use crate::placed::Placed;
use crate::presence::is_there;
use crate::walk::next_place;
use der_elem::Form;
use der_fields::Explicit;
use der_ocsp::ocsp::{OcspRequest, Signature, TbsRequest};

/// Byte ranges of the fields of an `OCSPRequest`.
#[repr(C)]
#[derive(Clone, Copy, Debug, PartialEq, Eq)]
pub struct OcspRequestPlaces {
    /// `tbsRequest`, `TBSRequest`.
    pub tbs_request: Place,
    /// `optionalSignature`, `[0] EXPLICIT Signature OPTIONAL`; empty if it is absent.
    pub optional_signature: Place,
}

impl<'a> Placed for OcspRequest<'a> {
    type Places = OcspRequestPlaces;

    ghost listed = { λ p. p.tbs_request ∷ p.optional_signature ∷ [] };

    ghost layout = { λ v.
        field (⟦<TbsRequest<'a> as Form>⟧.accepts Der (fields_of.tbs_request v))
        (optional (λ x. ⟦<Explicit<Signature<'a>, 0> as Form>⟧.accepts Der (explicit x)) (fields_of.optional_signature v)
        no_more) };

    fn walk(&self, octets: &[u8], start: Place) -> OcspRequestPlaces {
        let tbs_request = next_place(octets, start, true);
        let optional_signature = next_place(
            octets,
            tbs_request,
            is_there(self.optional_signature()),
        );
        OcspRequestPlaces {
            tbs_request,
            optional_signature,
        }
    }

    ghost are_fields = { λ v c a.
        let field1 = a in
        let field2 = field1.rest in
        (first_of field1 (is_encoding tags.Sequence (lit< tt) field1.front field1.first.0 field1.first.1, field1.first)
        (first_of field2 (maybe (λ x. x.fields.first) (⟦<Explicit<Signature<'a>, 0> as Form>⟧.accepts Der) (λ x. ⟦<Explicit<Signature<'a>, 0> as Form>⟧.accepts Der (explicit x)) (λ x o b. (is_encoding (marker_tag 2 true 0) (marker_tag-in_range 2 true 0) o b.0 b.1, b)) v.fields.list.rest.first field2.front field2.first)
        field2.rest)) };
}
