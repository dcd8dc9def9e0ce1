//! The fields of a ResponseData.
//!
//! Made by tools/asn1 from ocsp.asn1.

ghost use Rattle.std.proofs.Common.{lit<, true};
ghost use Rattle.std.specs.Prelude.{◌∷◌, List, [], ℕ};
ghost use Rattle.der_fields.specs.Defaults.{is_default};
ghost use Rattle.der_fields.specs.MarkerTags.{marker_tag, marker_tag-in_range};
ghost use Rattle.der_ocsp.specs.Ocsp.ResponseData as fields_of;
ghost use Rattle.der_ocsp.specs.declared.ocsp.responder_id.ResponderId.{ResponderId};
ghost use Rattle.der_ocsp.specs.declared.ocsp.responder_id.ResponderId.TheVariants as responder_id_of;
ghost use Rattle.der_places.specs.Layout.{explicit, field, no_more, optional, unless};
ghost use Rattle.der_places.specs.LayoutLaws.{besides, first_of, is_encoding, maybe};
ghost use Rattle.der_places.specs.Walking.{IsEncoding};
ghost use Rattle.der_tlv.specs.declared.encoding_rules.EncodingRules.TheVariants.{Der};
ghost use Rattle.der_tlv.specs.declared.tag.Tag.TheVariants as tags;

use crate::place::Place;
use crate::placed::Placed;
use crate::presence::is_there;
use crate::walk::next_place;
use der_elem::Form;
use der_fields::{DefaultNumber, DefaultOf, Explicit};
use der_modules::tagged;
use der_ocsp::ocsp::{ResponderId, ResponseData, SingleResponses, Version};
use der_pkix::certificate::Extensions;
use der_time::GeneralizedTime;

/// Byte ranges of the fields of a `ResponseData`.
#[repr(C)]
#[derive(Clone, Copy, Debug, PartialEq, Eq)]
pub struct ResponseDataPlaces {
    /// `version`, `[0] EXPLICIT Version DEFAULT v1`; empty if it has its default.
    pub version: Place,
    /// `responderID`, `ResponderID`.
    pub responder_id: Place,
    /// `producedAt`, `GeneralizedTime`.
    pub produced_at: Place,
    /// `responses`, `SingleResponses`.
    pub responses: Place,
    /// `responseExtensions`, `[1] EXPLICIT Extensions OPTIONAL`; empty if it is absent.
    pub response_extensions: Place,
}

impl<'a> Placed for ResponseData<'a> {
    type Places = ResponseDataPlaces;

    ghost listed = { λ p. p.version ∷ p.responder_id ∷ p.produced_at ∷ p.responses ∷ p.response_extensions ∷ [] };

    ghost layout = { λ v.
        unless (is_default ⟦<DefaultNumber<0> as DefaultOf<Explicit<Version, 0>>>⟧.octets (⟦<Explicit<Version, 0> as Form>⟧.encoding (explicit (fields_of.version v)))) (⟦<Explicit<Version, 0> as Form>⟧.accepts Der (explicit (fields_of.version v)))
        (field (⟦<ResponderId<'a> as Form>⟧.accepts Der (fields_of.responder_id v))
        (field (⟦<GeneralizedTime as Form>⟧.accepts Der (fields_of.produced_at v))
        (field (⟦<SingleResponses<'a> as Form>⟧.accepts Der (fields_of.responses v))
        (optional (λ x. ⟦<Explicit<Extensions<'a>, 1> as Form>⟧.accepts Der (explicit x)) (fields_of.response_extensions v)
        no_more)))) };

    fn walk(&self, octets: &[u8], start: Place) -> ResponseDataPlaces {
        let value = self.version();
        let tagged: Explicit<Version, 0> = tagged!(Explicit, value);
        let is_default = <DefaultNumber<0> as DefaultOf<Explicit<Version, 0>>>::is_default(&tagged);
        let version = next_place(octets, start, !is_default);
        let responder_id = next_place(octets, version, true);
        let produced_at = next_place(octets, responder_id, true);
        let responses = next_place(octets, produced_at, true);
        let response_extensions = next_place(
            octets,
            responses,
            is_there(self.response_extensions()),
        );
        ResponseDataPlaces {
            version,
            responder_id,
            produced_at,
            responses,
            response_extensions,
        }
    }

    ghost are_fields = { λ v c a.
        let is_responder_id : (t : ResponderId) (o : List ℕ) → ⟦<ResponderId<'a> as Form>⟧.accepts Der t o → IsEncoding o = λ t. elim t as (λ k. (o : List ℕ) → ⟦<ResponderId<'a> as Form>⟧.accepts Der k o → IsEncoding o) [ responder_id_of.ByName x ↦ λ o b. is_encoding (marker_tag 2 true 1) (marker_tag-in_range 2 true 1) o b.0.0 b.0.1 | responder_id_of.ByKey x ↦ λ o b. is_encoding (marker_tag 2 true 2) (marker_tag-in_range 2 true 2) o b.0.0 b.0.1 ] in
        let field1 = a in
        let field2 = field1.rest in
        let field3 = field2.rest in
        let field4 = field3.rest in
        let field5 = field4.rest in
        (first_of field1 (besides (is_default ⟦<DefaultNumber<0> as DefaultOf<Explicit<Version, 0>>>⟧.octets (⟦<Explicit<Version, 0> as Form>⟧.encoding (explicit (fields_of.version v)))) (⟦<Explicit<Version, 0> as Form>⟧.readable (explicit (fields_of.version v))) (⟦<Explicit<Version, 0> as Form>⟧.accepts Der (explicit (fields_of.version v))) (λ o b. is_encoding (marker_tag 2 true 0) (marker_tag-in_range 2 true 0) o b.0 b.1) field1.front field1.first)
        (first_of field2 (is_responder_id _ field2.front field2.first, field2.first)
        (first_of field3 (is_encoding tags.GeneralizedTime (lit< tt) field3.front field3.first.0 field3.first.1, field3.first)
        (first_of field4 (is_encoding tags.Sequence (lit< tt) field4.front field4.first.0 field4.first.1, field4.first)
        (first_of field5 (maybe (λ x. x.fields.first) (⟦<Explicit<Extensions<'a>, 1> as Form>⟧.accepts Der) (λ x. ⟦<Explicit<Extensions<'a>, 1> as Form>⟧.accepts Der (explicit x)) (λ x o b. (is_encoding (marker_tag 2 true 1) (marker_tag-in_range 2 true 1) o b.0 b.1, b)) v.fields.list.rest.rest.rest.rest.first field5.front field5.first)
        field5.rest))))) };
}
