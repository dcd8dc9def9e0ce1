//! The fields of a SingleResponse.
//!
//! Made by tools/asn1 from ocsp.asn1.

ghost use Rattle.std.proofs.Common.{false, lit<, true};
ghost use Rattle.std.specs.Prelude.{◌∷◌, List, [], ℕ};
ghost use Rattle.der_fields.specs.MarkerTags.{marker_tag, marker_tag-in_range};
ghost use Rattle.der_ocsp.specs.Ocsp.SingleResponse as fields_of;
ghost use Rattle.der_ocsp.specs.declared.ocsp.cert_status.CertStatus.{CertStatus};
ghost use Rattle.der_ocsp.specs.declared.ocsp.cert_status.CertStatus.TheVariants as cert_status_of;
ghost use Rattle.der_places.specs.Layout.{explicit, field, no_more, optional};
ghost use Rattle.der_places.specs.LayoutLaws.{first_of, is_encoding, maybe};
ghost use Rattle.der_places.specs.Walking.{IsEncoding};
ghost use Rattle.der_tlv.specs.declared.encoding_rules.EncodingRules.TheVariants.{Der};
ghost use Rattle.der_tlv.specs.declared.tag.Tag.TheVariants as tags;

use crate::place::Place;
use crate::placed::Placed;
use crate::presence::{is_some, is_there};
use crate::walk::next_place;
use der_elem::Form;
use der_fields::Explicit;
use der_ocsp::ocsp::{CertId, CertStatus, SingleResponse};
use der_pkix::certificate::Extensions;
use der_time::GeneralizedTime;

/// Byte ranges of the fields of a `SingleResponse`.
#[repr(C)]
#[derive(Clone, Copy, Debug, PartialEq, Eq)]
pub struct SingleResponsePlaces {
    /// `certID`, `CertID`.
    pub cert_id: Place,
    /// `certStatus`, `CertStatus`.
    pub cert_status: Place,
    /// `thisUpdate`, `GeneralizedTime`.
    pub this_update: Place,
    /// `nextUpdate`, `[0] EXPLICIT GeneralizedTime OPTIONAL`; empty if it is absent.
    pub next_update: Place,
    /// `singleExtensions`, `[1] EXPLICIT Extensions OPTIONAL`; empty if it is absent.
    pub single_extensions: Place,
}

impl<'a> Placed for SingleResponse<'a> {
    type Places = SingleResponsePlaces;

    ghost listed = { λ p. p.cert_id ∷ p.cert_status ∷ p.this_update ∷ p.next_update ∷ p.single_extensions ∷ [] };

    ghost layout = { λ v.
        field (⟦<CertId<'a> as Form>⟧.accepts Der (fields_of.cert_id v))
        (field (⟦<CertStatus as Form>⟧.accepts Der (fields_of.cert_status v))
        (field (⟦<GeneralizedTime as Form>⟧.accepts Der (fields_of.this_update v))
        (optional (λ x. ⟦<Explicit<GeneralizedTime, 0> as Form>⟧.accepts Der (explicit x)) (fields_of.next_update v)
        (optional (λ x. ⟦<Explicit<Extensions<'a>, 1> as Form>⟧.accepts Der (explicit x)) (fields_of.single_extensions v)
        no_more)))) };

    fn walk(&self, octets: &[u8], start: Place) -> SingleResponsePlaces {
        let cert_id = next_place(octets, start, true);
        let cert_status = next_place(octets, cert_id, true);
        let this_update = next_place(octets, cert_status, true);
        let next_update = next_place(octets, this_update, is_some(self.next_update()));
        let single_extensions = next_place(octets, next_update, is_there(self.single_extensions()));
        SingleResponsePlaces {
            cert_id,
            cert_status,
            this_update,
            next_update,
            single_extensions,
        }
    }

    ghost are_fields = { λ v c a.
        let is_cert_status : (t : CertStatus) (o : List ℕ) → ⟦<CertStatus as Form>⟧.accepts Der t o → IsEncoding o = λ t. elim t as (λ k. (o : List ℕ) → ⟦<CertStatus as Form>⟧.accepts Der k o → IsEncoding o) [ cert_status_of.Good x ↦ λ o b. is_encoding (marker_tag 2 false 0) (marker_tag-in_range 2 false 0) o b.0.0.0 b.0.0.1 | cert_status_of.Revoked x ↦ λ o b. is_encoding (marker_tag 2 true 1) (marker_tag-in_range 2 true 1) o b.0.0.0 b.0.0.1 | cert_status_of.Unknown x ↦ λ o b. is_encoding (marker_tag 2 false 2) (marker_tag-in_range 2 false 2) o b.0.0 b.0.1 ] in
        let field1 = a in
        let field2 = field1.rest in
        let field3 = field2.rest in
        let field4 = field3.rest in
        let field5 = field4.rest in
        (first_of field1 (is_encoding tags.Sequence (lit< tt) field1.front field1.first.0 field1.first.1, field1.first)
        (first_of field2 (is_cert_status _ field2.front field2.first, field2.first)
        (first_of field3 (is_encoding tags.GeneralizedTime (lit< tt) field3.front field3.first.0 field3.first.1, field3.first)
        (first_of field4 (maybe (λ x. x.fields.first) (⟦<Explicit<GeneralizedTime, 0> as Form>⟧.accepts Der) (λ x. ⟦<Explicit<GeneralizedTime, 0> as Form>⟧.accepts Der (explicit x)) (λ x o b. (is_encoding (marker_tag 2 true 0) (marker_tag-in_range 2 true 0) o b.0 b.1, b)) v.fields.list.rest.rest.rest.first field4.front field4.first)
        (first_of field5 (maybe (λ x. x.fields.first) (⟦<Explicit<Extensions<'a>, 1> as Form>⟧.accepts Der) (λ x. ⟦<Explicit<Extensions<'a>, 1> as Form>⟧.accepts Der (explicit x)) (λ x o b. (is_encoding (marker_tag 2 true 1) (marker_tag-in_range 2 true 1) o b.0 b.1, b)) v.fields.list.rest.rest.rest.rest.first field5.front field5.first)
        field5.rest))))) };
}
