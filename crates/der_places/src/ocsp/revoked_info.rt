//! The fields of a RevokedInfo.
//!
//! Made by tools/asn1 from ocsp.asn1.

ghost use Rattle.std.proofs.Common.{lit<, true};
ghost use Rattle.std.specs.Prelude.{◌∷◌, []};
ghost use Rattle.der_fields.specs.MarkerTags.{marker_tag, marker_tag-in_range};
ghost use Rattle.der_ocsp.specs.Ocsp.RevokedInfo as fields_of;
ghost use Rattle.der_places.specs.Layout.{explicit, field, no_more, optional};
ghost use Rattle.der_places.specs.LayoutLaws.{first_of, is_encoding, maybe};
ghost use Rattle.der_tlv.specs.declared.encoding_rules.EncodingRules.TheVariants.{Der};
ghost use Rattle.der_tlv.specs.declared.tag.Tag.TheVariants as tags;

use crate::place::Place;
use crate::placed::Placed;
use crate::presence::is_some;
use crate::walk::next_place;
use der_elem::Form;
use der_extensions::extension::CrlReason;
use der_fields::Explicit;
use der_numbers::Enumerated;
use der_ocsp::ocsp::RevokedInfo;
use der_time::GeneralizedTime;

/// Byte ranges of the fields of a `RevokedInfo`.
#[repr(C)]
#[derive(Clone, Copy, Debug, PartialEq, Eq)]
pub struct RevokedInfoPlaces {
    /// `revocationTime`, `GeneralizedTime`.
    pub revocation_time: Place,
    /// `revocationReason`, `[0] EXPLICIT CRLReason OPTIONAL`; empty if it is absent.
    pub revocation_reason: Place,
}

impl Placed for RevokedInfo {
    type Places = RevokedInfoPlaces;

    ghost listed = { λ p. p.revocation_time ∷ p.revocation_reason ∷ [] };

    ghost layout = { λ v.
        field (⟦<GeneralizedTime as Form>⟧.accepts Der (fields_of.revocation_time v))
        (optional (λ x. ⟦<Explicit<Enumerated<CrlReason>, 0> as Form>⟧.accepts Der (explicit (record { value = x }))) (fields_of.revocation_reason v)
        no_more) };

    fn walk(&self, octets: &[u8], start: Place) -> RevokedInfoPlaces {
        let revocation_time = next_place(octets, start, true);
        let revocation_reason = next_place(
            octets,
            revocation_time,
            is_some(self.revocation_reason()),
        );
        RevokedInfoPlaces {
            revocation_time,
            revocation_reason,
        }
    }

    ghost are_fields = { λ v c a.
        let field1 = a in
        let field2 = field1.rest in
        (first_of field1 (is_encoding tags.GeneralizedTime (lit< tt) field1.front field1.first.0 field1.first.1, field1.first)
        (first_of field2 (maybe (λ x. x.fields.first.value) (⟦<Explicit<Enumerated<CrlReason>, 0> as Form>⟧.accepts Der) (λ x. ⟦<Explicit<Enumerated<CrlReason>, 0> as Form>⟧.accepts Der (explicit (record { value = x }))) (λ x o b. (is_encoding (marker_tag 2 true 0) (marker_tag-in_range 2 true 0) o b.0 b.1, b)) v.fields.list.rest.first field2.front field2.first)
        field2.rest)) };
}
