//! The fields of a Validity.
//!
//! Made by tools/asn1 from certificate.asn1.

ghost use Rattle.std.proofs.Common.{lit<};
ghost use Rattle.std.specs.Prelude.{◌∷◌, List, [], ℕ};
ghost use Rattle.der_pkix.specs.Certificate.Validity as fields_of;
ghost use Rattle.der_pkix.specs.declared.certificate.time.Time.{Time};
ghost use Rattle.der_pkix.specs.declared.certificate.time.Time.TheVariants as time_of;
ghost use Rattle.der_places.specs.Layout.{field, no_more};
ghost use Rattle.der_places.specs.LayoutLaws.{first_of, is_encoding};
ghost use Rattle.der_places.specs.Walking.{IsEncoding};
ghost use Rattle.der_tlv.specs.declared.encoding_rules.EncodingRules.TheVariants.{Der};
ghost use Rattle.der_tlv.specs.declared.tag.Tag.TheVariants as tags;

use crate::place::Place;
use crate::placed::Placed;
use crate::walk::next_place;
use der_elem::Form;
use der_pkix::certificate::{Time, Validity};

/// Byte ranges of the fields of a `Validity`.
#[repr(C)]
#[derive(Clone, Copy, Debug, PartialEq, Eq)]
pub struct ValidityPlaces {
    /// `notBefore`, `Time`.
    pub not_before: Place,
    /// `notAfter`, `Time`.
    pub not_after: Place,
}

impl Placed for Validity {
    type Places = ValidityPlaces;

    ghost listed = { λ p. p.not_before ∷ p.not_after ∷ [] };

    ghost layout = { λ v.
        field (⟦<Time as Form>⟧.accepts Der (fields_of.not_before v))
        (field (⟦<Time as Form>⟧.accepts Der (fields_of.not_after v))
        no_more) };

    fn walk(&self, octets: &[u8], start: Place) -> ValidityPlaces {
        let not_before = next_place(octets, start, true);
        let not_after = next_place(octets, not_before, true);
        ValidityPlaces {
            not_before,
            not_after,
        }
    }

    ghost are_fields = { λ v c a.
        let is_time : (t : Time) (o : List ℕ) → ⟦<Time as Form>⟧.accepts Der t o → IsEncoding o = λ t. elim t as (λ k. (o : List ℕ) → ⟦<Time as Form>⟧.accepts Der k o → IsEncoding o) [ time_of.UtcTime x ↦ λ o b. is_encoding tags.UtcTime (lit< tt) o b.0.0 b.0.1 | time_of.GeneralTime x ↦ λ o b. is_encoding tags.GeneralizedTime (lit< tt) o b.0.0 b.0.1 ] in
        let field1 = a in
        let field2 = field1.rest in
        (first_of field1 (is_time _ field1.front field1.first, field1.first)
        (first_of field2 (is_time _ field2.front field2.first, field2.first)
        field2.rest)) };
}
