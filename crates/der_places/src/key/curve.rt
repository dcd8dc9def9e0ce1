//! The fields of a Curve.
//!
//! Made by tools/asn1 from key.asn1.

ghost use Rattle.std.proofs.Common.{lit<};
ghost use Rattle.std.specs.Prelude.{◌∷◌, []};
ghost use Rattle.der_pkix.specs.Key.Curve as fields_of;
ghost use Rattle.der_places.specs.Layout.{field, no_more, optional};
ghost use Rattle.der_places.specs.LayoutLaws.{first_of, is_encoding, perhaps};
ghost use Rattle.der_tlv.specs.declared.encoding_rules.EncodingRules.TheVariants.{Der};
ghost use Rattle.der_tlv.specs.declared.tag.Tag.TheVariants as tags;

use crate::place::Place;
use crate::placed::Placed;
use crate::presence::is_there;
use crate::walk::next_place;
use der_bits::BitStringRef;
use der_elem::Form;
use der_opaque::OctetStringRef;
use der_pkix::key::Curve;

/// Byte ranges of the fields of a `Curve`.
#[repr(C)]
#[derive(Clone, Copy, Debug, PartialEq, Eq)]
pub struct CurvePlaces {
    /// `a`, `OCTET STRING`.
    pub a: Place,
    /// `b`, `OCTET STRING`.
    pub b: Place,
    /// `seed`, `BIT STRING OPTIONAL`; empty if it is absent.
    pub seed: Place,
}

impl<'a> Placed for Curve<'a> {
    type Places = CurvePlaces;

    ghost listed = { λ p. p.a ∷ p.b ∷ p.seed ∷ [] };

    ghost layout = { λ v.
        field (⟦<OctetStringRef<'a> as Form>⟧.accepts Der (fields_of.a v))
        (field (⟦<OctetStringRef<'a> as Form>⟧.accepts Der (fields_of.b v))
        (optional (⟦<BitStringRef<'a> as Form>⟧.accepts Der) (fields_of.seed v)
        no_more)) };

    fn walk(&self, octets: &[u8], start: Place) -> CurvePlaces {
        let a = next_place(octets, start, true);
        let b = next_place(octets, a, true);
        let seed = next_place(octets, b, is_there(self.seed()));
        CurvePlaces { a, b, seed }
    }

    ghost are_fields = { λ v c a.
        let field1 = a in
        let field2 = field1.rest in
        let field3 = field2.rest in
        (first_of field1 (is_encoding tags.OctetString (lit< tt) field1.front field1.first.0 field1.first.1, field1.first)
        (first_of field2 (is_encoding tags.OctetString (lit< tt) field2.front field2.first.0 field2.first.1, field2.first)
        (first_of field3 (perhaps (⟦<BitStringRef<'a> as Form>⟧.accepts Der) (λ x o b. is_encoding tags.BitString (lit< tt) o b.0 b.1) v.fields.list.rest.rest.first field3.front field3.first)
        field3.rest))) };
}
