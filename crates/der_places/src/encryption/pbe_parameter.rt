//! The fields of a PBEParameter.
//!
//! Made by tools/asn1 from encryption.asn1.

ghost use Rattle.std.proofs.Common.{lit<};
ghost use Rattle.std.specs.Prelude.{◌∷◌, []};
ghost use Rattle.der_pkcs.specs.Encryption.PbeParameter as fields_of;
ghost use Rattle.der_places.specs.Layout.{field, no_more};
ghost use Rattle.der_places.specs.LayoutLaws.{first_of, is_encoding};
ghost use Rattle.der_tlv.specs.declared.encoding_rules.EncodingRules.TheVariants.{Der};
ghost use Rattle.der_tlv.specs.declared.tag.Tag.TheVariants as tags;

use crate::place::Place;
use crate::placed::Placed;
use crate::walk::next_place;
use der_elem::Form;
use der_opaque::OctetStringRef;
use der_pkcs::encryption::PbeParameter;

/// Byte ranges of the fields of a `PBEParameter`.
#[repr(C)]
#[derive(Clone, Copy, Debug, PartialEq, Eq)]
pub struct PbeParameterPlaces {
    /// `salt`, `OCTET STRING (SIZE (8))`.
    pub salt: Place,
    /// `iterationCount`, `INTEGER`.
    pub iteration_count: Place,
}

impl<'a> Placed for PbeParameter<'a> {
    type Places = PbeParameterPlaces;

    ghost listed = { λ p. p.salt ∷ p.iteration_count ∷ [] };

    ghost layout = { λ v.
        field (⟦<OctetStringRef<'a> as Form>⟧.accepts Der (fields_of.salt v))
        (field (⟦<u32 as Form>⟧.accepts Der (fields_of.iteration_count v))
        no_more) };

    fn walk(&self, octets: &[u8], start: Place) -> PbeParameterPlaces {
        let salt = next_place(octets, start, true);
        let iteration_count = next_place(octets, salt, true);
        PbeParameterPlaces {
            salt,
            iteration_count,
        }
    }

    ghost are_fields = { λ v c a.
        let field1 = a in
        let field2 = field1.rest in
        (first_of field1 (is_encoding tags.OctetString (lit< tt) field1.front field1.first.0 field1.first.1, field1.first)
        (first_of field2 (is_encoding tags.Integer (lit< tt) field2.front field2.first.0 field2.first.1, field2.first)
        field2.rest)) };
}
