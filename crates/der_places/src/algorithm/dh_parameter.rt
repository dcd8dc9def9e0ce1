//! The fields of a DHParameter.
//!
//! Made by tools/asn1 from algorithm.asn1.

ghost use Rattle.std.proofs.Common.{lit<};
ghost use Rattle.std.specs.Prelude.{◌∷◌, []};
ghost use Rattle.der_pkcs.specs.Algorithm.DhParameter as fields_of;
ghost use Rattle.der_places.specs.Layout.{field, no_more, optional};
ghost use Rattle.der_places.specs.LayoutLaws.{first_of, is_encoding, perhaps};
ghost use Rattle.der_tlv.specs.declared.encoding_rules.EncodingRules.TheVariants.{Der};
ghost use Rattle.der_tlv.specs.declared.tag.Tag.TheVariants as tags;

use crate::place::Place;
use crate::placed::Placed;
use crate::presence::is_some;
use crate::walk::next_place;
use der_elem::Form;
use der_numbers::UintRef;
use der_pkcs::algorithm::DhParameter;

/// Byte ranges of the fields of a `DHParameter`.
#[repr(C)]
#[derive(Clone, Copy, Debug, PartialEq, Eq)]
pub struct DhParameterPlaces {
    /// `prime`, `INTEGER (0..MAX)`.
    pub prime: Place,
    /// `base`, `INTEGER (0..MAX)`.
    pub base: Place,
    /// `privateValueLength`, `INTEGER (0..MAX) OPTIONAL`; empty if it is absent.
    pub private_value_length: Place,
}

impl<'a> Placed for DhParameter<'a> {
    type Places = DhParameterPlaces;

    ghost listed = { λ p. p.prime ∷ p.base ∷ p.private_value_length ∷ [] };

    ghost layout = { λ v.
        field (⟦<UintRef<'a> as Form>⟧.accepts Der (fields_of.prime v))
        (field (⟦<UintRef<'a> as Form>⟧.accepts Der (fields_of.base v))
        (optional (⟦<u32 as Form>⟧.accepts Der) (fields_of.private_value_length v)
        no_more)) };

    fn walk(&self, octets: &[u8], start: Place) -> DhParameterPlaces {
        let prime = next_place(octets, start, true);
        let base = next_place(octets, prime, true);
        let private_value_length = next_place(octets, base, is_some(self.private_value_length()));
        DhParameterPlaces {
            prime,
            base,
            private_value_length,
        }
    }

    ghost are_fields = { λ v c a.
        let field1 = a in
        let field2 = field1.rest in
        let field3 = field2.rest in
        (first_of field1 (is_encoding tags.Integer (lit< tt) field1.front field1.first.0 field1.first.1, field1.first)
        (first_of field2 (is_encoding tags.Integer (lit< tt) field2.front field2.first.0 field2.first.1, field2.first)
        (first_of field3 (perhaps (⟦<u32 as Form>⟧.accepts Der) (λ x o b. is_encoding tags.Integer (lit< tt) o b.0 b.1) v.fields.list.rest.rest.first field3.front field3.first)
        field3.rest))) };
}
