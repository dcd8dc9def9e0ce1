//! The fields of an ECDSA-Sig-Value.
//!
//! Made by tools/asn1 from algorithm.asn1.

ghost use Rattle.std.proofs.Common.{lit<};
ghost use Rattle.std.specs.Prelude.{◌∷◌, []};
ghost use Rattle.der_pkcs.specs.Algorithm.EcdsaSigValue as fields_of;
ghost use Rattle.der_places.specs.Layout.{field, no_more};
ghost use Rattle.der_places.specs.LayoutLaws.{first_of, is_encoding};
ghost use Rattle.der_tlv.specs.declared.encoding_rules.EncodingRules.TheVariants.{Der};
ghost use Rattle.der_tlv.specs.declared.tag.Tag.TheVariants as tags;

use crate::place::Place;
use crate::placed::Placed;
use crate::walk::next_place;
use der_elem::Form;
use der_numbers::UintRef;
use der_pkcs::algorithm::EcdsaSigValue;

/// Byte ranges of the fields of an `ECDSA-Sig-Value`.
#[repr(C)]
#[derive(Clone, Copy, Debug, PartialEq, Eq)]
pub struct EcdsaSigValuePlaces {
    /// `r`, `INTEGER (0..MAX)`.
    pub r: Place,
    /// `s`, `INTEGER (0..MAX)`.
    pub s: Place,
}

impl<'a> Placed for EcdsaSigValue<'a> {
    type Places = EcdsaSigValuePlaces;

    ghost listed = { λ p. p.r ∷ p.s ∷ [] };

    ghost layout = { λ v.
        field (⟦<UintRef<'a> as Form>⟧.accepts Der (fields_of.r v))
        (field (⟦<UintRef<'a> as Form>⟧.accepts Der (fields_of.s v))
        no_more) };

    fn walk(&self, octets: &[u8], start: Place) -> EcdsaSigValuePlaces {
        let r = next_place(octets, start, true);
        let s = next_place(octets, r, true);
        EcdsaSigValuePlaces { r, s }
    }

    ghost are_fields = { λ v c a.
        let field1 = a in
        let field2 = field1.rest in
        (first_of field1 (is_encoding tags.Integer (lit< tt) field1.front field1.first.0 field1.first.1, field1.first)
        (first_of field2 (is_encoding tags.Integer (lit< tt) field2.front field2.first.0 field2.first.1, field2.first)
        field2.rest)) };
}
