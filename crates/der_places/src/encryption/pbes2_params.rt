//! The fields of a PBES2-params.
//!
//! Made by tools/asn1 from encryption.asn1.

ghost use Rattle.std.proofs.Common.{lit<};
ghost use Rattle.std.specs.Prelude.{◌∷◌, []};
ghost use Rattle.der_pkcs.specs.Encryption.Pbes2Params as fields_of;
ghost use Rattle.der_places.specs.Layout.{field, no_more};
ghost use Rattle.der_places.specs.LayoutLaws.{first_of, is_encoding};
ghost use Rattle.der_tlv.specs.declared.encoding_rules.EncodingRules.TheVariants.{Der};
ghost use Rattle.der_tlv.specs.declared.tag.Tag.TheVariants as tags;

use crate::place::Place;
use crate::placed::Placed;
use crate::walk::next_place;
use der_elem::Form;
use der_pkcs::encryption::Pbes2Params;
use der_pkix::AlgorithmIdentifier;

/// Byte ranges of the fields of a `PBES2-params`.
#[repr(C)]
#[derive(Clone, Copy, Debug, PartialEq, Eq)]
pub struct Pbes2ParamsPlaces {
    /// `keyDerivationFunc`, `AlgorithmIdentifier`.
    pub key_derivation_func: Place,
    /// `encryptionScheme`, `AlgorithmIdentifier`.
    pub encryption_scheme: Place,
}

impl<'a> Placed for Pbes2Params<'a> {
    type Places = Pbes2ParamsPlaces;

    ghost listed = { λ p. p.key_derivation_func ∷ p.encryption_scheme ∷ [] };

    ghost layout = { λ v.
        field (⟦<AlgorithmIdentifier<'a> as Form>⟧.accepts Der (fields_of.key_derivation_func v))
        (field (⟦<AlgorithmIdentifier<'a> as Form>⟧.accepts Der (fields_of.encryption_scheme v))
        no_more) };

    fn walk(&self, octets: &[u8], start: Place) -> Pbes2ParamsPlaces {
        let key_derivation_func = next_place(octets, start, true);
        let encryption_scheme = next_place(octets, key_derivation_func, true);
        Pbes2ParamsPlaces {
            key_derivation_func,
            encryption_scheme,
        }
    }

    ghost are_fields = { λ v c a.
        let field1 = a in
        let field2 = field1.rest in
        (first_of field1 (is_encoding tags.Sequence (lit< tt) field1.front field1.first.0 field1.first.1, field1.first)
        (first_of field2 (is_encoding tags.Sequence (lit< tt) field2.front field2.first.0 field2.first.1, field2.first)
        field2.rest)) };
}
