//! The fields of an EncryptedPrivateKeyInfo.
//!
//! Made by tools/asn1 from encryption.asn1.

ghost use Rattle.std.proofs.Common.{lit<};
ghost use Rattle.std.specs.Prelude.{◌∷◌, []};
ghost use Rattle.der_pkcs.specs.Encryption.EncryptedPrivateKeyInfo as fields_of;
ghost use Rattle.der_places.specs.Layout.{field, no_more};
ghost use Rattle.der_places.specs.LayoutLaws.{first_of, is_encoding};
ghost use Rattle.der_tlv.specs.declared.encoding_rules.EncodingRules.TheVariants.{Der};
ghost use Rattle.der_tlv.specs.declared.tag.Tag.TheVariants as tags;

use crate::place::Place;
use crate::placed::Placed;
use crate::walk::next_place;
use der_elem::Form;
use der_opaque::OctetStringRef;
use der_pkcs::encryption::EncryptedPrivateKeyInfo;
use der_pkix::AlgorithmIdentifier;

/// Byte ranges of the fields of an `EncryptedPrivateKeyInfo`.
#[repr(C)]
#[derive(Clone, Copy, Debug, PartialEq, Eq)]
pub struct EncryptedPrivateKeyInfoPlaces {
    /// `encryptionAlgorithm`, `AlgorithmIdentifier`.
    pub encryption_algorithm: Place,
    /// `encryptedData`, `OCTET STRING`.
    pub encrypted_data: Place,
}

impl<'a> Placed for EncryptedPrivateKeyInfo<'a> {
    type Places = EncryptedPrivateKeyInfoPlaces;

    ghost listed = { λ p. p.encryption_algorithm ∷ p.encrypted_data ∷ [] };

    ghost layout = { λ v.
        field (⟦<AlgorithmIdentifier<'a> as Form>⟧.accepts Der (fields_of.encryption_algorithm v))
        (field (⟦<OctetStringRef<'a> as Form>⟧.accepts Der (fields_of.encrypted_data v))
        no_more) };

    fn walk(&self, octets: &[u8], start: Place) -> EncryptedPrivateKeyInfoPlaces {
        let encryption_algorithm = next_place(octets, start, true);
        let encrypted_data = next_place(octets, encryption_algorithm, true);
        EncryptedPrivateKeyInfoPlaces {
            encryption_algorithm,
            encrypted_data,
        }
    }

    ghost are_fields = { λ v c a.
        let field1 = a in
        let field2 = field1.rest in
        (first_of field1 (is_encoding tags.Sequence (lit< tt) field1.front field1.first.0 field1.first.1, field1.first)
        (first_of field2 (is_encoding tags.OctetString (lit< tt) field2.front field2.first.0 field2.first.1, field2.first)
        field2.rest)) };
}
