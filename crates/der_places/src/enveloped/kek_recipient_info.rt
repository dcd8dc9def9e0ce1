//! The fields of a KEKRecipientInfo.
//!
//! Made by tools/asn1 from enveloped.asn1.

ghost use Rattle.std.proofs.Common.{lit<};
ghost use Rattle.std.specs.Prelude.{◌∷◌, []};
ghost use Rattle.der_enveloped.specs.Enveloped.KekRecipientInfo as fields_of;
ghost use Rattle.der_places.specs.Layout.{field, no_more};
ghost use Rattle.der_places.specs.LayoutLaws.{first_of, is_encoding};
ghost use Rattle.der_tlv.specs.declared.encoding_rules.EncodingRules.TheVariants.{Der};
ghost use Rattle.der_tlv.specs.declared.tag.Tag.TheVariants as tags;

use crate::place::Place;
use crate::placed::Placed;
use crate::walk::next_place;
use der_cms::cms::CmsVersion;
use der_elem::Form;
use der_enveloped::enveloped::{KekIdentifier, KekRecipientInfo};
use der_opaque::OctetStringRef;
use der_pkix::AlgorithmIdentifier;

/// Byte ranges of the fields of a `KEKRecipientInfo`.
#[repr(C)]
#[derive(Clone, Copy, Debug, PartialEq, Eq)]
pub struct KekRecipientInfoPlaces {
    /// `version`, `CMSVersion`.
    pub version: Place,
    /// `kekid`, `KEKIdentifier`.
    pub kekid: Place,
    /// `keyEncryptionAlgorithm`, `AlgorithmIdentifier`.
    pub key_encryption_algorithm: Place,
    /// `encryptedKey`, `OCTET STRING`.
    pub encrypted_key: Place,
}

impl<'a> Placed for KekRecipientInfo<'a> {
    type Places = KekRecipientInfoPlaces;

    ghost listed = { λ p. p.version ∷ p.kekid ∷ p.key_encryption_algorithm ∷ p.encrypted_key ∷ [] };

    ghost layout = { λ v.
        field (⟦<CmsVersion as Form>⟧.accepts Der (fields_of.version v))
        (field (⟦<KekIdentifier<'a> as Form>⟧.accepts Der (fields_of.kekid v))
        (field (⟦<AlgorithmIdentifier<'a> as Form>⟧.accepts Der (fields_of.key_encryption_algorithm v))
        (field (⟦<OctetStringRef<'a> as Form>⟧.accepts Der (fields_of.encrypted_key v))
        no_more))) };

    fn walk(&self, octets: &[u8], start: Place) -> KekRecipientInfoPlaces {
        let version = next_place(octets, start, true);
        let kekid = next_place(octets, version, true);
        let key_encryption_algorithm = next_place(octets, kekid, true);
        let encrypted_key = next_place(octets, key_encryption_algorithm, true);
        KekRecipientInfoPlaces {
            version,
            kekid,
            key_encryption_algorithm,
            encrypted_key,
        }
    }

    ghost are_fields = { λ v c a.
        let field1 = a in
        let field2 = field1.rest in
        let field3 = field2.rest in
        let field4 = field3.rest in
        (first_of field1 (is_encoding tags.Integer (lit< tt) field1.front field1.first.0 field1.first.1, field1.first)
        (first_of field2 (is_encoding tags.Sequence (lit< tt) field2.front field2.first.0 field2.first.1, field2.first)
        (first_of field3 (is_encoding tags.Sequence (lit< tt) field3.front field3.first.0 field3.first.1, field3.first)
        (first_of field4 (is_encoding tags.OctetString (lit< tt) field4.front field4.first.0 field4.first.1, field4.first)
        field4.rest)))) };
}
