//! The fields of a KeyTransRecipientInfo.
//!
//! Made by tools/asn1 from enveloped.asn1.

ghost use Rattle.std.proofs.Common.{false, lit<};
ghost use Rattle.std.specs.Prelude.{◌∷◌, List, [], ℕ};
ghost use Rattle.der_cms.specs.declared.cms.signer_identifier.SignerIdentifier.{SignerIdentifier};
ghost use Rattle.der_cms.specs.declared.cms.signer_identifier.SignerIdentifier.TheVariants as signer_identifier_of;
ghost use Rattle.der_enveloped.specs.Enveloped.KeyTransRecipientInfo as fields_of;
ghost use Rattle.der_fields.specs.MarkerTags.{marker_tag, marker_tag-in_range};
ghost use Rattle.der_places.specs.Layout.{field, no_more};
ghost use Rattle.der_places.specs.LayoutLaws.{first_of, is_encoding};
ghost use Rattle.der_places.specs.Walking.{IsEncoding};
ghost use Rattle.der_tlv.specs.declared.encoding_rules.EncodingRules.TheVariants.{Der};
ghost use Rattle.der_tlv.specs.declared.tag.Tag.TheVariants as tags;

use crate::place::Place;
use crate::placed::Placed;
use crate::walk::next_place;
use der_cms::cms::{CmsVersion, SignerIdentifier};
use der_elem::Form;
use der_enveloped::enveloped::{KeyTransRecipientInfo, RecipientIdentifier};
use der_opaque::OctetStringRef;
use der_pkix::AlgorithmIdentifier;

/// Byte ranges of the fields of a `KeyTransRecipientInfo`.
#[repr(C)]
#[derive(Clone, Copy, Debug, PartialEq, Eq)]
pub struct KeyTransRecipientInfoPlaces {
    /// `version`, `CMSVersion`.
    pub version: Place,
    /// `rid`, `RecipientIdentifier`.
    pub rid: Place,
    /// `keyEncryptionAlgorithm`, `AlgorithmIdentifier`.
    pub key_encryption_algorithm: Place,
    /// `encryptedKey`, `OCTET STRING`.
    pub encrypted_key: Place,
}

impl<'a> Placed for KeyTransRecipientInfo<'a> {
    type Places = KeyTransRecipientInfoPlaces;

    ghost listed = { λ p. p.version ∷ p.rid ∷ p.key_encryption_algorithm ∷ p.encrypted_key ∷ [] };

    ghost layout = { λ v.
        field (⟦<CmsVersion as Form>⟧.accepts Der (fields_of.version v))
        (field (⟦<RecipientIdentifier<'a> as Form>⟧.accepts Der (fields_of.rid v))
        (field (⟦<AlgorithmIdentifier<'a> as Form>⟧.accepts Der (fields_of.key_encryption_algorithm v))
        (field (⟦<OctetStringRef<'a> as Form>⟧.accepts Der (fields_of.encrypted_key v))
        no_more))) };

    fn walk(&self, octets: &[u8], start: Place) -> KeyTransRecipientInfoPlaces {
        let version = next_place(octets, start, true);
        let rid = next_place(octets, version, true);
        let key_encryption_algorithm = next_place(octets, rid, true);
        let encrypted_key = next_place(octets, key_encryption_algorithm, true);
        KeyTransRecipientInfoPlaces {
            version,
            rid,
            key_encryption_algorithm,
            encrypted_key,
        }
    }

    ghost are_fields = { λ v c a.
        let is_signer_identifier : (t : SignerIdentifier) (o : List ℕ) → ⟦<SignerIdentifier<'a> as Form>⟧.accepts Der t o → IsEncoding o = λ t. elim t as (λ k. (o : List ℕ) → ⟦<SignerIdentifier<'a> as Form>⟧.accepts Der k o → IsEncoding o) [ signer_identifier_of.IssuerAndSerialNumber x ↦ λ o b. is_encoding tags.Sequence (lit< tt) o b.0.0 b.0.1 | signer_identifier_of.SubjectKeyIdentifier x ↦ λ o b. is_encoding (marker_tag 2 false 0) (marker_tag-in_range 2 false 0) o b.0.0 b.0.1 ] in
        let field1 = a in
        let field2 = field1.rest in
        let field3 = field2.rest in
        let field4 = field3.rest in
        (first_of field1 (is_encoding tags.Integer (lit< tt) field1.front field1.first.0 field1.first.1, field1.first)
        (first_of field2 (is_signer_identifier _ field2.front field2.first, field2.first)
        (first_of field3 (is_encoding tags.Sequence (lit< tt) field3.front field3.first.0 field3.first.1, field3.first)
        (first_of field4 (is_encoding tags.OctetString (lit< tt) field4.front field4.first.0 field4.first.1, field4.first)
        field4.rest)))) };
}
