//! The fields of a RecipientEncryptedKey.
//!
//! Made by tools/asn1 from enveloped.asn1.

ghost use Rattle.std.proofs.Common.{lit<, true};
ghost use Rattle.std.specs.Prelude.{◌∷◌, List, [], ℕ};
ghost use Rattle.der_enveloped.specs.Enveloped.RecipientEncryptedKey as fields_of;
ghost use Rattle.der_enveloped.specs.declared.enveloped.key_agree_recipient_identifier.KeyAgreeRecipientIdentifier.{KeyAgreeRecipientIdentifier};
ghost use Rattle.der_enveloped.specs.declared.enveloped.key_agree_recipient_identifier.KeyAgreeRecipientIdentifier.TheVariants as key_agree_recipient_identifier_of;
ghost use Rattle.der_fields.specs.MarkerTags.{marker_tag, marker_tag-in_range};
ghost use Rattle.der_places.specs.Layout.{field, no_more};
ghost use Rattle.der_places.specs.LayoutLaws.{first_of, is_encoding};
ghost use Rattle.der_places.specs.Walking.{IsEncoding};
ghost use Rattle.der_tlv.specs.declared.encoding_rules.EncodingRules.TheVariants.{Der};
ghost use Rattle.der_tlv.specs.declared.tag.Tag.TheVariants as tags;

use crate::place::Place;
use crate::placed::Placed;
use crate::walk::next_place;
use der_elem::Form;
use der_enveloped::enveloped::{KeyAgreeRecipientIdentifier, RecipientEncryptedKey};
use der_opaque::OctetStringRef;

/// Byte ranges of the fields of a `RecipientEncryptedKey`.
#[repr(C)]
#[derive(Clone, Copy, Debug, PartialEq, Eq)]
pub struct RecipientEncryptedKeyPlaces {
    /// `rid`, `KeyAgreeRecipientIdentifier`.
    pub rid: Place,
    /// `encryptedKey`, `OCTET STRING`.
    pub encrypted_key: Place,
}

impl<'a> Placed for RecipientEncryptedKey<'a> {
    type Places = RecipientEncryptedKeyPlaces;

    ghost listed = { λ p. p.rid ∷ p.encrypted_key ∷ [] };

    ghost layout = { λ v.
        field (⟦<KeyAgreeRecipientIdentifier<'a> as Form>⟧.accepts Der (fields_of.rid v))
        (field (⟦<OctetStringRef<'a> as Form>⟧.accepts Der (fields_of.encrypted_key v))
        no_more) };

    fn walk(&self, octets: &[u8], start: Place) -> RecipientEncryptedKeyPlaces {
        let rid = next_place(octets, start, true);
        let encrypted_key = next_place(octets, rid, true);
        RecipientEncryptedKeyPlaces { rid, encrypted_key }
    }

    ghost are_fields = { λ v c a.
        let is_key_agree_recipient_identifier : (t : KeyAgreeRecipientIdentifier) (o : List ℕ) → ⟦<KeyAgreeRecipientIdentifier<'a> as Form>⟧.accepts Der t o → IsEncoding o = λ t. elim t as (λ k. (o : List ℕ) → ⟦<KeyAgreeRecipientIdentifier<'a> as Form>⟧.accepts Der k o → IsEncoding o) [ key_agree_recipient_identifier_of.IssuerAndSerialNumber x ↦ λ o b. is_encoding tags.Sequence (lit< tt) o b.0.0 b.0.1 | key_agree_recipient_identifier_of.RKeyId x ↦ λ o b. is_encoding (marker_tag 2 true 0) (marker_tag-in_range 2 true 0) o b.0.0 b.0.1 ] in
        let field1 = a in
        let field2 = field1.rest in
        (first_of field1 (is_key_agree_recipient_identifier _ field1.front field1.first, field1.first)
        (first_of field2 (is_encoding tags.OctetString (lit< tt) field2.front field2.first.0 field2.first.1, field2.first)
        field2.rest)) };
}
