//! The fields of a KeyAgreeRecipientInfo.
//!
//! Made by tools/asn1 from enveloped.asn1.

ghost use Rattle.std.proofs.Common.{lit<, true};
ghost use Rattle.std.specs.Prelude.{◌∷◌, []};
ghost use Rattle.der_enveloped.specs.Enveloped.KeyAgreeRecipientInfo as fields_of;
ghost use Rattle.der_fields.specs.MarkerTags.{marker_tag, marker_tag-in_range};
ghost use Rattle.der_places.specs.Layout.{explicit, field, no_more, optional};
ghost use Rattle.der_places.specs.LayoutLaws.{first_of, is_encoding, maybe};
ghost use Rattle.der_tlv.specs.declared.encoding_rules.EncodingRules.TheVariants.{Der};
ghost use Rattle.der_tlv.specs.declared.tag.Tag.TheVariants as tags;

use crate::place::Place;
use crate::placed::Placed;
use crate::presence::is_there;
use crate::walk::next_place;
use der_cms::cms::CmsVersion;
use der_elem::Form;
use der_enveloped::enveloped::{
    KeyAgreeRecipientInfo, OriginatorIdentifierOrKey, RecipientEncryptedKeys, UserKeyingMaterial,
};
use der_fields::Explicit;
use der_pkix::AlgorithmIdentifier;

/// Byte ranges of the fields of a `KeyAgreeRecipientInfo`.
#[repr(C)]
#[derive(Clone, Copy, Debug, PartialEq, Eq)]
pub struct KeyAgreeRecipientInfoPlaces {
    /// `version`, `CMSVersion`.
    pub version: Place,
    /// `originator`, `[0] EXPLICIT OriginatorIdentifierOrKey`.
    pub originator: Place,
    /// `ukm`, `[1] EXPLICIT UserKeyingMaterial OPTIONAL`; empty if it is absent.
    pub ukm: Place,
    /// `keyEncryptionAlgorithm`, `AlgorithmIdentifier`.
    pub key_encryption_algorithm: Place,
    /// `recipientEncryptedKeys`, `RecipientEncryptedKeys`.
    pub recipient_encrypted_keys: Place,
}

impl<'a> Placed for KeyAgreeRecipientInfo<'a> {
    type Places = KeyAgreeRecipientInfoPlaces;

    ghost listed = { λ p. p.version ∷ p.originator ∷ p.ukm ∷ p.key_encryption_algorithm ∷ p.recipient_encrypted_keys ∷ [] };

    ghost layout = { λ v.
        field (⟦<CmsVersion as Form>⟧.accepts Der (fields_of.version v))
        (field (⟦<Explicit<OriginatorIdentifierOrKey<'a>, 0> as Form>⟧.accepts Der (explicit (fields_of.originator v)))
        (optional (λ x. ⟦<Explicit<UserKeyingMaterial<'a>, 1> as Form>⟧.accepts Der (explicit x)) (fields_of.ukm v)
        (field (⟦<AlgorithmIdentifier<'a> as Form>⟧.accepts Der (fields_of.key_encryption_algorithm v))
        (field (⟦<RecipientEncryptedKeys<'a> as Form>⟧.accepts Der (fields_of.recipient_encrypted_keys v))
        no_more)))) };

    fn walk(&self, octets: &[u8], start: Place) -> KeyAgreeRecipientInfoPlaces {
        let version = next_place(octets, start, true);
        let originator = next_place(octets, version, true);
        let ukm = next_place(octets, originator, is_there(self.ukm()));
        let key_encryption_algorithm = next_place(octets, ukm, true);
        let recipient_encrypted_keys = next_place(octets, key_encryption_algorithm, true);
        KeyAgreeRecipientInfoPlaces {
            version,
            originator,
            ukm,
            key_encryption_algorithm,
            recipient_encrypted_keys,
        }
    }

    ghost are_fields = { λ v c a.
        let field1 = a in
        let field2 = field1.rest in
        let field3 = field2.rest in
        let field4 = field3.rest in
        let field5 = field4.rest in
        (first_of field1 (is_encoding tags.Integer (lit< tt) field1.front field1.first.0 field1.first.1, field1.first)
        (first_of field2 (is_encoding (marker_tag 2 true 0) (marker_tag-in_range 2 true 0) field2.front field2.first.0 field2.first.1, field2.first)
        (first_of field3 (maybe (λ x. x.fields.first) (⟦<Explicit<UserKeyingMaterial<'a>, 1> as Form>⟧.accepts Der) (λ x. ⟦<Explicit<UserKeyingMaterial<'a>, 1> as Form>⟧.accepts Der (explicit x)) (λ x o b. (is_encoding (marker_tag 2 true 1) (marker_tag-in_range 2 true 1) o b.0 b.1, b)) v.fields.list.rest.rest.first field3.front field3.first)
        (first_of field4 (is_encoding tags.Sequence (lit< tt) field4.front field4.first.0 field4.first.1, field4.first)
        (first_of field5 (is_encoding tags.Sequence (lit< tt) field5.front field5.first.0 field5.first.1, field5.first)
        field5.rest))))) };
}
