//! The fields of a PasswordRecipientInfo.
//!
//! Made by tools/asn1 from enveloped.asn1.

ghost use Rattle.std.proofs.Common.{lit<, true};
ghost use Rattle.std.specs.Prelude.{◌∷◌, []};
ghost use Rattle.der_enveloped.specs.Enveloped.PasswordRecipientInfo as fields_of;
ghost use Rattle.der_fields.specs.MarkerTags.{marker_tag, marker_tag-in_range};
ghost use Rattle.der_places.specs.Layout.{field, implicit, no_more, optional};
ghost use Rattle.der_places.specs.LayoutLaws.{first_of, is_encoding, maybe};
ghost use Rattle.der_tlv.specs.declared.encoding_rules.EncodingRules.TheVariants.{Der};
ghost use Rattle.der_tlv.specs.declared.tag.Tag.TheVariants as tags;

use crate::place::Place;
use crate::placed::Placed;
use crate::presence::is_there;
use crate::walk::next_place;
use der_cms::cms::CmsVersion;
use der_elem::Form;
use der_enveloped::enveloped::PasswordRecipientInfo;
use der_fields::Implicit;
use der_opaque::OctetStringRef;
use der_pkix::AlgorithmIdentifier;

/// Byte ranges of the fields of a `PasswordRecipientInfo`.
#[repr(C)]
#[derive(Clone, Copy, Debug, PartialEq, Eq)]
pub struct PasswordRecipientInfoPlaces {
    /// `version`, `CMSVersion`.
    pub version: Place,
    /// `keyDerivationAlgorithm`, `[0] AlgorithmIdentifier OPTIONAL`; empty if it is absent.
    pub key_derivation_algorithm: Place,
    /// `keyEncryptionAlgorithm`, `AlgorithmIdentifier`.
    pub key_encryption_algorithm: Place,
    /// `encryptedKey`, `OCTET STRING`.
    pub encrypted_key: Place,
}

impl<'a> Placed for PasswordRecipientInfo<'a> {
    type Places = PasswordRecipientInfoPlaces;

    ghost listed = { λ p. p.version ∷ p.key_derivation_algorithm ∷ p.key_encryption_algorithm ∷ p.encrypted_key ∷ [] };

    ghost layout = { λ v.
        field (⟦<CmsVersion as Form>⟧.accepts Der (fields_of.version v))
        (optional (λ x. ⟦<Implicit<AlgorithmIdentifier<'a>, 0> as Form>⟧.accepts Der (implicit x)) (fields_of.key_derivation_algorithm v)
        (field (⟦<AlgorithmIdentifier<'a> as Form>⟧.accepts Der (fields_of.key_encryption_algorithm v))
        (field (⟦<OctetStringRef<'a> as Form>⟧.accepts Der (fields_of.encrypted_key v))
        no_more))) };

    fn walk(&self, octets: &[u8], start: Place) -> PasswordRecipientInfoPlaces {
        let version = next_place(octets, start, true);
        let key_derivation_algorithm = next_place(
            octets,
            version,
            is_there(self.key_derivation_algorithm()),
        );
        let key_encryption_algorithm = next_place(octets, key_derivation_algorithm, true);
        let encrypted_key = next_place(octets, key_encryption_algorithm, true);
        PasswordRecipientInfoPlaces {
            version,
            key_derivation_algorithm,
            key_encryption_algorithm,
            encrypted_key,
        }
    }

    ghost are_fields = { λ v c a.
        let field1 = a in
        let field2 = field1.rest in
        let field3 = field2.rest in
        let field4 = field3.rest in
        (first_of field1 (is_encoding tags.Integer (lit< tt) field1.front field1.first.0 field1.first.1, field1.first)
        (first_of field2 (maybe (λ x. x.value) (⟦<Implicit<AlgorithmIdentifier<'a>, 0> as Form>⟧.accepts Der) (λ x. ⟦<Implicit<AlgorithmIdentifier<'a>, 0> as Form>⟧.accepts Der (implicit x)) (λ x o b. (is_encoding (marker_tag 2 true 0) (marker_tag-in_range 2 true 0) o b.0 b.1, b)) v.fields.list.rest.first field2.front field2.first)
        (first_of field3 (is_encoding tags.Sequence (lit< tt) field3.front field3.first.0 field3.first.1, field3.first)
        (first_of field4 (is_encoding tags.OctetString (lit< tt) field4.front field4.first.0 field4.first.1, field4.first)
        field4.rest)))) };
}
