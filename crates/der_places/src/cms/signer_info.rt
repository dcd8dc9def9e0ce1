//! The fields of a SignerInfo.
//!
//! Made by tools/asn1 from cms.asn1.

ghost use Rattle.std.proofs.Common.{false, lit<, true};
ghost use Rattle.std.specs.Prelude.{◌∷◌, List, [], ℕ};
ghost use Rattle.der_cms.specs.Cms.SignerInfo as fields_of;
ghost use Rattle.der_cms.specs.declared.cms.signer_identifier.SignerIdentifier.{SignerIdentifier};
ghost use Rattle.der_cms.specs.declared.cms.signer_identifier.SignerIdentifier.TheVariants as signer_identifier_of;
ghost use Rattle.der_fields.specs.MarkerTags.{marker_tag, marker_tag-in_range};
ghost use Rattle.der_places.specs.Layout.{field, implicit, no_more, optional};
ghost use Rattle.der_places.specs.LayoutLaws.{first_of, is_encoding, maybe};
ghost use Rattle.der_places.specs.Walking.{IsEncoding};
ghost use Rattle.der_tlv.specs.declared.encoding_rules.EncodingRules.TheVariants.{Der};
ghost use Rattle.der_tlv.specs.declared.tag.Tag.TheVariants as tags;

use crate::place::Place;
use crate::placed::Placed;
use crate::presence::is_there;
use crate::walk::next_place;
use der_cms::cms::{
    CmsVersion, SignedAttributes, SignerIdentifier, SignerInfo, UnsignedAttributes,
};
use der_elem::Form;
use der_fields::Implicit;
use der_opaque::OctetStringRef;
use der_pkix::AlgorithmIdentifier;

/// Byte ranges of the fields of a `SignerInfo`.
#[repr(C)]
#[derive(Clone, Copy, Debug, PartialEq, Eq)]
pub struct SignerInfoPlaces {
    /// `version`, `CMSVersion`.
    pub version: Place,
    /// `sid`, `SignerIdentifier`.
    pub sid: Place,
    /// `digestAlgorithm`, `AlgorithmIdentifier`.
    pub digest_algorithm: Place,
    /// `signedAttrs`, `[0] IMPLICIT SignedAttributes OPTIONAL`; empty if it is absent.
    pub signed_attrs: Place,
    /// `signatureAlgorithm`, `AlgorithmIdentifier`.
    pub signature_algorithm: Place,
    /// `signature`, `OCTET STRING`.
    pub signature: Place,
    /// `unsignedAttrs`, `[1] IMPLICIT UnsignedAttributes OPTIONAL`; empty if it is absent.
    pub unsigned_attrs: Place,
}

impl<'a> Placed for SignerInfo<'a> {
    type Places = SignerInfoPlaces;

    ghost listed = { λ p. p.version ∷ p.sid ∷ p.digest_algorithm ∷ p.signed_attrs ∷ p.signature_algorithm ∷ p.signature ∷ p.unsigned_attrs ∷ [] };

    ghost layout = { λ v.
        field (⟦<CmsVersion as Form>⟧.accepts Der (fields_of.version v))
        (field (⟦<SignerIdentifier<'a> as Form>⟧.accepts Der (fields_of.sid v))
        (field (⟦<AlgorithmIdentifier<'a> as Form>⟧.accepts Der (fields_of.digest_algorithm v))
        (optional (λ x. ⟦<Implicit<SignedAttributes<'a>, 0> as Form>⟧.accepts Der (implicit x)) (fields_of.signed_attrs v)
        (field (⟦<AlgorithmIdentifier<'a> as Form>⟧.accepts Der (fields_of.signature_algorithm v))
        (field (⟦<OctetStringRef<'a> as Form>⟧.accepts Der (fields_of.signature v))
        (optional (λ x. ⟦<Implicit<UnsignedAttributes<'a>, 1> as Form>⟧.accepts Der (implicit x)) (fields_of.unsigned_attrs v)
        no_more)))))) };

    fn walk(&self, octets: &[u8], start: Place) -> SignerInfoPlaces {
        let version = next_place(octets, start, true);
        let sid = next_place(octets, version, true);
        let digest_algorithm = next_place(octets, sid, true);
        let signed_attrs = next_place(octets, digest_algorithm, is_there(self.signed_attrs()));
        let signature_algorithm = next_place(octets, signed_attrs, true);
        let signature = next_place(octets, signature_algorithm, true);
        let unsigned_attrs = next_place(octets, signature, is_there(self.unsigned_attrs()));
        SignerInfoPlaces {
            version,
            sid,
            digest_algorithm,
            signed_attrs,
            signature_algorithm,
            signature,
            unsigned_attrs,
        }
    }

    ghost are_fields = { λ v c a.
        let is_signer_identifier : (t : SignerIdentifier) (o : List ℕ) → ⟦<SignerIdentifier<'a> as Form>⟧.accepts Der t o → IsEncoding o = λ t. elim t as (λ k. (o : List ℕ) → ⟦<SignerIdentifier<'a> as Form>⟧.accepts Der k o → IsEncoding o) [ signer_identifier_of.IssuerAndSerialNumber x ↦ λ o b. is_encoding tags.Sequence (lit< tt) o b.0.0 b.0.1 | signer_identifier_of.SubjectKeyIdentifier x ↦ λ o b. is_encoding (marker_tag 2 false 0) (marker_tag-in_range 2 false 0) o b.0.0 b.0.1 ] in
        let field1 = a in
        let field2 = field1.rest in
        let field3 = field2.rest in
        let field4 = field3.rest in
        let field5 = field4.rest in
        let field6 = field5.rest in
        let field7 = field6.rest in
        (first_of field1 (is_encoding tags.Integer (lit< tt) field1.front field1.first.0 field1.first.1, field1.first)
        (first_of field2 (is_signer_identifier _ field2.front field2.first, field2.first)
        (first_of field3 (is_encoding tags.Sequence (lit< tt) field3.front field3.first.0 field3.first.1, field3.first)
        (first_of field4 (maybe (λ x. x.value) (⟦<Implicit<SignedAttributes<'a>, 0> as Form>⟧.accepts Der) (λ x. ⟦<Implicit<SignedAttributes<'a>, 0> as Form>⟧.accepts Der (implicit x)) (λ x o b. (is_encoding (marker_tag 2 true 0) (marker_tag-in_range 2 true 0) o b.0 b.1, b)) v.fields.list.rest.rest.rest.first field4.front field4.first)
        (first_of field5 (is_encoding tags.Sequence (lit< tt) field5.front field5.first.0 field5.first.1, field5.first)
        (first_of field6 (is_encoding tags.OctetString (lit< tt) field6.front field6.first.0 field6.first.1, field6.first)
        (first_of field7 (maybe (λ x. x.value) (⟦<Implicit<UnsignedAttributes<'a>, 1> as Form>⟧.accepts Der) (λ x. ⟦<Implicit<UnsignedAttributes<'a>, 1> as Form>⟧.accepts Der (implicit x)) (λ x o b. (is_encoding (marker_tag 2 true 1) (marker_tag-in_range 2 true 1) o b.0 b.1, b)) v.fields.list.rest.rest.rest.rest.rest.rest.first field7.front field7.first)
        field7.rest))))))) };
}
