//! The fields of a SignedData.
//!
//! Made by tools/asn1 from cms.asn1.

ghost use Rattle.std.proofs.Common.{lit<, true};
ghost use Rattle.std.specs.Prelude.{◌∷◌, []};
ghost use Rattle.der_cms.specs.Cms.SignedData as fields_of;
ghost use Rattle.der_fields.specs.MarkerTags.{marker_tag, marker_tag-in_range};
ghost use Rattle.der_places.specs.Layout.{field, implicit, no_more, optional};
ghost use Rattle.der_places.specs.LayoutLaws.{first_of, is_encoding, maybe};
ghost use Rattle.der_tlv.specs.declared.encoding_rules.EncodingRules.TheVariants.{Der};
ghost use Rattle.der_tlv.specs.declared.tag.Tag.TheVariants as tags;

use crate::place::Place;
use crate::placed::Placed;
use crate::presence::is_there;
use crate::walk::next_place;
use der_cms::cms::{
    CertificateSet, CmsVersion, EncapsulatedContentInfo, RevocationInfoChoices, SignedData,
    SignerInfo,
};
use der_elem::Form;
use der_fields::Implicit;
use der_lists::UnorderedSetRef;
use der_pkix::AlgorithmIdentifier;

/// Byte ranges of the fields of a `SignedData`.
#[repr(C)]
#[derive(Clone, Copy, Debug, PartialEq, Eq)]
pub struct SignedDataPlaces {
    /// `version`, `CMSVersion`.
    pub version: Place,
    /// `digestAlgorithms`, `SET OF AlgorithmIdentifier`.
    pub digest_algorithms: Place,
    /// `encapContentInfo`, `EncapsulatedContentInfo`.
    pub encap_content_info: Place,
    /// `certificates`, `[0] IMPLICIT CertificateSet OPTIONAL`; empty if it is absent.
    pub certificates: Place,
    /// `crls`, `[1] IMPLICIT RevocationInfoChoices OPTIONAL`; empty if it is absent.
    pub crls: Place,
    /// `signerInfos`, `SET OF SignerInfo`.
    pub signer_infos: Place,
}

impl<'a> Placed for SignedData<'a> {
    type Places = SignedDataPlaces;

    ghost listed = { λ p. p.version ∷ p.digest_algorithms ∷ p.encap_content_info ∷ p.certificates ∷ p.crls ∷ p.signer_infos ∷ [] };

    ghost layout = { λ v.
        field (⟦<CmsVersion as Form>⟧.accepts Der (fields_of.version v))
        (field (⟦<UnorderedSetRef<'a, AlgorithmIdentifier<'a>> as Form>⟧.accepts Der (fields_of.digest_algorithms v))
        (field (⟦<EncapsulatedContentInfo<'a> as Form>⟧.accepts Der (fields_of.encap_content_info v))
        (optional (λ x. ⟦<Implicit<CertificateSet<'a>, 0> as Form>⟧.accepts Der (implicit x)) (fields_of.certificates v)
        (optional (λ x. ⟦<Implicit<RevocationInfoChoices<'a>, 1> as Form>⟧.accepts Der (implicit x)) (fields_of.crls v)
        (field (⟦<UnorderedSetRef<'a, SignerInfo<'a>> as Form>⟧.accepts Der (fields_of.signer_infos v))
        no_more))))) };

    fn walk(&self, octets: &[u8], start: Place) -> SignedDataPlaces {
        let version = next_place(octets, start, true);
        let digest_algorithms = next_place(octets, version, true);
        let encap_content_info = next_place(octets, digest_algorithms, true);
        let certificates = next_place(octets, encap_content_info, is_there(self.certificates()));
        let crls = next_place(octets, certificates, is_there(self.crls()));
        let signer_infos = next_place(octets, crls, true);
        SignedDataPlaces {
            version,
            digest_algorithms,
            encap_content_info,
            certificates,
            crls,
            signer_infos,
        }
    }

    ghost are_fields = { λ v c a.
        let field1 = a in
        let field2 = field1.rest in
        let field3 = field2.rest in
        let field4 = field3.rest in
        let field5 = field4.rest in
        let field6 = field5.rest in
        (first_of field1 (is_encoding tags.Integer (lit< tt) field1.front field1.first.0 field1.first.1, field1.first)
        (first_of field2 (is_encoding tags.Set (lit< tt) field2.front field2.first.0 field2.first.1, field2.first)
        (first_of field3 (is_encoding tags.Sequence (lit< tt) field3.front field3.first.0 field3.first.1, field3.first)
        (first_of field4 (maybe (λ x. x.value) (⟦<Implicit<CertificateSet<'a>, 0> as Form>⟧.accepts Der) (λ x. ⟦<Implicit<CertificateSet<'a>, 0> as Form>⟧.accepts Der (implicit x)) (λ x o b. (is_encoding (marker_tag 2 true 0) (marker_tag-in_range 2 true 0) o b.0 b.1, b)) v.fields.list.rest.rest.rest.first field4.front field4.first)
        (first_of field5 (maybe (λ x. x.value) (⟦<Implicit<RevocationInfoChoices<'a>, 1> as Form>⟧.accepts Der) (λ x. ⟦<Implicit<RevocationInfoChoices<'a>, 1> as Form>⟧.accepts Der (implicit x)) (λ x o b. (is_encoding (marker_tag 2 true 1) (marker_tag-in_range 2 true 1) o b.0 b.1, b)) v.fields.list.rest.rest.rest.rest.first field5.front field5.first)
        (first_of field6 (is_encoding tags.Set (lit< tt) field6.front field6.first.0 field6.first.1, field6.first)
        field6.rest)))))) };
}
