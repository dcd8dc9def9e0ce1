//! The fields of a DigestedData.
//!
//! Made by tools/asn1 from cms.asn1.

ghost use Rattle.std.proofs.Common.{lit<};
ghost use Rattle.std.specs.Prelude.{◌∷◌, []};
ghost use Rattle.der_cms.specs.Cms.DigestedData as fields_of;
ghost use Rattle.der_places.specs.Layout.{field, no_more};
ghost use Rattle.der_places.specs.LayoutLaws.{first_of, is_encoding};
ghost use Rattle.der_tlv.specs.declared.encoding_rules.EncodingRules.TheVariants.{Der};
ghost use Rattle.der_tlv.specs.declared.tag.Tag.TheVariants as tags;

use crate::place::Place;
use crate::placed::Placed;
use crate::walk::next_place;
use der_cms::cms::{CmsVersion, DigestedData, EncapsulatedContentInfo};
use der_elem::Form;
use der_opaque::OctetStringRef;
use der_pkix::AlgorithmIdentifier;

/// Byte ranges of the fields of a `DigestedData`.
#[repr(C)]
#[derive(Clone, Copy, Debug, PartialEq, Eq)]
pub struct DigestedDataPlaces {
    /// `version`, `CMSVersion`.
    pub version: Place,
    /// `digestAlgorithm`, `AlgorithmIdentifier`.
    pub digest_algorithm: Place,
    /// `encapContentInfo`, `EncapsulatedContentInfo`.
    pub encap_content_info: Place,
    /// `digest`, `OCTET STRING`.
    pub digest: Place,
}

impl<'a> Placed for DigestedData<'a> {
    type Places = DigestedDataPlaces;

    ghost listed = { λ p. p.version ∷ p.digest_algorithm ∷ p.encap_content_info ∷ p.digest ∷ [] };

    ghost layout = { λ v.
        field (⟦<CmsVersion as Form>⟧.accepts Der (fields_of.version v))
        (field (⟦<AlgorithmIdentifier<'a> as Form>⟧.accepts Der (fields_of.digest_algorithm v))
        (field (⟦<EncapsulatedContentInfo<'a> as Form>⟧.accepts Der (fields_of.encap_content_info v))
        (field (⟦<OctetStringRef<'a> as Form>⟧.accepts Der (fields_of.digest v))
        no_more))) };

    fn walk(&self, octets: &[u8], start: Place) -> DigestedDataPlaces {
        let version = next_place(octets, start, true);
        let digest_algorithm = next_place(octets, version, true);
        let encap_content_info = next_place(octets, digest_algorithm, true);
        let digest = next_place(octets, encap_content_info, true);
        DigestedDataPlaces {
            version,
            digest_algorithm,
            encap_content_info,
            digest,
        }
    }

    ghost are_fields = { λ v c a.
        let field1 = a in
        let field2 = field1.rest in
        let field3 = field2.rest in
        let field4 = field3.rest in
        (first_of field1 (is_encoding tags.Integer (lit< tt) field1.front field1.first.0 field1.first.1, field1.first)
        (first_of field2 (is_encoding tags.Sequence (lit< tt) field2.front field2.first.0 field2.first.1, field2.first)
        (first_of field3 (is_encoding tags.Sequence (lit< tt) field3.front field3.first.0 field3.first.1, field3.first)
        (first_of field4 (is_encoding tags.OctetString (lit< tt) field4.front field4.first.0 field4.first.1, field4.first)
        field4.rest)))) };
}
