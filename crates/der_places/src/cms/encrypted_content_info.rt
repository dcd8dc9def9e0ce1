//! The fields of an EncryptedContentInfo.
//!
//! Made by tools/asn1 from cms.asn1.

ghost use Rattle.std.proofs.Common.{false, lit<};
ghost use Rattle.std.specs.Prelude.{◌∷◌, []};
ghost use Rattle.der_cms.specs.Cms.EncryptedContentInfo as fields_of;
ghost use Rattle.der_fields.specs.MarkerTags.{marker_tag, marker_tag-in_range};
ghost use Rattle.der_places.specs.Layout.{field, implicit, no_more, optional};
ghost use Rattle.der_places.specs.LayoutLaws.{first_of, is_encoding, maybe};
ghost use Rattle.der_tlv.specs.declared.encoding_rules.EncodingRules.TheVariants.{Der};
ghost use Rattle.der_tlv.specs.declared.tag.Tag.TheVariants as tags;

use crate::place::Place;
use crate::placed::Placed;
use crate::presence::is_there;
use crate::walk::next_place;
use der_cms::cms::{ContentType, EncryptedContentInfo};
use der_elem::Form;
use der_fields::Implicit;
use der_opaque::OctetStringRef;
use der_pkix::AlgorithmIdentifier;

/// Byte ranges of the fields of an `EncryptedContentInfo`.
#[repr(C)]
#[derive(Clone, Copy, Debug, PartialEq, Eq)]
pub struct EncryptedContentInfoPlaces {
    /// `contentType`, `ContentType`.
    pub content_type: Place,
    /// `contentEncryptionAlgorithm`, `AlgorithmIdentifier`.
    pub content_encryption_algorithm: Place,
    /// `encryptedContent`, `[0] IMPLICIT OCTET STRING OPTIONAL`; empty if it is absent.
    pub encrypted_content: Place,
}

impl<'a> Placed for EncryptedContentInfo<'a> {
    type Places = EncryptedContentInfoPlaces;

    ghost listed = { λ p. p.content_type ∷ p.content_encryption_algorithm ∷ p.encrypted_content ∷ [] };

    ghost layout = { λ v.
        field (⟦<ContentType<'a> as Form>⟧.accepts Der (fields_of.content_type v))
        (field (⟦<AlgorithmIdentifier<'a> as Form>⟧.accepts Der (fields_of.content_encryption_algorithm v))
        (optional (λ x. ⟦<Implicit<OctetStringRef<'a>, 0> as Form>⟧.accepts Der (implicit x)) (fields_of.encrypted_content v)
        no_more)) };

    fn walk(&self, octets: &[u8], start: Place) -> EncryptedContentInfoPlaces {
        let content_type = next_place(octets, start, true);
        let content_encryption_algorithm = next_place(octets, content_type, true);
        let encrypted_content = next_place(
            octets,
            content_encryption_algorithm,
            is_there(self.encrypted_content()),
        );
        EncryptedContentInfoPlaces {
            content_type,
            content_encryption_algorithm,
            encrypted_content,
        }
    }

    ghost are_fields = { λ v c a.
        let field1 = a in
        let field2 = field1.rest in
        let field3 = field2.rest in
        (first_of field1 (is_encoding tags.ObjectIdentifier (lit< tt) field1.front field1.first.0 field1.first.1, field1.first)
        (first_of field2 (is_encoding tags.Sequence (lit< tt) field2.front field2.first.0 field2.first.1, field2.first)
        (first_of field3 (maybe (λ x. x.value) (⟦<Implicit<OctetStringRef<'a>, 0> as Form>⟧.accepts Der) (λ x. ⟦<Implicit<OctetStringRef<'a>, 0> as Form>⟧.accepts Der (implicit x)) (λ x o b. (is_encoding (marker_tag 2 false 0) (marker_tag-in_range 2 false 0) o b.0 b.1, b)) v.fields.list.rest.rest.first field3.front field3.first)
        field3.rest))) };
}
