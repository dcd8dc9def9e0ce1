//! The fields of an EncryptedData.
//!
//! Made by tools/asn1 from cms.asn1.

ghost use Rattle.std.proofs.Common.{lit<, true};
ghost use Rattle.std.specs.Prelude.{◌∷◌, []};
ghost use Rattle.der_cms.specs.Cms.EncryptedData as fields_of;
ghost use Rattle.der_fields.specs.MarkerTags.{marker_tag, marker_tag-in_range};
ghost use Rattle.der_places.specs.Layout.{field, implicit, no_more, optional};
ghost use Rattle.der_places.specs.LayoutLaws.{first_of, is_encoding, maybe};
ghost use Rattle.der_tlv.specs.declared.encoding_rules.EncodingRules.TheVariants.{Der};
ghost use Rattle.der_tlv.specs.declared.tag.Tag.TheVariants as tags;

use crate::place::Place;
use crate::placed::Placed;
use crate::presence::is_there;
use crate::walk::next_place;
use der_cms::cms::{CmsVersion, EncryptedContentInfo, EncryptedData, UnprotectedAttributes};
use der_elem::Form;
use der_fields::Implicit;

/// Byte ranges of the fields of an `EncryptedData`.
#[repr(C)]
#[derive(Clone, Copy, Debug, PartialEq, Eq)]
pub struct EncryptedDataPlaces {
    /// `version`, `CMSVersion`.
    pub version: Place,
    /// `encryptedContentInfo`, `EncryptedContentInfo`.
    pub encrypted_content_info: Place,
    /// `unprotectedAttrs`, `[1] IMPLICIT UnprotectedAttributes OPTIONAL`; empty if it is absent.
    pub unprotected_attrs: Place,
}

impl<'a> Placed for EncryptedData<'a> {
    type Places = EncryptedDataPlaces;

    ghost listed = { λ p. p.version ∷ p.encrypted_content_info ∷ p.unprotected_attrs ∷ [] };

    ghost layout = { λ v.
        field (⟦<CmsVersion as Form>⟧.accepts Der (fields_of.version v))
        (field (⟦<EncryptedContentInfo<'a> as Form>⟧.accepts Der (fields_of.encrypted_content_info v))
        (optional (λ x. ⟦<Implicit<UnprotectedAttributes<'a>, 1> as Form>⟧.accepts Der (implicit x)) (fields_of.unprotected_attrs v)
        no_more)) };

    fn walk(&self, octets: &[u8], start: Place) -> EncryptedDataPlaces {
        let version = next_place(octets, start, true);
        let encrypted_content_info = next_place(octets, version, true);
        let unprotected_attrs = next_place(
            octets,
            encrypted_content_info,
            is_there(self.unprotected_attrs()),
        );
        EncryptedDataPlaces {
            version,
            encrypted_content_info,
            unprotected_attrs,
        }
    }

    ghost are_fields = { λ v c a.
        let field1 = a in
        let field2 = field1.rest in
        let field3 = field2.rest in
        (first_of field1 (is_encoding tags.Integer (lit< tt) field1.front field1.first.0 field1.first.1, field1.first)
        (first_of field2 (is_encoding tags.Sequence (lit< tt) field2.front field2.first.0 field2.first.1, field2.first)
        (first_of field3 (maybe (λ x. x.value) (⟦<Implicit<UnprotectedAttributes<'a>, 1> as Form>⟧.accepts Der) (λ x. ⟦<Implicit<UnprotectedAttributes<'a>, 1> as Form>⟧.accepts Der (implicit x)) (λ x o b. (is_encoding (marker_tag 2 true 1) (marker_tag-in_range 2 true 1) o b.0 b.1, b)) v.fields.list.rest.rest.first field3.front field3.first)
        field3.rest))) };
}
