//! The fields of an EnvelopedData.
//!
//! Made by tools/asn1 from enveloped.asn1.

ghost use Rattle.std.proofs.Common.{lit<, true};
ghost use Rattle.std.specs.Prelude.{◌∷◌, []};
ghost use Rattle.der_enveloped.specs.Enveloped.EnvelopedData as fields_of;
ghost use Rattle.der_fields.specs.MarkerTags.{marker_tag, marker_tag-in_range};
ghost use Rattle.der_places.specs.Layout.{field, implicit, no_more, optional};
ghost use Rattle.der_places.specs.LayoutLaws.{first_of, is_encoding, maybe};
ghost use Rattle.der_tlv.specs.declared.encoding_rules.EncodingRules.TheVariants.{Der};
ghost use Rattle.der_tlv.specs.declared.tag.Tag.TheVariants as tags;

use crate::place::Place;
use crate::placed::Placed;
use crate::presence::is_there;
use crate::walk::next_place;
use der_cms::cms::{CmsVersion, EncryptedContentInfo, UnprotectedAttributes};
use der_elem::Form;
use der_enveloped::enveloped::{EnvelopedData, OriginatorInfo, RecipientInfos};
use der_fields::Implicit;

/// Byte ranges of the fields of an `EnvelopedData`.
#[repr(C)]
#[derive(Clone, Copy, Debug, PartialEq, Eq)]
pub struct EnvelopedDataPlaces {
    /// `version`, `CMSVersion`.
    pub version: Place,
    /// `originatorInfo`, `[0] IMPLICIT OriginatorInfo OPTIONAL`; empty if it is absent.
    pub originator_info: Place,
    /// `recipientInfos`, `RecipientInfos`.
    pub recipient_infos: Place,
    /// `encryptedContentInfo`, `EncryptedContentInfo`.
    pub encrypted_content_info: Place,
    /// `unprotectedAttrs`, `[1] IMPLICIT UnprotectedAttributes OPTIONAL`; empty if it is absent.
    pub unprotected_attrs: Place,
}

impl<'a> Placed for EnvelopedData<'a> {
    type Places = EnvelopedDataPlaces;

    ghost listed = { λ p. p.version ∷ p.originator_info ∷ p.recipient_infos ∷ p.encrypted_content_info ∷ p.unprotected_attrs ∷ [] };

    ghost layout = { λ v.
        field (⟦<CmsVersion as Form>⟧.accepts Der (fields_of.version v))
        (optional (λ x. ⟦<Implicit<OriginatorInfo<'a>, 0> as Form>⟧.accepts Der (implicit x)) (fields_of.originator_info v)
        (field (⟦<RecipientInfos<'a> as Form>⟧.accepts Der (fields_of.recipient_infos v))
        (field (⟦<EncryptedContentInfo<'a> as Form>⟧.accepts Der (fields_of.encrypted_content_info v))
        (optional (λ x. ⟦<Implicit<UnprotectedAttributes<'a>, 1> as Form>⟧.accepts Der (implicit x)) (fields_of.unprotected_attrs v)
        no_more)))) };

    fn walk(&self, octets: &[u8], start: Place) -> EnvelopedDataPlaces {
        let version = next_place(octets, start, true);
        let originator_info = next_place(octets, version, is_there(self.originator_info()));
        let recipient_infos = next_place(octets, originator_info, true);
        let encrypted_content_info = next_place(octets, recipient_infos, true);
        let unprotected_attrs = next_place(
            octets,
            encrypted_content_info,
            is_there(self.unprotected_attrs()),
        );
        EnvelopedDataPlaces {
            version,
            originator_info,
            recipient_infos,
            encrypted_content_info,
            unprotected_attrs,
        }
    }

    ghost are_fields = { λ v c a.
        let field1 = a in
        let field2 = field1.rest in
        let field3 = field2.rest in
        let field4 = field3.rest in
        let field5 = field4.rest in
        (first_of field1 (is_encoding tags.Integer (lit< tt) field1.front field1.first.0 field1.first.1, field1.first)
        (first_of field2 (maybe (λ x. x.value) (⟦<Implicit<OriginatorInfo<'a>, 0> as Form>⟧.accepts Der) (λ x. ⟦<Implicit<OriginatorInfo<'a>, 0> as Form>⟧.accepts Der (implicit x)) (λ x o b. (is_encoding (marker_tag 2 true 0) (marker_tag-in_range 2 true 0) o b.0 b.1, b)) v.fields.list.rest.first field2.front field2.first)
        (first_of field3 (is_encoding tags.Set (lit< tt) field3.front field3.first.0 field3.first.1, field3.first)
        (first_of field4 (is_encoding tags.Sequence (lit< tt) field4.front field4.first.0 field4.first.1, field4.first)
        (first_of field5 (maybe (λ x. x.value) (⟦<Implicit<UnprotectedAttributes<'a>, 1> as Form>⟧.accepts Der) (λ x. ⟦<Implicit<UnprotectedAttributes<'a>, 1> as Form>⟧.accepts Der (implicit x)) (λ x o b. (is_encoding (marker_tag 2 true 1) (marker_tag-in_range 2 true 1) o b.0 b.1, b)) v.fields.list.rest.rest.rest.rest.first field5.front field5.first)
        field5.rest))))) };
}
