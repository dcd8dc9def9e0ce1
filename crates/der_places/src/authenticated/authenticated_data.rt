//! The fields of an AuthenticatedData.
//!
//! Made by tools/asn1 from authenticated.asn1.

ghost use Rattle.std.proofs.Common.{lit<, true};
ghost use Rattle.std.specs.Prelude.{◌∷◌, []};
ghost use Rattle.der_enveloped.specs.Authenticated.AuthenticatedData as fields_of;
ghost use Rattle.der_fields.specs.MarkerTags.{marker_tag, marker_tag-in_range};
ghost use Rattle.der_places.specs.Layout.{field, implicit, no_more, optional};
ghost use Rattle.der_places.specs.LayoutLaws.{first_of, is_encoding, maybe};
ghost use Rattle.der_tlv.specs.declared.encoding_rules.EncodingRules.TheVariants.{Der};
ghost use Rattle.der_tlv.specs.declared.tag.Tag.TheVariants as tags;

use crate::place::Place;
use crate::placed::Placed;
use crate::presence::is_there;
use crate::walk::next_place;
use der_cms::cms::{CmsVersion, EncapsulatedContentInfo};
use der_elem::Form;
use der_enveloped::authenticated::{AuthAttributes, AuthenticatedData, UnauthAttributes};
use der_enveloped::enveloped::{OriginatorInfo, RecipientInfos};
use der_fields::Implicit;
use der_opaque::OctetStringRef;
use der_pkix::AlgorithmIdentifier;

/// Byte ranges of the fields of an `AuthenticatedData`.
#[repr(C)]
#[derive(Clone, Copy, Debug, PartialEq, Eq)]
pub struct AuthenticatedDataPlaces {
    /// `version`, `CMSVersion`.
    pub version: Place,
    /// `originatorInfo`, `[0] IMPLICIT OriginatorInfo OPTIONAL`; empty if it is absent.
    pub originator_info: Place,
    /// `recipientInfos`, `RecipientInfos`.
    pub recipient_infos: Place,
    /// `macAlgorithm`, `AlgorithmIdentifier`.
    pub mac_algorithm: Place,
    /// `digestAlgorithm`, `[1] AlgorithmIdentifier OPTIONAL`; empty if it is absent.
    pub digest_algorithm: Place,
    /// `encapContentInfo`, `EncapsulatedContentInfo`.
    pub encap_content_info: Place,
    /// `authAttrs`, `[2] IMPLICIT AuthAttributes OPTIONAL`; empty if it is absent.
    pub auth_attrs: Place,
    /// `mac`, `OCTET STRING`.
    pub mac: Place,
    /// `unauthAttrs`, `[3] IMPLICIT UnauthAttributes OPTIONAL`; empty if it is absent.
    pub unauth_attrs: Place,
}

impl<'a> Placed for AuthenticatedData<'a> {
    type Places = AuthenticatedDataPlaces;

    ghost listed = { λ p. p.version ∷ p.originator_info ∷ p.recipient_infos ∷ p.mac_algorithm ∷ p.digest_algorithm ∷ p.encap_content_info ∷ p.auth_attrs ∷ p.mac ∷ p.unauth_attrs ∷ [] };

    ghost layout = { λ v.
        field (⟦<CmsVersion as Form>⟧.accepts Der (fields_of.version v))
        (optional (λ x. ⟦<Implicit<OriginatorInfo<'a>, 0> as Form>⟧.accepts Der (implicit x)) (fields_of.originator_info v)
        (field (⟦<RecipientInfos<'a> as Form>⟧.accepts Der (fields_of.recipient_infos v))
        (field (⟦<AlgorithmIdentifier<'a> as Form>⟧.accepts Der (fields_of.mac_algorithm v))
        (optional (λ x. ⟦<Implicit<AlgorithmIdentifier<'a>, 1> as Form>⟧.accepts Der (implicit x)) (fields_of.digest_algorithm v)
        (field (⟦<EncapsulatedContentInfo<'a> as Form>⟧.accepts Der (fields_of.encap_content_info v))
        (optional (λ x. ⟦<Implicit<AuthAttributes<'a>, 2> as Form>⟧.accepts Der (implicit x)) (fields_of.auth_attrs v)
        (field (⟦<OctetStringRef<'a> as Form>⟧.accepts Der (fields_of.mac v))
        (optional (λ x. ⟦<Implicit<UnauthAttributes<'a>, 3> as Form>⟧.accepts Der (implicit x)) (fields_of.unauth_attrs v)
        no_more)))))))) };

    fn walk(&self, octets: &[u8], start: Place) -> AuthenticatedDataPlaces {
        let version = next_place(octets, start, true);
        let originator_info = next_place(octets, version, is_there(self.originator_info()));
        let recipient_infos = next_place(octets, originator_info, true);
        let mac_algorithm = next_place(octets, recipient_infos, true);
        let digest_algorithm = next_place(octets, mac_algorithm, is_there(self.digest_algorithm()));
        let encap_content_info = next_place(octets, digest_algorithm, true);
        let auth_attrs = next_place(octets, encap_content_info, is_there(self.auth_attrs()));
        let mac = next_place(octets, auth_attrs, true);
        let unauth_attrs = next_place(octets, mac, is_there(self.unauth_attrs()));
        AuthenticatedDataPlaces {
            version,
            originator_info,
            recipient_infos,
            mac_algorithm,
            digest_algorithm,
            encap_content_info,
            auth_attrs,
            mac,
            unauth_attrs,
        }
    }

    ghost are_fields = { λ v c a.
        let field1 = a in
        let field2 = field1.rest in
        let field3 = field2.rest in
        let field4 = field3.rest in
        let field5 = field4.rest in
        let field6 = field5.rest in
        let field7 = field6.rest in
        let field8 = field7.rest in
        let field9 = field8.rest in
        (first_of field1 (is_encoding tags.Integer (lit< tt) field1.front field1.first.0 field1.first.1, field1.first)
        (first_of field2 (maybe (λ x. x.value) (⟦<Implicit<OriginatorInfo<'a>, 0> as Form>⟧.accepts Der) (λ x. ⟦<Implicit<OriginatorInfo<'a>, 0> as Form>⟧.accepts Der (implicit x)) (λ x o b. (is_encoding (marker_tag 2 true 0) (marker_tag-in_range 2 true 0) o b.0 b.1, b)) v.fields.list.rest.first field2.front field2.first)
        (first_of field3 (is_encoding tags.Set (lit< tt) field3.front field3.first.0 field3.first.1, field3.first)
        (first_of field4 (is_encoding tags.Sequence (lit< tt) field4.front field4.first.0 field4.first.1, field4.first)
        (first_of field5 (maybe (λ x. x.value) (⟦<Implicit<AlgorithmIdentifier<'a>, 1> as Form>⟧.accepts Der) (λ x. ⟦<Implicit<AlgorithmIdentifier<'a>, 1> as Form>⟧.accepts Der (implicit x)) (λ x o b. (is_encoding (marker_tag 2 true 1) (marker_tag-in_range 2 true 1) o b.0 b.1, b)) v.fields.list.rest.rest.rest.rest.first field5.front field5.first)
        (first_of field6 (is_encoding tags.Sequence (lit< tt) field6.front field6.first.0 field6.first.1, field6.first)
        (first_of field7 (maybe (λ x. x.value) (⟦<Implicit<AuthAttributes<'a>, 2> as Form>⟧.accepts Der) (λ x. ⟦<Implicit<AuthAttributes<'a>, 2> as Form>⟧.accepts Der (implicit x)) (λ x o b. (is_encoding (marker_tag 2 true 2) (marker_tag-in_range 2 true 2) o b.0 b.1, b)) v.fields.list.rest.rest.rest.rest.rest.rest.first field7.front field7.first)
        (first_of field8 (is_encoding tags.OctetString (lit< tt) field8.front field8.first.0 field8.first.1, field8.first)
        (first_of field9 (maybe (λ x. x.value) (⟦<Implicit<UnauthAttributes<'a>, 3> as Form>⟧.accepts Der) (λ x. ⟦<Implicit<UnauthAttributes<'a>, 3> as Form>⟧.accepts Der (implicit x)) (λ x o b. (is_encoding (marker_tag 2 true 3) (marker_tag-in_range 2 true 3) o b.0 b.1, b)) v.fields.list.rest.rest.rest.rest.rest.rest.rest.rest.list.first field9.front field9.first)
        field9.rest))))))))) };
}
