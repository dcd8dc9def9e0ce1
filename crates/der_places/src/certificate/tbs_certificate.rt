//! The fields of a TBSCertificate.
//!
//! Made by tools/asn1 from certificate.asn1.

ghost use Rattle.std.proofs.Common.{false, lit<, true};
ghost use Rattle.std.specs.Prelude.{◌∷◌, []};
ghost use Rattle.der_fields.specs.Defaults.{is_default};
ghost use Rattle.der_fields.specs.MarkerTags.{marker_tag, marker_tag-in_range};
ghost use Rattle.der_pkix.specs.Certificate.TbsCertificate as fields_of;
ghost use Rattle.der_places.specs.Layout.{explicit, field, implicit, no_more, optional, unless};
ghost use Rattle.der_places.specs.LayoutLaws.{besides, first_of, is_encoding, maybe};
ghost use Rattle.der_tlv.specs.declared.encoding_rules.EncodingRules.TheVariants.{Der};
ghost use Rattle.der_tlv.specs.declared.tag.Tag.TheVariants as tags;

use crate::place::Place;
use crate::placed::Placed;
use crate::presence::is_there;
use crate::walk::next_place;
use der_elem::Form;
use der_fields::{DefaultNumber, DefaultOf, Explicit, Implicit};
use der_modules::tagged;
use der_pkix::AlgorithmIdentifier;
use der_pkix::certificate::{
    CertificateSerialNumber, Extensions, SubjectPublicKeyInfo, TbsCertificate, UniqueIdentifier,
    Validity, Version,
};
use der_pkix::name::Name;

/// Byte ranges of the fields of a `TBSCertificate`.
#[repr(C)]
#[derive(Clone, Copy, Debug, PartialEq, Eq)]
pub struct TbsCertificatePlaces {
    /// `version`, `[0] Version DEFAULT v1`; empty if it has its default.
    pub version: Place,
    /// `serialNumber`, `CertificateSerialNumber`.
    pub serial_number: Place,
    /// `signature`, `AlgorithmIdentifier`.
    pub signature: Place,
    /// `issuer`, `Name`.
    pub issuer: Place,
    /// `validity`, `Validity`.
    pub validity: Place,
    /// `subject`, `Name`.
    pub subject: Place,
    /// `subjectPublicKeyInfo`, `SubjectPublicKeyInfo`.
    pub subject_public_key_info: Place,
    /// `issuerUniqueID`, `[1] IMPLICIT UniqueIdentifier OPTIONAL`; empty if it is absent.
    pub issuer_unique_id: Place,
    /// `subjectUniqueID`, `[2] IMPLICIT UniqueIdentifier OPTIONAL`; empty if it is absent.
    pub subject_unique_id: Place,
    /// `extensions`, `[3] Extensions OPTIONAL`; empty if it is absent.
    pub extensions: Place,
}

impl<'a> Placed for TbsCertificate<'a> {
    type Places = TbsCertificatePlaces;

    ghost listed = { λ p. p.version ∷ p.serial_number ∷ p.signature ∷ p.issuer ∷ p.validity ∷ p.subject ∷ p.subject_public_key_info ∷ p.issuer_unique_id ∷ p.subject_unique_id ∷ p.extensions ∷ [] };

    ghost layout = { λ v.
        unless (is_default ⟦<DefaultNumber<0> as DefaultOf<Explicit<Version, 0>>>⟧.octets (⟦<Explicit<Version, 0> as Form>⟧.encoding (explicit (fields_of.version v)))) (⟦<Explicit<Version, 0> as Form>⟧.accepts Der (explicit (fields_of.version v)))
        (field (⟦<CertificateSerialNumber<'a> as Form>⟧.accepts Der (fields_of.serial_number v))
        (field (⟦<AlgorithmIdentifier<'a> as Form>⟧.accepts Der (fields_of.signature v))
        (field (⟦<Name<'a> as Form>⟧.accepts Der (fields_of.issuer v))
        (field (⟦<Validity as Form>⟧.accepts Der (fields_of.validity v))
        (field (⟦<Name<'a> as Form>⟧.accepts Der (fields_of.subject v))
        (field (⟦<SubjectPublicKeyInfo<'a> as Form>⟧.accepts Der (fields_of.subject_public_key_info v))
        (optional (λ x. ⟦<Implicit<UniqueIdentifier<'a>, 1> as Form>⟧.accepts Der (implicit x)) (fields_of.issuer_unique_id v)
        (optional (λ x. ⟦<Implicit<UniqueIdentifier<'a>, 2> as Form>⟧.accepts Der (implicit x)) (fields_of.subject_unique_id v)
        (optional (λ x. ⟦<Explicit<Extensions<'a>, 3> as Form>⟧.accepts Der (explicit x)) (fields_of.extensions v)
        no_more))))))))) };

    fn walk(&self, octets: &[u8], start: Place) -> TbsCertificatePlaces {
        let value = self.version();
        let tagged: Explicit<Version, 0> = tagged!(Explicit, value);
        let is_default = <DefaultNumber<0> as DefaultOf<Explicit<Version, 0>>>::is_default(&tagged);
        let version = next_place(octets, start, !is_default);
        let serial_number = next_place(octets, version, true);
        let signature = next_place(octets, serial_number, true);
        let issuer = next_place(octets, signature, true);
        let validity = next_place(octets, issuer, true);
        let subject = next_place(octets, validity, true);
        let subject_public_key_info = next_place(octets, subject, true);
        let issuer_unique_id = next_place(
            octets,
            subject_public_key_info,
            is_there(self.issuer_unique_id()),
        );
        let subject_unique_id = next_place(
            octets,
            issuer_unique_id,
            is_there(self.subject_unique_id()),
        );
        let extensions = next_place(octets, subject_unique_id, is_there(self.extensions()));
        TbsCertificatePlaces {
            version,
            serial_number,
            signature,
            issuer,
            validity,
            subject,
            subject_public_key_info,
            issuer_unique_id,
            subject_unique_id,
            extensions,
        }
    }

    ghost are_fields = { λ v c a.
        let field1 = a in
        let field2 = field1.rest in
        let field3 = field2.rest in
        let field4 = field3.rest in
        let field5 = field4.rest in
        let field6 = field5.rest in
        let field7 = field6.rest in
        let field8 = field7.rest in
        let field9 = field8.rest in
        let field10 = field9.rest in
        (first_of field1 (besides (is_default ⟦<DefaultNumber<0> as DefaultOf<Explicit<Version, 0>>>⟧.octets (⟦<Explicit<Version, 0> as Form>⟧.encoding (explicit (fields_of.version v)))) (⟦<Explicit<Version, 0> as Form>⟧.readable (explicit (fields_of.version v))) (⟦<Explicit<Version, 0> as Form>⟧.accepts Der (explicit (fields_of.version v))) (λ o b. is_encoding (marker_tag 2 true 0) (marker_tag-in_range 2 true 0) o b.0 b.1) field1.front field1.first)
        (first_of field2 (is_encoding tags.Integer (lit< tt) field2.front field2.first.0 field2.first.1, field2.first)
        (first_of field3 (is_encoding tags.Sequence (lit< tt) field3.front field3.first.0 field3.first.1, field3.first)
        (first_of field4 (is_encoding tags.Sequence (lit< tt) field4.front field4.first.0 field4.first.1, field4.first)
        (first_of field5 (is_encoding tags.Sequence (lit< tt) field5.front field5.first.0 field5.first.1, field5.first)
        (first_of field6 (is_encoding tags.Sequence (lit< tt) field6.front field6.first.0 field6.first.1, field6.first)
        (first_of field7 (is_encoding tags.Sequence (lit< tt) field7.front field7.first.0 field7.first.1, field7.first)
        (first_of field8 (maybe (λ x. x.value) (⟦<Implicit<UniqueIdentifier<'a>, 1> as Form>⟧.accepts Der) (λ x. ⟦<Implicit<UniqueIdentifier<'a>, 1> as Form>⟧.accepts Der (implicit x)) (λ x o b. (is_encoding (marker_tag 2 false 1) (marker_tag-in_range 2 false 1) o b.0 b.1, b)) v.fields.list.rest.rest.rest.rest.rest.rest.rest.first field8.front field8.first)
        (first_of field9 (maybe (λ x. x.value) (⟦<Implicit<UniqueIdentifier<'a>, 2> as Form>⟧.accepts Der) (λ x. ⟦<Implicit<UniqueIdentifier<'a>, 2> as Form>⟧.accepts Der (implicit x)) (λ x o b. (is_encoding (marker_tag 2 false 2) (marker_tag-in_range 2 false 2) o b.0 b.1, b)) v.fields.list.rest.rest.rest.rest.rest.rest.rest.rest.list.first field9.front field9.first)
        (first_of field10 (maybe (λ x. x.fields.first) (⟦<Explicit<Extensions<'a>, 3> as Form>⟧.accepts Der) (λ x. ⟦<Explicit<Extensions<'a>, 3> as Form>⟧.accepts Der (explicit x)) (λ x o b. (is_encoding (marker_tag 2 true 3) (marker_tag-in_range 2 true 3) o b.0 b.1, b)) v.fields.list.rest.rest.rest.rest.rest.rest.rest.rest.list.rest.first field10.front field10.first)
        field10.rest)))))))))) };
}
