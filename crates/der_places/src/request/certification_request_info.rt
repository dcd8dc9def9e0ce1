//! The fields of a CertificationRequestInfo.
//!
//! Made by tools/asn1 from request.asn1.

ghost use Rattle.std.proofs.Common.{lit<, true};
ghost use Rattle.std.specs.Prelude.{◌∷◌, []};
ghost use Rattle.der_fields.specs.MarkerTags.{marker_tag, marker_tag-in_range};
ghost use Rattle.der_pkcs.specs.Request.CertificationRequestInfo as fields_of;
ghost use Rattle.der_places.specs.Layout.{field, implicit, no_more};
ghost use Rattle.der_places.specs.LayoutLaws.{first_of, is_encoding};
ghost use Rattle.der_tlv.specs.declared.encoding_rules.EncodingRules.TheVariants.{Der};
ghost use Rattle.der_tlv.specs.declared.tag.Tag.TheVariants as tags;

use crate::place::Place;
use crate::placed::Placed;
use crate::walk::next_place;
use der_elem::Form;
use der_fields::Implicit;
use der_pkcs::request::{CertificationRequestInfo, CertificationRequestInfoVersion};
use der_pkix::certificate::SubjectPublicKeyInfo;
use der_pkix::key::Attributes;
use der_pkix::name::Name;

/// Byte ranges of the fields of a `CertificationRequestInfo`.
#[repr(C)]
#[derive(Clone, Copy, Debug, PartialEq, Eq)]
pub struct CertificationRequestInfoPlaces {
    /// `version`, `INTEGER { v1 (0) }`.
    pub version: Place,
    /// `subject`, `Name`.
    pub subject: Place,
    /// `subjectPKInfo`, `SubjectPublicKeyInfo`.
    pub subject_pk_info: Place,
    /// `attributes`, `[0] Attributes`.
    pub attributes: Place,
}

impl<'a> Placed for CertificationRequestInfo<'a> {
    type Places = CertificationRequestInfoPlaces;

    ghost listed = { λ p. p.version ∷ p.subject ∷ p.subject_pk_info ∷ p.attributes ∷ [] };

    ghost layout = { λ v.
        field (⟦<CertificationRequestInfoVersion as Form>⟧.accepts Der (fields_of.version v))
        (field (⟦<Name<'a> as Form>⟧.accepts Der (fields_of.subject v))
        (field (⟦<SubjectPublicKeyInfo<'a> as Form>⟧.accepts Der (fields_of.subject_pk_info v))
        (field (⟦<Implicit<Attributes<'a>, 0> as Form>⟧.accepts Der (implicit (fields_of.attributes v)))
        no_more))) };

    fn walk(&self, octets: &[u8], start: Place) -> CertificationRequestInfoPlaces {
        let version = next_place(octets, start, true);
        let subject = next_place(octets, version, true);
        let subject_pk_info = next_place(octets, subject, true);
        let attributes = next_place(octets, subject_pk_info, true);
        CertificationRequestInfoPlaces {
            version,
            subject,
            subject_pk_info,
            attributes,
        }
    }

    ghost are_fields = { λ v c a.
        let field1 = a in
        let field2 = field1.rest in
        let field3 = field2.rest in
        let field4 = field3.rest in
        (first_of field1 (is_encoding tags.Integer (lit< tt) field1.front field1.first.0 field1.first.1, field1.first)
        (first_of field2 (is_encoding tags.Sequence (lit< tt) field2.front field2.first.0 field2.first.1, field2.first)
        (first_of field3 (is_encoding tags.Sequence (lit< tt) field3.front field3.first.0 field3.first.1, field3.first)
        (first_of field4 (is_encoding (marker_tag 2 true 0) (marker_tag-in_range 2 true 0) field4.front field4.first.0 field4.first.1, field4.first)
        field4.rest)))) };
}
