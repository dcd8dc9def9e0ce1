//! The fields of a TBSCertList.
//!
//! Made by tools/asn1 from crl.asn1.

ghost use Rattle.std.proofs.Common.{lit<, true};
ghost use Rattle.std.specs.Prelude.{◌∷◌, List, [], ℕ};
ghost use Rattle.der_fields.specs.MarkerTags.{marker_tag, marker_tag-in_range};
ghost use Rattle.der_pkix.specs.Crl.TbsCertList as fields_of;
ghost use Rattle.der_pkix.specs.declared.certificate.time.Time.{Time};
ghost use Rattle.der_pkix.specs.declared.certificate.time.Time.TheVariants as time_of;
ghost use Rattle.der_places.specs.Layout.{explicit, field, no_more, optional};
ghost use Rattle.der_places.specs.LayoutLaws.{first_of, is_encoding, maybe, perhaps};
ghost use Rattle.der_places.specs.Walking.{IsEncoding};
ghost use Rattle.der_tlv.specs.declared.encoding_rules.EncodingRules.TheVariants.{Der};
ghost use Rattle.der_tlv.specs.declared.tag.Tag.TheVariants as tags;

use crate::place::Place;
use crate::placed::Placed;
use crate::presence::{is_some, is_there};
use crate::walk::next_place;
use der_elem::Form;
use der_fields::Explicit;
use der_lists::ListRef;
use der_pkix::AlgorithmIdentifier;
use der_pkix::certificate::{Extensions, Time, Version};
use der_pkix::crl::{RevokedCertificate, TbsCertList};
use der_pkix::name::Name;

/// Byte ranges of the fields of a `TBSCertList`.
#[repr(C)]
#[derive(Clone, Copy, Debug, PartialEq, Eq)]
pub struct TbsCertListPlaces {
    /// `version`, `Version OPTIONAL`; empty if it is absent.
    pub version: Place,
    /// `signature`, `AlgorithmIdentifier`.
    pub signature: Place,
    /// `issuer`, `Name`.
    pub issuer: Place,
    /// `thisUpdate`, `Time`.
    pub this_update: Place,
    /// `nextUpdate`, `Time OPTIONAL`; empty if it is absent.
    pub next_update: Place,
    /// `revokedCertificates`, `SEQUENCE OF SEQUENCE { userCertificate CertificateSerialNumber,
    /// revocationDate Time, crlEntryExtensions Extensions OPTIONAL } OPTIONAL`; empty if it is
    /// absent.
    pub revoked_certificates: Place,
    /// `crlExtensions`, `[0] Extensions OPTIONAL`; empty if it is absent.
    pub crl_extensions: Place,
}

impl<'a> Placed for TbsCertList<'a> {
    type Places = TbsCertListPlaces;

    ghost listed = { λ p. p.version ∷ p.signature ∷ p.issuer ∷ p.this_update ∷ p.next_update ∷ p.revoked_certificates ∷ p.crl_extensions ∷ [] };

    ghost layout = { λ v.
        optional (⟦<Version as Form>⟧.accepts Der) (fields_of.version v)
        (field (⟦<AlgorithmIdentifier<'a> as Form>⟧.accepts Der (fields_of.signature v))
        (field (⟦<Name<'a> as Form>⟧.accepts Der (fields_of.issuer v))
        (field (⟦<Time as Form>⟧.accepts Der (fields_of.this_update v))
        (optional (⟦<Time as Form>⟧.accepts Der) (fields_of.next_update v)
        (optional (⟦<ListRef<'a, RevokedCertificate<'a>> as Form>⟧.accepts Der) (fields_of.revoked_certificates v)
        (optional (λ x. ⟦<Explicit<Extensions<'a>, 0> as Form>⟧.accepts Der (explicit x)) (fields_of.crl_extensions v)
        no_more)))))) };

    fn walk(&self, octets: &[u8], start: Place) -> TbsCertListPlaces {
        let version = next_place(octets, start, is_some(self.version()));
        let signature = next_place(octets, version, true);
        let issuer = next_place(octets, signature, true);
        let this_update = next_place(octets, issuer, true);
        let next_update = next_place(octets, this_update, is_some(self.next_update()));
        let revoked_certificates = next_place(
            octets,
            next_update,
            is_there(self.revoked_certificates()),
        );
        let crl_extensions = next_place(
            octets,
            revoked_certificates,
            is_there(self.crl_extensions()),
        );
        TbsCertListPlaces {
            version,
            signature,
            issuer,
            this_update,
            next_update,
            revoked_certificates,
            crl_extensions,
        }
    }

    ghost are_fields = { λ v c a.
        let is_time : (t : Time) (o : List ℕ) → ⟦<Time as Form>⟧.accepts Der t o → IsEncoding o = λ t. elim t as (λ k. (o : List ℕ) → ⟦<Time as Form>⟧.accepts Der k o → IsEncoding o) [ time_of.UtcTime x ↦ λ o b. is_encoding tags.UtcTime (lit< tt) o b.0.0 b.0.1 | time_of.GeneralTime x ↦ λ o b. is_encoding tags.GeneralizedTime (lit< tt) o b.0.0 b.0.1 ] in
        let field1 = a in
        let field2 = field1.rest in
        let field3 = field2.rest in
        let field4 = field3.rest in
        let field5 = field4.rest in
        let field6 = field5.rest in
        let field7 = field6.rest in
        (first_of field1 (perhaps (⟦<Version as Form>⟧.accepts Der) (λ x o b. is_encoding tags.Integer (lit< tt) o b.0 b.1) v.fields.list.first field1.front field1.first)
        (first_of field2 (is_encoding tags.Sequence (lit< tt) field2.front field2.first.0 field2.first.1, field2.first)
        (first_of field3 (is_encoding tags.Sequence (lit< tt) field3.front field3.first.0 field3.first.1, field3.first)
        (first_of field4 (is_time _ field4.front field4.first, field4.first)
        (first_of field5 (perhaps (⟦<Time as Form>⟧.accepts Der) (λ x o b. is_time x o b) v.fields.list.rest.rest.rest.rest.first field5.front field5.first)
        (first_of field6 (perhaps (⟦<ListRef<'a, RevokedCertificate<'a>> as Form>⟧.accepts Der) (λ x o b. is_encoding tags.Sequence (lit< tt) o b.0 b.1) v.fields.list.rest.rest.rest.rest.rest.first field6.front field6.first)
        (first_of field7 (maybe (λ x. x.fields.first) (⟦<Explicit<Extensions<'a>, 0> as Form>⟧.accepts Der) (λ x. ⟦<Explicit<Extensions<'a>, 0> as Form>⟧.accepts Der (explicit x)) (λ x o b. (is_encoding (marker_tag 2 true 0) (marker_tag-in_range 2 true 0) o b.0 b.1, b)) v.fields.list.rest.rest.rest.rest.rest.rest.first field7.front field7.first)
        field7.rest))))))) };
}
