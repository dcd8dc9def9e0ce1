//! The fields of a RevokedCertificate.
//!
//! Made by tools/asn1 from crl.asn1.

ghost use Rattle.std.proofs.Common.{lit<};
ghost use Rattle.std.specs.Prelude.{◌∷◌, List, [], ℕ};
ghost use Rattle.der_pkix.specs.Crl.RevokedCertificate as fields_of;
ghost use Rattle.der_pkix.specs.declared.certificate.time.Time.{Time};
ghost use Rattle.der_pkix.specs.declared.certificate.time.Time.TheVariants as time_of;
ghost use Rattle.der_places.specs.Layout.{field, no_more, optional};
ghost use Rattle.der_places.specs.LayoutLaws.{first_of, is_encoding, perhaps};
ghost use Rattle.der_places.specs.Walking.{IsEncoding};
ghost use Rattle.der_tlv.specs.declared.encoding_rules.EncodingRules.TheVariants.{Der};
ghost use Rattle.der_tlv.specs.declared.tag.Tag.TheVariants as tags;

use crate::place::Place;
use crate::placed::Placed;
use crate::presence::is_there;
use crate::walk::next_place;
use der_elem::Form;
use der_pkix::certificate::{CertificateSerialNumber, Extensions, Time};
use der_pkix::crl::RevokedCertificate;

/// Byte ranges of the fields of a `RevokedCertificate`.
#[repr(C)]
#[derive(Clone, Copy, Debug, PartialEq, Eq)]
pub struct RevokedCertificatePlaces {
    /// `userCertificate`, `CertificateSerialNumber`.
    pub user_certificate: Place,
    /// `revocationDate`, `Time`.
    pub revocation_date: Place,
    /// `crlEntryExtensions`, `Extensions OPTIONAL`; empty if it is absent.
    pub crl_entry_extensions: Place,
}

impl<'a> Placed for RevokedCertificate<'a> {
    type Places = RevokedCertificatePlaces;

    ghost listed = { λ p. p.user_certificate ∷ p.revocation_date ∷ p.crl_entry_extensions ∷ [] };

    ghost layout = { λ v.
        field (⟦<CertificateSerialNumber<'a> as Form>⟧.accepts Der (fields_of.user_certificate v))
        (field (⟦<Time as Form>⟧.accepts Der (fields_of.revocation_date v))
        (optional (⟦<Extensions<'a> as Form>⟧.accepts Der) (fields_of.crl_entry_extensions v)
        no_more)) };

    fn walk(&self, octets: &[u8], start: Place) -> RevokedCertificatePlaces {
        let user_certificate = next_place(octets, start, true);
        let revocation_date = next_place(octets, user_certificate, true);
        let crl_entry_extensions = next_place(
            octets,
            revocation_date,
            is_there(self.crl_entry_extensions()),
        );
        RevokedCertificatePlaces {
            user_certificate,
            revocation_date,
            crl_entry_extensions,
        }
    }

    ghost are_fields = { λ v c a.
        let is_time : (t : Time) (o : List ℕ) → ⟦<Time as Form>⟧.accepts Der t o → IsEncoding o = λ t. elim t as (λ k. (o : List ℕ) → ⟦<Time as Form>⟧.accepts Der k o → IsEncoding o) [ time_of.UtcTime x ↦ λ o b. is_encoding tags.UtcTime (lit< tt) o b.0.0 b.0.1 | time_of.GeneralTime x ↦ λ o b. is_encoding tags.GeneralizedTime (lit< tt) o b.0.0 b.0.1 ] in
        let field1 = a in
        let field2 = field1.rest in
        let field3 = field2.rest in
        (first_of field1 (is_encoding tags.Integer (lit< tt) field1.front field1.first.0 field1.first.1, field1.first)
        (first_of field2 (is_time _ field2.front field2.first, field2.first)
        (first_of field3 (perhaps (⟦<Extensions<'a> as Form>⟧.accepts Der) (λ x o b. is_encoding tags.Sequence (lit< tt) o b.0 b.1) v.fields.list.rest.rest.first field3.front field3.first)
        field3.rest))) };
}
