//! Rules about the values of extensions of a certificate (RFC 5280 4.2.1): keys and their usage,
//! constraints, policies, alternative names and points.

ghost use Rattle.std.specs.Prelude.{◌≡◌, List};
ghost use Rattle.der_pkix.specs.declared.certificate.extension.Extension.{Extension};
ghost use Rattle.der_pkix.specs.Certificate.TbsCertificate as tbs_fields;
ghost use Rattle.der_verify.specs.Extensions.{value_of};
ghost use Rattle.der_verify.specs.Inside.{signs_certificates};
ghost use Rattle.der_verify.specs.Rfc5280.{alternative_lacks, breaks_constraints, breaks_inside, breaks_usage, id_ce, is_absent, is_ca, is_self_issued, AreListed};

use super::alternatives::{Syntax, one_lacks};
use super::inside::{
    has_half_an_issuer, has_key_identifier, has_one_bit, has_path_length, has_point_nowhere,
    is_empty_sequence, maps_any_policy, one_has_distance, one_has_odd_address, repeats_policy,
    signs_certificates,
};
use super::values::value_of;
use super::{CertificateRule, is_empty_name, says_true};
use der_elem::Form;
use der_extensions::extension::constants::{
    ID_CE_AUTHORITY_KEY_IDENTIFIER, ID_CE_BASIC_CONSTRAINTS, ID_CE_CERTIFICATE_POLICIES,
    ID_CE_CRL_DISTRIBUTION_POINTS, ID_CE_ISSUER_ALT_NAME, ID_CE_KEY_USAGE, ID_CE_NAME_CONSTRAINTS,
    ID_CE_POLICY_CONSTRAINTS, ID_CE_POLICY_MAPPINGS, ID_CE_SUBJECT_ALT_NAME,
    ID_CE_SUBJECT_KEY_IDENTIFIER,
};
use der_pkix::certificate::{Extension, TbsCertificate};
use std::alloc::Global;

impl CertificateRule {
    /// Returns whether a certificate breaks a rule about keys and their usage, or one of those
    /// that follow.
    pub(super) fn is_broken_by_usage<'a>(
        self,
        alloc: Global,
        certificate: &TbsCertificate<'a>,
    ) -> bool
        ensures { (listed : List Extension) → AreListed ⟦<Extension<'a> as Form>⟧ (tbs_fields.extensions certificate.now) listed
            → result ≡ breaks_usage self certificate.now listed }
    {
        let authority = value_of(alloc, certificate, &ID_CE_AUTHORITY_KEY_IDENTIFIER);
        match self {
            CertificateRule::SubjectOfCaIsNotEmpty => {
                is_empty_name(certificate.subject()) && is_ca(alloc, certificate)
            }
            CertificateRule::CaHasSubjectKeyIdentifier => {
                is_ca(alloc, certificate)
                    && value_of(alloc, certificate, &ID_CE_SUBJECT_KEY_IDENTIFIER).is_empty()
            }
            CertificateRule::AuthorityHasKeyIdentifier => {
                !is_self_issued(certificate) && !has_key_identifier(authority)
            }
            CertificateRule::AuthorityIssuerHasSerialNumber => has_half_an_issuer(authority),
            CertificateRule::CaHasKeyUsage => {
                is_ca(alloc, certificate)
                    && value_of(alloc, certificate, &ID_CE_KEY_USAGE).is_empty()
            }
            CertificateRule::KeyUsageHasABit => {
                let usage = value_of(alloc, certificate, &ID_CE_KEY_USAGE);
                !usage.is_empty() && !has_one_bit(usage)
            }
            CertificateRule::KeyCertSignOnlyInCa => {
                signs(alloc, certificate) && !is_ca(alloc, certificate)
            }
            _ => self.is_broken_by_constraints(alloc, certificate),
        }
    }

    /// Returns whether a certificate breaks a rule about constraints, or one of those that follow.
    fn is_broken_by_constraints<'a>(self, alloc: Global, certificate: &TbsCertificate<'a>) -> bool
        ensures { (listed : List Extension) → AreListed ⟦<Extension<'a> as Form>⟧ (tbs_fields.extensions certificate.now) listed
            → result ≡ breaks_constraints self listed }
    {
        let names = value_of(alloc, certificate, &ID_CE_NAME_CONSTRAINTS);
        match self {
            CertificateRule::PathLengthOnlyInCa => {
                has_path_length(value_of(alloc, certificate, &ID_CE_BASIC_CONSTRAINTS))
                    && !(is_ca(alloc, certificate) && signs(alloc, certificate))
            }
            CertificateRule::NameConstraintsOnlyInCa => {
                !names.is_empty() && !is_ca(alloc, certificate)
            }
            CertificateRule::NameConstraintsIsNotEmpty => is_empty_sequence(names),
            CertificateRule::NameConstraintsHasNoDistances => one_has_distance(names),
            CertificateRule::ConstrainedAddressesHave8Or32Octets => one_has_odd_address(names),
            CertificateRule::PolicyConstraintsIsNotEmpty => {
                is_empty_sequence(value_of(alloc, certificate, &ID_CE_POLICY_CONSTRAINTS))
            }
            _ => self.is_broken_inside(alloc, certificate),
        }
    }

    /// Returns whether a certificate breaks a rule about policies, alternative names or points.
    fn is_broken_inside<'a>(self, alloc: Global, certificate: &TbsCertificate<'a>) -> bool
        ensures { (listed : List Extension) → AreListed ⟦<Extension<'a> as Form>⟧ (tbs_fields.extensions certificate.now) listed
            → result ≡ breaks_inside self listed }
    {
        match self {
            CertificateRule::PoliciesStandOnce => {
                repeats_policy(value_of(alloc, certificate, &ID_CE_CERTIFICATE_POLICIES))
            }
            CertificateRule::AnyPolicyIsNotMapped => {
                maps_any_policy(value_of(alloc, certificate, &ID_CE_POLICY_MAPPINGS))
            }
            CertificateRule::MailboxesHaveSyntax => {
                alternative_lacks(alloc, certificate, Syntax::Mailbox)
            }
            CertificateRule::DnsNamesHaveSyntax => {
                alternative_lacks(alloc, certificate, Syntax::Host)
            }
            CertificateRule::UrisHaveSchemes => {
                alternative_lacks(alloc, certificate, Syntax::Resource)
            }
            CertificateRule::AddressesHave4Or16Octets => {
                alternative_lacks(alloc, certificate, Syntax::Address)
            }
            CertificateRule::PointsHaveNames => {
                has_point_nowhere(value_of(alloc, certificate, &ID_CE_CRL_DISTRIBUTION_POINTS))
            }
            _ => false,
        }
    }
}

/// Returns whether the basicConstraints of a certificate says that cA is TRUE.
fn is_ca<'a>(alloc: Global, certificate: &TbsCertificate<'a>) -> bool
    ensures { (listed : List Extension) → AreListed ⟦<Extension<'a> as Form>⟧ (tbs_fields.extensions certificate.now) listed
        → result ≡ is_ca listed }
{
    says_true(value_of(alloc, certificate, &ID_CE_BASIC_CONSTRAINTS))
}

/// Returns whether the keyUsage of a certificate has the bit keyCertSign.
fn signs<'a>(alloc: Global, certificate: &TbsCertificate<'a>) -> bool
    ensures { (listed : List Extension) → AreListed ⟦<Extension<'a> as Form>⟧ (tbs_fields.extensions certificate.now) listed
        → result ≡ signs_certificates (value_of (id_ce 15) listed) }
{
    signs_certificates(value_of(alloc, certificate, &ID_CE_KEY_USAGE))
}

/// Returns whether a name of subjectAltName or issuerAltName lacks its syntax.
fn alternative_lacks<'a>(alloc: Global, certificate: &TbsCertificate<'a>, syntax: Syntax) -> bool
    ensures { (listed : List Extension) → AreListed ⟦<Extension<'a> as Form>⟧ (tbs_fields.extensions certificate.now) listed
        → result ≡ alternative_lacks syntax listed }
{
    one_lacks(
        value_of(alloc, certificate, &ID_CE_SUBJECT_ALT_NAME),
        syntax,
    ) || one_lacks(value_of(alloc, certificate, &ID_CE_ISSUER_ALT_NAME), syntax)
}

/// Returns whether the issuer and the subject have the same octets.
fn is_self_issued(certificate: &TbsCertificate<'_>) -> bool
    ensures { result ≡ is_self_issued certificate.now }
{
    certificate.issuer().items().as_bytes() == certificate.subject().items().as_bytes()
}
