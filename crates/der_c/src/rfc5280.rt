//! The requirements of RFC 5280 beyond the grammar.

ghost use Rattle.std.specs.Prelude.{◌≡◌, List, Option, map};
ghost use Rattle.der_pkix.specs.declared.certificate.extension.Extension.{Extension};
ghost use Rattle.der_pkix.specs.Certificate.Certificate as certificate_fields;
ghost use Rattle.der_pkix.specs.Certificate.TbsCertificate as tbs_fields;
ghost use Rattle.der_pkix.specs.Crl.CertificateList as list_fields;
ghost use Rattle.der_pkix.specs.Crl.TbsCertList as tbs_list_fields;
ghost use Rattle.der_verify.specs.Rfc5280.{breaks, certificate_rules, AreListed};
ghost use Rattle.der_verify.specs.Rfc5280Lists.{list_breaks, list_rules, AreEntries};
ghost use Rattle.der_c.specs.Answers.{Answers};
ghost use Rattle.der_c.specs.Bits.{bits};

use crate::bits::number_of_flags;
use crate::fault::{Fault, refuse};
use der_elem::{Form, FromDer};
use der_pkix::certificate::{Certificate, Extension};
use der_pkix::crl::{CertificateList, RevokedCertificate};
use der_verify::{CertificateRule, ListRule};
use std::alloc::Global;

/// Reads all octets as a certificate, and writes which rules of RFC 5280 beyond the grammar it
/// breaks: the first of `CERTIFICATE_RULES` of `der_verify` as the bit 1, the next as 2, and so
/// on.
///
/// Returns 0 and writes the bits to `broken`, or returns the number of the first error and leaves
/// `broken` unchanged.
#[unsafe(no_mangle)]
pub extern "C" fn der_check_rfc5280<'a>(
    alloc: Global,
    octets: &'a [u8],
    broken: &mut u64,
    fault: &mut Fault,
) -> u32
    ensures { Answers ⟦<Certificate<'a> as Form>⟧ octets.now
        (λ v n. (listed : List Extension) → AreListed ⟦<Extension<'a> as Form>⟧ (tbs_fields.extensions (certificate_fields.tbs_certificate v)) listed
        → n ≡ bits (map (λ r. breaks r v listed) certificate_rules))
        broken.old broken.new fault.old fault.new result }
{
    match Certificate::from_der(alloc, octets) {
        Ok(value) => {
            *broken = broken_by_certificate(alloc, &value);
            0
        }
        Err(error) => refuse(error, fault),
    }
}

/// Returns the rules that a certificate breaks, as bits.
fn broken_by_certificate<'a>(alloc: Global, value: &Certificate<'a>) -> u64
    ensures { (listed : List Extension) → AreListed ⟦<Extension<'a> as Form>⟧ (tbs_fields.extensions (certificate_fields.tbs_certificate value.now)) listed
        → result ≡ bits (map (λ r. breaks r value.now listed) certificate_rules) }
{
    number_of_flags(&[
        CertificateRule::PointsHaveNames.is_broken(alloc, value),
        CertificateRule::AddressesHave4Or16Octets.is_broken(alloc, value),
        CertificateRule::UrisHaveSchemes.is_broken(alloc, value),
        CertificateRule::MailboxesHaveSyntax.is_broken(alloc, value),
        CertificateRule::DnsNamesHaveSyntax.is_broken(alloc, value),
        CertificateRule::AnyPolicyIsNotMapped.is_broken(alloc, value),
        CertificateRule::PoliciesStandOnce.is_broken(alloc, value),
        CertificateRule::PolicyConstraintsIsNotEmpty.is_broken(alloc, value),
        CertificateRule::ConstrainedAddressesHave8Or32Octets.is_broken(alloc, value),
        CertificateRule::NameConstraintsHasNoDistances.is_broken(alloc, value),
        CertificateRule::NameConstraintsIsNotEmpty.is_broken(alloc, value),
        CertificateRule::NameConstraintsOnlyInCa.is_broken(alloc, value),
        CertificateRule::PathLengthOnlyInCa.is_broken(alloc, value),
        CertificateRule::KeyCertSignOnlyInCa.is_broken(alloc, value),
        CertificateRule::KeyUsageHasABit.is_broken(alloc, value),
        CertificateRule::CaHasKeyUsage.is_broken(alloc, value),
        CertificateRule::AuthorityIssuerHasSerialNumber.is_broken(alloc, value),
        CertificateRule::AuthorityHasKeyIdentifier.is_broken(alloc, value),
        CertificateRule::CaHasSubjectKeyIdentifier.is_broken(alloc, value),
        CertificateRule::CurvesHaveNoParameters.is_broken(alloc, value),
        CertificateRule::PrintableStringsHaveTheirCharacters.is_broken(alloc, value),
        CertificateRule::TextsHaveStringTypes.is_broken(alloc, value),
        CertificateRule::TextsHaveSizes.is_broken(alloc, value),
        CertificateRule::SubjectOfCaIsNotEmpty.is_broken(alloc, value),
        CertificateRule::DatesThrough2049AreUtcTimes.is_broken(alloc, value),
        CertificateRule::ValidityIsNotEmpty.is_broken(alloc, value),
        CertificateRule::VersionIsKnown.is_broken(alloc, value),
        CertificateRule::InhibitAnyPolicyIsCritical.is_broken(alloc, value),
        CertificateRule::PolicyConstraintsIsCritical.is_broken(alloc, value),
        CertificateRule::NameConstraintsIsCritical.is_broken(alloc, value),
        CertificateRule::BasicConstraintsOfCaIsCritical.is_broken(alloc, value),
        CertificateRule::SubjectInfoAccessIsNotCritical.is_broken(alloc, value),
        CertificateRule::AuthorityInfoAccessIsNotCritical.is_broken(alloc, value),
        CertificateRule::FreshestCrlIsNotCritical.is_broken(alloc, value),
        CertificateRule::SubjectDirectoryAttributesIsNotCritical.is_broken(alloc, value),
        CertificateRule::SubjectKeyIdentifierIsNotCritical.is_broken(alloc, value),
        CertificateRule::AuthorityKeyIdentifierIsNotCritical.is_broken(alloc, value),
        CertificateRule::ExtensionsStandOnce.is_broken(alloc, value),
        CertificateRule::UniqueIdentifiersInVersion2.is_broken(alloc, value),
        CertificateRule::EmptySubjectHasCriticalAltName.is_broken(alloc, value),
        CertificateRule::IssuerIsNotEmpty.is_broken(alloc, value),
        CertificateRule::SerialNumberHasAtMost20Octets.is_broken(alloc, value),
        CertificateRule::SerialNumberIsPositive.is_broken(alloc, value),
        CertificateRule::ExtensionsInVersion3.is_broken(alloc, value),
        CertificateRule::AlgorithmsAgree.is_broken(alloc, value),
    ])
}

/// Reads all octets as a list of revoked certificates, and writes which rules of RFC 5280 beyond
/// the grammar it breaks, in the order of `LIST_RULES` of `der_verify`.
///
/// Returns 0 and writes the bits to `broken`, or returns the number of the first error and leaves
/// `broken` unchanged.
#[unsafe(no_mangle)]
pub extern "C" fn der_check_rfc5280_list<'a>(
    alloc: Global,
    octets: &'a [u8],
    broken: &mut u64,
    fault: &mut Fault,
) -> u32
    ensures { Answers ⟦<CertificateList<'a> as Form>⟧ octets.now
        (λ v n. (listed : List Extension) (entries : List (Option (List Extension)))
        → AreListed ⟦<Extension<'a> as Form>⟧ (tbs_list_fields.crl_extensions (list_fields.tbs_cert_list v)) listed
        → AreEntries ⟦<RevokedCertificate<'a> as Form>⟧ ⟦<Extension<'a> as Form>⟧ (tbs_list_fields.revoked_certificates (list_fields.tbs_cert_list v)) entries
        → n ≡ bits (map (λ r. list_breaks r v listed entries) list_rules))
        broken.old broken.new fault.old fault.new result }
{
    match CertificateList::from_der(alloc, octets) {
        Ok(value) => {
            *broken = broken_by_list(alloc, &value);
            0
        }
        Err(error) => refuse(error, fault),
    }
}

/// Returns the rules that a list breaks, as bits.
fn broken_by_list<'a>(alloc: Global, value: &CertificateList<'a>) -> u64
    ensures { (listed : List Extension) (entries : List (Option (List Extension)))
        → AreListed ⟦<Extension<'a> as Form>⟧ (tbs_list_fields.crl_extensions (list_fields.tbs_cert_list value.now)) listed
        → AreEntries ⟦<RevokedCertificate<'a> as Form>⟧ ⟦<Extension<'a> as Form>⟧ (tbs_list_fields.revoked_certificates (list_fields.tbs_cert_list value.now)) entries
        → result ≡ bits (map (λ r. list_breaks r value.now listed entries) list_rules) }
{
    number_of_flags(&[
        ListRule::RemoveFromCrlOnlyInDelta.is_broken(alloc, value),
        ListRule::EntryExtensionsStandOnce.is_broken(alloc, value),
        ListRule::IssuingDistributionPointHasOneKind.is_broken(alloc, value),
        ListRule::IssuingDistributionPointIsNotEmpty.is_broken(alloc, value),
        ListRule::CrlNumberHasAtMost20Octets.is_broken(alloc, value),
        ListRule::CrlNumberIsThere.is_broken(alloc, value),
        ListRule::AuthorityHasKeyIdentifier.is_broken(alloc, value),
        ListRule::DatesThrough2049AreUtcTimes.is_broken(alloc, value),
        ListRule::VersionIs2.is_broken(alloc, value),
        ListRule::CertificateIssuerIsCritical.is_broken(alloc, value),
        ListRule::InvalidityDateIsNotCritical.is_broken(alloc, value),
        ListRule::ReasonCodeIsNotCritical.is_broken(alloc, value),
        ListRule::AuthorityInfoAccessIsNotCritical.is_broken(alloc, value),
        ListRule::FreshestCrlIsNotCritical.is_broken(alloc, value),
        ListRule::IssuingDistributionPointIsCritical.is_broken(alloc, value),
        ListRule::DeltaCrlIndicatorIsCritical.is_broken(alloc, value),
        ListRule::CrlNumberIsNotCritical.is_broken(alloc, value),
        ListRule::ExtensionsStandOnce.is_broken(alloc, value),
        ListRule::EmptyListIsAbsent.is_broken(alloc, value),
        ListRule::NextUpdateIsThere.is_broken(alloc, value),
        ListRule::IssuerIsNotEmpty.is_broken(alloc, value),
        ListRule::ExtensionsInVersion2.is_broken(alloc, value),
        ListRule::AlgorithmsAgree.is_broken(alloc, value),
    ])
}
