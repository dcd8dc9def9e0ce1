//! Rules about the version, the dates, the names and the algorithms of a certificate.

ghost use Rattle.std.specs.Prelude.{◌≡◌, List};
ghost use Rattle.der_opaque.specs.ObjectIdentifierRef as identifier;
ghost use Rattle.der_pkix.specs.declared.certificate.extension.Extension.{Extension};
ghost use Rattle.der_pkix.specs.Certificate.TbsCertificate as tbs_fields;
ghost use Rattle.der_verify.specs.Rfc5280.{breaks_fields, breaks_names, has_odd_parameters, is_of_curve, AreListed};

use super::CertificateRule;
use super::texts::{TextRule, breaks_name};
use crate::time::{is_early, seconds};
use der_elem::Form;
use der_pkix::AlgorithmIdentifier;
use der_pkix::certificate::{Extension, TbsCertificate};
use std::alloc::Global;

impl CertificateRule {
    /// Returns whether a certificate breaks a rule about its fields, or about the values of its
    /// extensions.
    pub(super) fn is_broken_by_fields<'a>(
        self,
        alloc: Global,
        certificate: &TbsCertificate<'a>,
    ) -> bool
        ensures { (listed : List Extension) → AreListed ⟦<Extension<'a> as Form>⟧ (tbs_fields.extensions certificate.now) listed
            → result ≡ breaks_fields self certificate.now listed }
    {
        let validity = certificate.validity();
        match self {
            CertificateRule::VersionIsKnown => certificate.version() > 2,
            CertificateRule::ValidityIsNotEmpty => {
                seconds(validity.not_after()) < seconds(validity.not_before())
            }
            CertificateRule::DatesThrough2049AreUtcTimes => {
                is_early(validity.not_before()) || is_early(validity.not_after())
            }
            CertificateRule::TextsHaveSizes => breaks_names(certificate, TextRule::Size),
            CertificateRule::TextsHaveStringTypes => {
                breaks_names(certificate, TextRule::StringType)
            }
            CertificateRule::PrintableStringsHaveTheirCharacters => {
                breaks_names(certificate, TextRule::Characters)
            }
            CertificateRule::CurvesHaveNoParameters => {
                has_odd_parameters(certificate.signature())
                    || has_odd_parameters(certificate.subject_public_key_info().algorithm())
            }
            _ => self.is_broken_by_usage(alloc, certificate),
        }
    }
}

/// Returns whether an attribute of the issuer or of the subject breaks a rule.
fn breaks_names(certificate: &TbsCertificate<'_>, rule: TextRule) -> bool
    ensures { result ≡ breaks_names rule certificate.now }
{
    breaks_name(certificate.issuer(), rule) || breaks_name(certificate.subject(), rule)
}

/// Returns whether the algorithm is one of RFC 8410 and has parameters.
fn has_odd_parameters(algorithm: &AlgorithmIdentifier<'_>) -> bool
    ensures { result ≡ has_odd_parameters algorithm.now }
{
    algorithm.parameters.is_some() && is_of_curve(algorithm.oid.as_bytes())
}

/// Returns whether an identifier is 1.3.101.110, 111, 112 or 113.
fn is_of_curve(identifier: &[u8]) -> bool
    ensures { result ≡ is_of_curve identifier.now }
{
    identifier == [0x2b, 0x65, 0x6e].as_slice()
        || identifier == [0x2b, 0x65, 0x6f].as_slice()
        || identifier == [0x2b, 0x65, 0x70].as_slice()
        || identifier == [0x2b, 0x65, 0x71].as_slice()
}
