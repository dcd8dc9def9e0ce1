//! The rules of RFC 5280 beyond its grammar that a certificate or a list of revoked certificates
//! breaks, as text.

use certview_parts::field_name::FieldName;
use certview_parts::place::{Place, nowhere};
use certview_parts::printer::Printer;
use der_extensions::extension::constants::{
    ID_CE_AUTHORITY_KEY_IDENTIFIER, ID_CE_BASIC_CONSTRAINTS, ID_CE_CERTIFICATE_POLICIES,
    ID_CE_CRL_DISTRIBUTION_POINTS, ID_CE_CRL_NUMBER, ID_CE_DELTA_CRL_INDICATOR, ID_CE_FRESHEST_CRL,
    ID_CE_INHIBIT_ANY_POLICY, ID_CE_ISSUING_DISTRIBUTION_POINT, ID_CE_KEY_USAGE,
    ID_CE_NAME_CONSTRAINTS, ID_CE_POLICY_CONSTRAINTS, ID_CE_POLICY_MAPPINGS,
    ID_CE_SUBJECT_DIRECTORY_ATTRIBUTES, ID_CE_SUBJECT_KEY_IDENTIFIER, ID_PE_AUTHORITY_INFO_ACCESS,
    ID_PE_SUBJECT_INFO_ACCESS,
};
use der_pkix::certificate::{Certificate, Extensions};
use der_pkix::crl::CertificateList;
use der_places::certificate::{CertificatePlaces, TbsCertificatePlaces};
use der_places::crl::{CertificateListPlaces, TbsCertListPlaces};
use der_verify::{CertificateRule, ListRule, check_certificate, check_list};
use std::alloc::AllocError;
use std::fmt::Write;

/// A field that breaks a rule: its name, the contents octets of its identifier if it is an
/// extension, and a description of the error.
#[derive(Clone, Copy, Debug, PartialEq, Eq)]
struct Finding {
    field: &'static str,
    extension: &'static [u8],
    words: &'static str,
}

/// Adds a field for each rule that a certificate breaks, if the caller asked for it.
pub fn push_certificate_findings(
    printer: &mut Printer<'_>,
    certificate: &Certificate<'_>,
    whole: &Place,
) -> Result<(), AllocError> {
    if !printer.page.asked.has_rules {
        return Ok(());
    }
    let at = printer.places_of(certificate, whole);
    let signed = certificate.tbs_certificate();
    let within = printer.places_of(signed, &at.tbs_certificate);
    let rules = check_certificate(printer.alloc, certificate)?;
    for rule in rules.as_slice() {
        let finding = certificate_finding(*rule);
        let field = place_in_certificate(&at, &within, finding.field);
        let place = place_of(
            printer,
            field,
            &within.extensions,
            signed.extensions(),
            &finding,
        );
        push_finding(printer, &place, rule.section(), &finding)?;
    }
    Ok(())
}

/// Adds a field for each rule that a list breaks, if the caller asked for it.
pub fn push_list_findings(
    printer: &mut Printer<'_>,
    list: &CertificateList<'_>,
    whole: &Place,
) -> Result<(), AllocError> {
    if !printer.page.asked.has_rules {
        return Ok(());
    }
    let at = printer.places_of(list, whole);
    let signed = list.tbs_cert_list();
    let within = printer.places_of(signed, &at.tbs_cert_list);
    let (site, extensions) = (within.crl_extensions, signed.crl_extensions());
    let rules = check_list(printer.alloc, list)?;
    for rule in rules.as_slice() {
        let finding = list_finding(*rule);
        let field = place_in_list(&at, &within, finding.field);
        let place = place_of(printer, field, &site, extensions, &finding);
        push_finding(printer, &place, rule.section(), &finding)?;
    }
    Ok(())
}

fn push_finding(
    printer: &mut Printer<'_>,
    place: &Place,
    section: &str,
    finding: &Finding,
) -> Result<(), AllocError> {
    printer.page.has_findings = true;
    printer.begin(place, FieldName::Breaks)?;
    let (field, words) = (finding.field, finding.words);
    writeln!(
        printer.page.text,
        "RFC 5280 section {section}, {field} {words}"
    )
}

/// Returns the byte range of the certificate's field with this name: the algorithm outside of the
/// signed part, or a field within.
fn place_in_certificate(
    at: &CertificatePlaces,
    within: &TbsCertificatePlaces,
    field: &str,
) -> Place {
    match field {
        "tbsCertificate" => at.tbs_certificate,
        "signatureAlgorithm" => at.signature_algorithm,
        "version" => within.version,
        "serialNumber" => within.serial_number,
        "issuer" => within.issuer,
        "validity" => within.validity,
        "subject" => within.subject,
        "extensions" => within.extensions,
        _ => nowhere(),
    }
}

/// Returns the byte range of the list's field with this name.
fn place_in_list(at: &CertificateListPlaces, within: &TbsCertListPlaces, field: &str) -> Place {
    match field {
        "tbsCertList" => at.tbs_cert_list,
        "signatureAlgorithm" => at.signature_algorithm,
        "version" => within.version,
        "issuer" => within.issuer,
        "nextUpdate" => within.next_update,
        "revokedCertificates" => within.revoked_certificates,
        "crlExtensions" => within.crl_extensions,
        _ => nowhere(),
    }
}

/// Returns the byte range of what breaks a rule: a field, or an extension in the list of
/// extensions that follows its tag.
fn place_of(
    printer: &Printer<'_>,
    field: Place,
    list: &Place,
    extensions: Option<&Extensions<'_>>,
    finding: &Finding,
) -> Place {
    match extensions {
        _ if finding.extension.is_empty() => field,
        Some(some) => place_of_extension(printer, list, some, finding.extension),
        None => *list,
    }
}

/// Returns the byte range of the first extension with this identifier, or of the list if there is
/// none.
fn place_of_extension(
    printer: &Printer<'_>,
    list: &Place,
    extensions: &Extensions<'_>,
    identifier: &[u8],
) -> Place {
    let mut places = printer.items(&printer.contents_of(*list));
    for item in extensions.items().iter(printer.alloc) {
        let place = places.next_item().unwrap_or(nowhere());
        match item {
            Ok(extension) if extension.extn_id().as_bytes() == identifier => return place,
            _ => {}
        }
    }
    *list
}

/// Returns the finding for a field that breaks a rule.
fn of_field(field: &'static str, words: &'static str) -> Finding {
    Finding {
        field,
        extension: &[],
        words,
    }
}

fn is_critical(field: &'static str, extension: &'static [u8]) -> Finding {
    Finding {
        field,
        extension,
        words: "is critical",
    }
}

fn is_not_critical(field: &'static str, extension: &'static [u8]) -> Finding {
    Finding {
        field,
        extension,
        words: "is not critical",
    }
}

/// Returns the finding for an extension that breaks a rule.
fn of_extension(field: &'static str, extension: &'static [u8], words: &'static str) -> Finding {
    Finding {
        field,
        extension,
        words,
    }
}

/// Returns the finding for a rule that a certificate breaks.
fn certificate_finding(rule: CertificateRule) -> Finding {
    match rule {
        CertificateRule::AlgorithmsAgree => {
            of_field("signatureAlgorithm", "is not the algorithm of signature")
        }
        CertificateRule::ExtensionsInVersion3 => {
            of_field("extensions", "stand in a version other than 3")
        }
        CertificateRule::SerialNumberIsPositive => of_field("serialNumber", "is not positive"),
        CertificateRule::SerialNumberHasAtMost20Octets => {
            of_field("serialNumber", "has more than 20 octets")
        }
        CertificateRule::IssuerIsNotEmpty => of_field("issuer", "is empty"),
        CertificateRule::EmptySubjectHasCriticalAltName => {
            of_field("subject", "is empty, and no subjectAltName is critical")
        }
        CertificateRule::UniqueIdentifiersInVersion2 => {
            of_field("version", "is 1, and a unique identifier is there")
        }
        CertificateRule::ExtensionsStandOnce => of_field("extensions", "have one twice"),
        CertificateRule::BasicConstraintsOfCaIsCritical => {
            is_not_critical("basicConstraints", &ID_CE_BASIC_CONSTRAINTS)
        }
        _ => certificate_field(rule),
    }
}

fn certificate_field(rule: CertificateRule) -> Finding {
    match rule {
        CertificateRule::VersionIsKnown => of_field("version", "is neither 1, 2 nor 3"),
        CertificateRule::ValidityIsNotEmpty => of_field("validity", "ends before it begins"),
        CertificateRule::DatesThrough2049AreUtcTimes => {
            of_field("validity", "has a date through 2049 as a GeneralizedTime")
        }
        CertificateRule::SubjectOfCaIsNotEmpty => of_field("subject", "of a CA is empty"),
        CertificateRule::TextsHaveSizes => of_field(
            "tbsCertificate",
            "has a name with a text that is too long or too short",
        ),
        CertificateRule::TextsHaveStringTypes => {
            of_field(
                "tbsCertificate",
                "has a name with a text in another string type",
            )
        }
        CertificateRule::PrintableStringsHaveTheirCharacters => of_field(
            "tbsCertificate",
            "has a name with a PrintableString of other characters",
        ),
        CertificateRule::CurvesHaveNoParameters => of_field(
            "tbsCertificate",
            "has parameters of an algorithm of RFC 8410",
        ),
        _ => certificate_name(rule),
    }
}

fn certificate_name(rule: CertificateRule) -> Finding {
    match rule {
        CertificateRule::MailboxesHaveSyntax => {
            of_field("extensions", "have an rfc822Name that is no mailbox")
        }
        CertificateRule::DnsNamesHaveSyntax => {
            of_field("extensions", "have a dNSName that is no name of a host")
        }
        CertificateRule::UrisHaveSchemes => {
            of_field(
                "extensions",
                "have a URI with no scheme, or nothing after it",
            )
        }
        CertificateRule::AddressesHave4Or16Octets => of_field(
            "extensions",
            "have an iPAddress of neither 4 nor 16 octets",
        ),
        _ => certificate_usage(rule),
    }
}

fn certificate_usage(rule: CertificateRule) -> Finding {
    let authority = "authorityKeyIdentifier";
    match rule {
        CertificateRule::CaHasSubjectKeyIdentifier => of_extension(
            "subjectKeyIdentifier",
            &ID_CE_SUBJECT_KEY_IDENTIFIER,
            "of a CA is absent",
        ),
        CertificateRule::AuthorityHasKeyIdentifier => of_extension(
            authority,
            &ID_CE_AUTHORITY_KEY_IDENTIFIER,
            "has no keyIdentifier",
        ),
        CertificateRule::AuthorityIssuerHasSerialNumber => of_extension(
            authority,
            &ID_CE_AUTHORITY_KEY_IDENTIFIER,
            "has an issuer or a serial number alone",
        ),
        CertificateRule::CaHasKeyUsage => {
            of_extension("keyUsage", &ID_CE_KEY_USAGE, "of a CA is absent")
        }
        CertificateRule::KeyUsageHasABit => {
            of_extension("keyUsage", &ID_CE_KEY_USAGE, "has no bit that is set")
        }
        CertificateRule::KeyCertSignOnlyInCa => of_extension(
            "keyUsage",
            &ID_CE_KEY_USAGE,
            "has keyCertSign, and cA is not TRUE",
        ),
        CertificateRule::PathLengthOnlyInCa => of_extension(
            "basicConstraints",
            &ID_CE_BASIC_CONSTRAINTS,
            "has pathLenConstraint without cA and keyCertSign",
        ),
        _ => certificate_constraint(rule),
    }
}

fn certificate_constraint(rule: CertificateRule) -> Finding {
    let names = "nameConstraints";
    match rule {
        CertificateRule::NameConstraintsOnlyInCa => of_extension(
            names,
            &ID_CE_NAME_CONSTRAINTS,
            "is there, and cA is not TRUE",
        ),
        CertificateRule::NameConstraintsIsNotEmpty => {
            of_extension(names, &ID_CE_NAME_CONSTRAINTS, "is empty")
        }
        CertificateRule::NameConstraintsHasNoDistances => of_extension(
            names,
            &ID_CE_NAME_CONSTRAINTS,
            "has a minimum or a maximum",
        ),
        CertificateRule::ConstrainedAddressesHave8Or32Octets => of_extension(
            names,
            &ID_CE_NAME_CONSTRAINTS,
            "has an iPAddress of neither 8 nor 32 octets",
        ),
        CertificateRule::PolicyConstraintsIsNotEmpty => {
            of_extension("policyConstraints", &ID_CE_POLICY_CONSTRAINTS, "is empty")
        }
        CertificateRule::PoliciesStandOnce => of_extension(
            "certificatePolicies",
            &ID_CE_CERTIFICATE_POLICIES,
            "has a policy twice",
        ),
        CertificateRule::AnyPolicyIsNotMapped => {
            of_extension("policyMappings", &ID_CE_POLICY_MAPPINGS, "maps anyPolicy")
        }
        CertificateRule::PointsHaveNames => of_extension(
            "cRLDistributionPoints",
            &ID_CE_CRL_DISTRIBUTION_POINTS,
            "has a point with no distributionPoint and no cRLIssuer",
        ),
        _ => certificate_criticality(rule),
    }
}

fn certificate_criticality(rule: CertificateRule) -> Finding {
    match rule {
        CertificateRule::AuthorityKeyIdentifierIsNotCritical => {
            is_critical("authorityKeyIdentifier", &ID_CE_AUTHORITY_KEY_IDENTIFIER)
        }
        CertificateRule::SubjectKeyIdentifierIsNotCritical => {
            is_critical("subjectKeyIdentifier", &ID_CE_SUBJECT_KEY_IDENTIFIER)
        }
        CertificateRule::SubjectDirectoryAttributesIsNotCritical => {
            is_critical(
                "subjectDirectoryAttributes",
                &ID_CE_SUBJECT_DIRECTORY_ATTRIBUTES,
            )
        }
        CertificateRule::FreshestCrlIsNotCritical => {
            is_critical("freshestCRL", &ID_CE_FRESHEST_CRL)
        }
        CertificateRule::AuthorityInfoAccessIsNotCritical => {
            is_critical("authorityInfoAccess", &ID_PE_AUTHORITY_INFO_ACCESS)
        }
        CertificateRule::SubjectInfoAccessIsNotCritical => {
            is_critical("subjectInfoAccess", &ID_PE_SUBJECT_INFO_ACCESS)
        }
        CertificateRule::NameConstraintsIsCritical => {
            is_not_critical("nameConstraints", &ID_CE_NAME_CONSTRAINTS)
        }
        CertificateRule::PolicyConstraintsIsCritical => {
            is_not_critical("policyConstraints", &ID_CE_POLICY_CONSTRAINTS)
        }
        _ => is_not_critical("inhibitAnyPolicy", &ID_CE_INHIBIT_ANY_POLICY),
    }
}

/// Returns the finding for a rule that a list breaks.
fn list_finding(rule: ListRule) -> Finding {
    match rule {
        ListRule::AlgorithmsAgree => {
            of_field("signatureAlgorithm", "is not the algorithm of signature")
        }
        ListRule::ExtensionsInVersion2 => {
            of_field("version", "is not 2, and there are extensions")
        }
        ListRule::IssuerIsNotEmpty => of_field("issuer", "is empty"),
        ListRule::NextUpdateIsThere => of_field("nextUpdate", "is absent"),
        ListRule::EmptyListIsAbsent => of_field("revokedCertificates", "has no entry"),
        ListRule::ExtensionsStandOnce => of_field("crlExtensions", "have one twice"),
        ListRule::ReasonCodeIsNotCritical => {
            of_field("revokedCertificates", "has a critical reasonCode")
        }
        ListRule::InvalidityDateIsNotCritical => {
            of_field("revokedCertificates", "has a critical invalidityDate")
        }
        ListRule::CertificateIssuerIsCritical => of_field(
            "revokedCertificates",
            "has a certificateIssuer that is not critical",
        ),
        _ => list_value(rule),
    }
}

fn list_value(rule: ListRule) -> Finding {
    match rule {
        ListRule::VersionIs2 => of_field("version", "is not 2"),
        ListRule::DatesThrough2049AreUtcTimes => {
            of_field(
                "tbsCertList",
                "has a date through 2049 as a GeneralizedTime",
            )
        }
        ListRule::AuthorityHasKeyIdentifier => of_extension(
            "authorityKeyIdentifier",
            &ID_CE_AUTHORITY_KEY_IDENTIFIER,
            "has no keyIdentifier",
        ),
        ListRule::EntryExtensionsStandOnce => {
            of_field(
                "revokedCertificates",
                "has an entry with an extension twice",
            )
        }
        ListRule::RemoveFromCrlOnlyInDelta => of_field(
            "revokedCertificates",
            "has removeFromCRL, and the list is no delta list",
        ),
        _ => list_point(rule),
    }
}

fn list_point(rule: ListRule) -> Finding {
    let point = "issuingDistributionPoint";
    match rule {
        ListRule::CrlNumberIsThere => of_extension("cRLNumber", &ID_CE_CRL_NUMBER, "is absent"),
        ListRule::CrlNumberHasAtMost20Octets => of_extension(
            "cRLNumber",
            &ID_CE_CRL_NUMBER,
            "is negative or has more than 20 octets",
        ),
        ListRule::IssuingDistributionPointIsNotEmpty => {
            of_extension(point, &ID_CE_ISSUING_DISTRIBUTION_POINT, "is empty")
        }
        ListRule::IssuingDistributionPointHasOneKind => of_extension(
            point,
            &ID_CE_ISSUING_DISTRIBUTION_POINT,
            "has two kinds of certificates",
        ),
        _ => list_criticality(rule),
    }
}

fn list_criticality(rule: ListRule) -> Finding {
    match rule {
        ListRule::CrlNumberIsNotCritical => is_critical("cRLNumber", &ID_CE_CRL_NUMBER),
        ListRule::DeltaCrlIndicatorIsCritical => {
            is_not_critical("deltaCRLIndicator", &ID_CE_DELTA_CRL_INDICATOR)
        }
        ListRule::IssuingDistributionPointIsCritical => {
            is_not_critical(
                "issuingDistributionPoint",
                &ID_CE_ISSUING_DISTRIBUTION_POINT,
            )
        }
        ListRule::FreshestCrlIsNotCritical => is_critical("freshestCRL", &ID_CE_FRESHEST_CRL),
        _ => is_critical("authorityInfoAccess", &ID_PE_AUTHORITY_INFO_ACCESS),
    }
}
