//! The components of the types of `ocsp`.
//!
//! Made by tools/asn1.

use super::{Component, Part};

pub(super) static OCSP_REQUEST: [Component; 2] = [
    Component("tbsRequest", None, Part::TbsRequest),
    Component("optionalSignature", Some(0xa0), Part::ExplicitSignature),
];

pub(super) static TBS_REQUEST: [Component; 4] = [
    Component("version", Some(0xa0), Part::Value),
    Component("requestorName", Some(0xa1), Part::ExplicitGeneralName),
    Component("requestList", None, Part::Requests),
    Component("requestExtensions", Some(0xa2), Part::ExplicitExtensions),
];

pub(super) static REQUESTS: [Component; 1] = [Component("", None, Part::Request)];

pub(super) static REQUEST: [Component; 2] = [
    Component("reqCert", None, Part::CertId),
    Component(
        "singleRequestExtensions",
        Some(0xa0),
        Part::ExplicitExtensions,
    ),
];

pub(super) static CERT_ID: [Component; 4] = [
    Component("hashAlgorithm", None, Part::AlgorithmIdentifier),
    Component("issuerNameHash", None, Part::Value),
    Component("issuerKeyHash", None, Part::Value),
    Component("serialNumber", None, Part::Value),
];

pub(super) static EXPLICIT_SIGNATURE: [Component; 1] = [Component("", None, Part::Signature)];

pub(super) static SIGNATURE: [Component; 3] = [
    Component("signatureAlgorithm", None, Part::AlgorithmIdentifier),
    Component("signature", None, Part::Value),
    Component("certs", Some(0xa0), Part::ExplicitCertificates),
];

pub(super) static EXPLICIT_CERTIFICATES: [Component; 1] = [Component("", None, Part::Certificates)];

pub(super) static CERTIFICATES: [Component; 1] = [Component("", None, Part::Certificate)];

pub(super) static OCSP_RESPONSE: [Component; 2] = [
    Component("responseStatus", None, Part::Value),
    Component("responseBytes", Some(0xa0), Part::ExplicitResponseBytes),
];

pub(super) static EXPLICIT_RESPONSE_BYTES: [Component; 1] = [Component(
    "",
    None,
    Part::ResponseBytes,
)];

pub(super) static RESPONSE_BYTES: [Component; 2] = [
    Component("responseType", None, Part::Value),
    Component("response", None, Part::Value),
];

pub(super) static BASIC_OCSP_RESPONSE: [Component; 4] = [
    Component("tbsResponseData", None, Part::ResponseData),
    Component("signatureAlgorithm", None, Part::AlgorithmIdentifier),
    Component("signature", None, Part::Value),
    Component("certs", Some(0xa0), Part::ExplicitCertificates),
];

pub(super) static RESPONSE_DATA: [Component; 6] = [
    Component("version", Some(0xa0), Part::Value),
    Component("responderID", Some(0xa1), Part::ExplicitRdnSequence),
    Component("responderID", Some(0xa2), Part::Value),
    Component("producedAt", None, Part::Value),
    Component("responses", None, Part::SingleResponses),
    Component("responseExtensions", Some(0xa1), Part::ExplicitExtensions),
];

pub(super) static SINGLE_RESPONSES: [Component; 1] = [Component("", None, Part::SingleResponse)];

pub(super) static SINGLE_RESPONSE: [Component; 7] = [
    Component("certID", None, Part::CertId),
    Component("certStatus", Some(0x80), Part::Value),
    Component("certStatus", Some(0xa1), Part::RevokedInfo),
    Component("certStatus", Some(0x82), Part::Value),
    Component("thisUpdate", None, Part::Value),
    Component("nextUpdate", Some(0xa0), Part::Value),
    Component("singleExtensions", Some(0xa1), Part::ExplicitExtensions),
];

pub(super) static REVOKED_INFO: [Component; 2] = [
    Component("revocationTime", None, Part::Value),
    Component("revocationReason", Some(0xa0), Part::Value),
];

pub(super) static CRL_ID: [Component; 3] = [
    Component("crlUrl", Some(0xa0), Part::Value),
    Component("crlNum", Some(0xa1), Part::Value),
    Component("crlTime", Some(0xa2), Part::Value),
];

pub(super) static ACCEPTABLE_RESPONSES: [Component; 1] = [Component("", None, Part::Value)];

pub(super) static SERVICE_LOCATOR: [Component; 2] = [
    Component("issuer", None, Part::RdnSequence),
    Component("locator", None, Part::AuthorityInfoAccessSyntax),
];

pub(super) static PREFERRED_SIGNATURE_ALGORITHMS: [Component; 1] = [Component(
    "",
    None,
    Part::PreferredSignatureAlgorithm,
)];

pub(super) static PREFERRED_SIGNATURE_ALGORITHM: [Component; 2] = [
    Component("sigIdentifier", None, Part::AlgorithmIdentifier),
    Component("certIdentifier", Some(0x30), Part::AlgorithmIdentifier),
];
