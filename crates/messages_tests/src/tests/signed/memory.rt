//! Reading a type of `der_ocsp` or of `der_cms` takes no memory.

use crate::tests::holds;
use der_asn1_types::TakesMemory;
use der_asn1_types::asn1::Enumerated;
use der_cms::cms::{
    CertificateChoices, CertificateSet, CmsVersion, ContentInfo, ContentType, Countersignature,
    DigestedData, EncapsulatedContentInfo, EncryptedContentInfo, EncryptedData,
    IssuerAndSerialNumber, MessageDigest, OtherCertificateFormat, OtherRevocationInfoFormat,
    RevocationInfoChoice, RevocationInfoChoices, SignedAttributes, SignedData, SignerIdentifier,
    SignerInfo, SigningTime, UnprotectedAttributes, UnsignedAttributes,
};
use der_cms::ess::{
    EssCertId, EssCertIdv2, Hash, IssuerSerial, SigningCertificate, SigningCertificateV2,
};
use der_ocsp::ocsp::{
    AcceptableResponses, ArchiveCutoff, BasicOcspResponse, CertId, CertStatus, Certificates, CrlId,
    ExtendedRevoke, KeyHash, Nonce, OcspRequest, OcspResponse, OcspResponseStatus,
    PreferredSignatureAlgorithm, PreferredSignatureAlgorithms, Request, Requests, ResponderId,
    ResponseBytes, ResponseData, RevokedInfo, ServiceLocator, Signature, SingleResponse,
    SingleResponses, TbsRequest, UnknownInfo, Version,
};

#[test]
fn no_request_for_a_status_takes_memory(rt: HostRuntime) {
    holds(&rt, !<CertId as TakesMemory>::TAKES_MEMORY);
    holds(&rt, !<Certificates as TakesMemory>::TAKES_MEMORY);
    holds(&rt, !<OcspRequest as TakesMemory>::TAKES_MEMORY);
    holds(&rt, !<Request as TakesMemory>::TAKES_MEMORY);
    holds(&rt, !<Requests as TakesMemory>::TAKES_MEMORY);
    holds(&rt, !<Signature as TakesMemory>::TAKES_MEMORY);
    holds(&rt, !<TbsRequest as TakesMemory>::TAKES_MEMORY);
    holds(&rt, !<Version as TakesMemory>::TAKES_MEMORY);
}

#[test]
fn no_answer_about_a_status_takes_memory(rt: HostRuntime) {
    holds(&rt, !<BasicOcspResponse as TakesMemory>::TAKES_MEMORY);
    holds(&rt, !<CertStatus as TakesMemory>::TAKES_MEMORY);
    holds(&rt, !<KeyHash as TakesMemory>::TAKES_MEMORY);
    holds(&rt, !<OcspResponse as TakesMemory>::TAKES_MEMORY);
    holds(
        &rt,
        !<Enumerated<OcspResponseStatus> as TakesMemory>::TAKES_MEMORY,
    );
    holds(&rt, !<ResponderId as TakesMemory>::TAKES_MEMORY);
    holds(&rt, !<ResponseBytes as TakesMemory>::TAKES_MEMORY);
    holds(&rt, !<ResponseData as TakesMemory>::TAKES_MEMORY);
    holds(&rt, !<RevokedInfo as TakesMemory>::TAKES_MEMORY);
    holds(&rt, !<SingleResponse as TakesMemory>::TAKES_MEMORY);
    holds(&rt, !<SingleResponses as TakesMemory>::TAKES_MEMORY);
    holds(&rt, !<UnknownInfo as TakesMemory>::TAKES_MEMORY);
}

#[test]
fn no_value_of_an_extension_takes_memory(rt: HostRuntime) {
    holds(&rt, !<AcceptableResponses as TakesMemory>::TAKES_MEMORY);
    holds(&rt, !<ArchiveCutoff as TakesMemory>::TAKES_MEMORY);
    holds(&rt, !<CrlId as TakesMemory>::TAKES_MEMORY);
    holds(&rt, !<ExtendedRevoke as TakesMemory>::TAKES_MEMORY);
    holds(&rt, !<Nonce as TakesMemory>::TAKES_MEMORY);
    holds(
        &rt,
        !<PreferredSignatureAlgorithm as TakesMemory>::TAKES_MEMORY,
    );
    holds(
        &rt,
        !<PreferredSignatureAlgorithms as TakesMemory>::TAKES_MEMORY,
    );
    holds(&rt, !<ServiceLocator as TakesMemory>::TAKES_MEMORY);
}

#[test]
fn no_signed_message_takes_memory(rt: HostRuntime) {
    holds(&rt, !<CertificateChoices as TakesMemory>::TAKES_MEMORY);
    holds(&rt, !<CertificateSet as TakesMemory>::TAKES_MEMORY);
    holds(&rt, !<CmsVersion as TakesMemory>::TAKES_MEMORY);
    holds(&rt, !<ContentInfo as TakesMemory>::TAKES_MEMORY);
    holds(&rt, !<ContentType as TakesMemory>::TAKES_MEMORY);
    holds(&rt, !<EncapsulatedContentInfo as TakesMemory>::TAKES_MEMORY);
    holds(&rt, !<OtherCertificateFormat as TakesMemory>::TAKES_MEMORY);
    holds(
        &rt,
        !<OtherRevocationInfoFormat as TakesMemory>::TAKES_MEMORY,
    );
    holds(&rt, !<RevocationInfoChoice as TakesMemory>::TAKES_MEMORY);
    holds(&rt, !<RevocationInfoChoices as TakesMemory>::TAKES_MEMORY);
    holds(&rt, !<SignedData as TakesMemory>::TAKES_MEMORY);
}

#[test]
fn no_signer_takes_memory(rt: HostRuntime) {
    holds(&rt, !<Countersignature as TakesMemory>::TAKES_MEMORY);
    holds(&rt, !<IssuerAndSerialNumber as TakesMemory>::TAKES_MEMORY);
    holds(&rt, !<MessageDigest as TakesMemory>::TAKES_MEMORY);
    holds(&rt, !<SignedAttributes as TakesMemory>::TAKES_MEMORY);
    holds(&rt, !<SignerIdentifier as TakesMemory>::TAKES_MEMORY);
    holds(&rt, !<SignerInfo as TakesMemory>::TAKES_MEMORY);
    holds(&rt, !<SigningTime as TakesMemory>::TAKES_MEMORY);
    holds(&rt, !<UnsignedAttributes as TakesMemory>::TAKES_MEMORY);
}

#[test]
fn no_digested_or_encrypted_message_takes_memory(rt: HostRuntime) {
    holds(&rt, !<DigestedData as TakesMemory>::TAKES_MEMORY);
    holds(&rt, !<EncryptedContentInfo as TakesMemory>::TAKES_MEMORY);
    holds(&rt, !<EncryptedData as TakesMemory>::TAKES_MEMORY);
    holds(&rt, !<UnprotectedAttributes as TakesMemory>::TAKES_MEMORY);
}

#[test]
fn no_name_of_a_certificate_takes_memory(rt: HostRuntime) {
    holds(&rt, !<EssCertId as TakesMemory>::TAKES_MEMORY);
    holds(&rt, !<EssCertIdv2 as TakesMemory>::TAKES_MEMORY);
    holds(&rt, !<Hash as TakesMemory>::TAKES_MEMORY);
    holds(&rt, !<IssuerSerial as TakesMemory>::TAKES_MEMORY);
    holds(&rt, !<SigningCertificate as TakesMemory>::TAKES_MEMORY);
    holds(&rt, !<SigningCertificateV2 as TakesMemory>::TAKES_MEMORY);
}
