//! The messages by their names.
ghost use Rattle.std.specs.Prelude.{◌≡◌};
ghost use Rattle.der_lines.specs.Tables.{AnswersAs};
ghost use Rattle.certview_names.specs.Messages.{message_of, all_messages, all_values, certificate_messages, list_messages, key_messages, name_messages, request_messages, parameter_messages, status_messages, signed_messages, recipient_messages, stamp_messages, key_values, subject_values, policy_values, access_values, list_values, entry_values};

use der_asn1_types::Error;
use der_asn1_types::asn1::Enumerated;
use der_cms::cms::{ContentInfo, DigestedData, EncryptedData, SignedData, SignerInfo};
use der_enveloped::authenticated::AuthenticatedData;
use der_enveloped::enveloped::EnvelopedData;
use der_extensions::extension::{
    AuthorityInfoAccessSyntax, AuthorityKeyIdentifier, BaseCrlNumber, BasicConstraints,
    CertificateIssuer, CertificatePolicies, CrlDistributionPoints, CrlNumber, CrlReason,
    ExtKeyUsageSyntax, FreshestCrl, GeneralName, HoldInstructionCode, InhibitAnyPolicy,
    InvalidityDate, IssuerAltName, IssuingDistributionPoint, KeyUsage, NameConstraints,
    PolicyConstraints, PolicyMappings, PrivateKeyUsagePeriod, SubjectAltName,
    SubjectDirectoryAttributes, SubjectInfoAccessSyntax, SubjectKeyIdentifier,
};
use der_lines::{KeptWriter, Names, choose};
use der_ocsp::ocsp::{BasicOcspResponse, CertId, OcspRequest, OcspResponse, SingleResponse};
use der_pkcs::algorithm::{DhParameter, DomainParameters, DssParms};
use der_pkcs::encryption::{EncryptedPrivateKeyInfo, Pbes2Params, Pbkdf2Params};
use der_pkcs::pkcs12::Pfx;
use der_pkcs::request::{CertificationRequest, CertificationRequestInfo};
use der_pkix::AlgorithmIdentifier;
use der_pkix::certificate::{
    Certificate, Extension, Extensions, SubjectPublicKeyInfo, TbsCertificate,
};
use der_pkix::crl::{CertificateList, RevokedCertificate, TbsCertList};
use der_pkix::key::{EcParameters, EcPrivateKey, PrivateKeyInfo, RsaPrivateKey, RsaPublicKey};
use der_pkix::name::{Attribute, Name, RelativeDistinguishedName};
use der_time_stamp::time_stamp::{TimeStampReq, TimeStampResp, TstInfo};
use std::alloc::Global;

/// The names of messages and of the values of extensions.
pub struct MessageNames;

impl Names for MessageNames {
    ghost table = { message_of };

    #[tactic(auto, unfolding(crate::specs::Messages::message_of))]
    fn put_canonical_of_name(
        alloc: Global,
        name: &[u8],
        octets: &[u8],
        encoding: &mut KeptWriter,
    ) -> Option<Result<(), Error>> {
        if let Some(result) = put_message(alloc, name, octets, encoding) {
            return Some(result);
        }
        put_value(alloc, name, octets, encoding)
    }
}

#[tactic(auto, unfolding(crate::specs::Messages::all_messages))]
fn put_message(
    alloc: Global,
    name: &[u8],
    octets: &[u8],
    encoding: &mut KeptWriter,
) -> Option<Result<(), Error>>
    ensures { AnswersAs (all_messages name.now) octets.now encoding.new.octets.items result }
{
    if let Some(result) = put_certificate(alloc, name, octets, encoding) {
        return Some(result);
    }
    if let Some(result) = put_list(alloc, name, octets, encoding) {
        return Some(result);
    }
    if let Some(result) = put_key(alloc, name, octets, encoding) {
        return Some(result);
    }
    if let Some(result) = put_name(alloc, name, octets, encoding) {
        return Some(result);
    }
    if let Some(result) = put_request(alloc, name, octets, encoding) {
        return Some(result);
    }
    if let Some(result) = put_parameters(alloc, name, octets, encoding) {
        return Some(result);
    }
    if let Some(result) = put_status(alloc, name, octets, encoding) {
        return Some(result);
    }
    if let Some(result) = put_signed(alloc, name, octets, encoding) {
        return Some(result);
    }
    if let Some(result) = put_recipient(alloc, name, octets, encoding) {
        return Some(result);
    }
    put_stamp(alloc, name, octets, encoding)
}

#[tactic(auto, unfolding(crate::specs::Messages::all_values))]
fn put_value(
    alloc: Global,
    name: &[u8],
    octets: &[u8],
    encoding: &mut KeptWriter,
) -> Option<Result<(), Error>>
    ensures { AnswersAs (all_values name.now) octets.now encoding.new.octets.items result }
{
    if let Some(result) = put_key_value(alloc, name, octets, encoding) {
        return Some(result);
    }
    if let Some(result) = put_subject_value(alloc, name, octets, encoding) {
        return Some(result);
    }
    if let Some(result) = put_policy_value(alloc, name, octets, encoding) {
        return Some(result);
    }
    if let Some(result) = put_access_value(alloc, name, octets, encoding) {
        return Some(result);
    }
    if let Some(result) = put_list_value(alloc, name, octets, encoding) {
        return Some(result);
    }
    put_entry_value(alloc, name, octets, encoding)
}

#[tactic(auto, unfolding(crate::specs::Messages::certificate_messages))]
fn put_certificate(
    alloc: Global,
    name: &[u8],
    octets: &[u8],
    encoding: &mut KeptWriter,
) -> Option<Result<(), Error>>
    ensures { AnswersAs (certificate_messages name.now) octets.now encoding.new.octets.items result }
{
    choose! {
        alloc, name, octets, encoding;
        "cert" => Certificate,
        "tbs" => TbsCertificate,
        "spki" => SubjectPublicKeyInfo,
        "exts" => Extensions,
        "ext" => Extension,
    }
}

#[tactic(auto, unfolding(crate::specs::Messages::list_messages))]
fn put_list(
    alloc: Global,
    name: &[u8],
    octets: &[u8],
    encoding: &mut KeptWriter,
) -> Option<Result<(), Error>>
    ensures { AnswersAs (list_messages name.now) octets.now encoding.new.octets.items result }
{
    choose! {
        alloc, name, octets, encoding;
        "crl" => CertificateList,
        "tbscrl" => TbsCertList,
        "revoked" => RevokedCertificate,
    }
}

#[tactic(auto, unfolding(crate::specs::Messages::key_messages))]
fn put_key(
    alloc: Global,
    name: &[u8],
    octets: &[u8],
    encoding: &mut KeptWriter,
) -> Option<Result<(), Error>>
    ensures { AnswersAs (key_messages name.now) octets.now encoding.new.octets.items result }
{
    choose! {
        alloc, name, octets, encoding;
        "pkcs8" => PrivateKeyInfo,
        "rsapub" => RsaPublicKey,
        "rsapriv" => RsaPrivateKey,
        "ecpriv" => EcPrivateKey,
        "ecparams" => EcParameters,
    }
}

#[tactic(auto, unfolding(crate::specs::Messages::name_messages))]
fn put_name(
    alloc: Global,
    name: &[u8],
    octets: &[u8],
    encoding: &mut KeptWriter,
) -> Option<Result<(), Error>>
    ensures { AnswersAs (name_messages name.now) octets.now encoding.new.octets.items result }
{
    choose! {
        alloc, name, octets, encoding;
        "name" => Name,
        "rdn" => RelativeDistinguishedName,
        "algid" => AlgorithmIdentifier,
        "generalname" => GeneralName,
    }
}

#[tactic(auto, unfolding(crate::specs::Messages::request_messages))]
fn put_request(
    alloc: Global,
    name: &[u8],
    octets: &[u8],
    encoding: &mut KeptWriter,
) -> Option<Result<(), Error>>
    ensures { AnswersAs (request_messages name.now) octets.now encoding.new.octets.items result }
{
    choose! {
        alloc, name, octets, encoding;
        "request" => CertificationRequest,
        "requestinfo" => CertificationRequestInfo,
        "encryptedkey" => EncryptedPrivateKeyInfo,
        "pfx" => Pfx,
    }
}

#[tactic(auto, unfolding(crate::specs::Messages::parameter_messages))]
fn put_parameters(
    alloc: Global,
    name: &[u8],
    octets: &[u8],
    encoding: &mut KeptWriter,
) -> Option<Result<(), Error>>
    ensures { AnswersAs (parameter_messages name.now) octets.now encoding.new.octets.items result }
{
    choose! {
        alloc, name, octets, encoding;
        "pbes2" => Pbes2Params,
        "pbkdf2" => Pbkdf2Params,
        "dsaparams" => DssParms,
        "dhparams" => DhParameter,
        "x942params" => DomainParameters,
    }
}

#[tactic(auto, unfolding(crate::specs::Messages::status_messages))]
fn put_status(
    alloc: Global,
    name: &[u8],
    octets: &[u8],
    encoding: &mut KeptWriter,
) -> Option<Result<(), Error>>
    ensures { AnswersAs (status_messages name.now) octets.now encoding.new.octets.items result }
{
    choose! {
        alloc, name, octets, encoding;
        "ocsprequest" => OcspRequest,
        "ocspresponse" => OcspResponse,
        "basicocsp" => BasicOcspResponse,
        "singleresponse" => SingleResponse,
        "certid" => CertId,
    }
}

#[tactic(auto, unfolding(crate::specs::Messages::signed_messages))]
fn put_signed(
    alloc: Global,
    name: &[u8],
    octets: &[u8],
    encoding: &mut KeptWriter,
) -> Option<Result<(), Error>>
    ensures { AnswersAs (signed_messages name.now) octets.now encoding.new.octets.items result }
{
    choose! {
        alloc, name, octets, encoding;
        "contentinfo" => ContentInfo,
        "signeddata" => SignedData,
        "signerinfo" => SignerInfo,
        "digesteddata" => DigestedData,
        "attribute" => Attribute,
    }
}

#[tactic(auto, unfolding(crate::specs::Messages::recipient_messages))]
fn put_recipient(
    alloc: Global,
    name: &[u8],
    octets: &[u8],
    encoding: &mut KeptWriter,
) -> Option<Result<(), Error>>
    ensures { AnswersAs (recipient_messages name.now) octets.now encoding.new.octets.items result }
{
    choose! {
        alloc, name, octets, encoding;
        "envelopeddata" => EnvelopedData,
        "encrypteddata" => EncryptedData,
        "authenticateddata" => AuthenticatedData,
    }
}

#[tactic(auto, unfolding(crate::specs::Messages::stamp_messages))]
fn put_stamp(
    alloc: Global,
    name: &[u8],
    octets: &[u8],
    encoding: &mut KeptWriter,
) -> Option<Result<(), Error>>
    ensures { AnswersAs (stamp_messages name.now) octets.now encoding.new.octets.items result }
{
    choose! {
        alloc, name, octets, encoding;
        "timestampreq" => TimeStampReq,
        "timestampresp" => TimeStampResp,
        "tstinfo" => TstInfo,
    }
}

#[tactic(auto, unfolding(crate::specs::Messages::key_values))]
fn put_key_value(
    alloc: Global,
    name: &[u8],
    octets: &[u8],
    encoding: &mut KeptWriter,
) -> Option<Result<(), Error>>
    ensures { AnswersAs (key_values name.now) octets.now encoding.new.octets.items result }
{
    choose! {
        alloc, name, octets, encoding;
        "keyusage" => KeyUsage,
        "extkeyusage" => ExtKeyUsageSyntax,
        "subjectkeyid" => SubjectKeyIdentifier,
        "authoritykeyid" => AuthorityKeyIdentifier,
        "privatekeyusageperiod" => PrivateKeyUsagePeriod,
    }
}

#[tactic(auto, unfolding(crate::specs::Messages::subject_values))]
fn put_subject_value(
    alloc: Global,
    name: &[u8],
    octets: &[u8],
    encoding: &mut KeptWriter,
) -> Option<Result<(), Error>>
    ensures { AnswersAs (subject_values name.now) octets.now encoding.new.octets.items result }
{
    choose! {
        alloc, name, octets, encoding;
        "basicconstraints" => BasicConstraints,
        "subjectaltname" => SubjectAltName,
        "issueraltname" => IssuerAltName,
        "subjectdirectoryattributes" => SubjectDirectoryAttributes,
        "nameconstraints" => NameConstraints,
    }
}

#[tactic(auto, unfolding(crate::specs::Messages::policy_values))]
fn put_policy_value(
    alloc: Global,
    name: &[u8],
    octets: &[u8],
    encoding: &mut KeptWriter,
) -> Option<Result<(), Error>>
    ensures { AnswersAs (policy_values name.now) octets.now encoding.new.octets.items result }
{
    choose! {
        alloc, name, octets, encoding;
        "certificatepolicies" => CertificatePolicies,
        "policymappings" => PolicyMappings,
        "policyconstraints" => PolicyConstraints,
        "inhibitanypolicy" => InhibitAnyPolicy,
    }
}

#[tactic(auto, unfolding(crate::specs::Messages::access_values))]
fn put_access_value(
    alloc: Global,
    name: &[u8],
    octets: &[u8],
    encoding: &mut KeptWriter,
) -> Option<Result<(), Error>>
    ensures { AnswersAs (access_values name.now) octets.now encoding.new.octets.items result }
{
    choose! {
        alloc, name, octets, encoding;
        "crldistributionpoints" => CrlDistributionPoints,
        "freshestcrl" => FreshestCrl,
        "authorityinfoaccess" => AuthorityInfoAccessSyntax,
        "subjectinfoaccess" => SubjectInfoAccessSyntax,
    }
}

#[tactic(auto, unfolding(crate::specs::Messages::list_values))]
fn put_list_value(
    alloc: Global,
    name: &[u8],
    octets: &[u8],
    encoding: &mut KeptWriter,
) -> Option<Result<(), Error>>
    ensures { AnswersAs (list_values name.now) octets.now encoding.new.octets.items result }
{
    choose! {
        alloc, name, octets, encoding;
        "crlnumber" => CrlNumber,
        "deltacrlindicator" => BaseCrlNumber,
        "issuingdistributionpoint" => IssuingDistributionPoint,
    }
}

#[tactic(auto, unfolding(crate::specs::Messages::entry_values))]
fn put_entry_value(
    alloc: Global,
    name: &[u8],
    octets: &[u8],
    encoding: &mut KeptWriter,
) -> Option<Result<(), Error>>
    ensures { AnswersAs (entry_values name.now) octets.now encoding.new.octets.items result }
{
    choose! {
        alloc, name, octets, encoding;
        "crlreason" => Enumerated<CrlReason>,
        "invaliditydate" => InvalidityDate,
        "certificateissuer" => CertificateIssuer,
        "holdinstructioncode" => HoldInstructionCode,
    }
}
