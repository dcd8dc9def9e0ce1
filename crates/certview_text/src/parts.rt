//! The components of each type, by their names.
//!
//! Made by tools/asn1.

mod algorithm;
mod authenticated;
mod certificate;
mod cms;
mod crl;
mod encryption;
mod enveloped;
mod ess;
mod extension;
mod key;
mod name;
mod ocsp;
mod pkcs12;
mod request;
mod time_stamp;

/// The part that octets are: a type with components, a list, or a value without components.
#[derive(Clone, Copy)]
pub enum Part {
    /// `Attribute`.
    Attribute,
    /// `AttributeTypeAndValue`.
    AttributeTypeAndValue,
    /// `RDNSequence`.
    RdnSequence,
    /// `RelativeDistinguishedName`.
    RelativeDistinguishedName,
    /// `Certificate`.
    Certificate,
    /// `TBSCertificate`.
    TbsCertificate,
    /// `AlgorithmIdentifier`.
    AlgorithmIdentifier,
    /// `Validity`.
    Validity,
    /// `SubjectPublicKeyInfo`.
    SubjectPublicKeyInfo,
    /// `Extensions` after an explicit tag.
    ExplicitExtensions,
    /// `Extensions`.
    Extensions,
    /// `Extension`.
    Extension,
    /// `CertificateList`.
    CertificateList,
    /// `TBSCertList`.
    TbsCertList,
    /// SEQUENCE OF `RevokedCertificate`.
    SequenceOfRevokedCertificate,
    /// `RevokedCertificate`.
    RevokedCertificate,
    /// `OneAsymmetricKey`.
    OneAsymmetricKey,
    /// `Attributes`.
    Attributes,
    /// `RSAPublicKey`.
    RsaPublicKey,
    /// `RSAPrivateKey`.
    RsaPrivateKey,
    /// `OtherPrimeInfos`.
    OtherPrimeInfos,
    /// `OtherPrimeInfo`.
    OtherPrimeInfo,
    /// `ECPrivateKey`.
    EcPrivateKey,
    /// `ECParameters` after an explicit tag.
    ExplicitEcParameters,
    /// `SpecifiedECDomain`.
    SpecifiedEcDomain,
    /// `FieldID`.
    FieldId,
    /// `Curve`.
    Curve,
    /// `OCSPRequest`.
    OcspRequest,
    /// `TBSRequest`.
    TbsRequest,
    /// `GeneralName` after an explicit tag.
    ExplicitGeneralName,
    /// `AnotherName`.
    AnotherName,
    /// `RDNSequence` after an explicit tag.
    ExplicitRdnSequence,
    /// `Requests`.
    Requests,
    /// `Request`.
    Request,
    /// `CertID`.
    CertId,
    /// `Signature` after an explicit tag.
    ExplicitSignature,
    /// `Signature`.
    Signature,
    /// `Certificates` after an explicit tag.
    ExplicitCertificates,
    /// `Certificates`.
    Certificates,
    /// `OCSPResponse`.
    OcspResponse,
    /// `ResponseBytes` after an explicit tag.
    ExplicitResponseBytes,
    /// `ResponseBytes`.
    ResponseBytes,
    /// `BasicOCSPResponse`.
    BasicOcspResponse,
    /// `ResponseData`.
    ResponseData,
    /// `SingleResponses`.
    SingleResponses,
    /// `SingleResponse`.
    SingleResponse,
    /// `RevokedInfo`.
    RevokedInfo,
    /// `CrlID`.
    CrlId,
    /// `AcceptableResponses`.
    AcceptableResponses,
    /// `ServiceLocator`.
    ServiceLocator,
    /// `AuthorityInfoAccessSyntax`.
    AuthorityInfoAccessSyntax,
    /// `AccessDescription`.
    AccessDescription,
    /// `PreferredSignatureAlgorithms`.
    PreferredSignatureAlgorithms,
    /// `PreferredSignatureAlgorithm`.
    PreferredSignatureAlgorithm,
    /// `ContentInfo`.
    CmsContentInfo,
    /// `SignedData`.
    SignedData,
    /// SET OF `AlgorithmIdentifier`.
    SetOfAlgorithmIdentifier,
    /// `EncapsulatedContentInfo`.
    EncapsulatedContentInfo,
    /// `CertificateSet`.
    CertificateSet,
    /// `RevocationInfoChoices`.
    RevocationInfoChoices,
    /// SET OF `SignerInfo`.
    SetOfSignerInfo,
    /// `SignerInfo`.
    SignerInfo,
    /// `IssuerAndSerialNumber`.
    IssuerAndSerialNumber,
    /// `SignedAttributes`.
    SignedAttributes,
    /// `UnsignedAttributes`.
    UnsignedAttributes,
    /// `DigestedData`.
    DigestedData,
    /// `EncryptedData`.
    EncryptedData,
    /// `EncryptedContentInfo`.
    EncryptedContentInfo,
    /// `SigningCertificate`.
    SigningCertificate,
    /// SEQUENCE OF `ESSCertID`.
    SequenceOfEssCertId,
    /// `ESSCertID`.
    EssCertId,
    /// `IssuerSerial`.
    IssuerSerial,
    /// `GeneralNames`.
    GeneralNames,
    /// SEQUENCE OF `PolicyInformation`.
    SequenceOfPolicyInformation,
    /// `PolicyInformation`.
    PolicyInformation,
    /// SEQUENCE OF `PolicyQualifierInfo`.
    SequenceOfPolicyQualifierInfo,
    /// `PolicyQualifierInfo`.
    PolicyQualifierInfo,
    /// `SigningCertificateV2`.
    SigningCertificateV2,
    /// SEQUENCE OF `ESSCertIDv2`.
    SequenceOfEssCertIdv2,
    /// `ESSCertIDv2`.
    EssCertIdv2,
    /// `EnvelopedData`.
    EnvelopedData,
    /// `OriginatorInfo`.
    OriginatorInfo,
    /// `RecipientInfos`.
    RecipientInfos,
    /// `KeyTransRecipientInfo`.
    KeyTransRecipientInfo,
    /// `KeyAgreeRecipientInfo`.
    KeyAgreeRecipientInfo,
    /// `OriginatorIdentifierOrKey` after an explicit tag.
    ExplicitOriginatorIdentifierOrKey,
    /// `RecipientEncryptedKeys`.
    RecipientEncryptedKeys,
    /// `RecipientEncryptedKey`.
    RecipientEncryptedKey,
    /// `RecipientKeyIdentifier`.
    RecipientKeyIdentifier,
    /// `KEKRecipientInfo`.
    KekRecipientInfo,
    /// `PasswordRecipientInfo`.
    PasswordRecipientInfo,
    /// `AuthenticatedData`.
    AuthenticatedData,
    /// `TimeStampReq`.
    TimeStampReq,
    /// `MessageImprint`.
    MessageImprint,
    /// `TimeStampResp`.
    TimeStampResp,
    /// `PKIStatusInfo`.
    PkiStatusInfo,
    /// `PKIFreeText`.
    PkiFreeText,
    /// `TimeStampToken`.
    TimeStampToken,
    /// `TSTInfo`.
    TstInfo,
    /// `Accuracy`.
    Accuracy,
    /// `CertificationRequest`.
    CertificationRequest,
    /// `CertificationRequestInfo`.
    CertificationRequestInfo,
    /// `EncryptedPrivateKeyInfo`.
    EncryptedPrivateKeyInfo,
    /// `PBKDF2-params`.
    Pbkdf2Params,
    /// `PBEParameter`.
    PbeParameter,
    /// `PBES2-params`.
    Pbes2Params,
    /// `RSASSA-PSS-params`.
    RsassaPssParams,
    /// `AlgorithmIdentifier` after an explicit tag.
    ExplicitAlgorithmIdentifier,
    /// `RSAES-OAEP-params`.
    RsaesOaepParams,
    /// `ECDSA-Sig-Value`.
    EcdsaSigValue,
    /// `Dss-Parms`.
    DssParms,
    /// `DomainParameters`.
    DomainParameters,
    /// `ValidationParms`.
    ValidationParms,
    /// `DHParameter`.
    DhParameter,
    /// `PFX`.
    Pfx,
    /// `ContentInfo`.
    Pkcs12ContentInfo,
    /// `MacData`.
    MacData,
    /// `DigestInfo`.
    DigestInfo,
    /// `AuthenticatedSafe`.
    AuthenticatedSafe,
    /// `SafeContents`.
    SafeContents,
    /// `SafeBag`.
    SafeBag,
    /// `CertBag`.
    CertBag,
    /// `CRLBag`.
    CrlBag,
    /// `SecretBag`.
    SecretBag,
    /// A value without named components.
    Value,
}

/// A component: its name in the module, empty for an item of a list and for a value after an explicit tag; its
/// identifier octet, if it may be absent or is one of several; its part.
#[derive(Clone, Copy)]
pub struct Component(pub &'static str, pub Option<u8>, pub Part);

impl Part {
    /// The components, in their order; for a list one, which each item is.
    ///
    /// A component that is a CHOICE is listed once for each alternative, each time with the name of the
    /// component; one of them is present.
    pub fn components(self) -> &'static [Component] {
        match self {
            Part::Attribute => &name::ATTRIBUTE,
            Part::AttributeTypeAndValue => &name::ATTRIBUTE_TYPE_AND_VALUE,
            Part::RdnSequence => &name::RDN_SEQUENCE,
            Part::RelativeDistinguishedName => &name::RELATIVE_DISTINGUISHED_NAME,
            Part::Certificate => &certificate::CERTIFICATE,
            Part::TbsCertificate => &certificate::TBS_CERTIFICATE,
            Part::AlgorithmIdentifier => &certificate::ALGORITHM_IDENTIFIER,
            Part::Validity => &certificate::VALIDITY,
            Part::SubjectPublicKeyInfo => &certificate::SUBJECT_PUBLIC_KEY_INFO,
            Part::ExplicitExtensions => &certificate::EXPLICIT_EXTENSIONS,
            Part::Extensions => &certificate::EXTENSIONS,
            Part::Extension => &certificate::EXTENSION,
            Part::CertificateList => &crl::CERTIFICATE_LIST,
            Part::TbsCertList => &crl::TBS_CERT_LIST,
            Part::SequenceOfRevokedCertificate => &crl::SEQUENCE_OF_REVOKED_CERTIFICATE,
            Part::RevokedCertificate => &crl::REVOKED_CERTIFICATE,
            Part::OneAsymmetricKey => &key::ONE_ASYMMETRIC_KEY,
            Part::Attributes => &key::ATTRIBUTES,
            Part::RsaPublicKey => &key::RSA_PUBLIC_KEY,
            Part::RsaPrivateKey => &key::RSA_PRIVATE_KEY,
            Part::OtherPrimeInfos => &key::OTHER_PRIME_INFOS,
            Part::OtherPrimeInfo => &key::OTHER_PRIME_INFO,
            Part::EcPrivateKey => &key::EC_PRIVATE_KEY,
            Part::ExplicitEcParameters => &key::EXPLICIT_EC_PARAMETERS,
            Part::SpecifiedEcDomain => &key::SPECIFIED_EC_DOMAIN,
            Part::FieldId => &key::FIELD_ID,
            Part::Curve => &key::CURVE,
            Part::OcspRequest => &ocsp::OCSP_REQUEST,
            Part::TbsRequest => &ocsp::TBS_REQUEST,
            Part::ExplicitGeneralName => &extension::EXPLICIT_GENERAL_NAME,
            Part::AnotherName => &extension::ANOTHER_NAME,
            Part::ExplicitRdnSequence => &name::EXPLICIT_RDN_SEQUENCE,
            Part::Requests => &ocsp::REQUESTS,
            Part::Request => &ocsp::REQUEST,
            Part::CertId => &ocsp::CERT_ID,
            Part::ExplicitSignature => &ocsp::EXPLICIT_SIGNATURE,
            Part::Signature => &ocsp::SIGNATURE,
            Part::ExplicitCertificates => &ocsp::EXPLICIT_CERTIFICATES,
            Part::Certificates => &ocsp::CERTIFICATES,
            Part::OcspResponse => &ocsp::OCSP_RESPONSE,
            Part::ExplicitResponseBytes => &ocsp::EXPLICIT_RESPONSE_BYTES,
            Part::ResponseBytes => &ocsp::RESPONSE_BYTES,
            Part::BasicOcspResponse => &ocsp::BASIC_OCSP_RESPONSE,
            Part::ResponseData => &ocsp::RESPONSE_DATA,
            Part::SingleResponses => &ocsp::SINGLE_RESPONSES,
            Part::SingleResponse => &ocsp::SINGLE_RESPONSE,
            Part::RevokedInfo => &ocsp::REVOKED_INFO,
            Part::CrlId => &ocsp::CRL_ID,
            Part::AcceptableResponses => &ocsp::ACCEPTABLE_RESPONSES,
            Part::ServiceLocator => &ocsp::SERVICE_LOCATOR,
            Part::AuthorityInfoAccessSyntax => &extension::AUTHORITY_INFO_ACCESS_SYNTAX,
            Part::AccessDescription => &extension::ACCESS_DESCRIPTION,
            Part::PreferredSignatureAlgorithms => &ocsp::PREFERRED_SIGNATURE_ALGORITHMS,
            Part::PreferredSignatureAlgorithm => &ocsp::PREFERRED_SIGNATURE_ALGORITHM,
            Part::CmsContentInfo => &cms::CMS_CONTENT_INFO,
            Part::SignedData => &cms::SIGNED_DATA,
            Part::SetOfAlgorithmIdentifier => &certificate::SET_OF_ALGORITHM_IDENTIFIER,
            Part::EncapsulatedContentInfo => &cms::ENCAPSULATED_CONTENT_INFO,
            Part::CertificateSet => &cms::CERTIFICATE_SET,
            Part::RevocationInfoChoices => &cms::REVOCATION_INFO_CHOICES,
            Part::SetOfSignerInfo => &cms::SET_OF_SIGNER_INFO,
            Part::SignerInfo => &cms::SIGNER_INFO,
            Part::IssuerAndSerialNumber => &cms::ISSUER_AND_SERIAL_NUMBER,
            Part::SignedAttributes => &cms::SIGNED_ATTRIBUTES,
            Part::UnsignedAttributes => &cms::UNSIGNED_ATTRIBUTES,
            Part::DigestedData => &cms::DIGESTED_DATA,
            Part::EncryptedData => &cms::ENCRYPTED_DATA,
            Part::EncryptedContentInfo => &cms::ENCRYPTED_CONTENT_INFO,
            Part::SigningCertificate => &ess::SIGNING_CERTIFICATE,
            Part::SequenceOfEssCertId => &ess::SEQUENCE_OF_ESS_CERT_ID,
            Part::EssCertId => &ess::ESS_CERT_ID,
            Part::IssuerSerial => &ess::ISSUER_SERIAL,
            Part::GeneralNames => &extension::GENERAL_NAMES,
            Part::SequenceOfPolicyInformation => &extension::SEQUENCE_OF_POLICY_INFORMATION,
            Part::PolicyInformation => &extension::POLICY_INFORMATION,
            Part::SequenceOfPolicyQualifierInfo => &extension::SEQUENCE_OF_POLICY_QUALIFIER_INFO,
            Part::PolicyQualifierInfo => &extension::POLICY_QUALIFIER_INFO,
            Part::SigningCertificateV2 => &ess::SIGNING_CERTIFICATE_V2,
            Part::SequenceOfEssCertIdv2 => &ess::SEQUENCE_OF_ESS_CERT_IDV2,
            Part::EssCertIdv2 => &ess::ESS_CERT_IDV2,
            Part::EnvelopedData => &enveloped::ENVELOPED_DATA,
            Part::OriginatorInfo => &enveloped::ORIGINATOR_INFO,
            Part::RecipientInfos => &enveloped::RECIPIENT_INFOS,
            Part::KeyTransRecipientInfo => &enveloped::KEY_TRANS_RECIPIENT_INFO,
            Part::KeyAgreeRecipientInfo => &enveloped::KEY_AGREE_RECIPIENT_INFO,
            Part::ExplicitOriginatorIdentifierOrKey =>
                &enveloped::EXPLICIT_ORIGINATOR_IDENTIFIER_OR_KEY,
            Part::RecipientEncryptedKeys => &enveloped::RECIPIENT_ENCRYPTED_KEYS,
            Part::RecipientEncryptedKey => &enveloped::RECIPIENT_ENCRYPTED_KEY,
            Part::RecipientKeyIdentifier => &enveloped::RECIPIENT_KEY_IDENTIFIER,
            Part::KekRecipientInfo => &enveloped::KEK_RECIPIENT_INFO,
            Part::PasswordRecipientInfo => &enveloped::PASSWORD_RECIPIENT_INFO,
            Part::AuthenticatedData => &authenticated::AUTHENTICATED_DATA,
            Part::TimeStampReq => &time_stamp::TIME_STAMP_REQ,
            Part::MessageImprint => &time_stamp::MESSAGE_IMPRINT,
            Part::TimeStampResp => &time_stamp::TIME_STAMP_RESP,
            Part::PkiStatusInfo => &time_stamp::PKI_STATUS_INFO,
            Part::PkiFreeText => &time_stamp::PKI_FREE_TEXT,
            Part::TimeStampToken => &time_stamp::TIME_STAMP_TOKEN,
            Part::TstInfo => &time_stamp::TST_INFO,
            Part::Accuracy => &time_stamp::ACCURACY,
            Part::CertificationRequest => &request::CERTIFICATION_REQUEST,
            Part::CertificationRequestInfo => &request::CERTIFICATION_REQUEST_INFO,
            Part::EncryptedPrivateKeyInfo => &encryption::ENCRYPTED_PRIVATE_KEY_INFO,
            Part::Pbkdf2Params => &encryption::PBKDF2_PARAMS,
            Part::PbeParameter => &encryption::PBE_PARAMETER,
            Part::Pbes2Params => &encryption::PBES2_PARAMS,
            Part::RsassaPssParams => &algorithm::RSASSA_PSS_PARAMS,
            Part::ExplicitAlgorithmIdentifier => &certificate::EXPLICIT_ALGORITHM_IDENTIFIER,
            Part::RsaesOaepParams => &algorithm::RSAES_OAEP_PARAMS,
            Part::EcdsaSigValue => &algorithm::ECDSA_SIG_VALUE,
            Part::DssParms => &algorithm::DSS_PARMS,
            Part::DomainParameters => &algorithm::DOMAIN_PARAMETERS,
            Part::ValidationParms => &algorithm::VALIDATION_PARMS,
            Part::DhParameter => &algorithm::DH_PARAMETER,
            Part::Pfx => &pkcs12::PFX,
            Part::Pkcs12ContentInfo => &pkcs12::PKCS12_CONTENT_INFO,
            Part::MacData => &pkcs12::MAC_DATA,
            Part::DigestInfo => &pkcs12::DIGEST_INFO,
            Part::AuthenticatedSafe => &pkcs12::AUTHENTICATED_SAFE,
            Part::SafeContents => &pkcs12::SAFE_CONTENTS,
            Part::SafeBag => &pkcs12::SAFE_BAG,
            Part::CertBag => &pkcs12::CERT_BAG,
            Part::CrlBag => &pkcs12::CRL_BAG,
            Part::SecretBag => &pkcs12::SECRET_BAG,
            Part::Value => &[],
        }
    }

    /// Whether it is a list.
    pub fn is_list(self) -> bool {
        matches!(
            self,
            Part::RdnSequence
                | Part::RelativeDistinguishedName
                | Part::Extensions
                | Part::SequenceOfRevokedCertificate
                | Part::Attributes
                | Part::OtherPrimeInfos
                | Part::Requests
                | Part::Certificates
                | Part::SingleResponses
                | Part::AcceptableResponses
                | Part::AuthorityInfoAccessSyntax
                | Part::PreferredSignatureAlgorithms
                | Part::SetOfAlgorithmIdentifier
                | Part::CertificateSet
                | Part::RevocationInfoChoices
                | Part::SetOfSignerInfo
                | Part::SignedAttributes
                | Part::UnsignedAttributes
                | Part::SequenceOfEssCertId
                | Part::GeneralNames
                | Part::SequenceOfPolicyInformation
                | Part::SequenceOfPolicyQualifierInfo
                | Part::SequenceOfEssCertIdv2
                | Part::RecipientInfos
                | Part::RecipientEncryptedKeys
                | Part::PkiFreeText
                | Part::AuthenticatedSafe
                | Part::SafeContents
        )
    }
}
