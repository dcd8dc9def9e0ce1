//! Reading a type of `der_pkix` or of `der_extensions` takes no memory.

use crate::tests::holds;
use der_asn1_types::TakesMemory;
use der_asn1_types::asn1::Enumerated;
use der_extensions::extension::{
    AccessDescription, AnotherName, AuthorityInfoAccessSyntax, AuthorityKeyIdentifier,
    BaseCrlNumber, BaseDistance, BasicConstraints, CertPolicyId, CertificateIssuer,
    CertificatePolicies, CpSuri, CrlDistributionPoints, CrlNumber, CrlReason, DistributionPoint,
    DistributionPointName, ExtKeyUsageSyntax, FreshestCrl, GeneralName, GeneralNames,
    GeneralSubtree, GeneralSubtrees, HoldInstructionCode, InhibitAnyPolicy, InvalidityDate,
    IssuerAltName, IssuingDistributionPoint, KeyIdentifier, KeyPurposeId, KeyUsage,
    NameConstraints, PolicyConstraints, PolicyInformation, PolicyMapping, PolicyMappings,
    PolicyQualifierId, PolicyQualifierInfo, PrivateKeyUsagePeriod, ReasonFlags, SkipCerts,
    SubjectAltName, SubjectDirectoryAttributes, SubjectInfoAccessSyntax, SubjectKeyIdentifier,
};
use der_pkix::certificate::{
    AlgorithmIdentifier, Certificate, CertificateSerialNumber, Extension, Extensions,
    SubjectPublicKeyInfo, TbsCertificate, Time, UniqueIdentifier, Validity, Version,
};
use der_pkix::crl::{CertificateList, RevokedCertificate, TbsCertList};
use der_pkix::key::{
    Attributes, Curve, EcParameters, EcPrivateKey, EcPrivateKeyVersion, FieldId, OneAsymmetricKey,
    OneAsymmetricKeyVersion, OtherPrimeInfo, OtherPrimeInfos, PrivateKeyInfo, RsaPrivateKey,
    RsaPrivateKeyVersion, RsaPublicKey, SpecifiedEcDomain, SpecifiedEcDomainVersion,
};
use der_pkix::name::{
    Attribute, AttributeType, AttributeTypeAndValue, AttributeValue, DistinguishedName, Name,
    RdnSequence, RelativeDistinguishedName,
};

#[test]
fn no_name_takes_memory(rt: HostRuntime) {
    holds(&rt, !<Attribute as TakesMemory>::TAKES_MEMORY);
    holds(&rt, !<AttributeType as TakesMemory>::TAKES_MEMORY);
    holds(&rt, !<AttributeTypeAndValue as TakesMemory>::TAKES_MEMORY);
    holds(&rt, !<AttributeValue as TakesMemory>::TAKES_MEMORY);
    holds(&rt, !<DistinguishedName as TakesMemory>::TAKES_MEMORY);
    holds(&rt, !<Name as TakesMemory>::TAKES_MEMORY);
    holds(&rt, !<RdnSequence as TakesMemory>::TAKES_MEMORY);
    holds(
        &rt,
        !<RelativeDistinguishedName as TakesMemory>::TAKES_MEMORY,
    );
}

#[test]
fn no_certificate_takes_memory(rt: HostRuntime) {
    holds(&rt, !<AlgorithmIdentifier as TakesMemory>::TAKES_MEMORY);
    holds(&rt, !<Certificate as TakesMemory>::TAKES_MEMORY);
    holds(&rt, !<CertificateSerialNumber as TakesMemory>::TAKES_MEMORY);
    holds(&rt, !<Extension as TakesMemory>::TAKES_MEMORY);
    holds(&rt, !<Extensions as TakesMemory>::TAKES_MEMORY);
    holds(&rt, !<SubjectPublicKeyInfo as TakesMemory>::TAKES_MEMORY);
    holds(&rt, !<TbsCertificate as TakesMemory>::TAKES_MEMORY);
    holds(&rt, !<Time as TakesMemory>::TAKES_MEMORY);
    holds(&rt, !<UniqueIdentifier as TakesMemory>::TAKES_MEMORY);
    holds(&rt, !<Validity as TakesMemory>::TAKES_MEMORY);
    holds(&rt, !<Version as TakesMemory>::TAKES_MEMORY);
}

#[test]
fn no_list_of_revoked_certificates_takes_memory(rt: HostRuntime) {
    holds(&rt, !<CertificateList as TakesMemory>::TAKES_MEMORY);
    holds(&rt, !<RevokedCertificate as TakesMemory>::TAKES_MEMORY);
    holds(&rt, !<TbsCertList as TakesMemory>::TAKES_MEMORY);
}

#[test]
fn no_key_takes_memory(rt: HostRuntime) {
    holds(&rt, !<Attributes as TakesMemory>::TAKES_MEMORY);
    holds(&rt, !<OneAsymmetricKey as TakesMemory>::TAKES_MEMORY);
    holds(&rt, !<OneAsymmetricKeyVersion as TakesMemory>::TAKES_MEMORY);
    holds(&rt, !<OtherPrimeInfo as TakesMemory>::TAKES_MEMORY);
    holds(&rt, !<OtherPrimeInfos as TakesMemory>::TAKES_MEMORY);
    holds(&rt, !<PrivateKeyInfo as TakesMemory>::TAKES_MEMORY);
    holds(&rt, !<RsaPrivateKey as TakesMemory>::TAKES_MEMORY);
    holds(&rt, !<RsaPrivateKeyVersion as TakesMemory>::TAKES_MEMORY);
    holds(&rt, !<RsaPublicKey as TakesMemory>::TAKES_MEMORY);
}

#[test]
fn no_key_of_a_curve_takes_memory(rt: HostRuntime) {
    holds(&rt, !<Curve as TakesMemory>::TAKES_MEMORY);
    holds(&rt, !<EcParameters as TakesMemory>::TAKES_MEMORY);
    holds(&rt, !<EcPrivateKey as TakesMemory>::TAKES_MEMORY);
    holds(&rt, !<EcPrivateKeyVersion as TakesMemory>::TAKES_MEMORY);
    holds(&rt, !<FieldId as TakesMemory>::TAKES_MEMORY);
    holds(&rt, !<SpecifiedEcDomain as TakesMemory>::TAKES_MEMORY);
    holds(
        &rt,
        !<SpecifiedEcDomainVersion as TakesMemory>::TAKES_MEMORY,
    );
}

#[test]
fn no_general_name_takes_memory(rt: HostRuntime) {
    holds(&rt, !<AnotherName as TakesMemory>::TAKES_MEMORY);
    holds(&rt, !<BaseDistance as TakesMemory>::TAKES_MEMORY);
    holds(&rt, !<CertificateIssuer as TakesMemory>::TAKES_MEMORY);
    holds(&rt, !<GeneralName as TakesMemory>::TAKES_MEMORY);
    holds(&rt, !<GeneralNames as TakesMemory>::TAKES_MEMORY);
    holds(&rt, !<GeneralSubtree as TakesMemory>::TAKES_MEMORY);
    holds(&rt, !<GeneralSubtrees as TakesMemory>::TAKES_MEMORY);
    holds(&rt, !<IssuerAltName as TakesMemory>::TAKES_MEMORY);
    holds(&rt, !<NameConstraints as TakesMemory>::TAKES_MEMORY);
    holds(&rt, !<SubjectAltName as TakesMemory>::TAKES_MEMORY);
}

#[test]
fn no_value_about_a_key_takes_memory(rt: HostRuntime) {
    holds(&rt, !<AuthorityKeyIdentifier as TakesMemory>::TAKES_MEMORY);
    holds(&rt, !<ExtKeyUsageSyntax as TakesMemory>::TAKES_MEMORY);
    holds(&rt, !<KeyIdentifier as TakesMemory>::TAKES_MEMORY);
    holds(&rt, !<KeyPurposeId as TakesMemory>::TAKES_MEMORY);
    holds(&rt, !<KeyUsage as TakesMemory>::TAKES_MEMORY);
    holds(&rt, !<PrivateKeyUsagePeriod as TakesMemory>::TAKES_MEMORY);
    holds(&rt, !<SubjectKeyIdentifier as TakesMemory>::TAKES_MEMORY);
}

#[test]
fn no_policy_takes_memory(rt: HostRuntime) {
    holds(&rt, !<CertPolicyId as TakesMemory>::TAKES_MEMORY);
    holds(&rt, !<CertificatePolicies as TakesMemory>::TAKES_MEMORY);
    holds(&rt, !<CpSuri as TakesMemory>::TAKES_MEMORY);
    holds(&rt, !<InhibitAnyPolicy as TakesMemory>::TAKES_MEMORY);
    holds(&rt, !<PolicyConstraints as TakesMemory>::TAKES_MEMORY);
    holds(&rt, !<PolicyInformation as TakesMemory>::TAKES_MEMORY);
    holds(&rt, !<PolicyMapping as TakesMemory>::TAKES_MEMORY);
    holds(&rt, !<PolicyMappings as TakesMemory>::TAKES_MEMORY);
    holds(&rt, !<PolicyQualifierId as TakesMemory>::TAKES_MEMORY);
    holds(&rt, !<PolicyQualifierInfo as TakesMemory>::TAKES_MEMORY);
    holds(&rt, !<SkipCerts as TakesMemory>::TAKES_MEMORY);
}

#[test]
fn no_place_takes_memory(rt: HostRuntime) {
    holds(&rt, !<AccessDescription as TakesMemory>::TAKES_MEMORY);
    holds(
        &rt,
        !<AuthorityInfoAccessSyntax as TakesMemory>::TAKES_MEMORY,
    );
    holds(&rt, !<CrlDistributionPoints as TakesMemory>::TAKES_MEMORY);
    holds(&rt, !<DistributionPoint as TakesMemory>::TAKES_MEMORY);
    holds(&rt, !<DistributionPointName as TakesMemory>::TAKES_MEMORY);
    holds(&rt, !<FreshestCrl as TakesMemory>::TAKES_MEMORY);
    holds(
        &rt,
        !<IssuingDistributionPoint as TakesMemory>::TAKES_MEMORY,
    );
    holds(&rt, !<ReasonFlags as TakesMemory>::TAKES_MEMORY);
    holds(&rt, !<SubjectInfoAccessSyntax as TakesMemory>::TAKES_MEMORY);
}

#[test]
fn no_other_value_takes_memory(rt: HostRuntime) {
    holds(&rt, !<BaseCrlNumber as TakesMemory>::TAKES_MEMORY);
    holds(&rt, !<BasicConstraints as TakesMemory>::TAKES_MEMORY);
    holds(&rt, !<CrlNumber as TakesMemory>::TAKES_MEMORY);
    holds(&rt, !<Enumerated<CrlReason> as TakesMemory>::TAKES_MEMORY);
    holds(&rt, !<HoldInstructionCode as TakesMemory>::TAKES_MEMORY);
    holds(&rt, !<InvalidityDate as TakesMemory>::TAKES_MEMORY);
    holds(
        &rt,
        !<SubjectDirectoryAttributes as TakesMemory>::TAKES_MEMORY,
    );
}
