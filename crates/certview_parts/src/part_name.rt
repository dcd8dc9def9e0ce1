//! The names of the parts of a field's value.

/// The name of a part, as JSON has it: that of the field in the ASN.1 of the extension where
/// there is one.
#[derive(Clone, Copy, Debug, PartialEq, Eq)]
pub enum PartName {
    /// None: the part is an item of a list.
    Item,
    /// `accessLocation`
    AccessLocation,
    /// `accessMethod`
    AccessMethod,
    /// `attributes`
    Attributes,
    /// `authorityCertIssuer`
    AuthorityCertIssuer,
    /// `authorityCertSerialNumber`
    AuthorityCertSerialNumber,
    /// `base`
    Base,
    /// `cA`
    Ca,
    /// `cRLIssuer`
    CrlIssuer,
    /// `critical`
    Critical,
    /// `descriptions`
    Descriptions,
    /// `directoryName`
    DirectoryName,
    /// `dNSName`
    DnsName,
    /// `ediPartyName`
    EdiPartyName,
    /// `excludedSubtrees`
    ExcludedSubtrees,
    /// `extensions`
    Extensions,
    /// `extnID`
    ExtnId,
    /// `extnValue`
    ExtnValue,
    /// `fullName`
    FullName,
    /// `id`
    Id,
    /// `indirectCRL`
    IndirectCrl,
    /// `inhibitPolicyMapping`
    InhibitPolicyMapping,
    /// `instruction`
    Instruction,
    /// `iPAddress`
    IpAddress,
    /// `issuerDomainPolicy`
    IssuerDomainPolicy,
    /// `keyIdentifier`
    KeyIdentifier,
    /// `kind`
    Kind,
    /// `log`
    Log,
    /// `mappings`
    Mappings,
    /// `maximum`
    Maximum,
    /// `minimum`
    Minimum,
    /// `name`
    Name,
    /// `nameRelativeToCRLIssuer`
    NameRelativeToCrlIssuer,
    /// `names`
    Names,
    /// `notAfter`
    NotAfter,
    /// `notBefore`
    NotBefore,
    /// `number`
    Number,
    /// `octets`
    Octets,
    /// `onlyContainsAttributeCerts`
    OnlyContainsAttributeCerts,
    /// `onlyContainsCACerts`
    OnlyContainsCaCerts,
    /// `onlyContainsUserCerts`
    OnlyContainsUserCerts,
    /// `onlySomeReasons`
    OnlySomeReasons,
    /// `otherName`
    OtherName,
    /// `pathLenConstraint`
    PathLenConstraint,
    /// `permittedSubtrees`
    PermittedSubtrees,
    /// `points`
    Points,
    /// `policies`
    Policies,
    /// `policyIdentifier`
    PolicyIdentifier,
    /// `policyQualifierId`
    PolicyQualifierId,
    /// `policyQualifiers`
    PolicyQualifiers,
    /// `purposes`
    Purposes,
    /// `qualifier`
    Qualifier,
    /// `reason`
    Reason,
    /// `reasons`
    Reasons,
    /// `registeredID`
    RegisteredId,
    /// `requireExplicitPolicy`
    RequireExplicitPolicy,
    /// `rfc822Name`
    Rfc822Name,
    /// `signature`
    Signature,
    /// `signatureAlgorithm`
    SignatureAlgorithm,
    /// `subjectDomainPolicy`
    SubjectDomainPolicy,
    /// `time`
    Time,
    /// `timestamps`
    Timestamps,
    /// `type`
    Type,
    /// `typeId`
    TypeId,
    /// `types`
    Types,
    /// `uniformResourceIdentifier`
    UniformResourceIdentifier,
    /// `usages`
    Usages,
    /// `value`
    Value,
    /// `values`
    Values,
    /// `version`
    Version,
    /// `x400Address`
    X400Address,
}

/// The texts of the names, in the order of their variants.
const NAMES: [&str; 71] = [
    "",
    "accessLocation",
    "accessMethod",
    "attributes",
    "authorityCertIssuer",
    "authorityCertSerialNumber",
    "base",
    "cA",
    "cRLIssuer",
    "critical",
    "descriptions",
    "directoryName",
    "dNSName",
    "ediPartyName",
    "excludedSubtrees",
    "extensions",
    "extnID",
    "extnValue",
    "fullName",
    "id",
    "indirectCRL",
    "inhibitPolicyMapping",
    "instruction",
    "iPAddress",
    "issuerDomainPolicy",
    "keyIdentifier",
    "kind",
    "log",
    "mappings",
    "maximum",
    "minimum",
    "name",
    "nameRelativeToCRLIssuer",
    "names",
    "notAfter",
    "notBefore",
    "number",
    "octets",
    "onlyContainsAttributeCerts",
    "onlyContainsCACerts",
    "onlyContainsUserCerts",
    "onlySomeReasons",
    "otherName",
    "pathLenConstraint",
    "permittedSubtrees",
    "points",
    "policies",
    "policyIdentifier",
    "policyQualifierId",
    "policyQualifiers",
    "purposes",
    "qualifier",
    "reason",
    "reasons",
    "registeredID",
    "requireExplicitPolicy",
    "rfc822Name",
    "signature",
    "signatureAlgorithm",
    "subjectDomainPolicy",
    "time",
    "timestamps",
    "type",
    "typeId",
    "types",
    "uniformResourceIdentifier",
    "usages",
    "value",
    "values",
    "version",
    "x400Address",
];

impl PartName {
    /// Returns the text of the name; nothing for an item of a list.
    pub fn text(self) -> &'static str {
        NAMES[self as usize]
    }
}
