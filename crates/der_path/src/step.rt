//! The steps of RFC 5280 section 6.1 that refuse a chain.

ghost use Rattle.std.specs.Prelude.{◌≡◌};
ghost use Rattle.der_path.specs.Steps.{field, letter};

use der_extensions::extension::constants::{
    ID_CE_BASIC_CONSTRAINTS, ID_CE_CERTIFICATE_POLICIES, ID_CE_KEY_USAGE, ID_CE_POLICY_MAPPINGS,
};

/// A step that refuses a certificate.
#[derive(Clone, Copy, Debug, PartialEq, Eq)]
pub enum Step {
    /// 6.1.3 (a)(2): the moment is outside the validity.
    Validity,
    /// 6.1.3 (a)(4): the issuer is not the subject of the certificate before it, or the anchor.
    Issuer,
    /// 6.1.3 (b): a name is not within the permitted subtrees.
    Permitted,
    /// 6.1.3 (c): a name is within an excluded subtree.
    Excluded,
    /// 6.1.3 (f): no policy is left, and one is required.
    Policies,
    /// 6.1.4 (a): anyPolicy is mapped.
    AnyPolicyIsMapped,
    /// 6.1.4 (k): the certificate is not of version 3, or not a CA's.
    Ca,
    /// 6.1.4 (l): the chain is longer than a pathLenConstraint allows.
    PathLength,
    /// 6.1.4 (n): keyUsage does not have keyCertSign.
    KeyUsage,
    /// 6.1.4 (o): a critical extension is not processed.
    UnknownExtension,
    /// 6.1.5 (f): a critical extension of the last certificate is not processed.
    UnknownExtensionAtEnd,
    /// 6.1.5 (g): no policy of the user is left, and one is required.
    UserPolicies,
}

impl Step {
    /// Returns the section and the letter, such as `6.1.3 (a)(2)`.
    pub fn letter(self) -> &'static str
        ensures { result.now ≡ letter self }
    {
        match self {
            Step::Validity => "6.1.3 (a)(2)",
            Step::Issuer => "6.1.3 (a)(4)",
            Step::Permitted => "6.1.3 (b)",
            Step::Excluded => "6.1.3 (c)",
            Step::Policies => "6.1.3 (f)",
            Step::AnyPolicyIsMapped => "6.1.4 (a)",
            Step::Ca => "6.1.4 (k)",
            Step::PathLength => "6.1.4 (l)",
            Step::KeyUsage => "6.1.4 (n)",
            Step::UnknownExtension => "6.1.4 (o)",
            Step::UnknownExtensionAtEnd => "6.1.5 (f)",
            Step::UserPolicies => "6.1.5 (g)",
        }
    }

    /// Returns the part of the certificate that the step looks at.
    pub fn field(self) -> Field
        ensures { result ≡ field self }
    {
        match self {
            Step::Validity => Field::Validity,
            Step::Issuer => Field::Issuer,
            Step::Permitted | Step::Excluded => Field::Names,
            Step::Policies | Step::UserPolicies => Field::Extension(ID_CE_CERTIFICATE_POLICIES),
            Step::AnyPolicyIsMapped => Field::Extension(ID_CE_POLICY_MAPPINGS),
            Step::Ca => Field::Extension(ID_CE_BASIC_CONSTRAINTS),
            Step::PathLength => Field::Certificate,
            Step::KeyUsage => Field::Extension(ID_CE_KEY_USAGE),
            Step::UnknownExtension | Step::UnknownExtensionAtEnd => Field::CriticalExtensions,
        }
    }
}

/// The part of a certificate that a step looks at.
#[derive(Clone, Copy, Debug, PartialEq, Eq)]
pub enum Field {
    /// validity (RFC 5280 section 4.1.2.5).
    Validity,
    /// issuer (4.1.2.4).
    Issuer,
    /// subject and subjectAltName (4.1.2.6, 4.2.1.6).
    Names,
    /// The extension whose identifier has these contents octets, or its absence.
    Extension([u8; 3]),
    /// The critical extensions (4.2).
    CriticalExtensions,
    /// The certificate itself: it is one too many.
    Certificate,
}
