//! Policies of certificates (RFC 5280 section 4.2.1.4) and their mappings (4.2.1.5).

ghost use Rattle.std.specs.Prelude.{◌≡◌, true};
ghost use Rattle.der_path.specs.Policies.{has_any, has_policy, is_any};

/// A policy, by the contents octets of its identifier, such as 55 1D 20 00 for anyPolicy.
#[derive(Clone, Copy, Debug)]
pub struct Policy<'a> {
    /// The contents octets of the identifier.
    pub octets: &'a [u8],
}

impl<'a> Policy<'a> {
    ghost use Rattle.std.specs.Prelude.{◌≡◌};
    ghost use Rattle.der_path.specs.Policies.{is_any, same_policy};

    /// Returns whether two policies have the same identifier.
    pub fn is(self, other: Policy<'_>) -> bool
        ensures { result ≡ same_policy self.entry other.entry }
    {
        self.octets == other.octets
    }

    /// Returns whether the policy is anyPolicy.
    pub fn is_any(self) -> bool
        ensures { result ≡ is_any self.entry }
    {
        self.octets == ANY_POLICY.as_slice()
    }
}

/// A mapping of policies: the issuer's policy is equivalent to the subject's.
#[derive(Clone, Copy, Debug)]
pub struct Mapping<'a> {
    /// issuerDomainPolicy.
    pub issuer: Policy<'a>,
    /// subjectDomainPolicy.
    pub subject: Policy<'a>,
}

/// Returns whether a policy is one of these.
pub(crate) fn has_policy(policies: &[Policy<'_>], policy: Policy<'_>) -> bool
    ensures { result ≡ has_policy policy.entry policies.now }
{
    policies.iter().any(|other| policy.is(*other))
}

/// The contents octets of anyPolicy, 2.5.29.32.0.
const ANY_POLICY: [u8; 4] = [0x55, 0x1d, 0x20, 0x00];

/// Returns whether one of these is anyPolicy.
pub(crate) fn has_any(policies: &[Policy<'_>]) -> bool
    ensures { result ≡ has_any policies.now }
{
    policies.iter().any(|policy| policy.is_any())
}

/// Returns anyPolicy.
pub fn any_policy<'a>() -> Policy<'a>
    ensures { is_any result ≡ true }
{
    Policy {
        octets: &ANY_POLICY,
    }
}
