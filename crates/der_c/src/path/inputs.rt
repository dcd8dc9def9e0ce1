//! The inputs of path validation that stand in octets (RFC 5280 section 6.1.1).

ghost use Rattle.std.specs.Prelude.{◌≡◌, IfErr, IfOk};
ghost use Rattle.der_tlv.specs.declared.error.ErrorKind.TheVariants.{Memory};
ghost use Rattle.der_c.specs.ChainInputs.{ArePoliciesAt, HasInputs, IsAnyAlone, NoPoliciesAt, RefusesInputs};

use crate::building::parts::octets_at;
use crate::fault::{Fault, fault_of};
use crate::path::there::{moved, value_there};
use der_elem::Form;
use der_extensions::extension::NameConstraints;
use der_modules::copy_of;
use der_path::{Anchor, Policy, any_policy, read_policies};
use der_pkix::certificate::SubjectPublicKeyInfo;
use der_pkix::name::Name;
use der_places::Place;
use der_tlv::{Error, ErrorKind};
use std::alloc::Global;

/// The inputs of path validation: numbers, and byte ranges in octets. A number other than 0 is
/// true.
#[repr(C)]
#[derive(Clone, Copy, Debug, PartialEq, Eq)]
pub struct PathInputs {
    /// The moment, in seconds from 1970-01-01T00:00:00Z (b).
    pub moment: u64,
    /// The trusted issuer name, a Name ((d)(1)).
    pub anchor_name: Place,
    /// The trusted public key, a SubjectPublicKeyInfo ((d)(2) to (4)).
    pub anchor_key: Place,
    /// user-initial-policy-set (c): encodings of OBJECT IDENTIFIERs, one after another. Without
    /// octets it is anyPolicy.
    pub policies: Place,
    /// initial-permitted-subtrees and initial-excluded-subtrees ((h), (i)), a NameConstraints.
    /// Without octets all names are permitted, and none is excluded.
    pub constraints: Place,
    /// initial-policy-mapping-inhibit (e).
    pub mapping_inhibit: u32,
    /// initial-explicit-policy (f).
    pub explicit_policy: u32,
    /// initial-any-policy-inhibit (g).
    pub any_policy_inhibit: u32,
    /// This is not read.
    pub reserved: u32,
}

/// The inputs that are read from octets.
#[derive(Drop)]
pub struct PathParts<'a> {
    /// The trust anchor.
    pub anchor: Anchor<'a>,
    /// The initial constraints of names.
    pub constraints: Option<NameConstraints<'a>>,
    /// The policies of the user.
    pub policies: Vec<Policy<'a>>,
}

impl<'a> PathParts<'a> {
    ghost use Rattle.std.specs.Prelude.{◌≡◌};

    /// Returns the initial constraints of names.
    pub(crate) fn initial_constraints(&self) -> Option<NameConstraints<'a>>
        ensures { result ≡ self.now.constraints }
    {
        match &self.constraints {
            Some(constraints) => Some(copy_of(constraints)),
            None => None,
        }
    }
}

/// Reads the inputs.
pub(crate) fn path_parts<'a>(
    alloc: Global,
    octets: &'a [u8],
    at: &PathInputs,
) -> Result<PathParts<'a>, Fault>
    ensures ok { IfOk result (λ parts. HasInputs octets.now at.now parts) }
    ensures err { IfErr result (λ fault. RefusesInputs octets.now at.now fault) }
{
    let name = match value_there::<Name<'a>>(alloc, octets, at.anchor_name) {
        Ok(name) => name,
        Err(fault) => return Err(fault),
    };
    let key = match value_there::<SubjectPublicKeyInfo<'a>>(alloc, octets, at.anchor_key) {
        Ok(key) => key,
        Err(fault) => return Err(fault),
    };
    let constraints = match value_there::<Option<NameConstraints<'a>>>(
        alloc,
        octets,
        at.constraints,
    ) {
        Ok(constraints) => constraints,
        Err(fault) => return Err(fault),
    };
    match policies_there(alloc, octets, at.policies) {
        Ok(policies) => Ok(PathParts {
            anchor: Anchor { name, key },
            constraints,
            policies,
        }),
        Err(fault) => Err(fault),
    }
}

/// Reads the policies at a byte range; without octets there is anyPolicy alone.
fn policies_there<'a>(
    alloc: Global,
    octets: &'a [u8],
    place: Place,
) -> Result<Vec<Policy<'a>>, Fault>
    ensures ok { IfOk result (λ policies. ArePoliciesAt octets.now place policies.items) }
    ensures err { IfErr result (λ fault. NoPoliciesAt octets.now place fault) }
{
    let own = match octets_at(octets, place) {
        Ok(own) => own,
        Err(fault) => return Err(fault),
    };
    let read = if place.length == 0 {
        each_policy(alloc)
    } else {
        read_policies(alloc, own)
    };
    match read {
        Ok(policies) => Ok(policies),
        Err(error) => Err(moved(fault_of(error), place.offset)),
    }
}

/// Returns anyPolicy alone.
fn each_policy<'a>(alloc: Global) -> Result<Vec<Policy<'a>>, Error>
    ensures ok { IfOk result (λ policies. IsAnyAlone policies.items) }
    ensures err { IfErr result (λ e. e.kind ≡ Memory) }
{
    let mut policies = Vec::new(alloc);
    match policies.push(any_policy()) {
        Ok(()) => Ok(policies),
        Err(_error) => Err(Error::from_kind(ErrorKind::Memory)),
    }
}
