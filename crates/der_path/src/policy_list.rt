//! Policies as the encodings of their identifiers, one after another.
//!
//! anyPolicy and 1.2.3 are 06 04 55 1D 20 00 06 02 2A 03.

ghost use Rattle.std.specs.Prelude.{◌≡◌, flat_map, IfErr, IfOk};
ghost use Rattle.der_path.specs.PolicyLists.{ArePolicies, IsNoList, policy_octets};

use crate::keep::{Keeper, keep_items};
use crate::policy::Policy;
use der_elem::{Encode, Form};
use der_extensions::extension::CertPolicyId;
use der_lists::ListRef;
use der_opaque::AnyRef;
use der_tlv::{Error, ErrorKind, Tag};
use std::alloc::{AllocError, Global};

/// Reads policies from the encodings of their identifiers.
///
/// # Errors
/// The first error of the encodings; `ErrorKind::Length` (7) for more than 4294967295 octets;
/// `ErrorKind::Memory` (1) if memory runs out.
pub fn read_policies<'a>(alloc: Global, octets: &'a [u8]) -> Result<Vec<Policy<'a>>, Error>
    ensures ok { IfOk result (λ policies. ArePolicies ⟦<CertPolicyId<'a> as Form>⟧ octets.now policies.items) }
    ensures err { IfErr result (λ e. IsNoList ⟦<CertPolicyId<'a> as Form>⟧ octets.now e.kind) }
{
    let list = match ListRef::<CertPolicyId<'a>>::new(alloc, octets) {
        Ok(list) => list,
        Err(error) => return Err(error),
    };
    match keep_items::<CertPolicyId<'a>, KeepIdentifier>(alloc, list.as_bytes()) {
        Ok(policies) => Ok(policies),
        Err(_error) => Err(Error::from_kind(ErrorKind::Memory)),
    }
}

/// Keeps an identifier as a policy.
struct KeepIdentifier;

impl<'a> Keeper<CertPolicyId<'a>> for KeepIdentifier {
    ghost use Rattle.der_path.specs.PolicyLists.{ShowsIdentifier};

    type Kept = Policy<'a>;

    ghost shows = { ShowsIdentifier };

    fn keep(_alloc: Global, item: &CertPolicyId<'a>) -> Result<Policy<'a>, AllocError> {
        Ok(Policy {
            octets: item.as_bytes(),
        })
    }
}

/// Returns the encodings of the identifiers of policies.
///
/// # Errors
/// If memory runs out, or an identifier has more than 4294967295 octets; none that is read has
/// more than 39.
pub fn octets_of_policies(alloc: Global, policies: &[Policy<'_>]) -> Result<Vec<u8>, AllocError>
    ensures { IfOk result (λ octets. octets.items ≡ flat_map policy_octets policies.now) }
{
    let mut octets = Vec::new(alloc);
    let mut left = policies;
    'each: while let [policy, others @ ..] = left {
        let own = octets_of_policy(alloc, *policy)?;
        octets.extend_from_slice(&own)?;
        left = others;
    }
    Ok(octets)
}

/// Returns the encoding of the identifier of a policy.
fn octets_of_policy(alloc: Global, policy: Policy<'_>) -> Result<Vec<u8>, AllocError>
    ensures { IfOk result (λ octets. octets.items ≡ policy_octets policy.entry) }
{
    let Ok(identifier) = AnyRef::new(Tag::ObjectIdentifier, policy.octets) else {
        return Err(AllocError);
    };
    match identifier.to_der(alloc) {
        Ok(octets) => Ok(octets),
        Err(_error) => Err(AllocError),
    }
}
