//! A SEQUENCE that a user defines, one line for each field.

ghost use Rattle.std.specs.Prelude.{◌≡◌, ◌↔◌, IsTrue, IfOk};
ghost use Rattle.der_asn1_types.specs.Decoding.{ReadsAll};

use der_asn1_types::asn1::{ObjectIdentifier, OctetStringRef};
use der_asn1_types::laws::{copies_are_equal, sequence_is_read_back};
use der_asn1_types::{Duplicate, Encode, Error, FieldSequence, Fields3, Form, FromDer, Implicit};
use std::alloc::Global;

/// An identifier, a qualifier that may be absent, and a version, `[0] IMPLICIT INTEGER`, that may be
/// absent.
pub type PolicyList<'a> = Fields3<
    ObjectIdentifier<39>,
    Option<OctetStringRef<'a>>,
    Option<Implicit<u8, 0>>,
>;

/// A policy.
pub type Policy<'a> = FieldSequence<PolicyList<'a>>;

/// Reads a policy. It accepts exactly the octets that the grammar reads as one.
pub fn read_policy<'a>(alloc: Global, octets: &'a [u8]) -> Result<Policy<'a>, Error>
    ensures { ReadsAll ⟦<Policy<'a> as Form>⟧ octets.now result }
{
    Policy::from_der(alloc, octets)
}

/// Returns the canonical encoding of a policy.
pub fn write_policy<'a>(alloc: Global, policy: &Policy<'a>) -> Result<Vec<u8>, Error>
    ensures { IfOk result (λ octets. octets.items ≡ ⟦<Policy<'a> as Form>⟧.encoding policy.now) }
{
    policy.to_der(alloc)
}

/// Returns whether two policies have the same encoding. The prover computes that the tags of
/// their fields are distinct, so the policies need no condition.
pub fn is_same_policy<'a>(policy: &Policy<'a>, other: &Policy<'a>) -> bool
    ensures { IsTrue result ↔ (⟦<Policy<'a> as Form>⟧.encoding policy.now
        ≡ ⟦<Policy<'a> as Form>⟧.encoding other.now) }
{
    sequence_is_read_back::<PolicyList<'a>>();
    policy == other
}

/// Returns a copy of a policy, which is equal to it.
///
/// # Errors
/// None: a policy takes no memory to copy.
pub fn copy_policy<'a>(policy: &Policy<'a>) -> Result<Policy<'a>, Error>
    ensures { IfOk result (λ copy. IsTrue (⟦<Policy<'a> as PartialEq>⟧.eq policy.now copy)) }
{
    copies_are_equal::<Policy<'a>>();
    policy.duplicate()
}
