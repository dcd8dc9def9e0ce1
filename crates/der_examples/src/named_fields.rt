//! A SEQUENCE that a user defines, with names for its fields.

ghost use Rattle.std.specs.Prelude.{◌≡◌, ◌↔◌, IsTrue, IfOk};
ghost use Rattle.der_asn1_types.specs.Decoding.{ReadsAll};
ghost use Rattle.der_asn1_types.specs.Listing.{field, end};

use der_asn1_types::asn1::{ObjectIdentifier, OctetStringRef};
use der_asn1_types::laws::named_sequence_is_read_back;
use der_asn1_types::{
    Encode, End, Error, Field, Form, FromDer, Implicit, NamedFields, NamedSequence, from_list,
    to_list,
};
use std::alloc::Global;

/// The fields of a policy, by their names.
#[derive(Clone, Copy, Debug)]
pub struct PolicyMembers<'a> {
    /// The identifier of the policy.
    pub identifier: ObjectIdentifier<39>,
    /// Information about the policy.
    pub qualifier: Option<OctetStringRef<'a>>,
    /// `[0] IMPLICIT INTEGER OPTIONAL`.
    pub version: Option<Implicit<u8, 0>>,
}

impl<'a> NamedFields for PolicyMembers<'a> {
    type List = Field<
        ObjectIdentifier<39>,
        Field<Option<OctetStringRef<'a>>, Field<Option<Implicit<u8, 0>>, End>>,
    >;

    ghost list_of = { λ v. field v.identifier (field v.qualifier (field v.version end)) };

    fn of_list(list: &Self::List) -> Self {
        from_list!(list => PolicyMembers { identifier, qualifier, version })
    }

    fn to_list(&self) -> Self::List {
        to_list!(self => identifier, qualifier, version)
    }
}

/// A policy, whose fields have names.
pub type NamedPolicy<'a> = NamedSequence<PolicyMembers<'a>>;

/// Reads a policy. It accepts exactly the octets that the grammar reads as one.
pub fn read_named_policy<'a>(alloc: Global, octets: &'a [u8]) -> Result<NamedPolicy<'a>, Error>
    ensures { ReadsAll ⟦<NamedPolicy<'a> as Form>⟧ octets.now result }
{
    NamedPolicy::from_der(alloc, octets)
}

/// Returns the canonical encoding of a policy.
pub fn write_named_policy<'a>(alloc: Global, policy: &NamedPolicy<'a>) -> Result<Vec<u8>, Error>
    ensures { IfOk result (λ octets. octets.items ≡ ⟦<NamedPolicy<'a> as Form>⟧.encoding policy.now) }
{
    policy.to_der(alloc)
}

/// Returns whether two policies have the same encoding.
pub fn is_same_named_policy<'a>(policy: &NamedPolicy<'a>, other: &NamedPolicy<'a>) -> bool
    ensures { IsTrue result ↔ (⟦<NamedPolicy<'a> as Form>⟧.encoding policy.now
        ≡ ⟦<NamedPolicy<'a> as Form>⟧.encoding other.now) }
{
    named_sequence_is_read_back::<PolicyMembers<'a>>();
    policy == other
}
