//! A CHOICE of eight alternatives.

ghost use Rattle.der_asn1_types.specs.Decoding.{ReadsAll};

use der_asn1_types::asn1::OctetStringRef;
use der_asn1_types::{Error, Form, FromDer, Implicit, OneOf};
use std::alloc::Global;

/// Eight alternatives, in a tree of depth three.
pub type Setting<'a> = OneOf<
    OneOf<OneOf<bool, u16>, OneOf<OctetStringRef<'a>, ()>>,
    OneOf<OneOf<Implicit<u16, 0>, Implicit<u16, 1>>, OneOf<Implicit<bool, 2>, Implicit<bool, 31>>>,
>;

/// Reads a setting from all of the octets, under DER.
pub fn read_setting<'a>(alloc: Global, octets: &'a [u8]) -> Result<Setting<'a>, Error>
    ensures { ReadsAll ⟦<Setting<'a> as Form>⟧ octets.now result }
{
    Setting::from_der(alloc, octets)
}
