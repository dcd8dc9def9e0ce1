//! The first six fields of the TSTInfo of RFC 3161: a message that a user defines with a list of
//! fields. The imprint and the accuracy are kept as their encodings.

ghost use Rattle.der_asn1_types.specs.Decoding.{ReadsAll};

use der_asn1_types::asn1::{AnyRef, GeneralizedTime, IntRef, ObjectIdentifier};
use der_asn1_types::{Error, FieldSequence, Fields6, Form, FromDer};
use std::alloc::Global;

/// A SEQUENCE of the version, the policy, the imprint, the serial number, the time and the accuracy.
pub type TstInfo<'a> = FieldSequence<
    Fields6<u8, ObjectIdentifier<39>, AnyRef<'a>, IntRef<'a>, GeneralizedTime, Option<AnyRef<'a>>>,
>;

/// Reads the fields from all of the octets, under DER.
pub fn read_tst_info<'a>(alloc: Global, octets: &'a [u8]) -> Result<TstInfo<'a>, Error>
    ensures { ReadsAll ⟦<TstInfo<'a> as Form>⟧ octets.now result }
{
    TstInfo::from_der(alloc, octets)
}
