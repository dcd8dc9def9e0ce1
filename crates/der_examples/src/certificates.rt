//! Certificates and the names of their fields.

ghost use Rattle.der_asn1_types.specs.Decoding.{ReadsAll};

use der_asn1_types::asn1::IntRef;
use der_asn1_types::{Error, Form, FromDer};
use der_pkix::certificate::Certificate;
use std::alloc::Global;

/// Reads a certificate. It accepts exactly the octets that RFC 5280's grammar reads as one, and
/// returns the value that the grammar reads; for any other octets it returns the first error.
pub fn read_certificate<'a>(alloc: Global, octets: &'a [u8]) -> Result<Certificate<'a>, Error>
    ensures { ReadsAll ⟦<Certificate<'a> as Form>⟧ octets.now result }
{
    Certificate::from_der(alloc, octets)
}

/// Returns the serial number of a certificate, and whether its issuer has the name of its
/// subject.
pub fn serial_and_self_issued<'a>(
    alloc: Global,
    octets: &'a [u8],
) -> Result<(IntRef<'a>, bool), Error> {
    match Certificate::from_der(alloc, octets) {
        Ok(certificate) => {
            let signed = certificate.tbs_certificate();
            let is_self_issued = signed.issuer() == signed.subject();
            Ok((*signed.serial_number(), is_self_issued))
        }
        Err(e) => Err(e),
    }
}
