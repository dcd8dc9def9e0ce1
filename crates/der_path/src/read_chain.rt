//! The certificates of a chain, read from their octets.

ghost use Rattle.der_path.specs.Chains.{ReadsChain};

use crate::path::PathError;
use der_elem::FromDer;
use der_pkix::certificate::Certificate;
use std::alloc::Global;

/// Reads each certificate.
pub(crate) fn read_each<'a>(
    alloc: Global,
    chain: &[&'a [u8]],
) -> Result<Vec<Certificate<'a>>, PathError>
    ensures { ReadsChain chain.now result }
{
    let mut found = Vec::new(alloc);
    let mut at = 0;
    let mut left = chain;
    'each: while let [octets, others @ ..] = left {
        match Certificate::from_der(alloc, octets) {
            Ok(certificate) => {
                let Ok(()) = found.push(certificate) else {
                    return Err(PathError::Memory);
                };
            }
            Err(error) => return Err(PathError::NotRead(at, error)),
        }
        at += 1;
        left = others;
    }
    Ok(found)
}
