//! Who may have signed an answer of OCSP (RFC 6960 section 4.2.2.2), for a caller in C.

ghost use Rattle.std.specs.Prelude.{◌≡◌, IfOk, map};
ghost use Rattle.der_c.specs.OcspStatuses.{responder_at};

use der_path::Responder;
use std::alloc::{AllocError, Global};

/// Who may have signed an answer.
#[repr(C)]
#[derive(Clone, Copy, Debug, PartialEq, Eq)]
pub struct ResponderAt {
    /// Which certificate of the answer, from 0; 0 for the issuer of the certificate.
    pub index: u64,
    /// Whether it is the issuer of the certificate: 1 or 0.
    pub is_issuer: u32,
    /// 0.
    pub reserved: u32,
}

/// Returns who may have signed an answer, as it is written.
pub(crate) fn responders_at(
    alloc: Global,
    responders: &[Responder],
) -> Result<Vec<ResponderAt>, AllocError>
    ensures { IfOk result (λ found. found.items ≡ map responder_at responders.now) }
{
    let mut found = Vec::new(alloc);
    let mut left = responders;
    'each: while let [responder, others @ ..] = left {
        found.push(responder_at(*responder))?;
        left = others;
    }
    Ok(found)
}

/// Returns one who may have signed an answer, as it is written.
fn responder_at(responder: Responder) -> ResponderAt
    ensures { result ≡ responder_at responder }
{
    match responder {
        Responder::Issuer => ResponderAt {
            index: 0,
            is_issuer: 1,
            reserved: 0,
        },
        Responder::Certificate(at) => ResponderAt {
            index: at as u64,
            is_issuer: 0,
            reserved: 0,
        },
    }
}
