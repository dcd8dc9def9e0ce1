//! What lists of revoked certificates and answers of OCSP that stand in octets say of a certificate
//! (RFC 5280 section 6.3.3, RFC 6960 section 3.2).

mod answer;
mod inputs;
mod list;
mod lists;
mod numbers;
mod refusal;
mod responders;

pub use answer::{OcspStatusAt, der_ocsp_status};
pub use inputs::OcspInputs;
pub use list::{ListStatusAt, der_list_status};
pub use lists::{RevocationStatusAt, der_revocation_status};
pub use responders::ResponderAt;
