//! PkixAlgorithms.
//!
//! Made by tools/asn1 from algorithm.asn1.

mod aliases;
pub mod constants;
mod dh_parameter;
mod domain_parameters;
mod dss_parms;
mod ecdsa_sig_value;
pub mod laws;
mod rsaes_oaep_params;
mod rsassa_pss_params;
mod validation_parms;

pub use aliases::{DhPublicKey, DsaPublicKey, DssSigValue, SignedCertificateTimestampList};
pub use dh_parameter::DhParameter;
pub use domain_parameters::DomainParameters;
pub use dss_parms::DssParms;
pub use ecdsa_sig_value::EcdsaSigValue;
pub use rsaes_oaep_params::RsaesOaepParams;
pub use rsassa_pss_params::RsassaPssParams;
pub use validation_parms::ValidationParms;
