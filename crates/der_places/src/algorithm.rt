//! Byte ranges of the fields of the types of PkixAlgorithms.
//!
//! Made by tools/asn1 from algorithm.asn1.

mod dh_parameter;
mod domain_parameters;
mod dss_parms;
mod ecdsa_sig_value;
mod rsaes_oaep_params;
mod rsassa_pss_params;
mod validation_parms;

pub use dh_parameter::DhParameterPlaces;
pub use domain_parameters::DomainParametersPlaces;
pub use dss_parms::DssParmsPlaces;
pub use ecdsa_sig_value::EcdsaSigValuePlaces;
pub use rsaes_oaep_params::RsaesOaepParamsPlaces;
pub use rsassa_pss_params::RsassaPssParamsPlaces;
pub use validation_parms::ValidationParmsPlaces;
