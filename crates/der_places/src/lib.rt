//! The byte ranges of the fields of a message in its octets, each as a whole encoding.
#![tactic(auto)]

pub mod algorithm;
mod algorithm_identifier;
pub mod authenticated;
pub mod certificate;
pub mod cms;
pub mod crl;
pub mod encryption;
pub mod enveloped;
pub mod ess;
pub mod extension;
pub mod key;
pub mod name;
pub mod ocsp;
pub mod pkcs12;
mod place;
mod placed;
mod presence;
pub mod request;
pub mod time_stamp;
mod walk;

pub use algorithm_identifier::AlgorithmIdentifierPlaces;
pub use place::Place;
pub use placed::{Placed, places_of};
pub use presence::{is_some, is_there};
pub use walk::{contents_of, next_place, start_of_contents};
