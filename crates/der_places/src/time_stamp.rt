//! Byte ranges of the fields of the types of PKIXTSP.
//!
//! Made by tools/asn1 from time_stamp.asn1.

mod accuracy;
mod message_imprint;
mod pki_status_info;
mod time_stamp_req;
mod time_stamp_resp;
mod time_stamp_token;
mod tst_info;

pub use accuracy::AccuracyPlaces;
pub use message_imprint::MessageImprintPlaces;
pub use pki_status_info::PkiStatusInfoPlaces;
pub use time_stamp_req::TimeStampReqPlaces;
pub use time_stamp_resp::TimeStampRespPlaces;
pub use time_stamp_token::TimeStampTokenPlaces;
pub use tst_info::TstInfoPlaces;
