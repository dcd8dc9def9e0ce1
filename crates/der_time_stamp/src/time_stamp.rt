//! PKIXTSP.
//!
//! Made by tools/asn1 from time_stamp.asn1.

mod accuracy;
mod aliases;
pub mod constants;
pub mod laws;
mod message_imprint;
mod pki_free_text;
mod pki_status_info;
mod time_stamp_req;
mod time_stamp_resp;
mod time_stamp_token;
mod tst_info;

pub use accuracy::Accuracy;
pub use aliases::{
    PKI_FAILURE_INFO_ADD_INFO_NOT_AVAILABLE, PKI_FAILURE_INFO_BAD_ALG,
    PKI_FAILURE_INFO_BAD_DATA_FORMAT, PKI_FAILURE_INFO_BAD_REQUEST,
    PKI_FAILURE_INFO_SYSTEM_FAILURE, PKI_FAILURE_INFO_TIME_NOT_AVAILABLE,
    PKI_FAILURE_INFO_UNACCEPTED_EXTENSION, PKI_FAILURE_INFO_UNACCEPTED_POLICY, PKI_STATUS_GRANTED,
    PKI_STATUS_GRANTED_WITH_MODS, PKI_STATUS_REJECTION, PKI_STATUS_REVOCATION_NOTIFICATION,
    PKI_STATUS_REVOCATION_WARNING, PKI_STATUS_WAITING, PkiFailureInfo, PkiStatus,
    TIME_STAMP_REQ_VERSION_V1, TST_INFO_VERSION_V1, TimeStampReqVersion, TsaPolicyId,
    TstInfoVersion,
};
pub use message_imprint::MessageImprint;
pub use pki_free_text::PkiFreeText;
pub use pki_status_info::PkiStatusInfo;
pub use time_stamp_req::TimeStampReq;
pub use time_stamp_resp::TimeStampResp;
pub use time_stamp_token::TimeStampToken;
pub use tst_info::TstInfo;
