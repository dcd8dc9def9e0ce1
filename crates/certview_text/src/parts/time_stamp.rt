//! The components of the types of `time_stamp`.
//!
//! Made by tools/asn1.

use super::{Component, Part};

pub(super) static TIME_STAMP_REQ: [Component; 6] = [
    Component("version", None, Part::Value),
    Component("messageImprint", None, Part::MessageImprint),
    Component("reqPolicy", Some(0x06), Part::Value),
    Component("nonce", Some(0x02), Part::Value),
    Component("certReq", Some(0x01), Part::Value),
    Component("extensions", Some(0xa0), Part::Extensions),
];

pub(super) static MESSAGE_IMPRINT: [Component; 2] = [
    Component("hashAlgorithm", None, Part::AlgorithmIdentifier),
    Component("hashedMessage", None, Part::Value),
];

pub(super) static TIME_STAMP_RESP: [Component; 2] = [
    Component("status", None, Part::PkiStatusInfo),
    Component("timeStampToken", Some(0x30), Part::TimeStampToken),
];

pub(super) static PKI_STATUS_INFO: [Component; 3] = [
    Component("status", None, Part::Value),
    Component("statusString", Some(0x30), Part::PkiFreeText),
    Component("failInfo", Some(0x03), Part::Value),
];

pub(super) static PKI_FREE_TEXT: [Component; 1] = [Component("", None, Part::Value)];

pub(super) static TIME_STAMP_TOKEN: [Component; 2] = [
    Component("contentType", None, Part::Value),
    Component("content", None, Part::Value),
];

pub(super) static TST_INFO: [Component; 10] = [
    Component("version", None, Part::Value),
    Component("policy", None, Part::Value),
    Component("messageImprint", None, Part::MessageImprint),
    Component("serialNumber", None, Part::Value),
    Component("genTime", None, Part::Value),
    Component("accuracy", Some(0x30), Part::Accuracy),
    Component("ordering", Some(0x01), Part::Value),
    Component("nonce", Some(0x02), Part::Value),
    Component("tsa", Some(0xa0), Part::ExplicitGeneralName),
    Component("extensions", Some(0xa1), Part::Extensions),
];

pub(super) static ACCURACY: [Component; 3] = [
    Component("seconds", Some(0x02), Part::Value),
    Component("millis", Some(0x80), Part::Value),
    Component("micros", Some(0x81), Part::Value),
];
