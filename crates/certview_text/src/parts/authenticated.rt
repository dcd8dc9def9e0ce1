//! The components of the types of `authenticated`.
//!
//! Made by tools/asn1.

use super::{Component, Part};

pub(super) static AUTHENTICATED_DATA: [Component; 9] = [
    Component("version", None, Part::Value),
    Component("originatorInfo", Some(0xa0), Part::OriginatorInfo),
    Component("recipientInfos", None, Part::RecipientInfos),
    Component("macAlgorithm", None, Part::AlgorithmIdentifier),
    Component("digestAlgorithm", Some(0xa1), Part::AlgorithmIdentifier),
    Component("encapContentInfo", None, Part::EncapsulatedContentInfo),
    Component("authAttrs", Some(0xa2), Part::SignedAttributes),
    Component("mac", None, Part::Value),
    Component("unauthAttrs", Some(0xa3), Part::UnsignedAttributes),
];
