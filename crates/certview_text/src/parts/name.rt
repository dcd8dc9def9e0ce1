//! The components of the types of `name`.
//!
//! Made by tools/asn1.

use super::{Component, Part};

pub(super) static ATTRIBUTE: [Component; 2] = [
    Component("type", None, Part::Value),
    Component("values", None, Part::Value),
];

pub(super) static ATTRIBUTE_TYPE_AND_VALUE: [Component; 2] = [
    Component("type", None, Part::Value),
    Component("value", None, Part::Value),
];

pub(super) static RDN_SEQUENCE: [Component; 1] = [Component(
    "",
    None,
    Part::RelativeDistinguishedName,
)];

pub(super) static RELATIVE_DISTINGUISHED_NAME: [Component; 1] = [Component(
    "",
    None,
    Part::AttributeTypeAndValue,
)];

pub(super) static EXPLICIT_RDN_SEQUENCE: [Component; 1] = [Component("", None, Part::RdnSequence)];
