//! The components of the types of `extension`.
//!
//! Made by tools/asn1.

use super::{Component, Part};

pub(super) static EXPLICIT_GENERAL_NAME: [Component; 9] = [
    Component("", Some(0xa0), Part::AnotherName),
    Component("", Some(0x81), Part::Value),
    Component("", Some(0x82), Part::Value),
    Component("", Some(0xa3), Part::Value),
    Component("", Some(0xa4), Part::ExplicitRdnSequence),
    Component("", Some(0xa5), Part::Value),
    Component("", Some(0x86), Part::Value),
    Component("", Some(0x87), Part::Value),
    Component("", Some(0x88), Part::Value),
];

pub(super) static ANOTHER_NAME: [Component; 2] = [
    Component("type-id", None, Part::Value),
    Component("value", None, Part::Value),
];

pub(super) static AUTHORITY_INFO_ACCESS_SYNTAX: [Component; 1] = [Component(
    "",
    None,
    Part::AccessDescription,
)];

pub(super) static ACCESS_DESCRIPTION: [Component; 10] = [
    Component("accessMethod", None, Part::Value),
    Component("accessLocation", Some(0xa0), Part::AnotherName),
    Component("accessLocation", Some(0x81), Part::Value),
    Component("accessLocation", Some(0x82), Part::Value),
    Component("accessLocation", Some(0xa3), Part::Value),
    Component("accessLocation", Some(0xa4), Part::ExplicitRdnSequence),
    Component("accessLocation", Some(0xa5), Part::Value),
    Component("accessLocation", Some(0x86), Part::Value),
    Component("accessLocation", Some(0x87), Part::Value),
    Component("accessLocation", Some(0x88), Part::Value),
];

pub(super) static GENERAL_NAMES: [Component; 9] = [
    Component("", Some(0xa0), Part::AnotherName),
    Component("", Some(0x81), Part::Value),
    Component("", Some(0x82), Part::Value),
    Component("", Some(0xa3), Part::Value),
    Component("", Some(0xa4), Part::ExplicitRdnSequence),
    Component("", Some(0xa5), Part::Value),
    Component("", Some(0x86), Part::Value),
    Component("", Some(0x87), Part::Value),
    Component("", Some(0x88), Part::Value),
];

pub(super) static SEQUENCE_OF_POLICY_INFORMATION: [Component; 1] = [Component(
    "",
    None,
    Part::PolicyInformation,
)];

pub(super) static POLICY_INFORMATION: [Component; 2] = [
    Component("policyIdentifier", None, Part::Value),
    Component(
        "policyQualifiers",
        Some(0x30),
        Part::SequenceOfPolicyQualifierInfo,
    ),
];

pub(super) static SEQUENCE_OF_POLICY_QUALIFIER_INFO: [Component; 1] = [Component(
    "",
    None,
    Part::PolicyQualifierInfo,
)];

pub(super) static POLICY_QUALIFIER_INFO: [Component; 2] = [
    Component("policyQualifierId", None, Part::Value),
    Component("qualifier", None, Part::Value),
];
