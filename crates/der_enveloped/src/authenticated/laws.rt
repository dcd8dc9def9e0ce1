//! The laws of CmsAuthenticated: functions with empty bodies, whose contracts state what holds of its types.
//!
//! Made by tools/asn1 from authenticated.asn1.

pub use crate::authenticated::aliases::{grammar_of_auth_attributes, grammar_of_unauth_attributes};
pub use crate::authenticated::authenticated_data::{
    grammar_of_authenticated_data, octets_of_authenticated_data,
};
