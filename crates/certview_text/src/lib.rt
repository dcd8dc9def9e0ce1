//! Messages as text for people: certificates, lists of revoked certificates, keys, requests,
//! OCSP, CMS, time stamps, PKCS #12 files and parameters. Each line has one field and its byte
//! range.
//!
//! `ED25519_PUBLIC` is a key as hex digits:
//!
//! ```rust
//! let octets = hex::decode(rt.alloc(), ED25519_PUBLIC)?;
//! let kind = kind_of(octets.as_slice());
//! let text = shown(rt.alloc(), kind, octets.as_slice())?;
//! assert!(rt; text.contains("key algorithm: 1.3.101.112 (Ed25519)"));
//! ```
#![tactic(auto)]

mod authenticated_data;
mod bag_values;
mod bags;
mod blocks;
mod certificate;
mod chains;
mod cms;
mod cms_certificates;
mod contents;
mod curve_parameters;
mod digested_data;
mod dsa;
mod encrypted_data;
mod encrypted_key;
mod enveloped_data;
mod fault;
mod findings;
mod group_parameters;
mod key_agreements;
mod keys;
mod kind;
mod label;
mod moments;
mod ocsp_certificates;
mod ocsp_request;
mod ocsp_response;
mod ocsp_statuses;
mod parts;
mod path;
mod pem;
mod pkcs12;
mod readable;
mod recipients;
mod request;
mod revocation;
mod rsa;
mod shape;
mod signed_content;
mod signed_data;
mod signers;
mod site;
mod stamped;
mod steps;
mod text;
mod time_stamp_query;
mod time_stamp_reply;
mod trust_settings;
mod viewing;
mod whole;

pub use certview_parts::asked::Asked;
pub use certview_parts::characters::plain;
pub use certview_parts::field_name::FieldName;
pub use certview_parts::form::Form;
pub use chains::{add_certificates, show_path};
pub use fault::Fault;
pub use kind::{Kind, kind_of};
pub use label::Label;
pub use path::Path;
pub use text::shown;
pub use viewing::{Outcome, View, read_input, run, show, show_refused};
