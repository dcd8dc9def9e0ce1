//! Validation of a chain of certificates (RFC 5280 section 6.1), and the names of section
//! 4.2.1.10, each compared with a constraint.
#![tactic(auto)]

mod address;
mod attempt;
mod basic;
mod chain;
mod counters;
mod deltas;
mod domain;
mod extension_values;
mod facts;
mod finding;
mod graph;
mod host;
mod keep;
mod keys;
mod link;
mod list_step;
mod mailbox;
mod meanings;
mod names;
mod ocsp;
mod ocsp_facts;
mod ocsp_step;
mod path;
mod placement;
mod points;
mod policy;
mod policy_list;
mod read_chain;
mod read_names;
mod reasons;
mod resource;
mod revocation;
mod revocation_facts;
mod state;
mod status;
mod step;

pub use address::address_placement;
pub use domain::domain_placement;
pub use finding::{FIRST, FindError, FoundPath, Position, RefusedPath, Search, find_path};
pub use host::names_host;
pub use keys::{Anchor, Verification, WorkingKey};
pub use list_step::ListStep;
pub use mailbox::mailbox_placement;
pub use ocsp::{CertificateHashes, OcspError, OcspStatus, Responder, ocsp_status};
pub use ocsp_step::OcspStep;
pub use path::{Inputs, PathError, ValidPath, check_path, policies_of};
pub use placement::Placement;
pub use policy::{Policy, any_policy};
pub use policy_list::{octets_of_policies, read_policies};
pub use reasons::Reasons;
pub use resource::resource_placement;
pub use revocation::{ListError, ListStatus, Revoked, list_status};
pub use status::{RevocationError, RevocationStatus, revocation_status};
pub use step::{Field, Step};
