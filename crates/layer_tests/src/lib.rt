//! Tests of the layer, from `der_tlv` to `der_wrap` and `der_nest`, and of `der_lists` and `der_recursive`.
#![tactic(auto)]

mod enumerations;
mod filter;
mod tree;

pub use enumerations::{CrlReason, Version};
pub use filter::Filter;
pub use tree::Tree;

#[cfg(test)]
mod tests;
