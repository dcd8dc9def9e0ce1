//! Values of a recursive type, which are checked to a depth.
#![tactic(auto)]

mod depth;
mod recursive;

pub use depth::check_depth;
pub use recursive::Recursive;
