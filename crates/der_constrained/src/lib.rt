//! Types with a constraint on their values (X.680 49 to 51): ranges of INTEGER, sizes of strings
//! and lists, permitted alphabets of strings, and unions and intersections of these.
//!
//! ```rust
//! type Small = Constrained<u8, InRange<0, 10>>;
//!
//! match Small::from_der(rt.alloc(), &[0x02, 0x01, 0x0b]) {
//!     Ok(_) => return Err("11 was read".into()),
//!     Err(e) => assert_eq!(rt; e.kind().number(), 13),
//! }
//! ```
#![tactic(auto)]

mod alphabets;
mod components;
mod constrained;
mod constraint;
mod integers;
mod sizes;

pub use alphabets::{CharacterRange, CharacterSet, CharacterUnion, HasCharacters};
pub use constrained::Constrained;
pub use constraint::{AllExcept, Constraint, IntersectionOf, UnionOf};
pub use integers::InRange;
pub use sizes::HasSize;
