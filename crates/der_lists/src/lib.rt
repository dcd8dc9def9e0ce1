//! Lists that borrow the octets that they were read from (X.690 8.10, 8.12, 11.6).
//!
//! Each list keeps only the contents octets as they were read, and no items, so it is `Copy` and
//! takes no memory. Every item is checked when the list is read; `iter` reads the items again.
//!
//! ```rust
//! let list = ListRef::<u16>::from_der(rt.alloc(), &[0x30, 0x03, 0x02, 0x01, 0x05])?;
//! assert_eq!(rt; list.to_vec(rt.alloc())?.as_slice(), [5].as_slice());
//! ```
#![tactic(auto)]

mod item_iter;
mod item_test;
mod keeping;
mod list_ref;
mod members;
mod non_empty_ref;
mod set_ref;
mod unordered_set_ref;

pub use item_iter::ItemIter;
pub use item_test::ItemTest;
pub use list_ref::ListRef;
pub use non_empty_ref::NonEmptyRef;
pub use set_ref::SetRef;
pub use unordered_set_ref::UnorderedSetRef;
