//! Sequences and sets of items (X.690 8.9 to 8.12, 11.6).
//!
//! ```rust
//! let set = SetOfVec::from_array(rt.alloc(), [300u16, 8, 7])?;
//! assert_eq!(rt; set.as_slice(), [7, 8, 300].as_slice());
//! ```
#![tactic(auto)]

mod comparing;
mod falling;
mod finding;
mod item_count;
mod item_order;
mod item_reader;
mod item_set;
mod items;
mod kept;
pub mod laws;
mod merging;
mod non_empty;
mod probe;
mod sequence_of;
mod sequence_of_ref;
mod sequence_of_ref_iter;
mod sequence_ref;
mod set_of;
mod set_of_ref;
mod set_of_ref_iter;
mod set_of_vec;

pub use item_count::{DuplicateItems, ItemContents, ItemCount};
pub use item_order::{ByEncoding, ItemOrder, OrdersByEncoding, Values};
pub use item_set::ItemSet;
pub use kept::Kept;
pub use merging::Runs;
pub use non_empty::NonEmpty;
pub use probe::{Asks, ItemProbe, Probe, insertion_place};
pub use sequence_of::{SequenceOf, SequenceOfIter};
pub use sequence_of_ref::SequenceOfRef;
pub use sequence_of_ref_iter::SequenceOfRefIter;
pub use sequence_ref::SequenceRef;
pub use set_of::{SetOf, SetOfIter};
pub use set_of_ref::SetOfRef;
pub use set_of_ref_iter::SetOfRefIter;
pub use set_of_vec::SetOfVec;
