//! Shapes.
//!
//! Made by tools/asn1 from shapes.asn1.

mod aliases;
mod bounded;
mod chain;
mod color;
mod counted;
mod defaults;
mod described;
mod empty;
mod extensible;
mod few;
mod filter;
mod general;
mod label;
mod labels;
pub mod laws;
mod limited;
mod link;
mod lists;
mod marks;
mod marks_fourth;
mod mixed;
mod node;
mod note;
mod notes;
mod nothing;
mod numbers;
mod ordered;
mod pair;
mod session;
mod sizes;
mod status;
mod subtree;
mod titled;
mod unordered;

pub use aliases::{Code, LEVEL_HIGH, LEVEL_LOW, Level, Small};
pub use bounded::Bounded;
pub use chain::Chain;
pub use color::Color;
pub use counted::Counted;
pub use defaults::{
    Default200, Default300, Default8080, DefaultMinus1, DefaultMinus40000, DefaultNull,
    DefaultOfCountedColor, DefaultOfDescribedBits, DefaultOfDescribedColor, DefaultOfDescribedKey,
    DefaultOfDescribedMail, DefaultOfDescribedName, DefaultOfDescribedPlace,
    DefaultOfDescribedType, DefaultTrue,
};
pub use described::Described;
pub use empty::Empty;
pub use extensible::Extensible;
pub use few::Few;
pub use filter::Filter;
pub use general::General;
pub use label::Label;
pub use labels::Labels;
pub use limited::Limited;
pub use link::Link;
pub use lists::Lists;
pub use marks::Marks;
pub use marks_fourth::MarksFourth;
pub use mixed::Mixed;
pub use node::Node;
pub use note::Note;
pub use notes::Notes;
pub use nothing::Nothing;
pub use numbers::Numbers;
pub use ordered::Ordered;
pub use pair::Pair;
pub use session::Session;
pub use sizes::Sizes;
pub use status::Status;
pub use subtree::Subtree;
pub use titled::Titled;
pub use unordered::Unordered;
