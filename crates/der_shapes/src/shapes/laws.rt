//! The laws of Shapes: functions with empty bodies, whose contracts state what holds of its types.
//!
//! Made by tools/asn1 from shapes.asn1.

pub use crate::shapes::aliases::{grammar_of_code, grammar_of_level, grammar_of_small};
pub use crate::shapes::bounded::{grammar_of_bounded, octets_of_bounded};
pub use crate::shapes::chain::grammar_of_chain;
pub use crate::shapes::color::grammar_of_color;
pub use crate::shapes::counted::{grammar_of_counted, octets_of_counted};
pub use crate::shapes::described::{grammar_of_described, octets_of_described};
pub use crate::shapes::empty::{grammar_of_empty, octets_of_empty};
pub use crate::shapes::extensible::{grammar_of_extensible, octets_of_extensible};
pub use crate::shapes::few::grammar_of_few;
pub use crate::shapes::filter::grammar_of_filter;
pub use crate::shapes::general::grammar_of_general;
pub use crate::shapes::label::grammar_of_label;
pub use crate::shapes::labels::{grammar_of_labels, octets_of_labels};
pub use crate::shapes::limited::grammar_of_limited;
pub use crate::shapes::link::{grammar_of_link, octets_of_link};
pub use crate::shapes::lists::{grammar_of_lists, octets_of_lists};
pub use crate::shapes::marks::{grammar_of_marks, octets_of_marks};
pub use crate::shapes::marks_fourth::{grammar_of_marks_fourth, octets_of_marks_fourth};
pub use crate::shapes::mixed::{grammar_of_mixed, octets_of_mixed};
pub use crate::shapes::node::{grammar_of_node, octets_of_node};
pub use crate::shapes::note::grammar_of_note;
pub use crate::shapes::notes::{grammar_of_notes, octets_of_notes};
pub use crate::shapes::nothing::{grammar_of_nothing, octets_of_nothing};
pub use crate::shapes::numbers::grammar_of_numbers;
pub use crate::shapes::ordered::grammar_of_ordered;
pub use crate::shapes::pair::{grammar_of_pair, octets_of_pair};
pub use crate::shapes::session::{grammar_of_session, octets_of_session};
pub use crate::shapes::sizes::{grammar_of_sizes, octets_of_sizes};
pub use crate::shapes::status::grammar_of_status;
pub use crate::shapes::subtree::{grammar_of_subtree, octets_of_subtree};
pub use crate::shapes::titled::{grammar_of_titled, octets_of_titled};
pub use crate::shapes::unordered::grammar_of_unordered;
