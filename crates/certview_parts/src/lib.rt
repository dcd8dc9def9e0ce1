//! The parts of messages as text for people: names, keys, algorithms, times, extensions,
//! attributes and other values, each with its byte range; and the page that collects them and is
//! written as text or as JSON.
#![tactic(auto)]

mod access;
pub mod algorithms;
pub mod any_values;
pub mod asked;
pub mod attribute_rows;
mod attributes;
pub mod bit_strings;
pub mod characters;
mod constraints;
mod content_names;
pub mod early;
pub mod encoding_rules;
pub mod encryption;
pub mod entries;
pub mod extension_rows;
pub mod extensions;
pub mod field_name;
pub mod form;
pub mod hexadecimal;
mod identifier_names;
pub mod identifiers;
mod irregular;
pub mod items;
mod json;
mod key_identifiers;
mod key_sizes;
pub mod names;
pub mod other_names;
pub mod page;
pub mod part_name;
pub mod parts;
mod periods;
pub mod place;
mod points;
mod policies;
pub mod printer;
mod private_extensions;
mod quoted;
pub mod rows;
pub mod signatures;
mod subtrees;
pub mod times;
mod transparency;
mod usages;
pub mod values;
