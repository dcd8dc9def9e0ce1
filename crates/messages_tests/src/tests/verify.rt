//! Rules that certificates and lists break, extensions that are found, octets that are signed, and dates.

pub(crate) mod data;
mod extensions;
mod list_data;
mod many;
mod names;
mod rules;
mod rules_of_lists;
mod signed;
mod sizes;
mod times;
