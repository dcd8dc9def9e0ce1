//! Functions that write, compare, copy and order lists of items, for a list type that a user
//! defines.

pub use der_elem::{
    DuplicateIsEqual, DuplicateValueIsEqual, check_ready, cmp_items, encode_items,
    encode_items_back, items_len,
};
pub use der_nest::Runs;
