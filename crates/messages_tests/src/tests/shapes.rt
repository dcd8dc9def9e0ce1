//! Values of each shape, read and written back, and octets that are refused.

mod additions;
mod constrained;
mod defaults;
mod empty;
mod fields;
mod lists;
mod ordering;
mod owning;
mod reading;
mod recursion;
mod refusing;
mod simple;
mod sizes;
mod times;

use crate::tests::numbered;
use der_tlv::Error;

// Returns the item of a list, or the number of the error; 0 if the list is too short.
fn item<T>(found: Option<Result<T, Error>>) -> Result<T, u8> {
    match found {
        Some(item) => numbered(item),
        None => Err(0),
    }
}
