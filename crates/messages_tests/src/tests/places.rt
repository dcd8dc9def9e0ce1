//! Places, against those that `openssl asn1parse` prints.

mod attributes;
mod certificates;
mod keys;
mod lists;
mod requests;
mod signed;
mod status;

use der_places::Place;

/// Returns the byte range of `length` octets at `offset`.
fn at(offset: u32, length: u32) -> Place {
    Place { offset, length }
}
