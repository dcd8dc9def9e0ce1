//! What is built, and what is refused.

mod extensions;
mod keys;
mod names;

use std::alloc::Global;

// Returns the wanted octets.
fn wanted(alloc: Global, octets: &str) -> Result<Vec<u8>, u8> {
    match hex::decode(alloc, octets) {
        Ok(octets) => Ok(octets),
        Err(_) => Err(0),
    }
}
