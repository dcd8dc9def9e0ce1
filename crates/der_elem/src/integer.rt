//! INTEGER: the ten machine integers (X.690 8.3).
//!
//! The tag is 02. The contents octets are the two's complement in the fewest octets, the highest
//! first. Bit 8 of the first octet is the sign: 127 is encoded as 02 01 7F, 128 as 02 02 00 80
//! and -128 as 02 01 80. A `u128` has up to 17 contents octets.
//!
//! `value_cmp` orders two values by their contents octets, and not by the numbers: 128 is before
//! 127, and 1 before -1.

mod front;
mod octets;
mod ordering;
mod reading;
mod signed;
mod unsigned;
mod writing;

pub use reading::{signed_of, unsigned_of};
