//! BIT STRING (X.690 8.6, 11.2.1): bits in order, and bits by their position.
//!
//! ```rust
//! match BitStringRef::from_der(rt.alloc(), &[0x03, 0x02, 0x05, 0xa0]) {
//!     Ok(usages) => {
//!         assert_eq!(rt; usages.bit_len(), 3);
//!         assert_eq!(rt; usages.get(2), Some(true));
//!     }
//!     Err(_) => return Err("refused".into()),
//! }
//! ```
#![tactic(auto)]

mod allowed_len;
mod bit_string;
mod bit_string_iter;
mod bit_string_ref;
pub mod laws;
mod named_bits;
mod trimming;
mod unused_bits;

pub use allowed_len::AllowedLenBitString;
pub use bit_string::BitString;
pub use bit_string_iter::BitStringIter;
pub use bit_string_ref::{AsBitStringRef, BitStringRef};
pub use named_bits::NamedBitsRef;
