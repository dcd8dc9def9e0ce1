//! UTF8String, GeneralString and BMPString (X.690 8.23).
//!
//! ```rust
//! match Utf8StringRef::from_der(rt.alloc(), &[0x0c, 0x02, 0xc3, 0xa9]) {
//!     Ok(name) => assert_eq!(rt; name.as_str(), "é"),
//!     Err(_) => return Err("refused".into()),
//! }
//! ```
#![tactic(auto)]

mod bmp_iter;
mod bmp_string;
mod bmp_units;
mod general_string;
pub mod laws;
mod utf8_string;

pub use bmp_iter::{BmpChars, BmpCodepoints};
pub use bmp_string::BmpString;
pub use general_string::GeneralStringRef;
pub use utf8_string::Utf8StringRef;
