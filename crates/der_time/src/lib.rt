//! GeneralizedTime and UTCTime as in RFC 5280 4.1.2.5 (X.680 46, 47; X.690 11.7, 11.8).
//!
//! ```rust
//! match UtcTime::from_der(rt.alloc(), "\u{17}\u{d}260131235959Z".as_bytes()) {
//!     Ok(time) => assert_eq!(rt; time.to_date_time().year(), 2026),
//!     Err(_) => return Err("refused".into()),
//! }
//! ```
#![tactic(auto)]

mod const_range;
mod date_time;
mod digits;
mod fields;
mod generalized_time;
pub mod laws;
mod reading;
mod text;
mod utc_time;

pub use const_range::const_contains_u8;
pub use date_time::DateTime;
pub use generalized_time::GeneralizedTime;
pub use utc_time::UtcTime;
