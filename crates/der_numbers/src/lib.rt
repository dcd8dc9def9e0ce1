//! INTEGER of any length (X.690 8.3).
//!
//! ```rust
//! match UintRef::new(&[0x00, 0x80]) {
//!     Ok(number) => {
//!         assert_eq!(rt; number.as_bytes(), [0x80].as_slice());
//!         assert_eq!(rt;
//!             number.to_der(rt.alloc())?.as_slice(),
//!             [0x02, 0x02, 0x00, 0x80].as_slice()
//!         );
//!     }
//!     Err(_) => return Err("refused".into()),
//! }
//! ```
#![tactic(auto)]

mod enumerated;
mod int;
mod int_ref;
pub mod laws;
mod machine;
mod octets;
mod uint;
mod uint_ref;

pub use enumerated::{Enumerated, EnumeratedTag, Enumeration};
pub use int::Int;
pub use int_ref::{AsIntRef, IntRef};
pub use uint::Uint;
pub use uint_ref::{AsUintRef, UintRef};
