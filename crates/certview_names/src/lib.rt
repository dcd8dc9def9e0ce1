//! The names of messages, and of the values of extensions, in lines.
//!
//! ```rust
//! let mut written = Vec::new(rt.alloc());
//! let mut input = LineReader::new(b"keyusage 030205a0\n".as_slice(), u64::MAX);
//! let mut output = OctetWriter::new(&mut written);
//! let result = run::<MessageNames, _, _>(rt.alloc(), &mut input, &mut output);
//! assert!(rt; result.is_ok());
//! assert_eq!(rt; written.as_slice(), b"ok 030205a0\n".as_slice());
//! ```
#![tactic(auto)]

mod messages;

pub use messages::MessageNames;
