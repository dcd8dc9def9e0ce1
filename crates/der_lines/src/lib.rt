//! Programs that answer lines: each line is the name of a type, a space and the hex digits of
//! octets.
//!
//! The answer to a line is `ok` and the canonical encoding of the value that the octets encode,
//! `refused` and the number of their first error, or `bad line`. A program implements `Names` for
//! the types that its lines name; `run` answers each line of its input before it reads the next.
//!
//! With `TypeNames` of `derview_names` as its table:
//!
//! ```rust
//! let mut written = Vec::new(rt.alloc());
//! let mut input = LineReader::new(b"u16 020105\nu16 0200\n".as_slice(), u64::MAX);
//! let mut output = OctetWriter::new(&mut written);
//! let result = run::<TypeNames, _, _>(rt.alloc(), &mut input, &mut output);
//! assert!(rt; result.is_ok());
//! assert_eq!(rt; written.as_slice(), b"ok 020105\nrefused 7\n".as_slice());
//! ```
#![tactic(auto)]

mod answer;
mod answering;
mod canonical;
mod fault;
mod kept_writer;
mod lines;
mod names;
mod sink;
mod source;

pub use answering::run;
pub use canonical::{put_canonical, put_canonical_sequence, put_canonical_set};
pub use fault::Fault;
pub use kept_writer::KeptWriter;
pub use names::{Names, is_name};
pub use sink::OctetWriter;
pub use source::LineReader;
