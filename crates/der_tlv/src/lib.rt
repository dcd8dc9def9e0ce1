//! Tags, lengths and headers of X.690 DER, and the readers and writers of their octets.
//!
//! Identifier octets, length octets and contents octets make an encoding, as 02 01 05 does for
//! the INTEGER 5. This crate reads and writes the first two, and returns the contents octets as
//! they are in the input.
//!
//! ```rust
//! let mut buffer = [0; 4];
//! let mut writer = SliceWriter::new(&mut buffer);
//! let header = Header::new(Tag::OctetString, Length::new(200));
//! assert!(rt; header.encode(&mut writer).is_ok());
//! assert_eq!(rt; writer.finish(), [0x04, 0x81, 0xc8].as_slice());
//! ```
#![tactic(auto)]

mod bytes_owned;
mod bytes_ref;
mod encoding_rules;
mod error;
mod header;
mod header_octets;
mod length;
mod reader;
mod tag;
mod writer;

pub use bytes_owned::BytesOwned;
pub use bytes_ref::BytesRef;
pub use encoding_rules::{EncodingRules, default_rules};
pub use error::{Error, ErrorKind};
pub use header::{Header, headers_are_unique, headers_read_back};
pub use length::{
    Length, greatest_length, lengths_are_short, lengths_are_unique, lengths_read_back,
};
pub use reader::{Cursor, Reader, SliceReader, Source};
pub use tag::{
    Class, Tag, TagMode, TagNumber, default_mode, explicit_before_implicit, identifiers_are_short,
    identifiers_are_unique, identifiers_decide_order, identifiers_distinguish_tags,
    identifiers_read_back,
};
pub use writer::{BackSlice, BackVec, BackWriter, SliceWriter, VecWriter, Writer};
