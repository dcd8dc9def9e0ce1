//! Strings whose characters have one octet each: PrintableString, IA5String, TeletexString and
//! VideotexString (X.690 8.23).
//!
//! ```rust
//! match PrintableStringRef::new("DE".as_bytes()) {
//!     Ok(country) => assert_eq!(rt;
//!         country.to_der(rt.alloc())?.as_slice(),
//!         [0x13, 0x02, 0x44, 0x45].as_slice()
//!     ),
//!     Err(_) => return Err("refused".into()),
//! }
//! ```
#![tactic(auto)]

mod characters;
pub mod laws;
mod string;
mod string_ref;
mod string_tag;

pub use string::CharacterString;
pub use string_ref::CharacterStringRef;
pub use string_tag::CharacterStringTag;

/// PrintableString, borrowed: letters, digits, space and ' ( ) + , - . / : = ? (X.680 41.4).
pub type PrintableStringRef<'a> = CharacterStringRef<'a, 19>;

/// PrintableString: letters, digits, space and ' ( ) + , - . / : = ? (X.680 41.4).
pub type PrintableString = CharacterString<19>;

/// TeletexString, borrowed: the octets 00 to 7F.
pub type TeletexStringRef<'a> = CharacterStringRef<'a, 20>;

/// TeletexString: the octets 00 to 7F.
pub type TeletexString = CharacterString<20>;

/// VideotexString, borrowed: the octets 00 to 7F.
pub type VideotexStringRef<'a> = CharacterStringRef<'a, 21>;

/// IA5String, borrowed: the octets 00 to 7F.
pub type Ia5StringRef<'a> = CharacterStringRef<'a, 22>;

/// IA5String: the octets 00 to 7F.
pub type Ia5String = CharacterString<22>;
