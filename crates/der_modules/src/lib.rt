//! Definitions for the types of an ASN.1 module that `tools/asn1` writes: the words of ASN.1, in
//! which its grammar is written (`specs/Asn1.antt`), the equality of a type that a module
//! defines, from that of its members (`specs/Members.antt`), and the laws of its copies
//! (`specs/MemberLaws.antt`).
#![tactic(auto)]

mod building;
mod general_string;
mod library;
mod member;

ghost use Rattle.std.specs.Prelude.{◌≡◌};
ghost use Rattle.der_modules.specs.MemberLaws.{CopiesOf};

pub use der_fields::{End, Field};
pub use general_string::GeneralStringOctets;
pub use member::{Choosing, Member};

/// The laws of the copies of a type as one member, which its impls of `DuplicateValue` or of
/// `Duplicate` cite.
pub trait CopyLaws: Sized {
    ghost copies: { CopiesOf Self };
}

/// Returns a copy of a value that is `Copy`, and takes no memory.
pub fn copy_of<T: Copy>(value: &T) -> T
    ensures { result ≡ value.now }
{
    *value
}
