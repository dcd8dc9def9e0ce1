//! The types that lines name.
ghost use Rattle.std.specs.Prelude.{◌≡◌};
ghost use Rattle.std.specs.Str.{bytes_eq};
ghost use Rattle.der_lines.specs.Tables.{Table, AnswersAs};

use crate::kept_writer::KeptWriter;
use der_tlv::Error;
use std::alloc::Global;

/// The types that lines name.
///
/// `choose!` writes the method for a table of names and types.
pub trait Names {
    /// By the name of a type, how octets are parsed as that type, and when reading it takes
    /// memory.
    ghost table: { Table };

    /// Replaces the octets of `encoding` by the canonical encoding of the value that the octets
    /// encode as the type of that name, if there is such a type.
    ///
    /// # Errors
    /// As `put_canonical` of the type.
    fn put_canonical_of_name(
        alloc: Global,
        name: &[u8],
        octets: &[u8],
        encoding: &mut KeptWriter,
    ) -> Option<Result<(), Error>>
        ensures { AnswersAs (table name.now) octets.now encoding.new.octets.items result };
}

/// Returns whether a name is this text.
pub fn is_name(name: &[u8], text: &str) -> bool
    ensures { result ≡ bytes_eq name.now text.now }
{
    name == text.as_bytes()
}

/// Finds the type with the name, and writes the canonical encoding of the value of that type that
/// the octets encode.
#[macro_export]
macro_rules! choose {
    ($alloc:expr, $name:expr, $octets:expr, $encoding:expr; $($text:literal => $type:ty,)*) => {
        $(if $crate::is_name($name, $text) {
            return Some($crate::put_canonical::<$type>($alloc, $octets, $encoding));
        })*
        None
    };
}

/// Does the work of `choose!` for SEQUENCEs of lists of fields.
#[macro_export]
macro_rules! choose_sequence {
    ($alloc:expr, $name:expr, $octets:expr, $encoding:expr; $($text:literal => $type:ty,)*) => {
        $(if $crate::is_name($name, $text) {
            return Some($crate::put_canonical_sequence(
                $alloc,
                $octets,
                $encoding,
                std::marker::PhantomData::<$type>,
            ));
        })*
        None
    };
}
