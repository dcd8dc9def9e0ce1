//! The order of the fields of a SEQUENCE, which is the order of their joined encodings.

ghost use Rattle.std.specs.Prelude.{◌≡◌};
ghost use Rattle.der_elem.specs.FirstTags.{Starts};
ghost use Rattle.der_fields.specs.ComparingFields.{ComparesFields, DecidesPresence, lex_first_tags};

use crate::field_list::FieldList;
use der_tlv::{Error, Tag};
use std::cmp::Ordering;

/// The tag that the fields' joined encodings begin with.
pub trait FieldsFirstTag: FieldList {
    /// Returns the tag that the first encoding begins with, if any field has octets.
    fn fields_first_tag(&self) -> Option<Tag>
        ensures { result ≡ Self.list.first_tag self.now };

    ghost starts_fields: { (v : Self) → Starts (Self.list.first_tag v) (Self.list.octets.contents v) };
}

/// The order of fields.
pub trait FieldsOrd: FieldList {
    /// Compares the joined encodings lexicographically.
    ///
    /// # Errors
    /// `ErrorKind::Overflow` (9) if one has more than 4294967295 octets, `ErrorKind::Value` (13)
    /// if two are not comparable, `ErrorKind::Memory` (1) if one reads items again and no memory
    /// is left.
    fn cmp_fields(&self, other: &Self) -> Result<Ordering, Error>
        ensures { ComparesFields Self.list self.now other.now result };
}

/// Returns whether both fields are present, or both absent.
pub(crate) fn both_or_none(first: Option<Tag>, second: Option<Tag>) -> bool
    ensures { DecidesPresence first second result }
{
    match (first, second) {
        (Some(_), Some(_)) => true,
        (None, None) => true,
        (Some(_), None) => false,
        (None, Some(_)) => false,
    }
}

/// Compares identifier octets. Absent ones are less than any other.
pub(crate) fn cmp_first_tags(first: Option<Tag>, second: Option<Tag>) -> Ordering
    ensures { result ≡ lex_first_tags first second }
{
    match (first, second) {
        (Some(tag), Some(other)) => tag.cmp(&other),
        (None, None) => Ordering::Equal,
        (Some(_), None) => Ordering::Greater,
        (None, Some(_)) => Ordering::Less,
    }
}
