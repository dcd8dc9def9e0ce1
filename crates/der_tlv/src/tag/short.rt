//! The tags whose identifier is one octet.

ghost use Rattle.std.specs.Prelude.{◌≡◌};
ghost use Rattle.der_tlv.specs.ShortTags.{short_tag};

use crate::tag::{Tag, TagNumber};

/// Makes the table of the tags of first identifier octets, from the entries of the universal
/// class and, for each other class and form, the numbers that fit one octet. The entry after
/// these numbers is none, since the bits 11111 say that the number follows.
macro_rules! table {
    ($($universal:expr),*; $($class:ident $constructed:literal $($number:literal)*;)*) => {
        [
            $($universal,)*
            $(
                $(Some(Tag::$class {
                    constructed: $constructed,
                    number: TagNumber($number),
                }),)*
                None,
            )*
        ]
    };
}

/// The tag of each first identifier octet that is the whole identifier of a tag: bits 8 and 7 are
/// the class, bit 6 is the form, and the others are the number (X.690 8.1.2.2, table 1; X.680 8.4,
/// table 1).
#[rattlefmt::skip]
static SHORT_TAGS: [Option<Tag>; 256] = table!(
    None, Some(Tag::Boolean), Some(Tag::Integer), Some(Tag::BitString),
    Some(Tag::OctetString), Some(Tag::Null), Some(Tag::ObjectIdentifier), None,
    None, Some(Tag::Real), Some(Tag::Enumerated), None,
    Some(Tag::Utf8String), Some(Tag::RelativeOid), None, None,
    None, None, Some(Tag::NumericString), Some(Tag::PrintableString),
    Some(Tag::TeletexString), Some(Tag::VideotexString), Some(Tag::Ia5String), Some(Tag::UtcTime),
    Some(Tag::GeneralizedTime), None, Some(Tag::VisibleString), Some(Tag::GeneralString),
    None, None, Some(Tag::BmpString), None,
    None, None, None, None, None, None, None, None,
    None, None, None, None, None, None, None, None,
    Some(Tag::Sequence), Some(Tag::Set), None, None, None, None, None, None,
    None, None, None, None, None, None, None, None;
    Application false 0 1 2 3 4 5 6 7 8 9 10 11 12 13 14 15 16 17 18 19 20 21 22 23 24 25 26 27 28 29 30;
    Application true 0 1 2 3 4 5 6 7 8 9 10 11 12 13 14 15 16 17 18 19 20 21 22 23 24 25 26 27 28 29 30;
    ContextSpecific false 0 1 2 3 4 5 6 7 8 9 10 11 12 13 14 15 16 17 18 19 20 21 22 23 24 25 26 27 28 29 30;
    ContextSpecific true 0 1 2 3 4 5 6 7 8 9 10 11 12 13 14 15 16 17 18 19 20 21 22 23 24 25 26 27 28 29 30;
    Private false 0 1 2 3 4 5 6 7 8 9 10 11 12 13 14 15 16 17 18 19 20 21 22 23 24 25 26 27 28 29 30;
    Private true 0 1 2 3 4 5 6 7 8 9 10 11 12 13 14 15 16 17 18 19 20 21 22 23 24 25 26 27 28 29 30;
);

/// Returns the tag whose identifier is this octet alone, if there is one.
#[inline(always)]
pub(crate) fn short_tag(first: u8) -> Option<Tag>
    ensures { result ≡ short_tag first }
{
    SHORT_TAGS[usize::from(first)]
}
