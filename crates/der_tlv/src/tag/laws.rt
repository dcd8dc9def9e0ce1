//! Laws of tags and identifier octets, stated as the contracts of functions that do little.

ghost use Rattle.std.specs.Prelude.{◌≡◌};
ghost use Rattle.std.specs.declared.cmp.Ordering.TheVariants.{Less};
ghost use Rattle.der_tlv.specs.declared.tag.mode.TagMode.TheVariants.{Explicit};
ghost use Rattle.der_tlv.specs.TagLaws.{IdentifiersAreUnique, IdentifiersDistinguishTags, IdentifiersReadBack, IdentifiersDecideOrder, IdentifiersAreShort};

use crate::tag::mode::TagMode;
use std::cmp::Ordering;

/// States that no identifier octets are a prefix of those of another tag.
pub fn identifiers_are_unique()
    ensures { IdentifiersAreUnique }
{}

/// States that tags with the same identifier octets are the same.
pub fn identifiers_distinguish_tags()
    ensures { IdentifiersDistinguishTags }
{}

/// States that reading the identifier octets of a tag gives that tag, whatever follows them.
pub fn identifiers_read_back()
    ensures { IdentifiersReadBack }
{}

/// States that what follows identifier octets affects the lexicographic order only if the tags
/// are the same.
pub fn identifiers_decide_order()
    ensures { IdentifiersDecideOrder }
{}

/// States that a tag has one to six identifier octets.
pub fn identifiers_are_short()
    ensures { IdentifiersAreShort }
{}

/// Compares explicit tagging with implicit tagging: explicit is less.
pub fn explicit_before_implicit() -> Ordering
    ensures { result ≡ Less }
{
    TagMode::Explicit.cmp(&TagMode::Implicit)
}

/// Returns the default tagging, which is explicit (X.680 31.2.7).
pub fn default_mode() -> TagMode
    ensures { result ≡ Explicit }
{
    TagMode::default()
}
