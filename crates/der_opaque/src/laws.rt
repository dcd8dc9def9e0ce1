//! Laws of values whose contents octets are kept as they are.

ghost use Rattle.std.specs.Prelude.{◌≡◌, [], ◌∷◌};
ghost use Rattle.std.specs.Ordering.{ordering_then};
ghost use Rattle.der_tlv.specs.declared.tag.Tag.TheVariants as tags;
ghost use Rattle.der_tlv.specs.Identifier.{identifier};
ghost use Rattle.der_tlv.specs.Octets.{lex};
ghost use Rattle.der_opaque.specs.Any.{tag_of, contents_of};
ghost use Rattle.der_opaque.specs.AnyRef as borrowed;

use crate::any::Any;
use crate::any_ref::AnyRef;
use crate::null::Null;
use crate::object_identifier::ObjectIdentifier;
use crate::object_identifier_ref::ObjectIdentifierRef;
use crate::octet_string::OctetString;
use crate::octet_string_ref::OctetStringRef;
use der_elem::{FixedTag, FormValue, Tagged};
use der_tlv::Tag;
use std::cmp::Ordering;

/// Compares two values with any tags: first their identifier octets, then their contents octets.
pub fn tag_then_contents(one: &Any, other: &Any) -> Ordering
    ensures { result ≡ ordering_then (lex (identifier (tag_of one.now))
        (identifier (tag_of other.now))) (lex (contents_of one.now) (contents_of other.now)) }
{
    one.cmp(other)
}

/// Compares two borrowed values with any tags: first their identifier octets, then their contents
/// octets.
pub fn borrowed_tag_then_contents<'a>(one: &AnyRef<'a>, other: &AnyRef<'a>) -> Ordering
    ensures { result ≡ ordering_then
        (lex (identifier (borrowed.tag_of one.now)) (identifier (borrowed.tag_of other.now)))
        (lex (borrowed.contents_of one.now) (borrowed.contents_of other.now)) }
{
    one.cmp(other)
}

/// Returns the tags of the types (X.680 8.6): of `Null`, `OctetString`, `OctetStringRef`,
/// `ObjectIdentifier` and `ObjectIdentifierRef`.
pub fn universal_tags() -> [Tag; 5]
    ensures { result ≡ tags.Null ∷ tags.OctetString ∷ tags.OctetString
        ∷ tags.ObjectIdentifier ∷ tags.ObjectIdentifier ∷ [] }
{
    [
        Null::TAG,
        OctetString::TAG,
        OctetStringRef::TAG,
        ObjectIdentifier::<39>::TAG,
        ObjectIdentifierRef::<39>::TAG,
    ]
}

/// Returns `AnyRef::NULL`, which has the tag of NULL and no contents octets.
pub fn null() -> AnyRef<'static>
    ensures tag { borrowed.tag_of result ≡ tags.Null }
    ensures contents { borrowed.contents_of result ≡ [] }
{
    AnyRef::NULL
}
