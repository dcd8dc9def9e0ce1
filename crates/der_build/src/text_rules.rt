//! The string that holds the text of an attribute of a name (RFC 5280 section 4.1.2.4 and appendix A.1).

ghost use Rattle.std.specs.Prelude.{◌≡◌, ◌<◌, ◌^◌, length};
ghost use Rattle.der_build.specs.Attributes.{can_hold, fits, string_tag};

use der_ascii::{Ia5StringRef, PrintableStringRef};
use der_pkix::name::constants::{
    ID_AT_COUNTRY_NAME, ID_AT_DN_QUALIFIER, ID_AT_SERIAL_NUMBER, ID_DOMAIN_COMPONENT,
    ID_EMAIL_ADDRESS,
};
use der_tlv::Tag;
use der_verify::{character_count, may_have};

/// Returns the tag of the string that holds the text of an attribute.
#[tactic(auto, unfolding(crate::specs::Attributes::string_tag, der_verify::specs::Bounds::is_id_at))]
pub(crate) fn string_tag(type_: &[u8]) -> Tag
    ensures { result ≡ string_tag type_.now }
{
    if type_ == ID_AT_SERIAL_NUMBER.as_slice()
        || type_ == ID_AT_COUNTRY_NAME.as_slice()
        || type_ == ID_AT_DN_QUALIFIER.as_slice()
    {
        Tag::PrintableString
    } else if type_ == ID_DOMAIN_COMPONENT.as_slice() || type_ == ID_EMAIL_ADDRESS.as_slice() {
        Tag::Ia5String
    } else {
        Tag::Utf8String
    }
}

/// Returns whether the string of the attribute can hold the text, and the text has neither too
/// few characters nor too many.
#[tactic(auto, unfolding(crate::specs::Attributes::fits))]
pub(crate) fn fits(type_: &[u8], text: &[u8]) -> bool
    requires { length text.now < 2 ^ 32 }
    ensures { result ≡ fits type_.now text.now }
{
    can_hold(string_tag(type_), text) && may_have(type_, character_count(text))
}

/// Returns whether a string with this tag can hold the text, which is UTF-8.
fn can_hold(tag: Tag, text: &[u8]) -> bool
    requires { length text.now < 2 ^ 32 }
    ensures { result ≡ can_hold tag text.now }
{
    match tag {
        Tag::PrintableString => PrintableStringRef::new(text).is_ok(),
        Tag::Ia5String => Ia5StringRef::new(text).is_ok(),
        _ => true,
    }
}
