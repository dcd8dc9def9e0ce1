//! The tag at the front of octets.

ghost use Rattle.std.specs.Prelude.{◌≡◌, ◌<◌, ◌^◌, length};
ghost use Rattle.der_additions.specs.Elements.{first_tag};

use der_tlv::{Header, Reader, SliceReader, Tag};

/// Returns the tag of the header at the front of the octets, if there is one.
pub(crate) fn first_tag(octets: &[u8]) -> Option<Tag>
    requires { length octets.now < 2 ^ 32 }
    ensures { result ≡ first_tag octets.now }
{
    let mut reader = match SliceReader::new(octets) {
        Ok(reader) => reader,
        Err(_) => return None,
    };
    match Header::decode(&mut reader) {
        Ok(header) => Some(header.tag),
        Err(_) => None,
    }
}
