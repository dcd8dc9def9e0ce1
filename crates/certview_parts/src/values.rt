//! Successive values in octets.

ghost use Rattle.std.specs.Prelude.{◌≡◌, ◌≤◌, length};
ghost use Rattle.certview_parts.specs.Values.{at_most, sizes, after_header, after_value, contents};

use der_asn1_types::{Header, Reader, SliceReader};

/// Returns `count`, but at most `most`.
fn at_most(most: usize, count: u64) -> usize
    ensures count { result ≡ at_most most count }
    ensures inside { result ≤ most }
{
    if (most as u64) < count {
        most
    } else {
        count as usize
    }
}

/// Returns the number of octets of the first value's header and of the whole value, as far as
/// they are present; zeros if no header can be read.
pub fn sizes(octets: &[u8]) -> (usize, usize)
    ensures sizes { result ≡ sizes octets.now }
    ensures header { result.0 ≤ length octets.now }
    ensures whole { result.1 ≤ length octets.now }
{
    let Ok(mut reader) = SliceReader::new(octets) else {
        return (0, 0);
    };
    let Ok(header) = Header::decode(&mut reader) else {
        return (0, 0);
    };
    let count = u64::from(reader.position().value());
    let whole = count + u64::from(header.length.value());
    (at_most(octets.len(), count), at_most(octets.len(), whole))
}

/// Returns the octets after the first header: the first value's contents and what follows.
pub fn after_header(octets: &[u8]) -> &[u8]
    ensures { result.now ≡ after_header octets.now }
{
    let (count, _) = sizes(octets);
    &octets[count..]
}

/// Returns the octets after the first value.
pub fn after_value(octets: &[u8]) -> &[u8]
    ensures { result.now ≡ after_value octets.now }
{
    let (_, count) = sizes(octets);
    &octets[count..]
}

/// Returns the contents octets of the first value.
pub fn contents(octets: &[u8]) -> &[u8]
    ensures { result.now ≡ contents octets.now }
{
    let (_, count) = sizes(octets);
    after_header(&octets[..count])
}
