//! The number of components of a SEQUENCE OF or a SET OF (X.680 51.5).

ghost use Rattle.std.specs.Prelude.{◌≡◌, ◌<◌, ◌^◌, length};
ghost use Rattle.der_constrained.specs.Components.{component_count};

use der_tlv::{Header, Reader, SliceReader};

/// Counts the encodings in the octets, one after another: two in 02 01 05 05 00. The count is 0
/// if the octets are no encodings.
///
/// It reads only the headers, and takes no memory.
pub(crate) fn count_components(octets: &[u8]) -> usize
    requires { length octets.now < 2 ^ 32 }
    ensures { result ≡ component_count octets.now }
{
    let mut reader = match SliceReader::new(octets) {
        Ok(reader) => reader,
        Err(_) => unreachable!(),
    };
    let mut count = 0;
    'components: while !reader.is_finished() {
        match Header::decode_with_contents(&mut reader) {
            Ok(_) => count += 1,
            Err(_) => return 0,
        }
    }
    count
}
