//! The header of a value, which says where it ends.

ghost use Rattle.std.specs.Prelude.{◌≡◌, ◌^◌, ◌<◌, length, take, Err, IfOk, IfErr};
ghost use Rattle.der_asn1_types.specs.HeaderReading.{octets_of, read_header};

use der_asn1_types::{Error, Header, SliceReader};

/// Returns the header of the first value. Its contents octets may be absent, so the caller learns
/// how many octets to wait for. The input begins with the octets of the header. If a length can
/// count the octets, the error is the first one in reading a header from them.
pub fn first_header(octets: &[u8]) -> Result<Header, Error>
    ensures header { IfOk result
        (λ header. take (length (octets_of header)) octets.now ≡ octets_of header) }
    ensures fault { length octets.now < 2 ^ 32
        → IfErr result (λ e. read_header 0 octets.now ≡ Err e.kind) }
{
    let mut reader = match SliceReader::new(octets) {
        Ok(reader) => reader,
        Err(e) => return Err(e),
    };
    Header::decode(&mut reader)
}
