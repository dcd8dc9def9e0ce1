//! Reading contents octets as a whole.

ghost use Rattle.std.specs.Prelude.{◌≡◌, length, IfOk, IfErr};
ghost use Rattle.der_tlv.specs.ReaderState.{rest};
ghost use Rattle.der_tlv.specs.Reading.{Stands};
ghost use Rattle.der_elem.specs.Contents.{ContentsRead, ContentsRefused};

use der_tlv::{Error, Header, Reader, Source};

/// Reads all the octets that the reader shows; the header gives their number.
///
/// # Errors
/// `ErrorKind::Failed` (17) on a failed reader.
pub fn read_contents<'a, R: Source<'a>>(reader: &mut R, header: Header) -> Result<&'a [u8], Error>
    ensures reader { Stands (R.state reader.old) (R.state reader.new) result }
    ensures ok { length (rest (R.state reader.old)) ≡ header.length → IfOk result (λ octets.
        ContentsRead (R.state reader.old) (R.state reader.new) octets.now) }
    ensures err { length (rest (R.state reader.old)) ≡ header.length → IfErr result (λ e.
        ContentsRefused (R.state reader.old) (R.state reader.new) e.kind) }
{
    reader.read_slice(header.length)
}
