//! Readers that have failed.

ghost use Rattle.der_elem.specs.Readiness.{AsksReady};

use der_tlv::{Error, Length, Reader, Source};

/// Checks that the reader has not failed.
///
/// # Errors
/// `ErrorKind::Failed` (17) on a failed reader.
#[inline]
pub fn check_ready<'a, R: Source<'a>>(reader: &mut R) -> Result<(), Error>
    ensures { AsksReady (R.state reader.old) (R.state reader.new) result }
{
    // Only a failed reader refuses to read nothing.
    reader.read_slice(Length::ZERO)?;
    Ok(())
}
