//! Extensions, from the encodings of their values (RFC 5280 section 4.2).

ghost use Rattle.std.specs.Prelude.{◌≡◌, IfOk, IfErr};
ghost use Rattle.der_build.specs.Extensions.{extension_octets, RefusesExtension};

use der_elem::Form;
use der_opaque::{ObjectIdentifierRef, OctetStringRef};
use der_pkix::certificate::Extension;
use der_tlv::Error;

/// Makes an extension from the contents octets of its identifier, whether it is critical, and the
/// encoding of its value, which the caller has written.
///
/// 55 1D 13 with 30 00 is encoded as 30 09 06 03 55 1D 13 04 02 30 00: a basicConstraints that is
/// not of a CA.
///
/// # Errors
/// `ErrorKind::OidMalformed` (15) for an identifier of no octets; `ErrorKind::Length` (7) for an
/// identifier of more than 39, and for a value of more than 4294967295.
pub fn extension<'a>(
    identifier: &'a [u8],
    critical: bool,
    value: &'a [u8],
) -> Result<Extension<'a>, Error>
    ensures octets { IfOk result (λ e. ⟦<Extension<'a> as Form>⟧.encoding e
        ≡ extension_octets identifier.now critical value.now) }
    ensures refused { IfErr result (λ e. RefusesExtension identifier.now value.now e.kind) }
{
    let identifier = match ObjectIdentifierRef::from_bytes(identifier) {
        Ok(identifier) => identifier,
        Err(e) => return Err(e),
    };
    match OctetStringRef::new(value) {
        Ok(value) => Ok(Extension::new(identifier, critical, value)),
        Err(e) => Err(e),
    }
}
