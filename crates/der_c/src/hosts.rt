//! The names of a certificate that name a host (RFC 9525 section 6.3).

ghost use Rattle.std.specs.Prelude.{◌≡◌};
ghost use Rattle.der_path.specs.Hosts.{names_host};
ghost use Rattle.der_c.specs.Bits.{bit};

use crate::bits::number_of_flag;
use der_path::names_host;

/// Returns 1 if the contents octets of a dNSName name a host, else 0.
#[unsafe(no_mangle)]
pub extern "C" fn der_name_is_of_host(name: &[u8], host: &[u8]) -> u32
    ensures { result ≡ bit (names_host name.now host.now) }
{
    number_of_flag(names_host(name, host))
}
