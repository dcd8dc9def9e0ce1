//! The names of a certificate that name a host (RFC 9525 section 6.3).

ghost use Rattle.std.specs.Prelude.{◌≡◌};
ghost use Rattle.der_path.specs.Hosts.{from_period, is_after_period, names_host};

use crate::domain::{is_domain, same_letters};

/// Returns whether a dNSName of a certificate names a host. Either both are domain names, and
/// equal except for the case of letters; or the name is `*.` and a domain name, and the host is
/// one label, a period and this domain name.
///
/// `*.example.com` names `www.example.com`, and neither `example.com` nor `a.www.example.com`. A
/// name with `*` anywhere else names no host.
pub fn names_host(name: &[u8], host: &[u8]) -> bool
    ensures { result ≡ names_host name.now host.now }
{
    match name {
        [] => false,
        [first, others @ ..] => if *first == b'*' {
            is_after_period(others) && is_domain(host) && same_letters(others, from_period(host))
        } else {
            is_domain(name) && is_domain(host) && same_letters(name, host)
        },
    }
}

/// Returns whether a text is a period and a domain name.
fn is_after_period(text: &[u8]) -> bool
    ensures { result ≡ is_after_period text.now }
{
    match text {
        [] => false,
        [first, others @ ..] => *first == b'.' && is_domain(others),
    }
}

/// Returns the part of a host after its first label: a period and the other labels, or nothing.
fn from_period(host: &[u8]) -> &[u8]
    ensures { result.now ≡ from_period host.now }
{
    let mut left = host;
    'each: while let [octet, others @ ..] = left {
        if *octet == b'.' {
            return left;
        }
        left = others;
    }
    left
}
