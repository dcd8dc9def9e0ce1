//! The hosts of URIs and their constraints (RFC 5280 section 4.2.1.10): "For URIs, the constraint applies
//! to the host part of the name."

ghost use Rattle.std.specs.Prelude.{◌≡◌, ◌==◌, ◌≤◌, true, length, option_map, Some};
ghost use Rattle.std.specs.List.{before_first, list_all, list_any, position_or_len};
ghost use Rattle.der_path.specs.Resources.{authority_after, authority_of, ends_authority, ends_in_number, host_of, is_digit, is_full_name, is_host_octet, is_letter, is_scheme, is_scheme_octet, placement_of_host, resource_placement, split_first, without_user};

use crate::domain::{is_domain, is_host_constraint, is_within_host};
use crate::placement::Placement;

/// Returns the placement of a uniformResourceIdentifier in a constraint.
/// `https://my.host.example.com/a` is inside `.example.com` and `my.host.example.com`, and
/// outside `host.example.com`.
///
/// The placement is undefined if the URI has no host that is a fully qualified domain name: "the
/// application MUST reject the certificate". It is also undefined if the constraint is neither a
/// domain name nor a period before one.
pub fn resource_placement(constraint: &[u8], uri: &[u8]) -> Placement
    ensures { result ≡ resource_placement constraint.now uri.now }
{
    let Some(authority) = authority_of(uri) else {
        return Placement::Undefined;
    };
    match host_of(authority) {
        Some(host) => placement_of_host(constraint, host),
        None => Placement::Undefined,
    }
}

/// Returns the placement of a host in a constraint.
fn placement_of_host(constraint: &[u8], host: &[u8]) -> Placement
    ensures { result ≡ placement_of_host constraint.now (Some host.now) }
{
    if is_full_name(host) && is_host_constraint(constraint) {
        Placement::inside_if(is_within_host(constraint, host))
    } else {
        Placement::Undefined
    }
}

/// Returns the authority of a URI, which is between `//` and the next `/`, `?` or `#`.
fn authority_of(uri: &[u8]) -> Option<&[u8]>
    ensures { option_map (λ found. found.now) result ≡ authority_of uri.now }
{
    let Some((scheme, others)) = split_first(b':', uri) else {
        return None;
    };
    if is_scheme(scheme) {
        authority_after(others)
    } else {
        None
    }
}

/// Returns the authority after a scheme and its colon.
fn authority_after(others: &[u8]) -> Option<&[u8]>
    ensures { option_map (λ found. found.now) result ≡ authority_after others.now }
{
    match others {
        [first, second, authority @ ..] => {
            if *first == b'/' && *second == b'/' {
                Some(before_end(authority))
            } else {
                None
            }
        }
        _ => None,
    }
}

/// Returns the octets before the first `/`, `?` or `#`.
fn before_end(octets: &[u8]) -> &[u8]
    ensures { result.now ≡ before_first ends_authority octets.now }
{
    &octets[..count_before_end(octets)]
}

/// Returns the number of octets before the first `/`, `?` or `#`, or of all octets if there is
/// none.
fn count_before_end(octets: &[u8]) -> usize
    ensures value { result ≡ position_or_len ends_authority octets.now }
    ensures bound { result ≤ length octets.now }
{
    let mut count = 0;
    let mut left = octets;
    'each: while let [octet, others @ ..] = left {
        if ends_authority(*octet) {
            return count;
        }
        count += 1;
        left = others;
    }
    count
}

/// Returns whether an octet ends the authority of a URI.
fn ends_authority(octet: u8) -> bool
    ensures { result ≡ ends_authority octet }
{
    octet == b'/' || octet == b'?' || octet == b'#'
}

/// Returns the host of an authority, without the user before it and the port after it.
fn host_of(authority: &[u8]) -> Option<&[u8]>
    ensures { option_map (λ found. found.now) result ≡ host_of authority.now }
{
    let others = without_user(authority);
    match split_first(b':', others) {
        Some((host, port)) => if are_digits(port) { Some(host) } else { None },
        None => Some(others),
    }
}

/// Returns the part of an authority after the user.
fn without_user(authority: &[u8]) -> &[u8]
    ensures { result.now ≡ without_user authority.now (split_first 64 authority.now) }
{
    match split_first(b'@', authority) {
        Some((_, others)) => others,
        None => authority,
    }
}

/// Returns the octets before the first octet of this value, and those after it.
fn split_first(at: u8, octets: &[u8]) -> Option<(&[u8], &[u8])>
    ensures { option_map (λ found. (found.0.now, found.1.now)) result ≡ split_first at octets.now }
{
    let before = count_before(at, octets);
    if before < octets.len() {
        Some((&octets[..before], &octets[before + 1..]))
    } else {
        None
    }
}

/// Returns the number of octets before the first octet of this value, or of all octets if there
/// is none.
fn count_before(at: u8, octets: &[u8]) -> usize
    ensures value { result ≡ position_or_len (λ x. x == at) octets.now }
    ensures bound { result ≤ length octets.now }
{
    let mut count = 0;
    let mut left = octets;
    'each: while let [octet, others @ ..] = left {
        if *octet == at {
            return count;
        }
        count += 1;
        left = others;
    }
    count
}

/// Returns whether octets are a scheme.
fn is_scheme(octets: &[u8]) -> bool
    ensures { result ≡ is_scheme octets.now }
{
    match octets {
        [first, others @ ..] => is_letter(*first) && are_scheme_octets(others),
        [] => false,
    }
}

/// Returns whether each octet may occur in a scheme after its first octet.
fn are_scheme_octets(octets: &[u8]) -> bool
    ensures { result ≡ list_all is_scheme_octet octets.now }
{
    octets.iter().all(|octet| is_scheme_octet(*octet))
}

/// Returns whether an octet may occur in a scheme after its first octet.
fn is_scheme_octet(octet: u8) -> bool
    ensures { result ≡ is_scheme_octet octet }
{
    is_letter(octet) || is_digit(octet) || octet == b'+' || octet == b'-' || octet == b'.'
}

/// Returns whether a host is a fully qualified domain name: two or more labels of letters, digits
/// and hyphens, the last of which is no number.
fn is_full_name(host: &[u8]) -> bool
    ensures { result ≡ is_full_name host.now }
{
    is_domain(host) && has_period(host) && are_host_octets(host) && !ends_in_number(host)
}

/// Returns whether there is a period between two labels.
fn has_period(host: &[u8]) -> bool
    ensures { result ≡ list_any (λ x. x == 46) host.now }
{
    host.iter().any(|octet| *octet == b'.')
}

/// Returns whether each octet may occur in the name of a host.
fn are_host_octets(host: &[u8]) -> bool
    ensures { result ≡ list_all is_host_octet host.now }
{
    host.iter().all(|octet| is_host_octet(*octet))
}

/// Returns whether an octet may occur in the name of a host.
fn is_host_octet(octet: u8) -> bool
    ensures { result ≡ is_host_octet octet }
{
    is_letter(octet) || is_digit(octet) || octet == b'-' || octet == b'.'
}

/// Returns whether the last label has only digits.
fn ends_in_number(host: &[u8]) -> bool
    ensures { result ≡ ends_in_number true host.now }
{
    let mut so = true;
    let mut left = host;
    'each: while let [octet, others @ ..] = left {
        so = *octet == b'.' || (so && is_digit(*octet));
        left = others;
    }
    so
}

/// Returns whether an octet is a letter of ASCII.
fn is_letter(octet: u8) -> bool
    ensures { result ≡ is_letter octet }
{
    (b'A' <= octet && octet <= b'Z') || (b'a' <= octet && octet <= b'z')
}

/// Returns whether each octet is a digit of ASCII.
fn are_digits(octets: &[u8]) -> bool
    ensures { result ≡ list_all is_digit octets.now }
{
    octets.iter().all(|octet| is_digit(*octet))
}

/// Returns whether an octet is a digit of ASCII.
fn is_digit(octet: u8) -> bool
    ensures { result ≡ is_digit octet }
{
    b'0' <= octet && octet <= b'9'
}
