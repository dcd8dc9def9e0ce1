//! Domain names and their constraints (RFC 5280 section 4.2.1.10): "Any DNS name that can be constructed
//! by simply adding zero or more labels to the left-hand side of the name satisfies the name
//! constraint."

ghost use Rattle.std.specs.Prelude.{◌≡◌, ◌∷◌};
ghost use Rattle.der_verify.specs.Text.{folded, same_character};
ghost use Rattle.der_path.specs.Domains.{domain_placement, ends_so, is_domain, is_host_constraint, is_within_domain, is_within_host, same_letters};

use crate::placement::Placement;

/// Returns the placement of a dNSName in a constraint: `www.host.example.com` is inside
/// `host.example.com`, and `host1.example.com` is outside. Each dNSName is inside the empty
/// constraint.
///
/// The placement is undefined if the name or the constraint has an empty label, such as
/// `.example.com`.
pub fn domain_placement(constraint: &[u8], name: &[u8]) -> Placement
    ensures { result ≡ domain_placement constraint.now name.now }
{
    if (constraint.len() == 0 || is_domain(constraint)) && is_domain(name) {
        Placement::inside_if(is_within_domain(constraint, name))
    } else {
        Placement::Undefined
    }
}

/// Returns whether a name is a domain name with zero or more labels added to its left-hand side.
fn is_within_domain(constraint: &[u8], name: &[u8]) -> bool
    ensures { result ≡ is_within_domain constraint.now name.now }
{
    constraint.len() == 0 || same_letters(constraint, name) || ends_after_period(constraint, name)
}

/// Returns whether a name ends with a period and these octets.
fn ends_after_period(end: &[u8], name: &[u8]) -> bool
    ensures { result ≡ ends_so (46 ∷ end.now) name.now }
{
    name.len() > end.len() && is_after_period(end, &name[name.len() - (end.len() + 1)..])
}

/// Returns whether a text is a period and these octets.
fn is_after_period(end: &[u8], text: &[u8]) -> bool
    ensures { result ≡ same_letters (46 ∷ end.now) text.now }
{
    match text {
        [period, labels @ ..] => same_character(b'.', *period) && same_letters(end, labels),
        [] => false,
    }
}

/// Returns whether octets are labels of one octet or more, separated by periods.
pub(crate) fn is_domain(octets: &[u8]) -> bool
    ensures { result ≡ is_domain octets.now }
{
    let mut begun = false;
    let mut left = octets;
    'each: while let [octet, others @ ..] = left {
        if *octet != b'.' {
            begun = true;
        } else if begun {
            begun = false;
        } else {
            return false;
        }
        left = others;
    }
    begun
}

/// Returns whether a constraint is a domain name, or a period and a domain name.
pub(crate) fn is_host_constraint(constraint: &[u8]) -> bool
    ensures { result ≡ is_host_constraint constraint.now }
{
    match constraint {
        [] => false,
        [first, others @ ..] => if *first == b'.' {
            is_domain(others)
        } else {
            is_domain(constraint)
        },
    }
}

/// Returns whether a host is the one of a constraint, or, if the constraint begins with a period,
/// ends with it, such as `my.host.example.com` with `.example.com`.
pub(crate) fn is_within_host(constraint: &[u8], host: &[u8]) -> bool
    ensures { result ≡ is_within_host constraint.now host.now }
{
    match constraint {
        [] => false,
        [first, ..] => if *first == b'.' {
            ends_so(constraint, host)
        } else {
            same_letters(constraint, host)
        },
    }
}

/// Returns whether a text ends with these octets, except for the case of letters.
fn ends_so(end: &[u8], text: &[u8]) -> bool
    ensures { result ≡ ends_so end.now text.now }
{
    text.len() >= end.len() && same_letters(end, &text[text.len() - end.len()..])
}

/// Returns whether two texts are equal except for the case of letters.
pub(crate) fn same_letters(first: &[u8], second: &[u8]) -> bool
    ensures { result ≡ same_letters first.now second.now }
{
    let mut left = first;
    let mut right = second;
    'each: while let [x, xs @ ..] = left {
        let [y, ys @ ..] = right else {
            return false;
        };
        if !same_character(*x, *y) {
            return false;
        }
        left = xs;
        right = ys;
    }
    right.len() == 0
}

/// Returns whether two octets are equal except for the case of letters.
fn same_character(first: u8, second: u8) -> bool
    ensures { result ≡ same_character first second }
{
    lower(first) == lower(second)
}

/// Returns a letter in lower case.
fn lower(octet: u8) -> u8
    ensures { result ≡ folded octet }
{
    if b'A' <= octet && octet <= b'Z' {
        octet + 32
    } else {
        octet
    }
}
