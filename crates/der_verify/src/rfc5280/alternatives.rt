//! The names of subjectAltName and issuerAltName (RFC 5280 4.2.1.6).

ghost use Rattle.std.specs.Prelude.{◌≡◌, false};
ghost use Rattle.der_verify.specs.Alternatives.{after_wildcard, has_at, has_colon, has_labels, has_scheme, is_address, is_host, is_letter, is_letter_or_digit, is_mailbox, one_lacks};

use crate::elements::{ElementTest, one_is, within};

/// The syntax of an alternative of GeneralName.
#[derive(Clone, Copy)]
pub(crate) enum Syntax {
    Host,
    Mailbox,
    Resource,
    Address,
}

/// Returns whether one of the GeneralNames that a value encodes lacks its syntax.
pub(crate) fn one_lacks(value: &[u8], syntax: Syntax) -> bool
    ensures { result ≡ one_lacks syntax value.now }
{
    one_is(within(0x30, value), &Lacks { syntax })
}

/// The test that a name is of this kind and lacks its syntax.
#[derive(Drop)]
struct Lacks {
    syntax: Syntax,
}

impl ElementTest for Lacks {
    ghost use Rattle.der_verify.specs.Alternatives.{lacks};

    ghost passes = { λ p. lacks p.syntax };

    fn passes(&self, identifier: u8, contents: &[u8], _others: &[u8]) -> bool {
        match self.syntax {
            Syntax::Mailbox => identifier == 0x81 && !is_mailbox(contents),
            Syntax::Host => identifier == 0x82 && !is_host(contents),
            Syntax::Resource => identifier == 0x86 && !has_scheme(contents),
            Syntax::Address => identifier == 0x87 && !is_address(contents),
        }
    }
}

/// Returns whether a dNSName has the preferred name syntax, after a wildcard that may stand at
/// its front.
fn is_host(octets: &[u8]) -> bool
    ensures { result ≡ is_host octets.now }
{
    has_labels(after_wildcard(octets))
}

/// Returns the octets without `*.` at their front.
fn after_wildcard(octets: &[u8]) -> &[u8]
    ensures { result.now ≡ after_wildcard octets.now }
{
    match octets {
        [x, y, rest @ ..] if *x == 0x2a && *y == 0x2e => rest,
        _ => octets,
    }
}

/// Returns whether octets are labels, separated by periods.
fn has_labels(octets: &[u8]) -> bool
    ensures { result ≡ has_labels 0 false octets.now }
{
    let mut count: usize = 0;
    let mut ends = false;
    let mut left = octets;
    'each: while let [x, others @ ..] = left {
        if is_letter_or_digit(*x) {
            count += 1;
            ends = true;
        } else if *x == 0x2d && 0 < count {
            count += 1;
            ends = false;
        } else if *x == 0x2e && ends && count <= 63 {
            count = 0;
            ends = false;
        } else {
            return false;
        }
        left = others;
    }
    ends && count <= 63
}

/// Returns whether octets are a local part, `@` and a domain, neither of them empty.
fn is_mailbox(octets: &[u8]) -> bool
    ensures { result ≡ is_mailbox octets.now }
{
    match octets {
        [] => false,
        [_, rest @ ..] => has_at(rest),
    }
}

/// Returns whether an `@` has an octet after it.
fn has_at(octets: &[u8]) -> bool
    ensures { result ≡ has_at octets.now }
{
    let mut left = octets;
    'each: while let [x, others @ ..] = left {
        if *x == 0x40 && 0 < others.len() {
            return true;
        }
        left = others;
    }
    false
}

/// Returns whether octets begin with a scheme and a colon, and an octet follows.
fn has_scheme(octets: &[u8]) -> bool
    ensures { result ≡ has_scheme octets.now }
{
    match octets {
        [] => false,
        [first, rest @ ..] => is_letter(*first) && has_colon(rest),
    }
}

/// Returns whether the octets of a scheme come before a colon, and an octet follows it.
fn has_colon(octets: &[u8]) -> bool
    ensures { result ≡ has_colon octets.now }
{
    let mut left = octets;
    'each: while let [x, others @ ..] = left {
        if *x == 0x3a {
            return 0 < others.len();
        }
        if !(is_letter_or_digit(*x) || *x == 0x2b || *x == 0x2d || *x == 0x2e) {
            return false;
        }
        left = others;
    }
    false
}

/// Returns whether an address has 4 or 16 octets.
fn is_address(octets: &[u8]) -> bool
    ensures { result ≡ is_address octets.now }
{
    octets.len() == 4 || octets.len() == 16
}

/// Returns whether an octet is a letter of ASCII.
fn is_letter(x: u8) -> bool
    ensures { result ≡ is_letter x }
{
    0x41 <= x && x <= 0x5a || 0x61 <= x && x <= 0x7a
}

/// Returns whether an octet is a letter or a digit of ASCII.
pub(crate) fn is_letter_or_digit(x: u8) -> bool
    ensures { result ≡ is_letter_or_digit x }
{
    is_letter(x) || 0x30 <= x && x <= 0x39
}
