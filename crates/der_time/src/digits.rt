//! Two decimal digits.

ghost use Rattle.std.specs.Prelude.{◌≡◌, ◌<◌, ◌∷◌, ◌++◌, MatchOption, IfSome, Some, None};
ghost use Rattle.der_time.specs.Digits.{two_digits, read_two_digits};
ghost use Rattle.der_time.specs.TimeReading.{read_octet};

/// Reads a number of two digits at the front, and returns it with the octets after them.
#[tactic(auto, unfolding(crate::specs::Digits::read_two_digits, crate::specs::Digits::two_digits))]
pub fn read_two_digits(octets: &[u8]) -> Option<(u8, &[u8])>
    ensures value { MatchOption result (read_two_digits octets.now ≡ None) (λ p.
        read_two_digits octets.now ≡ Some (p.0, p.1.now)) }
    ensures digits { IfSome result (λ p. octets.now ≡ two_digits p.0 ++ p.1.now) }
    ensures bound { IfSome result (λ p. p.0 < 100) }
{
    match octets {
        [high @ b'0'..=b'9', low @ b'0'..=b'9', others @ ..] => {
            Some(((*high - b'0') * 10 + (*low - b'0'), others))
        }
        _ => None,
    }
}

/// Writes a number below 100 in two digits.
#[tactic(auto, unfolding(crate::specs::Digits::two_digits))]
pub fn two_digits(number: u8) -> [u8; 2]
    requires { number < 100 }
    ensures { result ≡ two_digits number }
{
    [b'0' + number / 10, b'0' + number % 10]
}

/// Returns the octets after this octet at the front.
#[tactic(auto, unfolding(crate::specs::TimeReading::read_octet))]
pub fn read_octet<'a>(octet: u8, octets: &'a [u8]) -> Option<&'a [u8]>
    ensures value { MatchOption result (read_octet octet octets.now ≡ None) (λ others.
        read_octet octet octets.now ≡ Some others.now) }
    ensures octet { IfSome result (λ others. octets.now ≡ octet ∷ others.now) }
{
    match octets {
        [first, others @ ..] if *first == octet => Some(others),
        _ => None,
    }
}
