//! Strings of ASCII compared as RFC 5280 section 7.1 requires.

ghost use Rattle.std.specs.Prelude.{◌≡◌};
ghost use Rattle.std.specs.Cmp.Lexicographic.{pointwise};
ghost use Rattle.der_verify.specs.Text.{drop_spaces, folded, prepared, same_character, settled, shows_front};

/// Returns whether two strings of ASCII differ only in case and spaces.
pub(crate) fn same_text(first: &[u8], second: &[u8]) -> bool
    ensures { result ≡ pointwise same_character (prepared first.now) (prepared second.now) }
{
    same_settled(skip_spaces(first), skip_spaces(second))
}

/// Returns whether two strings are the same from here on.
fn same_settled(first: &[u8], second: &[u8]) -> bool
    ensures { result ≡ pointwise same_character (settled first.now) (settled second.now) }
{
    let mut left = first;
    let mut right = second;
    'each: while let Some((x, xs)) = front(left) {
        match front(right) {
            Some((y, ys)) => {
                if lower(x) != lower(y) {
                    return false;
                }
                left = xs;
                right = ys;
            }
            None => return false,
        }
    }
    front(right).is_none()
}

/// Returns the first character of a string as it is compared, and the octets after it.
fn front(octets: &[u8]) -> Option<(u8, &[u8])>
    ensures { shows_front octets.now result }
{
    let [first, rest @ ..] = octets else {
        return None;
    };
    if *first != 0x20 {
        return Some((*first, rest));
    }
    let others = skip_spaces(rest);
    if others.len() == 0 {
        return None;
    }
    Some((0x20, others))
}

/// Returns the string without the spaces at its front.
fn skip_spaces(octets: &[u8]) -> &[u8]
    ensures { result.now ≡ drop_spaces octets.now }
{
    let mut left = octets;
    'each: while let [first, others @ ..] = left {
        if *first != 0x20 {
            return left;
        }
        left = others;
    }
    left
}

/// Returns a letter in lower case.
fn lower(octet: u8) -> u8
    ensures { result ≡ folded octet }
{
    if 0x41 <= octet && octet <= 0x5a {
        octet + 0x20
    } else {
        octet
    }
}
