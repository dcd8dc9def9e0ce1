//! The number of characters that the text of an attribute of a name may have (RFC 5280 appendix
//! A.1).

ghost use Rattle.std.specs.Prelude.{◌≡◌, nat_le, ◌&&◌};
ghost use Rattle.der_verify.specs.Bounds.{character_count, fewest, is_id_at, most};

use der_pkix::name::constants::{ID_DOMAIN_COMPONENT, ID_EMAIL_ADDRESS};

/// Returns whether the text of an attribute of this type may have this number of characters, by
/// the bounds of RFC 5280 appendix A.1. A type with no bound there may have
/// up to 4294967295, and at least 1 but for dnQualifier and domainComponent.
///
/// commonName (55 04 03) has 1 to 64 characters, countryName (55 04 06) has 2.
pub fn may_have(type_: &[u8], characters: usize) -> bool
    ensures { result ≡ (nat_le (fewest type_.now) characters && nat_le characters (most type_.now)) }
{
    fewest(type_) <= characters && characters <= most(type_)
}

/// Returns the fewest characters of the text of an attribute.
#[tactic(auto, unfolding(crate::specs::Bounds::fewest))]
fn fewest(type_: &[u8]) -> usize
    ensures { result ≡ fewest type_.now }
{
    if type_ == ID_DOMAIN_COMPONENT.as_slice() || is_id_at(&[46], type_) {
        0
    } else if is_id_at(&[6], type_) {
        2
    } else {
        1
    }
}

/// Returns the most characters of the text of an attribute.
#[tactic(auto, unfolding(crate::specs::Bounds::most))]
fn most(type_: &[u8]) -> usize
    ensures { result ≡ most type_.now }
{
    if is_id_at(&[6], type_) {
        2
    } else if is_id_at(&[3, 5, 10, 11, 12], type_) {
        64
    } else if is_id_at(&[7, 8, 65], type_) {
        128
    } else if type_ == ID_EMAIL_ADDRESS.as_slice() {
        255
    } else if is_id_at(&[4, 41, 42, 43, 44], type_) {
        32768
    } else {
        4294967295
    }
}

/// Returns whether an identifier is 2.5.4 and one of these numbers.
#[tactic(auto, unfolding(crate::specs::Bounds::is_id_at))]
pub(crate) fn is_id_at(numbers: &[u8], type_: &[u8]) -> bool
    ensures { result ≡ is_id_at numbers.now type_.now }
{
    let mut left = numbers;
    'each: while let [number, others @ ..] = left {
        if type_ == [0x55, 0x04, *number].as_slice() {
            return true;
        }
        left = others;
    }
    false
}

/// Returns the number of characters in a text in UTF-8.
pub fn character_count(text: &[u8]) -> usize
    ensures { result ≡ character_count text.now }
{
    let mut count = 0;
    let mut left = text;
    'each: while let [octet, others @ ..] = left {
        if *octet < 0x80 || 0xc0 <= *octet {
            count += 1;
        }
        left = others;
    }
    count
}
