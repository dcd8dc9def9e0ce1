//! Bits at the end of octets that are 0.

ghost use Rattle.std.specs.Prelude.{◌≡◌, ◌<◌, ◌≤◌, ℕ, ◌-◌, ◌/◌, ◌%◌, ◌^◌, length, slice_index_or, true};
ghost use Rattle.der_bits.specs.BitString.{can_be_unused, are_zero, bit_at_place};
ghost use Rattle.der_bits.specs.NamedBits.{ends_in_one};

/// Returns whether the last bit before `count` unused bits is 1, or there is no octet.
pub(crate) fn ends_in_one(count: u8, octets: &[u8]) -> bool
    requires { count ≤ 7 }
    ensures { result ≡ ends_in_one count octets.now }
{
    match octets.last() {
        Some(octet) => (octet >> count) & 1 == 1,
        None => true,
    }
}

/// Returns the octets without the octets at the end that are 00.
pub(crate) fn without_zero_octets(octets: &[u8]) -> &[u8]
    ensures shorter { length result.now ≤ length octets.now }
    ensures same { (k : ℕ) → slice_index_or result.now k 0 ≡ slice_index_or octets.now k 0 }
    ensures last { 0 < length result.now
        → 0 < slice_index_or result.now (length result.now - 1) 0 }
{
    let mut len = octets.len();
    while len > 0 && octets[len - 1] == 0 {
        len -= 1;
    }
    &octets[..len]
}

/// Counts the lowest bits of an octet that are 0.
fn low_zeros(octet: u8) -> u8
    requires { 0 < octet }
    ensures few { result ≤ 7 }
    ensures zero { octet % 2 ^ result ≡ 0 }
    ensures one { octet / 2 ^ result % 2 ≡ 1 }
{
    octet.trailing_zeros() as u8
}

/// Counts the lowest bits of the last octet that are 0.
pub(crate) fn zeros_at_end(octets: &[u8]) -> u8
    requires { 0 < length octets.now → 0 < slice_index_or octets.now (length octets.now - 1) 0 }
    ensures possible { can_be_unused result octets.now ≡ true }
    ensures zero { are_zero result octets.now ≡ true }
    ensures one { ends_in_one result octets.now ≡ true }
{
    match octets.last() {
        Some(octet) => low_zeros(*octet),
        None => 0,
    }
}

/// Returns whether the bit at this position is set. A bit past the end is not set.
pub(crate) fn is_set(octets: &[u8], place: usize) -> bool
    ensures { result ≡ bit_at_place octets.now place }
{
    match octets.get(place / 8) {
        Some(octet) => (octet >> (7 - place % 8)) & 1 == 1,
        None => false,
    }
}
