//! Addresses of the Internet and their constraints (RFC 5280 section 4.2.1.10): an address and a
//! mask of the same length, together eight octets for version 4 and 32 for version 6.

ghost use Rattle.std.specs.Prelude.{◌≡◌, ◌==◌};
ghost use Rattle.std.specs.List.{list_all};
ghost use Rattle.der_path.specs.Addresses.{address_placement, is_address, is_covered, is_mask, is_part_of_mask, is_range};

use crate::placement::Placement;

/// Returns the placement of an iPAddress in a constraint: C0 00 02 01 is inside C0 00 02 00 FF FF
/// FF 00, which is 192.0.2.0/24. An address of version 4 is outside a range of version 6, and the
/// other way round.
///
/// The placement is undefined if the name does not have 4 or 16 octets, if the constraint does
/// not have 8 or 32, or if the ones of the mask are not its first bits.
pub fn address_placement(constraint: &[u8], name: &[u8]) -> Placement
    ensures { result ≡ address_placement constraint.now name.now }
{
    if is_address(name) && is_range(constraint) {
        let half = constraint.len() / 2;
        Placement::inside_if(is_covered(&constraint[..half], &constraint[half..], name))
    } else {
        Placement::Undefined
    }
}

/// Returns whether octets are an address and a mask of the same length.
fn is_range(constraint: &[u8]) -> bool
    ensures { result ≡ is_range constraint.now }
{
    (constraint.len() == 8 || constraint.len() == 32)
        && is_mask(&constraint[constraint.len() / 2..])
}

/// Returns whether octets have the length of an address.
fn is_address(octets: &[u8]) -> bool
    ensures { result ≡ is_address octets.now }
{
    octets.len() == 4 || octets.len() == 16
}

/// Returns whether the first bits of the octets are ones, and the others are zeros.
fn is_mask(octets: &[u8]) -> bool
    ensures { result ≡ is_mask octets.now }
{
    let mut left = octets;
    'each: while let [octet, others @ ..] = left {
        if *octet != 255 {
            return is_part_of_mask(*octet) && are_zeros(others);
        }
        left = others;
    }
    true
}

/// Returns whether each octet is zero.
fn are_zeros(octets: &[u8]) -> bool
    ensures { result ≡ list_all (λ x. x == 0) octets.now }
{
    octets.iter().all(|octet| *octet == 0)
}

/// Returns whether the first bits of an octet are ones, and the others are zeros, for all octets
/// but 255, which is all ones.
fn is_part_of_mask(octet: u8) -> bool
    ensures { result ≡ is_part_of_mask octet }
{
    match octet {
        0 | 128 | 192 | 224 | 240 | 248 | 252 | 254 => true,
        _ => false,
    }
}

/// Returns whether an address has the bits of another where the mask has ones.
fn is_covered(address: &[u8], mask: &[u8], name: &[u8]) -> bool
    ensures { result ≡ is_covered address.now mask.now name.now }
{
    let mut addresses = address;
    let mut masks = mask;
    let mut names = name;
    'each: while let [a, others @ ..] = addresses {
        let [m, more @ ..] = masks else {
            return false;
        };
        let [x, rest @ ..] = names else {
            return false;
        };
        if *x & *m != *a & *m {
            return false;
        }
        addresses = others;
        masks = more;
        names = rest;
    }
    masks.len() == 0 && names.len() == 0
}
