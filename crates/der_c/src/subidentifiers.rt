//! The subidentifiers of an object identifier (X.690 8.19.2).

ghost use Rattle.der_c.specs.Dotted.{FindsNumber};

/// Returns the subidentifier at the front of contents octets, and the octets after it; none if
/// the octets begin with none in the fewest octets and of at most 64 bits.
///
/// 81 00 11 gives 128, and leaves 11.
pub(crate) fn first_number(octets: &[u8]) -> Option<(u64, &[u8])>
    ensures { FindsNumber octets.now result }
{
    let mut number: u64 = 0;
    for (index, octet) in octets.iter().enumerate() {
        if number > u64::MAX / 128 {
            return None;
        }
        number = number * 128 + u64::from(*octet % 128);
        if *octet < 0x80 {
            return Some((number, &octets[index + 1..]));
        }
        if number == 0 {
            return None;
        }
    }
    None
}
