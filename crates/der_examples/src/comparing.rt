//! Comparing values by their encodings.

ghost use Rattle.std.specs.Prelude.{◌≡◌, IfOk};
ghost use Rattle.std.specs.Ordering.{is_lt};
ghost use Rattle.der_asn1_types.specs.Octets.{lex};
ghost use Rattle.der_asn1_types.specs.HeaderOctets.{tlv};
ghost use Rattle.der_asn1_types.specs.Tag.TheVariants as tags;
ghost use Rattle.der_asn1_types.specs.Integer.{integer_contents};

use der_asn1_types::{DerOrd, Error};

/// Returns whether a number is before another in a set: whether its encoding is less, octet by
/// octet. So -1 (02 01 FF) is after 1 (02 01 01), and before 128 (02 02 00 80).
pub fn is_before(one: &i64, other: &i64) -> Result<bool, Error>
    ensures { IfOk result (λ before. before
        ≡ is_lt (lex (tlv tags.Integer (integer_contents one.now))
        (tlv tags.Integer (integer_contents other.now)))) }
{
    match one.der_cmp(other) {
        Ok(order) => Ok(order.is_lt()),
        Err(e) => Err(e),
    }
}
