//! Ranges of INTEGER (X.680 51.4) for the machine integers.

ghost use Rattle.std.specs.Prelude.{◌≡◌};
ghost use Rattle.der_constrained.specs.Integers.{in_range, range};

use crate::constraint::Constraint;

/// `INTEGER (LEAST..GREATEST)`.
pub struct InRange<const LEAST: i64, const GREATEST: i64>;

/// Returns whether the number is in the range.
fn is_in_range(least: i64, greatest: i64, number: i128) -> bool
    ensures { result ≡ in_range least greatest number }
{
    i128::from(least) <= number && number <= i128::from(greatest)
}

impl<const LEAST: i64, const GREATEST: i64> Constraint<u8> for InRange<LEAST, GREATEST> {
    ghost allows = { range LEAST GREATEST };

    #[tactic(auto, using(crate::specs::Integers::range_of_natural))]
    fn allows(value: &u8) -> bool {
        is_in_range(LEAST, GREATEST, i128::from(*value))
    }
}

impl<const LEAST: i64, const GREATEST: i64> Constraint<u16> for InRange<LEAST, GREATEST> {
    ghost allows = { range LEAST GREATEST };

    #[tactic(auto, using(crate::specs::Integers::range_of_natural))]
    fn allows(value: &u16) -> bool {
        is_in_range(LEAST, GREATEST, i128::from(*value))
    }
}

impl<const LEAST: i64, const GREATEST: i64> Constraint<u32> for InRange<LEAST, GREATEST> {
    ghost allows = { range LEAST GREATEST };

    #[tactic(auto, using(crate::specs::Integers::range_of_natural))]
    fn allows(value: &u32) -> bool {
        is_in_range(LEAST, GREATEST, i128::from(*value))
    }
}

impl<const LEAST: i64, const GREATEST: i64> Constraint<u64> for InRange<LEAST, GREATEST> {
    ghost allows = { range LEAST GREATEST };

    #[tactic(auto, using(crate::specs::Integers::range_of_natural))]
    fn allows(value: &u64) -> bool {
        is_in_range(LEAST, GREATEST, i128::from(*value))
    }
}

impl<const LEAST: i64, const GREATEST: i64> Constraint<i8> for InRange<LEAST, GREATEST> {
    ghost allows = { range LEAST GREATEST };

    #[tactic(auto, using(crate::specs::Integers::range_of_integer))]
    fn allows(value: &i8) -> bool {
        is_in_range(LEAST, GREATEST, i128::from(*value))
    }
}

impl<const LEAST: i64, const GREATEST: i64> Constraint<i16> for InRange<LEAST, GREATEST> {
    ghost allows = { range LEAST GREATEST };

    #[tactic(auto, using(crate::specs::Integers::range_of_integer))]
    fn allows(value: &i16) -> bool {
        is_in_range(LEAST, GREATEST, i128::from(*value))
    }
}

impl<const LEAST: i64, const GREATEST: i64> Constraint<i32> for InRange<LEAST, GREATEST> {
    ghost allows = { range LEAST GREATEST };

    #[tactic(auto, using(crate::specs::Integers::range_of_integer))]
    fn allows(value: &i32) -> bool {
        is_in_range(LEAST, GREATEST, i128::from(*value))
    }
}

impl<const LEAST: i64, const GREATEST: i64> Constraint<i64> for InRange<LEAST, GREATEST> {
    ghost allows = { range LEAST GREATEST };

    #[tactic(auto, using(crate::specs::Integers::range_of_integer))]
    fn allows(value: &i64) -> bool {
        is_in_range(LEAST, GREATEST, i128::from(*value))
    }
}

impl<const LEAST: i64, const GREATEST: i64> Constraint<i128> for InRange<LEAST, GREATEST> {
    ghost allows = { range LEAST GREATEST };

    #[tactic(auto, using(crate::specs::Integers::range_of_integer))]
    fn allows(value: &i128) -> bool {
        is_in_range(LEAST, GREATEST, *value)
    }
}
