//! Truth values as the bits of a number.

ghost use Rattle.std.specs.Prelude.{◌≡◌, ◌+◌, ◌*◌, ◌<◌, ◌^◌, length};
ghost use Rattle.der_c.specs.Bits.{bit, bits_before};

/// Returns the flags as the bits of a number. The flags are given from the last, which is the
/// greatest bit, to the first, which is 1.
pub(crate) fn number_of_flags(flags: &[bool]) -> u64
    ensures value { length flags.now < 64 → result ≡ bits_before 0 flags.now }
    ensures few { length flags.now < 64 → result < 2 ^ length flags.now }
{
    let mut bits: u64 = 0;
    let mut left = flags;
    'each: while let [flag, others @ ..] = left {
        bits = with_flag(bits, *flag);
        left = others;
    }
    bits
}

/// Returns a truth value as 1 or 0.
pub(crate) fn number_of_flag(flag: bool) -> u32
    ensures { result ≡ bit flag }
{
    u32::from(flag)
}

/// Returns the number of a flag and the flags after it, which are `bits`.
fn with_flag(bits: u64, flag: bool) -> u64
    ensures { bit flag + 2 * bits < 2 ^ 64 → result ≡ bit flag + 2 * bits }
{
    bits.saturating_mul(2).saturating_add(u64::from(flag))
}
