//! The numbers of the state of RFC 5280 section 6.1.2 (d), (e), (f) and (k).

ghost use Rattle.std.specs.Prelude.{◌≡◌, min};
ghost use Rattle.der_elem.specs.Integer.{big_endian_number};
ghost use Rattle.der_path.specs.Counters.{after_certificate, bounded, explicit_at_last, first_counters};

use crate::facts::{PolicyFacts, Uses};
use der_numbers::UintRef;

/// The numbers of the state: how many certificates that are not self-issued may follow.
#[derive(Clone, Copy)]
pub struct Counters {
    /// explicit_policy: after so many, the valid_policy_graph must not be NULL.
    pub explicit_policy: usize,
    /// inhibit_anyPolicy: after so many, anyPolicy is not processed.
    pub inhibit_any_policy: usize,
    /// policy_mapping: after so many, policies are not mapped.
    pub policy_mapping: usize,
    /// max_path_length: so many may follow.
    pub max_path_length: usize,
}

impl Counters {
    /// Returns the numbers before the first of some certificates: 0 for a limit that begins set.
    pub(crate) fn first(count: usize, explicit: bool, any: bool, mapping: bool) -> Counters
        ensures { result ≡ first_counters count explicit any mapping }
    {
        Counters {
            explicit_policy: if explicit { 0 } else { count.saturating_add(1) },
            inhibit_any_policy: if any { 0 } else { count.saturating_add(1) },
            policy_mapping: if mapping { 0 } else { count.saturating_add(1) },
            max_path_length: count,
        }
    }

    /// Returns the numbers after a certificate that is not the last (6.1.4 (h) to (j), (l), (m)).
    pub(crate) fn after(
        self,
        is_self_issued: bool,
        policies: &PolicyFacts<'_>,
        uses: Uses<'_>,
    ) -> Counters
        ensures { result ≡ after_certificate self is_self_issued policies.now uses.entry }
    {
        let step = if is_self_issued { 0 } else { 1 };
        Counters {
            explicit_policy: bounded(
                self.explicit_policy.saturating_sub(step),
                policies.explicit_policy,
            ),
            inhibit_any_policy: bounded(
                self.inhibit_any_policy.saturating_sub(step),
                policies.inhibit_any_policy,
            ),
            policy_mapping: bounded(
                self.policy_mapping.saturating_sub(step),
                policies.policy_mapping,
            ),
            max_path_length: bounded(self.max_path_length.saturating_sub(step), uses.path_length),
        }
    }

    /// Returns explicit_policy after the last certificate (6.1.5 (a) and (b)).
    pub(crate) fn explicit_at_last(self, policies: &PolicyFacts<'_>) -> usize
        ensures { result ≡ explicit_at_last self policies.now }
    {
        if bounded(1, policies.explicit_policy) == 0 {
            0
        } else {
            self.explicit_policy.saturating_sub(1)
        }
    }
}

/// Returns a number, or the one of an extension, if it is there and less.
fn bounded(number: usize, bound: Option<UintRef<'_>>) -> usize
    ensures { result ≡ bounded number bound.entry }
{
    match bound {
        Some(bound) => least(number, bound.as_bytes()),
        None => number,
    }
}

/// Returns the lesser of two numbers, the second from its octets, the most significant first.
#[tactic(auto, using(crate::proofs::Least::exceeded))]
fn least(number: usize, octets: &[u8]) -> usize
    ensures { result ≡ min number (big_endian_number octets.now) }
{
    let mut found: usize = 0;
    let mut left = octets;
    'each: while let [octet, others @ ..] = left {
        if found > number / 256 {
            return number;
        }
        found = found * 256 + *octet as usize;
        left = others;
    }
    number.min(found)
}
