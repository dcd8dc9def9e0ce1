//! The order of tags.

ghost use Rattle.std.specs.Prelude.{◌≡◌};
ghost use Rattle.std.proofs.lemmas.Cmp.{on_total, nat_list_cmp_total};
ghost use Rattle.std.specs.Cmp.{partial_order_from_own_ties, partial_order_from_total};
ghost use Rattle.std.specs.Ordering.{on, as_partial_cmp};
ghost use Rattle.std.proofs.Common.{refl};
ghost use Rattle.der_tlv.specs.Identifier.{identifier};
ghost use Rattle.der_tlv.specs.Octets.{lex};
ghost use Rattle.der_tlv.specs.TagEquality.{tag_eq-identifier};

use crate::header_octets::{HeaderOctets, first_octet};
use crate::tag::Tag;
use std::cmp::Ordering;

impl Ord for Tag {
    ghost cmp = { on identifier lex };

    ghost total = { on_total identifier nat_list_cmp_total };

    ghost matches_partial_cmp = { λ t u. refl };

    ghost matches_eq = { tag_eq-identifier };

    /// Compares the identifier octets lexicographically.
    #[inline(always)]
    fn cmp(&self, other: &Tag) -> Ordering {
        match first_octet(*self).cmp(&first_octet(*other)) {
            Ordering::Equal => compare_identifiers(*self, *other),
            order => order,
        }
    }
}

impl PartialOrd for Tag {
    ghost partial_cmp = { as_partial_cmp (on identifier lex) };

    ghost laws = { partial_order_from_own_ties
        (partial_order_from_total (on_total identifier nat_list_cmp_total)) tag_eq-identifier };

    /// Compares the identifier octets lexicographically.
    fn partial_cmp(&self, other: &Tag) -> Option<Ordering> {
        Some(self.cmp(other))
    }
}

/// Compares the identifier octets; those of equal tags are equal, and are not computed.
#[inline(always)]
fn compare_identifiers(tag: Tag, other: Tag) -> Ordering
    ensures { result ≡ lex (identifier tag) (identifier other) }
{
    if tag == other {
        return Ordering::Equal;
    }
    compare_octets(tag, other)
}

/// Compares all the identifier octets.
#[cold]
#[inline(never)]
fn compare_octets(tag: Tag, other: Tag) -> Ordering
    ensures { result ≡ lex (identifier tag) (identifier other) }
{
    let mut octets = HeaderOctets::new();
    octets.push_identifier(tag);
    let mut other_octets = HeaderOctets::new();
    other_octets.push_identifier(other);
    octets.as_slice().cmp(other_octets.as_slice())
}
