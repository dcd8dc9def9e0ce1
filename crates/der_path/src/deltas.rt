//! The lists that a caller trusts, and which delta updates a complete list (RFC 5280 sections
//! 5.2.4 and 6.3.3 (c)).

ghost use Rattle.std.specs.Prelude.{◌≡◌, IfOk, List, nat_lt, option_copied};
ghost use Rattle.der_pkix.specs.declared.certificate.extension.Extension.{Extension};
ghost use Rattle.der_pkix.specs.Crl.TbsCertList as list_fields;
ghost use Rattle.der_elem.specs.Integer.{big_endian_number, natural_contents};
ghost use Rattle.der_numbers.specs.AnyLength.{without_sign_octet};
ghost use Rattle.der_verify.specs.Rfc5280.{AreListed};
ghost use Rattle.der_verify.specs.Shown.{ShowEach};
ghost use Rattle.der_path.specs.Counters.{number_of};
ghost use Rattle.der_path.specs.Deltas.{delta_for, follows, has_same_scope, is_usable, octets_in, same_octets, updates, ShowsTrusted, ShowsTrustedList};
ghost use Rattle.der_path.specs.Facts.{Reads};

use crate::extension_values::value_in;
use crate::facts::NoFacts;
use crate::names::same_names;
use crate::revocation::{one_has_unknown, one_is_unread, time_fault};
use crate::revocation_facts::{ListFacts, list_facts_of};
use der_elem::Form;
use der_extensions::extension::constants::{
    ID_CE_AUTHORITY_KEY_IDENTIFIER, ID_CE_ISSUING_DISTRIBUTION_POINT,
};
use der_nest::SequenceRef;
use der_numbers::UintRef;
use der_pkix::certificate::Extension;
use der_pkix::crl::{CertificateList, TbsCertList};
use std::alloc::{AllocError, Global};
use std::cmp::Ordering;

/// A list that the caller trusts.
#[derive(Drop)]
pub enum TrustedList<'a> {
    /// The list was read.
    Read(Trusted<'a>),
    /// An extension that section 6.3.3 processes stands twice, or its value cannot be read.
    Unread,
}

/// What section 6.3.3 takes from a list that the caller trusts.
#[derive(Drop)]
pub struct Trusted<'a> {
    /// What it takes from a complete list.
    pub facts: ListFacts<'a>,
    /// The contents octets of issuingDistributionPoint.
    pub scope: Option<&'a [u8]>,
    /// The contents octets of authorityKeyIdentifier.
    pub key: Option<&'a [u8]>,
}

/// Reads what section 6.3.3 takes from each of some lists.
pub(crate) fn trusted_lists<'a>(
    alloc: Global,
    lists: &[CertificateList<'a>],
) -> Result<Vec<TrustedList<'a>>, AllocError>
    ensures { IfOk result (λ kept. ShowEach ShowsTrustedList lists.now kept.items) }
{
    let mut kept = Vec::new(alloc);
    let mut left = lists;
    'each: while let [list, others @ ..] = left {
        kept.push(trusted_list(alloc, list)?)?;
        left = others;
    }
    Ok(kept)
}

/// Reads what section 6.3.3 takes from a list, if it can be read.
fn trusted_list<'a>(
    alloc: Global,
    list: &CertificateList<'a>,
) -> Result<TrustedList<'a>, AllocError>
    ensures { IfOk result (ShowsTrustedList list.now) }
{
    match trusted_of(alloc, list.tbs_cert_list()) {
        Ok(trusted) => Ok(TrustedList::Read(trusted)),
        Err(NoFacts::Unread) => Ok(TrustedList::Unread),
        Err(NoFacts::Memory) => Err(AllocError),
    }
}

/// Reads what section 6.3.3 takes from a list.
fn trusted_of<'a>(alloc: Global, list: &TbsCertList<'a>) -> Result<Trusted<'a>, NoFacts>
    ensures { (listed : List Extension) → AreListed ⟦<Extension<'a> as Form>⟧ (list_fields.crl_extensions list.now) listed
        → Reads (ShowsTrusted list.now listed) result }
{
    let scope = value_in::<SequenceRef<'a>>(
        alloc,
        list.crl_extensions(),
        &ID_CE_ISSUING_DISTRIBUTION_POINT,
    )?;
    let key = value_in::<SequenceRef<'a>>(
        alloc,
        list.crl_extensions(),
        &ID_CE_AUTHORITY_KEY_IDENTIFIER,
    )?;
    let facts = list_facts_of(alloc, list)?;
    Ok(Trusted {
        facts,
        scope: octets_in(scope),
        key: octets_in(key),
    })
}

/// Returns contents octets, if there are any.
fn octets_in<'a>(value: Option<SequenceRef<'a>>) -> Option<&'a [u8]>
    ensures { option_copied result ≡ octets_in value.entry }
{
    match value {
        Some(value) => Some(value.as_bytes()),
        None => None,
    }
}

/// Returns the first delta that updates a complete list at a moment.
pub(crate) fn delta_for<'a>(
    lists: &'a [TrustedList<'a>],
    complete: &Trusted<'a>,
    moment: u64,
) -> Option<&'a Trusted<'a>>
    ensures { option_copied result ≡ delta_for complete.now moment lists.now }
{
    let mut left = lists;
    'each: while let [list, others @ ..] = left {
        if let TrustedList::Read(delta) = list {
            if updates(delta, complete, moment) {
                return Some(delta);
            }
        }
        left = others;
    }
    None
}

/// Returns whether a delta updates a complete list at a moment.
fn updates(delta: &Trusted<'_>, complete: &Trusted<'_>, moment: u64) -> bool
    ensures { result ≡ updates delta.now complete.now moment }
{
    follows(delta.facts.base, complete.facts.number, delta.facts.number)
        && has_same_scope(delta, complete)
        && is_usable(&delta.facts, moment)
}

/// Returns whether a complete list with a number is at least the base of a delta, and before it.
fn follows(
    base: Option<UintRef<'_>>,
    number: Option<UintRef<'_>>,
    delta: Option<UintRef<'_>>,
) -> bool
    ensures { result ≡ follows base.entry number.entry delta.entry }
{
    match (base, number, delta) {
        (Some(base), Some(number), Some(delta)) => !is_less(number, base) && is_less(number, delta),
        _ => false,
    }
}

/// Returns whether a number is less than another.
fn is_less(first: UintRef<'_>, second: UintRef<'_>) -> bool
    ensures { result ≡ nat_lt (number_of first.entry) (number_of second.entry) }
{
    is_below(first.as_bytes(), second.as_bytes())
}

/// Returns whether a number in the fewest octets is less than another: it has fewer octets, or as
/// many, and the first that differs is less.
fn is_below(first: &[u8], second: &[u8]) -> bool
    requires first { first.now ≡ without_sign_octet (natural_contents (big_endian_number first.now)) }
    requires second { second.now ≡ without_sign_octet (natural_contents (big_endian_number second.now)) }
    ensures { result ≡ nat_lt (big_endian_number first.now) (big_endian_number second.now) }
{
    if first.len() == second.len() {
        match first.cmp(second) {
            Ordering::Less => true,
            _ => false,
        }
    } else {
        first.len() < second.len()
    }
}

/// Returns whether two lists have the same issuer, scope and key (6.3.3 (c)).
fn has_same_scope(delta: &Trusted<'_>, complete: &Trusted<'_>) -> bool
    ensures { result ≡ has_same_scope delta.now complete.now }
{
    same_names(&delta.facts.issuer, &complete.facts.issuer)
        && same_octets(delta.scope, complete.scope)
        && same_octets(delta.key, complete.key)
}

/// Returns whether octets are the same, or both absent.
fn same_octets(first: Option<&[u8]>, second: Option<&[u8]>) -> bool
    ensures { result ≡ same_octets (option_copied first.entry) (option_copied second.entry) }
{
    match (first, second) {
        (Some(first), Some(second)) => first == second,
        (None, None) => true,
        _ => false,
    }
}

/// Returns whether a delta is current, and has no extension that is not processed.
fn is_usable(delta: &ListFacts<'_>, moment: u64) -> bool
    ensures { result ≡ is_usable delta.now moment }
{
    time_fault(delta, moment).is_none()
        && !delta.has_unknown_critical
        && !one_is_unread(&delta.entries)
        && !one_has_unknown(&delta.entries)
}
