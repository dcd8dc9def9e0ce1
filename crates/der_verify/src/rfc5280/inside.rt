//! Tests of the values of extensions that rules look into (RFC 5280 4.2.1 and 5.2).

ghost use Rattle.std.specs.Prelude.{◌≡◌, ◌==◌, not};
ghost use Rattle.std.specs.List.{list_any};
ghost use Rattle.der_verify.specs.Elements.{one_within, within};
ghost use Rattle.der_verify.specs.Inside.{begins_early, bits_of, has_bit_5, has_distance, has_early_date, has_half_an_issuer, has_key_identifier, has_odd_address, has_one_bit, has_path_length, has_point_nowhere, has_two_kinds, is_empty_sequence, is_negative, is_odd_number, is_removed, maps_any_policy, repeats_policy, says, signs_certificates};

use crate::elements::{
    ContentsTest, ElementTest, front, has_identifier, one_is, one_within, within,
};
use der_extensions::extension::constants::ANY_POLICY;

/// Returns whether BasicConstraints has a pathLenConstraint.
pub(crate) fn has_path_length(value: &[u8]) -> bool
    ensures { result ≡ has_path_length value.now }
{
    has_identifier(within(0x30, value), 0x02)
}

/// Returns whether KeyUsage has the bit keyCertSign (5).
pub(crate) fn signs_certificates(value: &[u8]) -> bool
    ensures { result ≡ signs_certificates value.now }
{
    match bits_of(within(0x03, value)) {
        [] => false,
        [first, ..] => *first / 4 % 2 == 1,
    }
}

/// Returns whether KeyUsage has a bit that is 1.
pub(crate) fn has_one_bit(value: &[u8]) -> bool
    ensures { result ≡ has_one_bit value.now }
{
    has_one(bits_of(within(0x03, value)))
}

/// Returns whether one of the octets is not 0.
fn has_one(octets: &[u8]) -> bool
    ensures { result ≡ list_any (λ x. not (x == 0)) octets.now }
{
    let mut left = octets;
    'each: while let [x, others @ ..] = left {
        if *x != 0 {
            return true;
        }
        left = others;
    }
    false
}

/// Returns the octets of the bits of a BIT STRING, after the number of unused bits.
fn bits_of(contents: &[u8]) -> &[u8]
    ensures { result.now ≡ bits_of contents.now }
{
    match contents {
        [] => &[],
        [_, bits @ ..] => bits,
    }
}

/// Returns whether AuthorityKeyIdentifier has a keyIdentifier.
pub(crate) fn has_key_identifier(value: &[u8]) -> bool
    ensures { result ≡ has_key_identifier value.now }
{
    has_identifier(within(0x30, value), 0x80)
}

/// Returns whether AuthorityKeyIdentifier has only one of authorityCertIssuer and
/// authorityCertSerialNumber.
pub(crate) fn has_half_an_issuer(value: &[u8]) -> bool
    ensures { result ≡ has_half_an_issuer value.now }
{
    let fields = within(0x30, value);
    has_identifier(fields, 0xa1) != has_identifier(fields, 0x82)
}

/// Returns whether a value is an empty SEQUENCE, 30 00.
pub(crate) fn is_empty_sequence(value: &[u8]) -> bool
    ensures { result ≡ is_empty_sequence value.now }
{
    value == [0x30, 0x00].as_slice()
}

/// Returns whether a subtree of NameConstraints has a minimum that is not 0, or a maximum.
pub(crate) fn one_has_distance(value: &[u8]) -> bool
    ensures { result ≡ one_within has_distance (within 48 value.now) }
{
    one_within(within(0x30, value), &HasDistance)
}

/// The test that something stands after the base of a subtree.
struct HasDistance;

impl ContentsTest for HasDistance {
    ghost use Rattle.der_verify.specs.Inside.{has_distance};

    ghost holds = { λ p. has_distance };

    fn holds(&self, contents: &[u8]) -> bool {
        match front(contents) {
            Some((_, _, others)) => 0 < others.len(),
            None => false,
        }
    }
}

/// Returns whether the base of a subtree of NameConstraints is an iPAddress of other than 8 or 32
/// octets.
pub(crate) fn one_has_odd_address(value: &[u8]) -> bool
    ensures { result ≡ one_within has_odd_address (within 48 value.now) }
{
    one_within(within(0x30, value), &HasOddAddress)
}

/// The test that the base of a subtree is an iPAddress of other than 8 or 32 octets.
struct HasOddAddress;

impl ContentsTest for HasOddAddress {
    ghost use Rattle.der_verify.specs.Inside.{has_odd_address};

    ghost holds = { λ p. has_odd_address };

    fn holds(&self, contents: &[u8]) -> bool {
        match front(contents) {
            Some((identifier, base, _)) => {
                identifier == 0x87 && !(base.len() == 8 || base.len() == 32)
            }
            None => false,
        }
    }
}

/// Returns whether a policy of CertificatePolicies stands there twice.
pub(crate) fn repeats_policy(value: &[u8]) -> bool
    ensures { result ≡ repeats_policy value.now }
{
    one_is(within(0x30, value), &IsRepeated)
}

/// The test that a policy is one of those after it.
struct IsRepeated;

impl ElementTest for IsRepeated {
    ghost use Rattle.der_verify.specs.Inside.{is_repeated};

    ghost passes = { λ p. is_repeated };

    fn passes(&self, _identifier: u8, contents: &[u8], others: &[u8]) -> bool {
        let policy = within(0x06, contents);
        one_is(others, &HasPolicy { policy })
    }
}

/// The test that a PolicyInformation has this identifier.
#[derive(Drop)]
struct HasPolicy<'a> {
    policy: &'a [u8],
}

impl<'a> ElementTest for HasPolicy<'a> {
    ghost use Rattle.der_verify.specs.Inside.{has_policy};

    ghost passes = { λ p. has_policy p.policy.now };

    fn passes(&self, _identifier: u8, contents: &[u8], _others: &[u8]) -> bool {
        within(0x06, contents) == self.policy
    }
}

/// Returns whether anyPolicy is mapped, or a policy is mapped to it.
pub(crate) fn maps_any_policy(value: &[u8]) -> bool
    ensures { result ≡ maps_any_policy value.now }
{
    one_is(within(0x30, value), &MapsAny)
}

/// The test that one of the two policies of a mapping is anyPolicy.
struct MapsAny;

impl ElementTest for MapsAny {
    ghost use Rattle.der_verify.specs.Inside.{maps_any};

    ghost passes = { λ p. maps_any };

    fn passes(&self, _identifier: u8, contents: &[u8], _others: &[u8]) -> bool {
        one_is(contents, &IsAnyPolicy)
    }
}

/// The test that a policy is anyPolicy.
struct IsAnyPolicy;

impl ElementTest for IsAnyPolicy {
    ghost use Rattle.der_verify.specs.Inside.{is_any_policy};

    ghost passes = { λ p. is_any_policy };

    fn passes(&self, identifier: u8, contents: &[u8], _others: &[u8]) -> bool {
        identifier == 0x06 && contents == ANY_POLICY.as_slice()
    }
}

/// Returns whether a DistributionPoint has neither distributionPoint nor cRLIssuer.
pub(crate) fn has_point_nowhere(value: &[u8]) -> bool
    ensures { result ≡ has_point_nowhere value.now }
{
    one_is(within(0x30, value), &IsNowhere)
}

/// The test that a DistributionPoint has neither distributionPoint nor cRLIssuer.
struct IsNowhere;

impl ElementTest for IsNowhere {
    ghost use Rattle.der_verify.specs.Inside.{is_nowhere};

    ghost passes = { λ p. is_nowhere };

    fn passes(&self, _identifier: u8, contents: &[u8], _others: &[u8]) -> bool {
        !(has_identifier(contents, 0xa0) || has_identifier(contents, 0xa2))
    }
}

/// Returns whether two of the kinds of an issuingDistributionPoint are TRUE.
pub(crate) fn has_two_kinds(value: &[u8]) -> bool
    ensures { result ≡ has_two_kinds value.now }
{
    let users = says(value, 0x81);
    let authorities = says(value, 0x82);
    let attributes = says(value, 0x85);
    users && (authorities || attributes) || authorities && attributes
}

/// Returns whether the field with this identifier is TRUE.
fn says(value: &[u8], identifier: u8) -> bool
    ensures { result ≡ says identifier value.now }
{
    one_is(within(0x30, value), &IsTrue { identifier })
}

/// The test that a field has this identifier and is TRUE.
#[derive(Drop)]
struct IsTrue {
    identifier: u8,
}

impl ElementTest for IsTrue {
    ghost use Rattle.der_verify.specs.Inside.{is_true};

    ghost passes = { λ p. is_true p.identifier };

    fn passes(&self, identifier: u8, contents: &[u8], _others: &[u8]) -> bool {
        identifier == self.identifier && contents == [0xff].as_slice()
    }
}

/// Returns whether a CRLNumber is negative, or has more than 20 octets.
pub(crate) fn is_odd_number(value: &[u8]) -> bool
    ensures { result ≡ is_odd_number value.now }
{
    let octets = within(0x02, value);
    is_negative(octets) || octets.len() > 20
}

/// Returns whether contents octets are those of a negative INTEGER.
fn is_negative(octets: &[u8]) -> bool
    ensures { result ≡ is_negative octets.now }
{
    match octets {
        [] => false,
        [first, ..] => *first >= 0x80,
    }
}

/// Returns whether a CRLReason is removeFromCRL (8), 0A 01 08.
pub(crate) fn is_removed(value: &[u8]) -> bool
    ensures { result ≡ is_removed value.now }
{
    value == [0x0a, 0x01, 0x08].as_slice()
}

/// Returns whether the revocationDate of one of the entries of a list is through 2049 and a
/// GeneralizedTime.
pub(crate) fn has_early_date(entries: &[u8]) -> bool
    ensures { result ≡ has_early_date entries.now }
{
    one_is(entries, &IsEarlyEntry)
}

/// The test that a date of an entry is through 2049 and a GeneralizedTime.
struct IsEarlyEntry;

impl ElementTest for IsEarlyEntry {
    ghost use Rattle.der_verify.specs.Inside.{is_early_entry};

    ghost passes = { λ p. is_early_entry };

    fn passes(&self, _identifier: u8, contents: &[u8], _others: &[u8]) -> bool {
        one_is(contents, &IsEarlyDate)
    }
}

/// The test that a field is a GeneralizedTime through 2049.
struct IsEarlyDate;

impl ElementTest for IsEarlyDate {
    ghost use Rattle.der_verify.specs.Inside.{is_early_date};

    ghost passes = { λ p. is_early_date };

    fn passes(&self, identifier: u8, contents: &[u8], _others: &[u8]) -> bool {
        identifier == 0x18 && begins_early(contents)
    }
}

/// Returns whether the year that a text begins with, in four digits, is at most 2049.
fn begins_early(text: &[u8]) -> bool
    ensures { result ≡ begins_early text.now }
{
    match text {
        [a, b, c, d, ..] => {
            *a as u32 * 1000 + *b as u32 * 100 + *c as u32 * 10 + *d as u32 <= 55377
        }
        _ => false,
    }
}
