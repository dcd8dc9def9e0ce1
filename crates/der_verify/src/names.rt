//! Names compared as RFC 5280 section 7.1 requires: "Two distinguished names DN1 and DN2 match if
//! they have the same number of RDNs, for each RDN in DN1 there is a matching RDN in DN2, and the
//! matching RDNs appear in the same order in both DNs." Text with characters outside 20 to 7E is
//! compared exactly.

mod text;

ghost use Rattle.std.specs.Prelude.{◌≡◌, ◌==◌, List, length};
ghost use Rattle.der_opaque.specs.AnyRef.{contents_of, tag_of};
ghost use Rattle.der_lists.specs.Items.{AreItems};
ghost use Rattle.der_lists.specs.SetRef as set;
ghost use Rattle.der_pkix.specs.declared.name.attribute_type_and_value.AttributeTypeAndValue.{AttributeTypeAndValue};
ghost use Rattle.der_verify.specs.Names.{each_matches, is_visible, is_text, is_text_tag, same_attribute, same_exactly, same_name, same_value, AreParts};

use crate::shown::{PairTest, ShownTest, all_pass, one_passes, pairs_pass};
use der_elem::Form;
use der_lists::SetRef;
use der_opaque::AnyRef;
use der_pkix::name::{AttributeTypeAndValue, Name, RelativeDistinguishedName};
use der_tlv::Tag;
use std::alloc::Global;
use text::same_text;

/// Returns whether two names match (RFC 5280 section 7.1): they have the same number of parts,
/// and each part matches the one at its index.
///
/// Two parts match if they have the same number of attributes, and each attribute of either
/// matches one of the other. Two attributes match if their types are equal and their values match
/// (`values_match`).
pub fn names_match<'a>(alloc: Global, first: &Name<'a>, second: &Name<'a>) -> bool
    ensures { (parts others : List (List AttributeTypeAndValue))
        → AreParts ⟦<RelativeDistinguishedName<'a> as Form>⟧ ⟦<AttributeTypeAndValue<'a> as Form>⟧ first.now parts
        → AreParts ⟦<RelativeDistinguishedName<'a> as Form>⟧ ⟦<AttributeTypeAndValue<'a> as Form>⟧ second.now others
        → result ≡ same_name parts others }
{
    pairs_pass(
        first.items().iter(alloc),
        second.items().iter(alloc),
        &SamePart { alloc },
    )
}

/// Returns whether two values match. PrintableStrings and UTF8Strings of the characters 20 to 7E
/// match if they differ only in case, in spaces at the front and the end, and in the length of
/// runs of spaces. Any other values match if they are equal.
///
/// 13 04 4D 49 4C 4C matches 0C 05 20 6D 69 6C 6C.
pub fn values_match(first: &AnyRef<'_>, second: &AnyRef<'_>) -> bool
    ensures { result ≡ same_value first.now second.now }
{
    if is_text(first) && is_text(second) {
        same_text(first.value(), second.value())
    } else {
        are_equal(first, second)
    }
}

/// The test that two parts match.
#[derive(Drop)]
struct SamePart {
    alloc: Global,
}

impl<'a> PairTest<RelativeDistinguishedName<'a>> for SamePart {
    ghost use Rattle.std.specs.Prelude.{List};
    ghost use Rattle.der_pkix.specs.declared.name.attribute_type_and_value.AttributeTypeAndValue.{AttributeTypeAndValue};
    ghost use Rattle.der_verify.specs.Names.{AreAttributes, same_part};
    ghost use Rattle.der_verify.specs.EqualEncodings.{same_attributes};

    ghost Shown = { List AttributeTypeAndValue };

    ghost shows = { λ p. AreAttributes ⟦<AttributeTypeAndValue<'a> as Form>⟧ };

    ghost passes = { λ p. same_part };

    fn passes(
        &self,
        item: &RelativeDistinguishedName<'a>,
        other: &RelativeDistinguishedName<'a>,
    ) -> bool {
        let attributes = item.items();
        let others = other.items();
        are_as_many(self.alloc, attributes, others)
            && all_match(self.alloc, attributes, others)
            && all_match(self.alloc, others, attributes)
    }

    ghost respects = { λ p. same_attributes ⟦<AttributeTypeAndValue<'a> as Form>⟧ };
}

/// Returns whether two parts have the same number of attributes.
fn are_as_many<'a>(
    alloc: Global,
    attributes: &SetRef<'a, AttributeTypeAndValue<'a>>,
    others: &SetRef<'a, AttributeTypeAndValue<'a>>,
) -> bool
    ensures { (xs ys : List AttributeTypeAndValue)
        → AreItems ⟦<AttributeTypeAndValue<'a> as Form>⟧ (set.octets_of attributes.now) xs
        → AreItems ⟦<AttributeTypeAndValue<'a> as Form>⟧ (set.octets_of others.now) ys
        → result ≡ (length xs == length ys) }
{
    pairs_pass(attributes.iter(alloc), others.iter(alloc), &AnyTwo)
}

/// A test that any two attributes pass, so that two lists pass it if they have the same length.
struct AnyTwo;

impl<'a> PairTest<AttributeTypeAndValue<'a>> for AnyTwo {
    ghost use Rattle.std.specs.Prelude.{true};
    ghost use Rattle.der_pkix.specs.declared.name.attribute_type_and_value.AttributeTypeAndValue.{AttributeTypeAndValue};
    ghost use Rattle.der_verify.specs.Shown.{Encodes, encodes_too};

    ghost Shown = { AttributeTypeAndValue };

    ghost shows = { λ p v x. Encodes ⟦<AttributeTypeAndValue<'a> as Form>⟧ v x };

    ghost passes = { λ p x y. true };

    fn passes(
        &self,
        _item: &AttributeTypeAndValue<'a>,
        _other: &AttributeTypeAndValue<'a>,
    ) -> bool {
        true
    }

    ghost respects = { λ p v w x. encodes_too ⟦<AttributeTypeAndValue<'a> as Form>⟧ v w x };
}

/// Returns whether each attribute matches one of the others.
fn all_match<'a>(
    alloc: Global,
    attributes: &SetRef<'a, AttributeTypeAndValue<'a>>,
    others: &SetRef<'a, AttributeTypeAndValue<'a>>,
) -> bool
    ensures { (xs ys : List AttributeTypeAndValue)
        → AreItems ⟦<AttributeTypeAndValue<'a> as Form>⟧ (set.octets_of attributes.now) xs
        → AreItems ⟦<AttributeTypeAndValue<'a> as Form>⟧ (set.octets_of others.now) ys
        → result ≡ each_matches xs ys }
{
    all_pass(attributes.iter(alloc), &MatchesOne { alloc, others })
}

/// The test that an attribute matches one of these.
#[derive(Drop)]
struct MatchesOne<'a, 'b> {
    alloc: Global,
    others: &'b SetRef<'a, AttributeTypeAndValue<'a>>,
}

impl<'a, 'b> ShownTest<AttributeTypeAndValue<'a>> for MatchesOne<'a, 'b> {
    ghost use Rattle.std.specs.Prelude.{List};
    ghost use Rattle.std.specs.List.{list_any};
    ghost use Rattle.der_lists.specs.Items.{AreItems};
    ghost use Rattle.der_lists.specs.SetRef as set;
    ghost use Rattle.der_pkix.specs.declared.name.attribute_type_and_value.AttributeTypeAndValue.{AttributeTypeAndValue};
    ghost use Rattle.der_verify.specs.Names.{same_attribute};
    ghost use Rattle.der_verify.specs.Shown.{Encodes, encodes_beside};

    // an attribute, and the others
    ghost Shown = { AttributeTypeAndValue × List AttributeTypeAndValue };

    ghost shows = { λ p v x. Encodes ⟦<AttributeTypeAndValue<'a> as Form>⟧ v x.0 × AreItems ⟦<AttributeTypeAndValue<'a> as Form>⟧ (set.octets_of p.others.now) x.1 };

    ghost passes = { λ p x. list_any (same_attribute x.0) x.1 };

    fn passes(&self, item: &AttributeTypeAndValue<'a>) -> bool {
        one_passes(
            self.others.iter(self.alloc),
            &SameAttribute { attribute: item },
        )
    }

    ghost respects = { λ p v w x. encodes_beside ⟦<AttributeTypeAndValue<'a> as Form>⟧ v w x.0 (AreItems ⟦<AttributeTypeAndValue<'a> as Form>⟧ (set.octets_of p.others.now) x.1) };
}

/// The test that an attribute matches this one.
#[derive(Drop)]
struct SameAttribute<'a, 'b> {
    attribute: &'b AttributeTypeAndValue<'a>,
}

impl<'a, 'b> ShownTest<AttributeTypeAndValue<'a>> for SameAttribute<'a, 'b> {
    ghost use Rattle.der_pkix.specs.declared.name.attribute_type_and_value.AttributeTypeAndValue.{AttributeTypeAndValue};
    ghost use Rattle.der_verify.specs.Names.{same_attribute};
    ghost use Rattle.der_verify.specs.Shown.{Encodes, encodes_too};

    ghost Shown = { AttributeTypeAndValue };

    ghost shows = { λ p v x. Encodes ⟦<AttributeTypeAndValue<'a> as Form>⟧ v x };

    ghost passes = { λ p x. same_attribute p.attribute.now x };

    fn passes(&self, item: &AttributeTypeAndValue<'a>) -> bool {
        attributes_match(self.attribute, item)
    }

    ghost respects = { λ p v w x. encodes_too ⟦<AttributeTypeAndValue<'a> as Form>⟧ v w x };
}

/// Returns whether two attributes match.
fn attributes_match(first: &AttributeTypeAndValue<'_>, second: &AttributeTypeAndValue<'_>) -> bool
    ensures { result ≡ same_attribute first.now second.now }
{
    first.type_().as_bytes() == second.type_().as_bytes()
        && values_match(first.value(), second.value())
}

/// Returns whether a value is text that is compared without case.
fn is_text(value: &AnyRef<'_>) -> bool
    ensures { result ≡ is_text value.now }
{
    has_text_tag(value.header().tag) && are_visible(value.value())
}

/// Returns whether a tag is that of a PrintableString or of a UTF8String.
fn has_text_tag(tag: Tag) -> bool
    ensures { result ≡ is_text_tag tag }
{
    match tag {
        Tag::PrintableString => true,
        Tag::Utf8String => true,
        _ => false,
    }
}

/// Returns whether all octets are visible characters of ASCII or spaces.
fn are_visible(octets: &[u8]) -> bool
    ensures { result ≡ is_visible octets.now }
{
    let mut left = octets;
    'each: while let [first, rest @ ..] = left {
        if *first < 0x20 || *first > 0x7e {
            return false;
        }
        left = rest;
    }
    true
}

/// Returns whether two values have the same tag and the same contents octets.
fn are_equal(first: &AnyRef<'_>, second: &AnyRef<'_>) -> bool
    ensures { result ≡ same_exactly first.now second.now }
{
    first.header().tag.equals(second.header().tag) && first.value() == second.value()
}
