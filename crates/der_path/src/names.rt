//! Names beside subtrees of name constraints (RFC 5280 section 4.2.1.10).

ghost use Rattle.std.specs.Prelude.{◌≡◌};
ghost use Rattle.std.specs.List.{list_any};
ghost use Rattle.der_verify.specs.Names.{each_matches, same_attribute};
ghost use Rattle.der_path.specs.Subtrees.{excludes, is_within_name, named_placement, one_has_inside, one_has_outside, one_is_undefined, permits, placement_of_kind, same_names};

use crate::address::address_placement;
use crate::domain::domain_placement;
use crate::mailbox::mailbox_placement;
use crate::placement::Placement;
use crate::resource::resource_placement;
use der_pkix::name::AttributeTypeAndValue;
use der_verify::values_match;

/// A part of a Name (RelativeDistinguishedName), in memory.
#[derive(Drop)]
pub struct Part<'a> {
    /// The attributes, in their order.
    pub attributes: Vec<AttributeTypeAndValue<'a>>,
}

/// A GeneralName, in memory.
#[derive(Drop)]
pub enum PathName<'a> {
    /// A directoryName, by its parts.
    Directory(Vec<Part<'a>>),
    /// The number of the tag of another name, and its contents octets: none for an otherName.
    Octets(u8, &'a [u8]),
}

/// A GeneralSubtree, in memory.
#[derive(Drop)]
pub struct Subtree<'a> {
    /// The base.
    pub base: PathName<'a>,
    /// Whether `minimum` is 0 and `maximum` is absent, as section 4.2.1.10 requires.
    pub is_plain: bool,
}

/// A name that is placed in a subtree.
#[derive(Clone, Copy)]
pub(crate) enum Named<'b, 'a> {
    /// The parts of a Name.
    Directory(&'b [Part<'a>]),
    /// The number of the tag of a GeneralName, and its contents octets.
    Octets(u8, &'b [u8]),
}

impl<'a> PathName<'a> {
    ghost use Rattle.std.specs.Prelude.{◌≡◌};
    ghost use Rattle.der_path.specs.Subtrees.{excludes_name, permits_name};

    /// Returns whether a name is permitted by these subtrees.
    pub(crate) fn is_permitted(&self, subtrees: &[Subtree<'a>]) -> bool
        ensures { result ≡ permits_name subtrees.now self.now }
    {
        match self {
            PathName::Directory(parts) => permits(subtrees, Named::Directory(parts)),
            PathName::Octets(kind, octets) => permits(subtrees, Named::Octets(*kind, octets)),
        }
    }

    /// Returns whether a name is excluded by these subtrees.
    pub(crate) fn is_excluded(&self, subtrees: &[Subtree<'a>]) -> bool
        ensures { result ≡ excludes_name subtrees.now self.now }
    {
        match self {
            PathName::Directory(parts) => excludes(subtrees, Named::Directory(parts)),
            PathName::Octets(kind, octets) => excludes(subtrees, Named::Octets(*kind, octets)),
        }
    }
}

/// Returns whether a name is permitted by the subtrees of a certificate: within one of those of
/// its kind, if there are any, and no placement is undefined.
pub(crate) fn permits<'a>(subtrees: &[Subtree<'a>], name: Named<'_, 'a>) -> bool
    ensures { result ≡ permits (named_placement name.entry) subtrees.now }
{
    !one_is_undefined(subtrees, name)
        && (one_has_inside(subtrees, name) || !one_has_outside(subtrees, name))
}

/// Returns whether a name is inside one of these subtrees.
fn one_has_inside<'a>(subtrees: &[Subtree<'a>], name: Named<'_, 'a>) -> bool
    ensures { result ≡ one_has_inside (named_placement name.entry) subtrees.now }
{
    subtrees
        .iter()
        .any(|subtree| placement(subtree, name).is_inside())
}

/// Returns whether a name is outside one of these subtrees.
fn one_has_outside<'a>(subtrees: &[Subtree<'a>], name: Named<'_, 'a>) -> bool
    ensures { result ≡ one_has_outside (named_placement name.entry) subtrees.now }
{
    subtrees
        .iter()
        .any(|subtree| placement(subtree, name).is_outside())
}

/// Returns whether the placement of a name in one of these subtrees is undefined.
fn one_is_undefined<'a>(subtrees: &[Subtree<'a>], name: Named<'_, 'a>) -> bool
    ensures { result ≡ one_is_undefined (named_placement name.entry) subtrees.now }
{
    subtrees
        .iter()
        .any(|subtree| placement(subtree, name).is_undefined())
}

/// Returns whether a name is excluded: it is within one of the subtrees of its kind, or its
/// placement is undefined.
pub(crate) fn excludes<'a>(subtrees: &[Subtree<'a>], name: Named<'_, 'a>) -> bool
    ensures { result ≡ excludes (named_placement name.entry) subtrees.now }
{
    one_has_inside(subtrees, name) || one_is_undefined(subtrees, name)
}

/// Returns the placement of a name in a subtree.
fn placement<'a>(subtree: &Subtree<'a>, name: Named<'_, 'a>) -> Placement
    ensures { result ≡ named_placement name.entry subtree.now }
{
    match name {
        Named::Directory(parts) => match &subtree.base {
            PathName::Directory(base) => if subtree.is_plain {
                Placement::inside_if(is_within_name(base, parts))
            } else {
                Placement::Undefined
            },
            PathName::Octets(_kind, _octets) => Placement::OtherKind,
        },
        Named::Octets(kind, octets) => match &subtree.base {
            PathName::Directory(_base) => Placement::OtherKind,
            PathName::Octets(base_kind, base) => if *base_kind != kind {
                Placement::OtherKind
            } else if subtree.is_plain {
                placement_of_kind(kind, base, octets)
            } else {
                Placement::Undefined
            },
        },
    }
}

/// Returns the placement of a GeneralName whose tag has this number, by its octets.
fn placement_of_kind(kind: u8, constraint: &[u8], name: &[u8]) -> Placement
    ensures { result ≡ placement_of_kind kind constraint.now name.now }
{
    match kind {
        1 => mailbox_placement(constraint, name),
        2 => domain_placement(constraint, name),
        6 => resource_placement(constraint, name),
        7 => address_placement(constraint, name),
        _ => Placement::Undefined,
    }
}

/// Returns whether a name is in the subtree of another: its first parts match the other's.
pub(crate) fn is_within_name(base: &[Part<'_>], name: &[Part<'_>]) -> bool
    ensures { result ≡ is_within_name base.now name.now }
{
    let mut left = base;
    let mut right = name;
    'each: while let [part, others @ ..] = left {
        let [other, more @ ..] = right else {
            return false;
        };
        if !part.matches(other) {
            return false;
        }
        left = others;
        right = more;
    }
    true
}

/// Returns whether two names match (RFC 5280 section 7.1).
pub(crate) fn same_names(first: &[Part<'_>], second: &[Part<'_>]) -> bool
    ensures { result ≡ same_names first.now second.now }
{
    first.len() == second.len() && is_within_name(first, second)
}

impl<'a> Part<'a> {
    ghost use Rattle.std.specs.Prelude.{◌≡◌};
    ghost use Rattle.der_path.specs.Subtrees.{same_parts};

    /// Returns whether two parts match (RFC 5280 section 7.1).
    pub(crate) fn matches(&self, other: &Part<'_>) -> bool
        ensures { result ≡ same_parts self.now other.now }
    {
        self.attributes.len() == other.attributes.len()
            && each_matches(&self.attributes, &other.attributes)
            && each_matches(&other.attributes, &self.attributes)
    }
}

/// Returns whether each attribute matches one of the others.
fn each_matches(
    attributes: &[AttributeTypeAndValue<'_>],
    others: &[AttributeTypeAndValue<'_>],
) -> bool
    ensures { result ≡ each_matches attributes.now others.now }
{
    attributes
        .iter()
        .all(|attribute| matches_one(others, attribute))
}

/// Returns whether an attribute matches one of these.
fn matches_one(others: &[AttributeTypeAndValue<'_>], attribute: &AttributeTypeAndValue<'_>) -> bool
    ensures { result ≡ list_any (same_attribute attribute.now) others.now }
{
    others
        .iter()
        .any(|other| attributes_match(attribute, other))
}

/// Returns whether two attributes match.
fn attributes_match(first: &AttributeTypeAndValue<'_>, second: &AttributeTypeAndValue<'_>) -> bool
    ensures { result ≡ same_attribute first.now second.now }
{
    first.type_().as_bytes() == second.type_().as_bytes()
        && values_match(first.value(), second.value())
}
