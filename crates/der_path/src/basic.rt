//! The steps of RFC 5280 section 6.1.3 but those of policies.

ghost use Rattle.std.specs.Prelude.{◌≡◌};
ghost use Rattle.std.specs.List.{list_all, list_any};
ghost use Rattle.der_path.specs.Subtrees.{excludes_name, permits_name};
ghost use Rattle.der_path.specs.Basic.{basic_fault, each_permits, excluded_by, excluded_mail, excluded_mail_of, excluded_names, excluded_subject, excluded_value, is_excluded, is_mail, is_permitted, is_self_issued, one_excludes, permitted_by, permitted_mail, permitted_mail_of, permitted_names, permitted_subject, permitted_value};

use crate::facts::{Facts, NameFacts};
use crate::names::{Named, Part, PathName, Subtree, excludes, permits, same_names};
use crate::step::Step;
use der_pkix::name::AttributeTypeAndValue;
use der_verify::holds_at;

/// Returns whether a certificate is self-issued: its issuer and its subject match.
pub(crate) fn is_self_issued(facts: &Facts<'_>) -> bool
    ensures { result ≡ is_self_issued facts.now }
{
    same_names(&facts.issuer, &facts.subject)
}

/// Returns the first of the steps 6.1.3 (a)(2), (a)(4), (b) and (c) that refuses a certificate
/// after others.
pub(crate) fn basic_fault<'a>(
    initial: &NameFacts<'a>,
    before: &[Facts<'a>],
    issuer: &[Part<'a>],
    facts: &Facts<'a>,
    moment: u64,
    is_last: bool,
) -> Option<Step>
    ensures { result ≡ basic_fault initial.now before.now issuer.now facts.now moment is_last }
{
    if !holds_at(facts.validity, moment) {
        Some(Step::Validity)
    } else if !same_names(&facts.issuer, issuer) {
        Some(Step::Issuer)
    } else if !is_last && is_self_issued(facts) {
        None
    } else if !is_permitted(initial, before, facts) {
        Some(Step::Permitted)
    } else if is_excluded(initial, before, facts) {
        Some(Step::Excluded)
    } else {
        None
    }
}

/// Returns whether each name is permitted at first and by each certificate before (6.1.3 (b)).
fn is_permitted<'a>(initial: &NameFacts<'a>, before: &[Facts<'a>], facts: &Facts<'a>) -> bool
    ensures { result ≡ is_permitted initial.now before.now facts.now }
{
    initial.permits(facts) && each_permits(before, facts)
}

/// Returns whether each name is permitted by each certificate before.
fn each_permits<'a>(before: &[Facts<'a>], facts: &Facts<'a>) -> bool
    ensures { result ≡ each_permits before.now facts.now }
{
    before.iter().all(|other| match &other.names.permitted {
        Some(subtrees) => permitted_by(subtrees, facts),
        None => true,
    })
}

/// Returns whether a name is excluded at first or by a certificate before (6.1.3 (c)).
fn is_excluded<'a>(initial: &NameFacts<'a>, before: &[Facts<'a>], facts: &Facts<'a>) -> bool
    ensures { result ≡ is_excluded initial.now before.now facts.now }
{
    initial.excludes(facts) || one_excludes(before, facts)
}

/// Returns whether a name is excluded by a certificate before.
fn one_excludes<'a>(before: &[Facts<'a>], facts: &Facts<'a>) -> bool
    ensures { result ≡ one_excludes before.now facts.now }
{
    before.iter().any(|other| match &other.names.excluded {
        Some(subtrees) => excluded_by(subtrees, facts),
        None => false,
    })
}

impl<'a> NameFacts<'a> {
    ghost use Rattle.std.specs.Prelude.{◌≡◌};
    ghost use Rattle.der_path.specs.Basic.{excluded_if, permitted_if};

    /// Returns whether each name of a certificate is permitted, if there are permitted subtrees.
    fn permits(&self, facts: &Facts<'a>) -> bool
        ensures { result ≡ permitted_if self.now.permitted facts.now }
    {
        match &self.permitted {
            Some(subtrees) => permitted_by(subtrees, facts),
            None => true,
        }
    }

    /// Returns whether a name of a certificate is excluded, if there are excluded subtrees.
    fn excludes(&self, facts: &Facts<'a>) -> bool
        ensures { result ≡ excluded_if self.now.excluded facts.now }
    {
        match &self.excluded {
            Some(subtrees) => excluded_by(subtrees, facts),
            None => false,
        }
    }
}

/// Returns whether each name of a certificate is permitted by these subtrees.
fn permitted_by<'a>(subtrees: &[Subtree<'a>], facts: &Facts<'a>) -> bool
    ensures { result ≡ permitted_by subtrees.now facts.now }
{
    permitted_subject(subtrees, &facts.subject) && permitted_names(subtrees, facts)
}

/// Returns whether a subject is empty, or permitted.
fn permitted_subject<'a>(subtrees: &[Subtree<'a>], subject: &[Part<'a>]) -> bool
    ensures { result ≡ permitted_subject subtrees.now subject.now }
{
    subject.len() == 0 || permits(subtrees, Named::Directory(subject))
}

/// Returns whether a name of a certificate is excluded by these subtrees.
fn excluded_by<'a>(subtrees: &[Subtree<'a>], facts: &Facts<'a>) -> bool
    ensures { result ≡ excluded_by subtrees.now facts.now }
{
    excluded_subject(subtrees, &facts.subject) || excluded_names(subtrees, facts)
}

/// Returns whether a subject is not empty, and excluded.
fn excluded_subject<'a>(subtrees: &[Subtree<'a>], subject: &[Part<'a>]) -> bool
    ensures { result ≡ excluded_subject subtrees.now subject.now }
{
    subject.len() != 0 && excludes(subtrees, Named::Directory(subject))
}

/// Returns whether each alternative name of a certificate is permitted.
fn permitted_names<'a>(subtrees: &[Subtree<'a>], facts: &Facts<'a>) -> bool
    ensures { result ≡ permitted_names subtrees.now facts.now.subject.items facts.now.names.alternative_names }
{
    match &facts.names.alternative_names {
        Some(names) => each_permitted(subtrees, names),
        None => permitted_mail(subtrees, &facts.subject),
    }
}

/// Returns whether an alternative name of a certificate is excluded.
fn excluded_names<'a>(subtrees: &[Subtree<'a>], facts: &Facts<'a>) -> bool
    ensures { result ≡ excluded_names subtrees.now facts.now.subject.items facts.now.names.alternative_names }
{
    match &facts.names.alternative_names {
        Some(names) => one_excluded(subtrees, names),
        None => excluded_mail(subtrees, &facts.subject),
    }
}

/// Returns whether each of some names is permitted.
fn each_permitted<'a>(subtrees: &[Subtree<'a>], names: &[PathName<'a>]) -> bool
    ensures { result ≡ list_all (permits_name subtrees.now) names.now }
{
    names.iter().all(|name| name.is_permitted(subtrees))
}

/// Returns whether one of some names is excluded.
fn one_excluded<'a>(subtrees: &[Subtree<'a>], names: &[PathName<'a>]) -> bool
    ensures { result ≡ list_any (excludes_name subtrees.now) names.now }
{
    names.iter().any(|name| name.is_excluded(subtrees))
}

/// Returns whether each emailAddress of a subject is permitted as a mailbox.
fn permitted_mail<'a>(subtrees: &[Subtree<'a>], subject: &[Part<'a>]) -> bool
    ensures { result ≡ permitted_mail subtrees.now subject.now }
{
    subject.iter().all(|part| permitted_mail_of(subtrees, part))
}

/// Returns whether an emailAddress of a subject is excluded as a mailbox.
fn excluded_mail<'a>(subtrees: &[Subtree<'a>], subject: &[Part<'a>]) -> bool
    ensures { result ≡ excluded_mail subtrees.now subject.now }
{
    subject.iter().any(|part| excluded_mail_of(subtrees, part))
}

/// Returns whether each emailAddress of a part is permitted as a mailbox.
fn permitted_mail_of<'a>(subtrees: &[Subtree<'a>], part: &Part<'a>) -> bool
    ensures { result ≡ permitted_mail_of subtrees.now part.now }
{
    part.attributes.iter().all(|attribute| !is_mail(attribute)
        || permitted_value(subtrees, attribute))
}

/// Returns whether an emailAddress of a part is excluded as a mailbox.
fn excluded_mail_of<'a>(subtrees: &[Subtree<'a>], part: &Part<'a>) -> bool
    ensures { result ≡ excluded_mail_of subtrees.now part.now }
{
    part.attributes.iter().any(|attribute| is_mail(attribute)
        && excluded_value(subtrees, attribute))
}

/// Returns whether the value of an attribute is permitted as a mailbox.
fn permitted_value<'a>(subtrees: &[Subtree<'a>], attribute: &AttributeTypeAndValue<'a>) -> bool
    ensures { result ≡ permitted_value subtrees.now attribute.now }
{
    permits(subtrees, Named::Octets(1, attribute.value().value()))
}

/// Returns whether the value of an attribute is excluded as a mailbox.
fn excluded_value<'a>(subtrees: &[Subtree<'a>], attribute: &AttributeTypeAndValue<'a>) -> bool
    ensures { result ≡ excluded_value subtrees.now attribute.now }
{
    excludes(subtrees, Named::Octets(1, attribute.value().value()))
}

/// Returns whether an attribute is an emailAddress (4.1.2.6).
fn is_mail(attribute: &AttributeTypeAndValue<'_>) -> bool
    ensures { result ≡ is_mail attribute.now }
{
    attribute.type_().as_bytes() == EMAIL_ADDRESS.as_slice()
}

/// The contents octets of emailAddress, 1.2.840.113549.1.9.1.
const EMAIL_ADDRESS: [u8; 9] = [0x2a, 0x86, 0x48, 0x86, 0xf7, 0x0d, 0x01, 0x09, 0x01];
