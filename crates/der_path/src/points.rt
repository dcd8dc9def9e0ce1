//! What section 6.3.3 of RFC 5280 takes from the distribution points of a certificate, and which
//! lists are of a distribution point.

ghost use Rattle.std.specs.Prelude.{◌≡◌, ◌++◌, ◌∷◌, [], IfOk, List};
ghost use Rattle.std.specs.List.{list_any};
ghost use Rattle.der_pkix.specs.declared.certificate.extension.Extension.{Extension};
ghost use Rattle.der_pkix.specs.Certificate.TbsCertificate as tbs_fields;
ghost use Rattle.der_verify.specs.Rfc5280.{AreListed};
ghost use Rattle.der_path.specs.Facts.{Reads};
ghost use Rattle.der_path.specs.Revocation.{is_directory_of};
ghost use Rattle.der_path.specs.Points.{base_name, first_directory, has_point_name, interim_reasons, is_of_issuer, matches_names, matches_point, one_matches, point_fault, relative_matches, same_general_name, IsOwnPoint, KeepsPoints, ShowsEachPoint, ShowsPoints};
ghost use Rattle.der_path.specs.Subtrees.{same_names};

use crate::extension_values::value_in;
use crate::facts::{NoFacts, names_in};
use crate::keep::{Keeper, keep_items};
use crate::list_step::ListStep;
use crate::names::{Part, PathName, same_names};
use crate::read_names::parts_of;
use crate::reasons::{Reasons, reasons_of};
use crate::revocation::{is_directory_of, one_is_directory_of, scope_kind_fault};
use crate::revocation_facts::{ListFacts, PointName, Target, point_name_in};
use der_elem::Form;
use der_extensions::extension::constants::ID_CE_CRL_DISTRIBUTION_POINTS;
use der_extensions::extension::{CrlDistributionPoints, DistributionPoint, ReasonFlags};
use der_pkix::certificate::{Extension, TbsCertificate};
use der_pkix::name::Name;
use std::alloc::{AllocError, Global};

/// What section 6.3.3 takes from a DistributionPoint (4.2.1.13).
#[derive(Drop)]
pub struct Point<'a> {
    /// distributionPoint.
    pub name: Option<PointName<'a>>,
    /// reasons.
    pub reasons: Option<ReasonFlags<'a>>,
    /// cRLIssuer.
    pub issuers: Option<Vec<PathName<'a>>>,
}

/// Reads the distribution points of a certificate, and that of its issuer after them.
pub(crate) fn points_of<'a>(
    alloc: Global,
    certificate: &TbsCertificate<'a>,
) -> Result<Vec<Point<'a>>, NoFacts>
    ensures { (listed : List Extension) → AreListed ⟦<Extension<'a> as Form>⟧ (tbs_fields.extensions certificate.now) listed
        → Reads (λ points. ShowsPoints certificate.now listed points.items) result }
{
    let held = value_in::<CrlDistributionPoints<'a>>(
        alloc,
        certificate.extensions(),
        &ID_CE_CRL_DISTRIBUTION_POINTS,
    )?;
    match kept_points(alloc, held, certificate.issuer()) {
        Ok(points) => Ok(points),
        Err(_error) => Err(NoFacts::Memory),
    }
}

/// Keeps distribution points, and that of an issuer after them.
fn kept_points<'a>(
    alloc: Global,
    held: Option<CrlDistributionPoints<'a>>,
    issuer: &Name<'a>,
) -> Result<Vec<Point<'a>>, AllocError>
    ensures { IfOk result (λ points. KeepsPoints held.entry issuer.now points.items) }
{
    let mut points = given_points(alloc, held)?;
    points.push(own_point(alloc, issuer)?)?;
    Ok(points)
}

/// Keeps distribution points, if there are any.
fn given_points<'a>(
    alloc: Global,
    held: Option<CrlDistributionPoints<'a>>,
) -> Result<Vec<Point<'a>>, AllocError>
    ensures { IfOk result (λ points. ShowsEachPoint held.entry points.items) }
{
    match held {
        Some(held) => keep_items::<DistributionPoint<'a>, KeepPoint>(
            alloc,
            held.items().as_bytes(),
        ),
        None => Ok(Vec::new(alloc)),
    }
}

/// Keeps a distribution point.
struct KeepPoint;

impl<'a> Keeper<DistributionPoint<'a>> for KeepPoint {
    ghost use Rattle.der_path.specs.Points.{ShowsDistributionPoint};

    type Kept = Point<'a>;

    ghost shows = { ShowsDistributionPoint };

    fn keep(alloc: Global, item: &DistributionPoint<'a>) -> Result<Point<'a>, AllocError> {
        let name = point_name_in(alloc, item.distribution_point())?;
        let issuers = names_in(alloc, item.crl_issuer().copied())?;
        Ok(Point {
            name,
            reasons: item.reasons().copied(),
            issuers,
        })
    }
}

/// Makes the distribution point of an issuer: it has its name, and neither reasons nor cRLIssuer.
fn own_point<'a>(alloc: Global, issuer: &Name<'a>) -> Result<Point<'a>, AllocError>
    ensures { IfOk result (IsOwnPoint issuer.now) }
{
    let parts = parts_of(alloc, issuer)?;
    let mut names = Vec::new(alloc);
    names.push(PathName::Directory(parts))?;
    Ok(Point {
        name: Some(PointName::Full(names)),
        reasons: None,
        issuers: None,
    })
}

/// Returns the first of the steps 6.3.3 (b) that refuses a list for a distribution point.
pub(crate) fn point_fault(
    target: &Target<'_>,
    point: &Point<'_>,
    list: &ListFacts<'_>,
) -> Option<ListStep>
    ensures { result ≡ point_fault target.now point.now list.now }
{
    if !is_of_issuer(target, point, list) {
        Some(ListStep::Issuer)
    } else if !has_point_name(target, point, list) {
        Some(ListStep::PointName)
    } else {
        scope_kind_fault(&list.scope, target.is_ca)
    }
}

/// Returns whether a list is of the issuer that a distribution point asks for.
fn is_of_issuer(target: &Target<'_>, point: &Point<'_>, list: &ListFacts<'_>) -> bool
    ensures { result ≡ is_of_issuer target.now point.now list.now }
{
    match &point.issuers {
        Some(names) => one_is_directory_of(names, &list.issuer) && list.scope.is_indirect,
        None => same_names(&list.issuer, &target.issuer),
    }
}

/// Returns whether the scope of a list has a name of a distribution point, if it has names.
fn has_point_name(target: &Target<'_>, point: &Point<'_>, list: &ListFacts<'_>) -> bool
    ensures { result ≡ has_point_name target.now point.now list.now }
{
    match &list.scope.name {
        Some(held) => matches_point(target, point, &list.issuer, held),
        None => true,
    }
}

/// Returns whether a name of a distribution point matches one of these, or one of cRLIssuer if it
/// has no names.
fn matches_point(
    target: &Target<'_>,
    point: &Point<'_>,
    base: &[Part<'_>],
    held: &PointName<'_>,
) -> bool
    ensures { result ≡ matches_point target.now point.now base.now held.now }
{
    match &point.name {
        Some(PointName::Full(names)) => one_matches(names, base, held),
        Some(PointName::Relative(part)) => relative_matches(
            base_name(&point.issuers, &target.issuer),
            part,
            base,
            held,
        ),
        None => match &point.issuers {
            Some(names) => one_matches(names, base, held),
            None => false,
        },
    }
}

/// Returns the name that a name of a distribution point is relative to: the first directoryName
/// of cRLIssuer, else that of the certificate's issuer.
fn base_name<'a>(issuers: &'a Option<Vec<PathName<'a>>>, issuer: &'a [Part<'a>]) -> &'a [Part<'a>]
    ensures { result.now ≡ base_name issuers.now issuer.now }
{
    match issuers {
        Some(names) => first_directory(names, issuer),
        None => issuer,
    }
}

/// Returns the first directoryName of some names, else another one.
fn first_directory<'a>(names: &'a [PathName<'a>], other: &'a [Part<'a>]) -> &'a [Part<'a>]
    ensures { result.now ≡ first_directory other.now names.now }
{
    let mut left = names;
    'each: while let [name, others @ ..] = left {
        if let PathName::Directory(parts) = name {
            return parts;
        }
        left = others;
    }
    other
}

/// Returns whether one of these names matches a name of the scope of a list.
fn one_matches(names: &[PathName<'_>], base: &[Part<'_>], held: &PointName<'_>) -> bool
    ensures { result ≡ one_matches names.now base.now held.now }
{
    match held {
        PointName::Full(others) => one_is_named(names, others),
        PointName::Relative(part) => one_is_relative(names, base, part),
    }
}

/// Returns whether a relative name matches a name of the scope of a list.
fn relative_matches(
    base: &[Part<'_>],
    part: &Part<'_>,
    other: &[Part<'_>],
    held: &PointName<'_>,
) -> bool
    ensures { result ≡ relative_matches (base.now ++ part.now ∷ []) other.now held.now }
{
    match held {
        PointName::Full(names) => one_is_relative(names, base, part),
        PointName::Relative(last) => same_added(base, other, part, last),
    }
}

/// Returns whether one of some names is one of some others.
fn one_is_named(names: &[PathName<'_>], others: &[PathName<'_>]) -> bool
    ensures { result ≡ list_any (matches_names others.now) names.now }
{
    names.iter().any(|name| matches_names(name, others))
}

/// Returns whether a name is one of some others.
fn matches_names(name: &PathName<'_>, others: &[PathName<'_>]) -> bool
    ensures { result ≡ matches_names others.now name.now }
{
    others.iter().any(|other| same_general_name(name, other))
}

/// Returns whether one of some names is a directoryName with a part added to it.
fn one_is_relative(names: &[PathName<'_>], base: &[Part<'_>], part: &Part<'_>) -> bool
    ensures { result ≡ list_any (is_directory_of (base.now ++ part.now ∷ [])) names.now }
{
    names.iter().any(|name| is_relative(name, base, part))
}

/// Returns whether a name is a directoryName with a part added to it.
fn is_relative(name: &PathName<'_>, base: &[Part<'_>], part: &Part<'_>) -> bool
    ensures { result ≡ is_directory_of (base.now ++ part.now ∷ []) name.now }
{
    match name {
        PathName::Directory(parts) => is_added(parts, base, part),
        PathName::Octets(_kind, _octets) => false,
    }
}

/// Returns whether the parts of a name are those of another with a part added to them.
fn is_added(parts: &[Part<'_>], base: &[Part<'_>], part: &Part<'_>) -> bool
    ensures { result ≡ same_names parts.now (base.now ++ part.now ∷ []) }
{
    match parts {
        [first @ .., last] => same_added(first, base, last, part),
        [] => false,
    }
}

/// Returns whether two names match, each with a part added to it.
fn same_added(first: &[Part<'_>], second: &[Part<'_>], last: &Part<'_>, other: &Part<'_>) -> bool
    ensures { result ≡ same_names (first.now ++ last.now ∷ []) (second.now ++ other.now ∷ []) }
{
    same_names(first, second) && last.matches(other)
}

/// Returns whether two names match: by section 7.1, or by their octets. No otherName matches.
fn same_general_name(name: &PathName<'_>, other: &PathName<'_>) -> bool
    ensures { result ≡ same_general_name name.now other.now }
{
    match name {
        PathName::Directory(parts) => is_directory_of(other, parts),
        PathName::Octets(kind, octets) => match other {
            PathName::Directory(_parts) => false,
            PathName::Octets(other_kind, others) => *kind != 0
                && kind == other_kind
                && octets == others,
        },
    }
}

/// Returns the reasons that a list has for a distribution point (6.3.3 (d)).
pub(crate) fn interim_reasons(point: &Point<'_>, list: &ListFacts<'_>) -> Reasons
    ensures { result ≡ interim_reasons point.now list.now }
{
    reasons_of(list.scope.reasons).met(reasons_of(point.reasons))
}
