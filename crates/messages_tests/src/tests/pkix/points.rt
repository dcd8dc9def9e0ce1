//! Values of extensions that are about where lists of revoked certificates are.

use crate::tests::{numbered, same};
use der_asn1_types::FromDer;
use der_extensions::extension::{
    CrlDistributionPoints, DistributionPoint, DistributionPointName, REASON_FLAGS_KEY_COMPROMISE,
};
use std::alloc::Global;
use std::process::Abort;
use std::test::Fail;

/// The name of a point: its number of full names, or its number of attributes relative to the
/// issuer.
#[derive(Debug, PartialEq, Eq, Drop)]
enum Named {
    No,
    Full(usize),
    Relative(usize),
}

fn name_of_point(alloc: Global, point: &DistributionPoint) -> Result<Named, u8> {
    match point.distribution_point() {
        Some(DistributionPointName::FullName(names)) => {
            let count = numbered(names.items().count(alloc))?;
            Ok(Named::Full(count))
        }
        Some(DistributionPointName::NameRelativeToCrlIssuer(part)) => {
            let count = numbered(part.items().count(alloc))?;
            Ok(Named::Relative(count))
        }
        None => Ok(Named::No),
    }
}

// Returns the name of a point, whether its reasons include compromised keys, and the number of
// the issuer's names.
fn point_told(alloc: Global, point: &DistributionPoint) -> Result<(Named, bool, usize), u8> {
    let tells = match point.reasons() {
        Some(reasons) => reasons.has(REASON_FLAGS_KEY_COMPROMISE),
        None => false,
    };
    let names = match point.crl_issuer() {
        Some(names) => numbered(names.items().count(alloc))?,
        None => 0,
    };
    Ok((name_of_point(alloc, point)?, tells, names))
}

// Returns the number of points, and the fields of the point with this index.
fn points_told(
    alloc: Global,
    octets: &[u8],
    number: usize,
) -> Result<(usize, (Named, bool, usize)), u8> {
    match CrlDistributionPoints::from_der(alloc, octets) {
        Ok(points) => {
            let count = numbered(points.items().count(alloc))?;
            match points.items().get(alloc, number) {
                Some(Ok(point)) => Ok((count, point_told(alloc, &point)?)),
                Some(Err(e)) => Err(e.kind().number()),
                None => Err(0),
            }
        }
        Err(e) => Err(e.kind().number()),
    }
}

#[test]
fn points_have_fields(rt: HostRuntime) -> Result<(), Fail> {
    let alloc = rt.alloc();
    let octets = hex::decode(
        alloc,
        "3063304ca022a020861e687474703a2f2f6261726c65792e6578616d706c652f6d696c6c2e63726c81020560a222a420301e310b3009060355040613025345310f300d060355040a0c064261726c65793013a011a10f300d06035504030c067365636f6e64",
    )?;
    let found = points_told(alloc, octets.as_slice(), 0);
    same(&rt, found, Ok((2, (Named::Full(1), true, 1))));
    let found = points_told(alloc, octets.as_slice(), 1);
    same(&rt, found, Ok((2, (Named::Relative(1), false, 0))));
    let octets = hex::decode(
        alloc,
        "30273025a023a021861f687474703a2f2f6261726c65792e6578616d706c652f64656c74612e63726c",
    )?;
    let found = points_told(alloc, octets.as_slice(), 0);
    same(&rt, found, Ok((1, (Named::Full(1), false, 0))));
    let octets = hex::decode(alloc, "30023000")?;
    let found = points_told(alloc, octets.as_slice(), 0);
    same(&rt, found, Ok((1, (Named::No, false, 0))));
    Ok(())
}
