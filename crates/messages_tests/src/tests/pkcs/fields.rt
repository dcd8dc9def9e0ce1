//! Fields by their names, of values that are read.

use super::files;
use crate::tests::same_in;
use der_asn1_types::FromDer;
use der_pkcs::algorithm::RsassaPssParams;
use der_pkcs::encryption::{Pbkdf2Params, Pbkdf2Salt};
use der_pkcs::pkcs12::{Pfx, SafeBag, SafeContents};
use std::alloc::Global;
use std::process::Abort;
use std::test::Fail;

// Returns the number of octets of the salt if it is specified, the iterations, the length of the
// key, and whether a function is present.
fn derivation_told(
    alloc: Global,
    octets: &[u8],
) -> Result<(Option<usize>, u32, Option<u32>, bool), u8> {
    match Pbkdf2Params::from_der(alloc, octets) {
        Ok(derivation) => {
            let salt = match derivation.salt() {
                Pbkdf2Salt::Specified(salt) => Some(salt.as_bytes().len()),
                Pbkdf2Salt::OtherSource(_) => None,
            };
            let function = derivation.prf().is_some();
            Ok((
                salt,
                derivation.iteration_count(),
                derivation.key_length(),
                function,
            ))
        }
        Err(e) => Err(e.kind().number()),
    }
}

// Returns whether a hash and a mask are present, the length of the salt, and the trailer.
fn pss_told(alloc: Global, octets: &[u8]) -> Result<(bool, bool, Option<u32>, u8), u8> {
    match RsassaPssParams::from_der(alloc, octets) {
        Ok(parameters) => Ok((
            parameters.hash_algorithm().is_some(),
            parameters.mask_gen_algorithm().is_some(),
            parameters.salt_length(),
            parameters.trailer_field(),
        )),
        Err(e) => Err(e.kind().number()),
    }
}

#[test]
fn derivations_have_fields(rt: HostRuntime) -> Result<(), Fail> {
    let alloc = rt.alloc();
    let rows = [
        ("3009040101020102020120", (Some(1), 2, Some(32), false)),
        ("300b300506032a0302020200ff", (None, 255, None, false)),
        (
            "3014040101020102300c06082a864886f70d02070500",
            (Some(1), 2, None, true),
        ),
    ];
    for (digits, wanted) in rows {
        let octets = hex::decode(alloc, digits)?;
        let found = derivation_told(alloc, octets.as_slice());
        same_in(&rt, &digits, found, Ok(wanted));
    }
    Ok(())
}

#[test]
fn parameters_of_rsa_have_defaults(rt: HostRuntime) -> Result<(), Fail> {
    let alloc = rt.alloc();
    let rows = [
        ("3000", (false, false, None, 1)),
        ("3005a203020120", (false, false, Some(32), 1)),
        ("3005a303020102", (false, false, None, 2)),
    ];
    for (digits, wanted) in rows {
        let octets = hex::decode(alloc, digits)?;
        let found = pss_told(alloc, octets.as_slice());
        same_in(&rt, &digits, found, Ok(wanted));
    }
    Ok(())
}

// Returns the version of a file, and the number of octets and the iterations of its digest.
fn file_told(alloc: Global, octets: &[u8]) -> Result<(u8, Option<(usize, Option<u32>)>), u8> {
    match Pfx::from_der(alloc, octets) {
        Ok(file) => {
            let digest = match file.mac_data() {
                Some(data) => Some((data.mac().digest().as_bytes().len(), data.iterations())),
                None => None,
            };
            Ok((file.version(), digest))
        }
        Err(e) => Err(e.kind().number()),
    }
}

// Returns the number of bags in the value of a bag, if the value is contents of bags itself.
fn bags_within(alloc: Global, bag: &SafeBag<'_>) -> usize {
    let value = *bag.bag_value();
    match value.decode_as::<SafeContents>(alloc) {
        Ok(contents) => count_of(alloc, &contents),
        Err(_) => 0,
    }
}

// Returns the number of bags.
fn count_of(alloc: Global, contents: &SafeContents<'_>) -> usize {
    match contents.items().count(alloc) {
        Ok(count) => count,
        Err(_) => 0,
    }
}

// Returns whether the first bag has attributes, and the number of bags in it.
fn first_told(alloc: Global, contents: &SafeContents<'_>) -> (bool, usize) {
    match contents.items().get(alloc, 0) {
        Some(Ok(bag)) => (bag.bag_attributes().is_some(), bags_within(alloc, &bag)),
        _ => (false, 0),
    }
}

// Returns the number of bags, whether the first one has attributes, and the number of bags in it.
fn bags_told(alloc: Global, octets: &[u8]) -> Result<(usize, bool, usize), u8> {
    match SafeContents::from_der(alloc, octets) {
        Ok(contents) => {
            let (has_attributes, within) = first_told(alloc, &contents);
            Ok((count_of(alloc, &contents), has_attributes, within))
        }
        Err(e) => Err(e.kind().number()),
    }
}

#[test]
fn files_have_digests(rt: HostRuntime) -> Result<(), Fail> {
    let alloc = rt.alloc();
    let rows = [
        (files::ENCRYPTED, (3, Some((32, Some(2048))))),
        (files::PLAIN, (3, None)),
        (files::LEGACY, (3, Some((20, None)))),
    ];
    for (digits, wanted) in rows {
        let octets = hex::decode(alloc, digits)?;
        let found = file_told(alloc, octets.as_slice());
        same_in(&rt, &digits, found, Ok(wanted));
    }
    Ok(())
}

#[test]
fn contents_are_bags(rt: HostRuntime) -> Result<(), Fail> {
    let alloc = rt.alloc();
    let rows = [
        ("3000", (0, false, 0)),
        (files::SHROUDED, (1, true, 0)),
        (files::NESTED, (1, false, 1)),
    ];
    for (digits, wanted) in rows {
        let octets = hex::decode(alloc, digits)?;
        let found = bags_told(alloc, octets.as_slice());
        same_in(&rt, &digits, found, Ok(wanted));
    }
    Ok(())
}
