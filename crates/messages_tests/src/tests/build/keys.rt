//! Public keys.

use super::wanted;
use crate::tests::{numbered, same_in};
use der_asn1_types::Encode;
use der_build::{ed25519_key, p256_key, rsa_key, rsa_public_key};
use std::alloc::Global;
use std::process::Abort;
use std::test::Fail;

// Returns the Ed25519 key with these octets.
fn ed25519_of(alloc: Global, key: &[u8]) -> Result<Vec<u8>, u8> {
    match ed25519_key(key) {
        Ok(info) => numbered(info.to_der(alloc)),
        Err(e) => Err(e.kind().number()),
    }
}

// Returns the P-256 key with this point.
fn p256_of(alloc: Global, point: &[u8]) -> Result<Vec<u8>, u8> {
    match p256_key(point) {
        Ok(info) => numbered(info.to_der(alloc)),
        Err(e) => Err(e.kind().number()),
    }
}

#[test]
fn keys_of_ed25519_are_built(rt: HostRuntime) -> Result<(), Fail> {
    let alloc = rt.alloc();
    let key = "19bf44096984cdfe8541bac167dc3b96c85086aa30b6b6cb0c5c38ad703166e1";
    let octets = hex::decode(alloc, key)?;
    let info = wanted(
        alloc,
        "302a300506032b657003210019bf44096984cdfe8541bac167dc3b96c85086aa30b6b6cb0c5c38ad703166e1",
    );
    same_in(&rt, &key, ed25519_of(alloc, octets.as_slice()), info);
    same_in(
        &rt,
        &"31 octets",
        ed25519_of(alloc, [1; 31].as_slice()),
        Err(7),
    );
    same_in(
        &rt,
        &"33 octets",
        ed25519_of(alloc, [1; 33].as_slice()),
        Err(7),
    );
    Ok(())
}

#[test]
fn keys_of_p256_are_built(rt: HostRuntime) -> Result<(), Fail> {
    let alloc = rt.alloc();
    let rows = [
        (
            "047d341eca0aadd35f036f8ad7d3441b7f7536fb96707dda19a002ec5e137439904fe5dffdd0ad2c56a12fc30bf26a5f4fc7d67b521adc2f4c93d8b511b838b3a7",
            "3059301306072a8648ce3d020106082a8648ce3d030107034200047d341eca0aadd35f036f8ad7d3441b7f7536fb96707dda19a002ec5e137439904fe5dffdd0ad2c56a12fc30bf26a5f4fc7d67b521adc2f4c93d8b511b838b3a7",
        ),
        (
            "037d341eca0aadd35f036f8ad7d3441b7f7536fb96707dda19a002ec5e13743990",
            "3039301306072a8648ce3d020106082a8648ce3d030107032200037d341eca0aadd35f036f8ad7d3441b7f7536fb96707dda19a002ec5e13743990",
        ),
    ];
    for (point, info) in rows {
        let octets = hex::decode(alloc, point)?;
        same_in(
            &rt,
            &point,
            p256_of(alloc, octets.as_slice()),
            wanted(alloc, info),
        );
    }
    Ok(())
}

#[test]
fn points_of_another_form_are_refused(rt: HostRuntime) -> Result<(), Fail> {
    let alloc = rt.alloc();
    same_in(
        &rt,
        &"05 first",
        p256_of(alloc, [5; 33].as_slice()),
        Err(13),
    );
    same_in(
        &rt,
        &"04 of 33 octets",
        p256_of(alloc, [4; 33].as_slice()),
        Err(13),
    );
    same_in(
        &rt,
        &"03 of 65 octets",
        p256_of(alloc, [3; 65].as_slice()),
        Err(13),
    );
    same_in(&rt, &"no octets", p256_of(alloc, &[]), Err(13));
    Ok(())
}

// Returns the RSA key with this modulus and exponent.
fn rsa_of(alloc: Global, modulus: &[u8], exponent: &[u8]) -> Result<Vec<u8>, u8> {
    match rsa_public_key(alloc, modulus, exponent) {
        Ok(octets) => match rsa_key(octets.as_slice()) {
            Ok(info) => numbered(info.to_der(alloc)),
            Err(e) => Err(e.kind().number()),
        },
        Err(e) => Err(e.kind().number()),
    }
}

#[test]
fn keys_of_rsa_are_built(rt: HostRuntime) -> Result<(), Fail> {
    let alloc = rt.alloc();
    let modulus =
        "cadb69b10fdcddc779da7e9566aea82dee6a5339d23f04accdd7c06e43920b301b3e9951342fec5feaa86e83ab4704d55a304ebb68c7ededb1e8663da7165d41";
    let octets = hex::decode(alloc, modulus)?;
    let found = rsa_of(alloc, octets.as_slice(), &[0x01, 0x00, 0x01]);
    let info =
        "305c300d06092a864886f70d0101010500034b003048024100cadb69b10fdcddc779da7e9566aea82dee6a5339d23f04accdd7c06e43920b301b3e9951342fec5feaa86e83ab4704d55a304ebb68c7ededb1e8663da7165d410203010001";
    same_in(&rt, &modulus, found, wanted(alloc, info));
    same_in(&rt, &"no octets", rsa_of(alloc, &[], &[3]), Err(7));
    Ok(())
}
