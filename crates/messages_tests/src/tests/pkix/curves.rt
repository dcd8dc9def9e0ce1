//! Keys of elliptic curves, and the curves.

use crate::tests::same;
use der_asn1_types::FromDer;
use der_pkix::key::{EcParameters, EcPrivateKey};
use std::alloc::Global;
use std::process::Abort;
use std::test::Fail;

// Returns whether the curve has a name, and the number of bits of the public key.
fn curve_key_told(alloc: Global, octets: &[u8]) -> Result<(Option<bool>, Option<usize>), u8> {
    match EcPrivateKey::from_der(alloc, octets) {
        Ok(key) => {
            let is_named = match key.parameters() {
                Some(EcParameters::NamedCurve(_)) => Some(true),
                Some(_) => Some(false),
                None => None,
            };
            let bits = match key.public_key() {
                Some(bits) => Some(bits.bit_len()),
                None => None,
            };
            Ok((is_named, bits))
        }
        Err(e) => Err(e.kind().number()),
    }
}

// Returns the version of a specified curve, the numbers of octets of the base and of the order,
// and whether a seed, a cofactor and a hash are present.
fn domain_told(alloc: Global, octets: &[u8]) -> Result<(u8, usize, usize, bool, bool, bool), u8> {
    match EcParameters::from_der(alloc, octets) {
        Ok(EcParameters::SpecifiedCurve(domain)) => Ok((
            domain.version(),
            domain.base().as_bytes().len(),
            domain.order().as_bytes().len(),
            domain.curve().seed().is_some(),
            domain.cofactor().is_some(),
            domain.hash().is_some(),
        )),
        Ok(_) => Err(0),
        Err(e) => Err(e.kind().number()),
    }
}

#[test]
fn keys_of_curves_have_parameters(rt: HostRuntime) -> Result<(), Fail> {
    let alloc = rt.alloc();
    let octets = hex::decode(
        alloc,
        "30770201010420112329850d4acc40bb1c4ae2f88b00fee362b1d65232165eff393565372a6239a00a06082a8648ce3d030107a14403420004336050c5ed2d949ebae59f13e67c7bf83ae11c221ecd5bec9d26de457b701f331a22d0d7babbf7db085ac65d318c2ca99d6e5cd0ce25e11b3a04f76aae07687a",
    )?;
    let found = curve_key_told(alloc, octets.as_slice());
    same(&rt, found, Ok((Some(true), Some(520))));
    let octets = hex::decode(
        alloc,
        "3081c6020101040e89a2a518777aee76ea8aff947caba0818e30818b020101301a06072a8648ce3d0101020f00db7c2abf62e35e668076bead208b3037040edb7c2abf62e35e668076bead2088040e659ef8ba043916eede8911702b2203150000f50b028e4d696e676875615175290472783fb1041d0409487239995a5ee76b55f9c2f098a89ce5af8724c0a23e0e0ff77500020f00db7c2abf62e35e7628dfac6561c5020101a120031e000436157379893016ad3c5a4dd9258f959a5e4fb0adde9e40bc8d673e83",
    )?;
    let found = curve_key_told(alloc, octets.as_slice());
    same(&rt, found, Ok((Some(false), Some(232))));
    let octets = hex::decode(alloc, "30050201010400")?;
    let found = curve_key_told(alloc, octets.as_slice());
    same(&rt, found, Ok((None, None)));
    Ok(())
}

#[test]
fn specified_curves_have_fields(rt: HostRuntime) -> Result<(), Fail> {
    let alloc = rt.alloc();
    let octets = hex::decode(
        alloc,
        "3081f7020101302c06072a8648ce3d0101022100ffffffff00000001000000000000000000000000ffffffffffffffffffffffff305b0420ffffffff00000001000000000000000000000000fffffffffffffffffffffffc04205ac635d8aa3a93e7b3ebbd55769886bc651d06b0cc53b0f63bce3c3e27d2604b031500c49d360886e704936a6678e1139d26b7819f7e900441046b17d1f2e12c4247f8bce6e563a440f277037d812deb33a0f4a13945d898c2964fe342e2fe1a7f9b8ee7eb4a7c0f9e162bce33576b315ececbb6406837bf51f5022100ffffffff00000000ffffffffffffffffbce6faada7179e84f3b9cac2fc632551020101",
    )?;
    let found = domain_told(alloc, octets.as_slice());
    same(&rt, found, Ok((1, 65, 33, true, true, false)));
    // with a hash, with no cofactor, and with no seed
    let octets = hex::decode(
        alloc,
        "30820102020101302c06072a8648ce3d0101022100ffffffff00000001000000000000000000000000ffffffffffffffffffffffff305b0420ffffffff00000001000000000000000000000000fffffffffffffffffffffffc04205ac635d8aa3a93e7b3ebbd55769886bc651d06b0cc53b0f63bce3c3e27d2604b031500c49d360886e704936a6678e1139d26b7819f7e900441046b17d1f2e12c4247f8bce6e563a440f277037d812deb33a0f4a13945d898c2964fe342e2fe1a7f9b8ee7eb4a7c0f9e162bce33576b315ececbb6406837bf51f5022100ffffffff00000000ffffffffffffffffbce6faada7179e84f3b9cac2fc632551020101300906052b0e03021a0500",
    )?;
    let found = domain_told(alloc, octets.as_slice());
    same(&rt, found, Ok((1, 65, 33, true, true, true)));
    let octets = hex::decode(
        alloc,
        "3081f4020101302c06072a8648ce3d0101022100ffffffff00000001000000000000000000000000ffffffffffffffffffffffff305b0420ffffffff00000001000000000000000000000000fffffffffffffffffffffffc04205ac635d8aa3a93e7b3ebbd55769886bc651d06b0cc53b0f63bce3c3e27d2604b031500c49d360886e704936a6678e1139d26b7819f7e900441046b17d1f2e12c4247f8bce6e563a440f277037d812deb33a0f4a13945d898c2964fe342e2fe1a7f9b8ee7eb4a7c0f9e162bce33576b315ececbb6406837bf51f5022100ffffffff00000000ffffffffffffffffbce6faada7179e84f3b9cac2fc632551",
    )?;
    let found = domain_told(alloc, octets.as_slice());
    same(&rt, found, Ok((1, 65, 33, true, false, false)));
    Ok(())
}
