//! A message of each kind: what is shown, and that each of its cuts is refused.

use crate::tests::certview::messages::{
    AUTHORITY, CURVE_IMPLICIT, CURVE_PRIVATE, CURVE_PUBLIC, CURVE_WRAPPED, CURVE_WRITTEN_OUT,
    ED25519, ED25519_PAIR, ED25519_PUBLIC, ED25519_WRAPPED, EXTENSIONS, LIST, NAMES, RSA_MODULUS,
    RSA_PRIVATE, RSA_PUBLIC, RSA_THREE_PRIMES, RSA_WRAPPED,
};
use crate::tests::certview::{assert_contains, number_of};
use certview_text::{Kind, kind_of, shown};
use std::test::Fail;

#[test]
fn shows_each_kind(rt: HostRuntime) -> Result<(), Fail> {
    let rows = [
        (
            LIST,
            "   65    34  revoked: 01, 2026-11-23 13:43:58 UTC, extension 2.5.29.21 (cRLReasons), 3 octets, keyCompromise\n",
        ),
        (LIST, "   99    20  revoked: 02, 2026-11-23 13:43:58 UTC\n"),
        (LIST, "   48    15  next update: 2026-12-23 13:43:58 UTC\n"),
        (
            LIST,
            "  156    12  extension: 2.5.29.20 (cRLNumber), 3 octets, 7\n",
        ),
        (
            RSA_PUBLIC,
            "key algorithm: 1.2.840.113549.1.1.1 (rsaEncryption)\n",
        ),
        (
            RSA_PUBLIC,
            "key: 512 bits, exponent 65537, modulus c6960076d95b7a3208080443f0a39dc6",
        ),
        (
            CURVE_PUBLIC,
            "(id-ecPublicKey), 1.2.840.10045.3.1.7 (secp256r1)\n",
        ),
        (
            CURVE_PUBLIC,
            "   23    68  key: 256 bits, 045223fdd1d382ff99420fb695ac19bc",
        ),
        (
            ED25519_PUBLIC,
            "    9    35  key: 256 bits, 0ad39c57e09d55dafcae95a378bbc40d",
        ),
        (
            RSA_WRAPPED,
            "   22   324  privateKey: 320 octets, not shown\n",
        ),
        (
            CURVE_WRAPPED,
            "key algorithm: 1.2.840.10045.2.1 (id-ecPublicKey)",
        ),
        (
            ED25519_WRAPPED,
            "   12    36  privateKey: 34 octets, not shown\n",
        ),
        (RSA_PRIVATE, "modulus: 512 bits, c6960076d95b7a32"),
        (RSA_PRIVATE, "public exponent: 65537\n"),
        (RSA_PRIVATE, "prime1: 33 octets, not shown\n"),
        (RSA_MODULUS, "modulus: 512 bits, c6960076d95b7a32"),
        (
            CURVE_PRIVATE,
            "    5    34  privateKey: 32 octets, not shown\n",
        ),
        (CURVE_PRIVATE, "curve: 1.2.840.10045.3.1.7 (secp256r1)\n"),
        (
            CURVE_PRIVATE,
            "public key: 65 octets, 045223fdd1d382ff99420fb695ac19bc",
        ),
    ];
    for (message, line) in rows {
        let octets = hex::decode(rt.alloc(), message)?;
        let text = shown(rt.alloc(), kind_of(octets.as_slice()), octets.as_slice())?;
        assert_contains(&rt, text.as_str(), line);
    }
    Ok(())
}

#[test]
fn shows_what_a_private_key_may_have(rt: HostRuntime) -> Result<(), Fail> {
    let rows = [
        (
            ED25519_PAIR,
            "   50    31  attribute: 1.2.840.113549.1.9.9.20, Curdle Chairs\n",
        ),
        (
            ED25519_PAIR,
            "   81    35  public key: 32 octets, 19bf44096984cdfe8541bac167dc3b96",
        ),
        (
            RSA_THREE_PRIMES,
            "  455    45  coefficient: 43 octets, not shown\n  500   140  other primes: 1\n",
        ),
        (
            CURVE_WRITTEN_OUT,
            "   41   253  curve: parameters of its own\n  294    70  public key: 65 octets, 0418ddb065379264",
        ),
        (CURVE_IMPLICIT, "   39     4  curve: implicit\n"),
    ];
    for (message, line) in rows {
        let octets = hex::decode(rt.alloc(), message)?;
        let text = shown(rt.alloc(), kind_of(octets.as_slice()), octets.as_slice())?;
        assert_contains(&rt, text.as_str(), line);
    }
    Ok(())
}

#[test]
fn tells_a_curve_by_an_identifier_alone(rt: HostRuntime) -> Result<(), Fail> {
    let mut octets = hex::decode(rt.alloc(), CURVE_PUBLIC)?;
    assert!(rt; octets.len() > 13);
    octets[13] = 0x04;
    let text = shown(rt.alloc(), Kind::PublicKey, octets.as_slice())?;
    assert_contains(&rt, text.as_str(), "parameters #04082a8648ce3d030107\n");
    assert_contains(&rt, text.as_str(), "key: point 045223fdd1d382ff99");
    Ok(())
}

#[test]
fn tells_the_kinds(rt: HostRuntime) -> Result<(), Fail> {
    let rows = [
        (ED25519, Kind::Certificate),
        (LIST, Kind::RevocationList),
        (ED25519_PUBLIC, Kind::PublicKey),
        (ED25519_WRAPPED, Kind::PrivateKey),
        (RSA_PRIVATE, Kind::RsaPrivateKey),
        (RSA_MODULUS, Kind::RsaPublicKey),
        (CURVE_PRIVATE, Kind::EcPrivateKey),
    ];
    for (message, kind) in rows {
        let octets = hex::decode(rt.alloc(), message)?;
        assert_eq!(rt; kind_of(octets.as_slice()), kind);
    }
    Ok(())
}

#[test]
fn shows_each_extension(rt: HostRuntime) -> Result<(), Fail> {
    let octets = hex::decode(rt.alloc(), EXTENSIONS)?;
    let text = shown(rt.alloc(), Kind::Certificate, octets.as_slice())?;
    for line in [
        "(basicConstraints), critical, 2 octets, no CA\n",
        "(keyUsage), critical, 4 octets, digitalSignature, keyEncipherment\n",
        "(extKeyUsage), 22 octets, 1.3.6.1.5.5.7.3.1 (serverAuth), 1.3.6.1.5.5.7.3.2 (clientAuth)\n",
        ", host mill.example, mail miller@mill.example, resource https://mill.example/, ",
        ", address 192.0.2.7, address 2001:db8::7\n",
        "22 octets, c8:20:a3:2b:b1:1d:97:2a:7c:ce:b7:82:8d:0c:52:50:fe:49:6d:ae\n",
        "24 octets, 43:53:0f:b6:38:35:16:df:38:d5:c8:ec:c7:94:d3:c5:15:fc:f4:fd\n",
        "  506    18  extension: 2.5.29.32 (certificatePolicies), 9 octets, 1.2.3.4\n",
        "(cRLDistributionPoints), 34 octets, resource http://mill.example/list\n",
        "(authorityInfoAccess), 40 octets, 1.3.6.1.5.5.7.48.1 (ocsp) resource http://mill.example/ocsp\n",
        "(nameConstraints), 20 octets, permitted host mill.example\n",
    ] {
        assert_contains(&rt, text.as_str(), line);
    }
    Ok(())
}

#[test]
fn shows_names_of_each_kind(rt: HostRuntime) -> Result<(), Fail> {
    let octets = hex::decode(rt.alloc(), NAMES)?;
    let text = shown(rt.alloc(), Kind::Certificate, octets.as_slice())?;
    for line in [
        "(subjectAltName), 112 octets, host barley.example, directory C=SE, O=Barley, CN=Grain, ",
        ", other 1.3.6.1.4.1.311.20.2.3 (msUPN) miller@barley.example, ",
        ", identifier 1.2.3.4\n",
    ] {
        assert_contains(&rt, text.as_str(), line);
    }
    Ok(())
}

#[test]
fn shows_the_names_of_an_authority(rt: HostRuntime) -> Result<(), Fail> {
    let octets = hex::decode(rt.alloc(), AUTHORITY)?;
    let text = shown(rt.alloc(), Kind::Certificate, octets.as_slice())?;
    let line =
        "(authorityKeyIdentifier), 62 octets, issuer directory C=SE, O=Barley, CN=Authority, serial number 12:34\n";
    assert_contains(&rt, text.as_str(), line);
    Ok(())
}

#[test]
fn refuses_each_cut(rt: HostRuntime) -> Result<(), Fail> {
    let messages = [
        ED25519,
        EXTENSIONS,
        LIST,
        RSA_PUBLIC,
        CURVE_PUBLIC,
        ED25519_PUBLIC,
        RSA_WRAPPED,
        CURVE_WRAPPED,
        ED25519_WRAPPED,
        RSA_PRIVATE,
        RSA_MODULUS,
        CURVE_PRIVATE,
    ];
    for message in messages {
        let octets = hex::decode(rt.alloc(), message)?;
        for count in 1..octets.len() {
            let number = number_of(rt.alloc(), &octets[..count]);
            assert_eq!(rt; number, Some(2), "of {count} octets");
        }
    }
    Ok(())
}
