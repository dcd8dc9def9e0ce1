//! Parameters of algorithms: octets that were put together field by field, so that every two fields differ, and their whole text.

use crate::tests::certview::whole_texts::{
    Message, assert_cut_is_refused, assert_label, assert_text,
};
use certview_text::Kind;
use std::test::Fail;

/// The name of a curve.
const CURVE_NAME: Message = Message {
    kind: Kind::EcParameters,
    octets: "06052b81040022",
    text: "    0     7  parameters of an elliptic curve\n    0     7  curve: 1.3.132.0.34 (secp384r1)\n",
};

/// A curve that is written out.
const CURVE_DOMAIN: Message = Message {
    kind: Kind::EcParameters,
    octets: "3049020103300d06072a8648ce3d010102020101300d04010a04020b0b0304000c0c0c040304aabb02110400000000000000000000000000000005020104300b0609608648016503040201",
    text: "    0    75  parameters of an elliptic curve\n    2     3  version: 3\n    7     9  field: 1.2.840.10045.1.1 (prime-field)\n   16     4  parameters of the field: 257\n   22     3  a: 1 octets, 0a\n   25     4  b: 2 octets, 0b0b\n   29     6  seed: 3 octets, 0c0c0c\n   35     5  base: 3 octets, 04aabb\n   40    19  order: 131 bits, 0400000000000000000000000000000005\n   59     3  cofactor: 4\n   62    13  hash algorithm: 2.16.840.1.101.3.4.2.1 (sha256)\n",
};

/// DSA parameters.
const DSA: Message = Message {
    kind: Kind::DsaParameters,
    octets: "301b0212010000000000000000000000000000000001020203f1020103",
    text: "    0    29  parameters of DSA\n    2    20  p: 137 bits, 010000000000000000000000000000000001\n   22     4  q: 1009\n   26     3  g: 3\n",
};

/// Diffie-Hellman parameters.
const DH: Message = Message {
    kind: Kind::DhParameters,
    octets: "301c021301000000000000000000000000000000000007020105020200a0",
    text: "    0    30  parameters of Diffie-Hellman\n    2    21  prime: 145 bits, 01000000000000000000000000000000000007\n   23     3  base: 5\n   26     4  length of a private value: 160\n",
};

/// Diffie-Hellman parameters with all fields.
const X942: Message = Message {
    kind: Kind::X942Parameters,
    octets: "301a02030f42430201060203028b0b02010230080303005eed020129",
    text: "    0    28  parameters of Diffie-Hellman (X9.42)\n    2     5  p: 1000003\n    7     3  g: 6\n   10     5  q: 166667\n   15     3  j: 2\n   20     5  seed: 2 octets, 5eed\n   25     3  pgenCounter: 41\n",
};

#[test]
fn shows_the_whole_text(rt: HostRuntime) -> Result<(), Fail> {
    for message in [CURVE_NAME, CURVE_DOMAIN, DSA, DH, X942] {
        assert_text(&rt, rt.alloc(), &message)?;
    }
    Ok(())
}

#[test]
fn refuses_each_cut(rt: HostRuntime) -> Result<(), Fail> {
    for message in [CURVE_NAME, CURVE_DOMAIN, DSA, DH, X942] {
        assert_cut_is_refused(&rt, rt.alloc(), &message)?;
    }
    Ok(())
}

#[test]
fn knows_the_labels(rt: HostRuntime) -> Result<(), Fail> {
    for (message, label) in [
        (CURVE_NAME, "EC PARAMETERS"),
        (CURVE_DOMAIN, "EC PARAMETERS"),
        (DSA, "DSA PARAMETERS"),
        (DH, "DH PARAMETERS"),
        (X942, "X9.42 DH PARAMETERS"),
    ] {
        assert_label(&rt, rt.alloc(), &message, label)?;
    }
    Ok(())
}
