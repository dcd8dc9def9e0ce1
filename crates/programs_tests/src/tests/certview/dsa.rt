//! A private key of DSA: octets that were put together field by field, so that every two fields differ, and its whole text.

use crate::tests::certview::messages::RSA_PRIVATE;
use crate::tests::certview::whole_texts::{
    Message, assert_cut_is_refused, assert_label, assert_text,
};
use crate::tests::certview::{assert_contains, written};
use certview_text::{Kind, kind_of};
use std::test::Fail;

/// A DSA private key.
const DSA_PRIVATE: Message = Message {
    kind: Kind::DsaPrivateKey,
    octets: "30270201000212010000000000000000000000000000000001020203f1020103020301e24002020141",
    text: "    0    41  private key of DSA\n    2     3  version: 0\n    5    20  p: 137 bits, 010000000000000000000000000000000001\n   25     4  q: 1009\n   29     3  g: 3\n   32     5  public key: 123456\n   37     4  privateKey: 2 octets, not shown\n",
};

#[test]
fn shows_the_whole_text(rt: HostRuntime) -> Result<(), Fail> {
    assert_text(&rt, rt.alloc(), &DSA_PRIVATE)
}

#[test]
fn refuses_each_cut(rt: HostRuntime) -> Result<(), Fail> {
    assert_cut_is_refused(&rt, rt.alloc(), &DSA_PRIVATE)
}

#[test]
fn knows_the_label(rt: HostRuntime) -> Result<(), Fail> {
    assert_label(&rt, rt.alloc(), &DSA_PRIVATE, "DSA PRIVATE KEY")
}

/// If all fields are INTEGERs, six of them are a DSA key; five or seven are an RSA key, which is
/// refused.
#[test]
fn tells_the_kind_by_how_many_numbers_there_are(rt: HostRuntime) -> Result<(), Fail> {
    let rows: [(&str, Kind); 8] = [
        ("3006020101020102", Kind::RsaPublicKey),
        ("3009020101020102020103", Kind::DsaParameters),
        ("300c020101020102020103020104", Kind::X942Parameters),
        ("300f020101020102020103020104020105", Kind::RsaPrivateKey),
        (
            "3012020101020102020103020104020105020106",
            Kind::DsaPrivateKey,
        ),
        (
            "3015020101020102020103020104020105020106020107",
            Kind::RsaPrivateKey,
        ),
        (
            "3014020101020102020103020104020105020106300030",
            Kind::DsaPrivateKey,
        ),
        (RSA_PRIVATE, Kind::RsaPrivateKey),
    ];
    for (digits, kind) in rows {
        let octets = hex::decode(rt.alloc(), digits)?;
        assert_eq!(rt; kind_of(octets.as_slice()), kind);
    }
    Ok(())
}

/// The error names a field that is no number.
#[test]
fn names_the_field_of_a_fault(rt: HostRuntime) -> Result<(), Fail> {
    let mut octets = hex::decode(rt.alloc(), DSA_PRIVATE.octets)?;
    assert!(rt; octets.len() > 34);
    octets[34] = 0x81;
    let (result, written) = written(rt.alloc(), octets.as_slice());
    assert!(rt; written.is_empty());
    let text = match result {
        Ok(_) => String::new(rt.alloc()),
        Err(fault) => format!(in rt.alloc(); "{fault}")?,
    };
    assert_contains(&rt, text.as_str(), "refused (13): ");
    assert!(rt; text.ends_with(", in pub_key"), "{text}");
    Ok(())
}
