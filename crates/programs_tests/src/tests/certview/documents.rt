//! Documents of JSON, some fields alone, and what is shown of a message that is refused.

use crate::tests::certview::messages::{ED25519, ED25519_PUBLIC};
use crate::tests::certview::{assert_contains, written_so};
use certview_text::{Asked, Fault, FieldName, Form, Outcome, View, show, show_refused};
use der_asn1_types::DateTime;
use std::test::Fail;

/// The public key of `ED25519_PUBLIC` in a document.
const DOCUMENT: &str = "\
,
{\"name\": \"a\\\"b\", \"messages\": [
{\"kind\": \"public key\", \"offset\": 0, \"length\": 44, \"fields\": [
{\"offset\": 2, \"length\": 7, \"name\": \"key algorithm\", \"value\": \"1.3.101.112 (Ed25519)\"},
{\"offset\": 9, \"length\": 35, \"name\": \"key\", \"value\": \"256 bits, 0ad39c57e09d55dafcae95a378bbc40d1ab0183d925df4fd4cf9b127f9d3f761\"}
]}
]}";

#[test]
fn writes_a_document(rt: HostRuntime) -> Result<(), Fail> {
    let octets = hex::decode(rt.alloc(), ED25519_PUBLIC)?;
    let view = View {
        name: Some("a\"b"),
        form: Form::Json(false),
        ..View::plain()
    };
    let (result, written) = written_so(rt.alloc(), &view, octets.as_slice());
    assert_eq!(rt; result, Ok(Outcome::Whole));
    assert_eq!(rt; str::from_utf8(written.as_slice())?, DOCUMENT);
    Ok(())
}

#[test]
fn shows_some_fields_and_a_moment(rt: HostRuntime) -> Result<(), Fail> {
    let octets = hex::decode(rt.alloc(), ED25519)?;
    let fields = [FieldName::NotAfter, FieldName::At];
    let view = View {
        fields: Some(fields.as_slice()),
        asked: Asked {
            has_rules: true,
            has_fingerprint: false,
            moment: Some("2081-08-26T04:38:19Z".parse::<DateTime>()?),
        },
        ..View::plain()
    };
    let (result, written) = written_so(rt.alloc(), &view, octets.as_slice());
    assert_eq!(rt; result, Ok(Outcome::Found));
    let shown =
        "   75    17  not after: 2081-08-26 04:38:18 UTC\n   58    34  at: 2081-08-26 04:38:19 UTC, no longer valid\n";
    assert_eq!(rt; str::from_utf8(written.as_slice())?, shown);
    Ok(())
}

#[test]
fn shows_what_can_be_read(rt: HostRuntime) -> Result<(), Fail> {
    let mut octets = hex::decode(rt.alloc(), ED25519)?;
    assert!(rt; octets.len() > 64);
    octets[64] = b'9';
    let mut written = Vec::new(rt.alloc());
    let view = View::plain();
    let result = show(rt.alloc(), &view, octets.as_slice(), &mut written);
    assert!(rt; written.is_empty());
    let fault = match result {
        Err(fault) => fault,
        Ok(_) => Fault::Empty,
    };
    let refused = show_refused(rt.alloc(), &view, &fault, octets.as_slice(), &mut written);
    assert_eq!(rt; refused, Ok(Outcome::Partial));
    let text = str::from_utf8(written.as_slice())?;
    assert!(rt; text.starts_with("refused (13): "));
    for line in [
        ", in tbsCertificate.validity.notBefore\n    0   315  certificate\n    7     5  version: 3\n",
        "\n   60    15  not before: malformed (13: ",
        "\n   75    17  not after: 2081-08-26 04:38:18 UTC\n",
    ] {
        assert_contains(&rt, text, line);
    }
    Ok(())
}
