//! A certificate with OpenSSL's trust settings behind it.

use crate::tests::certview::blocks::block;
use crate::tests::certview::messages::ED25519;
use crate::tests::certview::{assert_contains, written, written_so};
use certview_text::{Asked, Fault, Outcome, View};
use std::test::Fail;

/// The uses for which the certificate is trusted, those for which it is not, its name, an
/// identifier and another setting.
const SETTINGS: &str =
    "3026300a06082b06010505070301a00a06082b060105050703040c046d696c6c0402c0dea1020500";

/// The lines of the settings.
const LINES: &str =
    "  315    40  trust settings: 40 octets\n  319    10  trusted use: 1.3.6.1.5.5.7.3.1 (serverAuth)\n  331    10  rejected use: 1.3.6.1.5.5.7.3.4 (emailProtection)\n  341     6  alias: mill\n  347     4  key identifier: c0de\n  351     4  other setting: #a1020500\n";

#[test]
fn shows_the_settings_behind_a_certificate(rt: HostRuntime) -> Result<(), Fail> {
    let octets = hex::decode(rt.alloc(), ED25519)?;
    let (_result, alone) = written(rt.alloc(), octets.as_slice());
    let wanted = format!(in rt.alloc(); "{}{LINES}", str::from_utf8(alone.as_slice())?)?;
    let both = format!(in rt.alloc(); "{ED25519}{SETTINGS}")?;
    let text = block(rt.alloc(), "TRUSTED CERTIFICATE", both.as_str())?;
    let (result, shown) = written(rt.alloc(), text.as_bytes());
    assert_eq!(rt; result, Ok(Outcome::Whole));
    assert_eq!(rt; str::from_utf8(shown.as_slice())?, wanted.as_str());
    Ok(())
}

/// Without settings it is shown like any certificate. Its fingerprint is that of the certificate
/// alone.
#[test]
fn shows_a_certificate_alone(rt: HostRuntime) -> Result<(), Fail> {
    let view = View {
        asked: Asked {
            has_fingerprint: true,
            ..Asked::nothing()
        },
        ..View::plain()
    };
    let octets = hex::decode(rt.alloc(), ED25519)?;
    let (_result, alone) = written_so(rt.alloc(), &view, octets.as_slice());
    let text = block(rt.alloc(), "TRUSTED CERTIFICATE", ED25519)?;
    let (result, shown) = written_so(rt.alloc(), &view, text.as_bytes());
    assert_eq!(rt; result, Ok(Outcome::Whole));
    assert!(rt; shown.as_slice() == alone.as_slice());
    let both = format!(in rt.alloc(); "{ED25519}{SETTINGS}")?;
    let text = block(rt.alloc(), "TRUSTED CERTIFICATE", both.as_str())?;
    let (_result, shown) = written_so(rt.alloc(), &view, text.as_bytes());
    assert!(rt; shown.as_slice().starts_with(alone.as_slice()));
    Ok(())
}

/// The octets after a certificate are settings only with that label.
#[test]
fn refuses_settings_with_another_label(rt: HostRuntime) -> Result<(), Fail> {
    let both = format!(in rt.alloc(); "{ED25519}{SETTINGS}")?;
    let text = block(rt.alloc(), "CERTIFICATE", both.as_str())?;
    let (result, shown) = written(rt.alloc(), text.as_bytes());
    assert!(rt; matches!(&result, Err(Fault::Refused(error, _)) if error.kind().number() == 3));
    assert!(rt; shown.is_empty());
    Ok(())
}

#[test]
fn tells_of_settings_that_are_none(rt: HostRuntime) -> Result<(), Fail> {
    for (settings, words) in [
        ("30", "trust settings: malformed (2: "),
        ("3100", "trust settings: malformed (4: "),
        ("300000", "trust settings: malformed (3: "),
        ("30040c046d69", "trust settings: malformed (2: "),
        ("300430020602", "trusted use: malformed (2: "),
    ] {
        let both = format!(in rt.alloc(); "{ED25519}{settings}")?;
        let text = block(rt.alloc(), "TRUSTED CERTIFICATE", both.as_str())?;
        let (result, shown) = written(rt.alloc(), text.as_bytes());
        assert_eq!(rt; result, Ok(Outcome::Partial));
        assert_contains(&rt, str::from_utf8(shown.as_slice())?, words);
    }
    Ok(())
}
