//! Names, identifiers and numbers as they are shown: an encoding within a certificate is another one.

use crate::tests::certview::assert_contains;
use crate::tests::certview::messages::AUTHORITY;
use certview_text::{Kind, shown};
use std::alloc::Global;
use std::test::Fail;

/// Returns the text of the certificate `AUTHORITY` with some octets replaced: each `(place,
/// octets)`.
fn with(alloc: Global, changes: &[(usize, &[u8])]) -> Result<String, Fail> {
    let mut octets = hex::decode(alloc, AUTHORITY)?;
    for (place, others) in changes {
        let mut index = *place;
        for octet in *others {
            if index < octets.len() {
                octets[index] = *octet;
            }
            index = index.wrapping_add(1);
        }
    }
    Ok(shown(alloc, Kind::Certificate, octets.as_slice())?)
}

/// The offset of the last value of the issuer's name, "Authority", with its header.
const VALUE: usize = 65;

#[test]
fn shows_characters_that_are_safe(rt: HostRuntime) -> Result<(), Fail> {
    let rows: [(&[u8], &str); 9] = [
        (b"a\xe2\x80\xaebcdef", "CN=a\\e2\\80\\aebcdef\n"),
        (b"a\xe2\x80\xa8bcdef", "CN=a\\e2\\80\\a8bcdef\n"),
        (b"a\xe2\x81\xa6bcdef", "CN=a\\e2\\81\\a6bcdef\n"),
        (b"a\xee\x80\x80bcdef", "CN=a\\ee\\80\\80bcdef\n"),
        (b"a\xf3\xa0\x81\x81bcde", "CN=a\\f3\\a0\\81\\81bcde\n"),
        (b"a\x1b[31m\x00bc", "CN=a\\1b[31m\\00bc\n"),
        (b"ab,c+d\"e\\", "CN=ab\\,c\\+d\\\"e\\\\\n"),
        (b"#Barley  ", "CN=\\#Barley \\ \n"),
        (b" \xc3\xa9t\xc3\xa9;x\n", "CN=\\ été\\;x\\0a\n"),
    ];
    for (value, line) in rows {
        let text = with(rt.alloc(), &[(VALUE + 2, value)])?;
        assert_contains(&rt, text.as_str(), line);
    }
    Ok(())
}

#[test]
fn shows_strings_of_each_type(rt: HostRuntime) -> Result<(), Fail> {
    let rows: [(u8, &[u8], &str); 4] = [
        (0x14, b"Authority", "CN=Authority\n"),
        (0x14, b"Authorit\xe9", "CN=#1409417574686f726974e9\n"),
        (
            0x1e,
            b"\x00A\x00b\x20\xac\x00c\x00",
            "CN=#1e090041006220ac006300\n",
        ),
        (0x04, b"Authority", "CN=#0409417574686f72697479\n"),
    ];
    for (tag, value, line) in rows {
        let text = with(rt.alloc(), &[(VALUE, &[tag]), (VALUE + 2, value)])?;
        assert_contains(&rt, text.as_str(), line);
    }
    Ok(())
}

#[test]
fn shows_characters_of_sixteen_bits(rt: HostRuntime) -> Result<(), Fail> {
    let attribute = b"\x06\x04\x2a\x03\x04\x05\x1e\x08\x00A\x00b\x20\xac\x00c";
    let text = with(rt.alloc(), &[(VALUE - 5, attribute)])?;
    assert_contains(&rt, text.as_str(), "1.2.3.4.5=Ab€c\n");
    Ok(())
}

#[test]
fn shows_no_name_of_what_is_no_identifier(rt: HostRuntime) -> Result<(), Fail> {
    let rows: [(&[u8], &str); 4] = [
        (&[0x55, 0x04, 0x0c], "title=Authority\n"),
        (&[0x55, 0x80, 0x03], "#558003=Authority\n"),
        (&[0x80, 0x55, 0x03], "#805503=Authority\n"),
        (&[0x55, 0x04, 0x83], "#550483=Authority\n"),
    ];
    for (identifier, line) in rows {
        let text = with(rt.alloc(), &[(VALUE - 3, identifier)])?;
        assert_contains(&rt, text.as_str(), line);
    }
    Ok(())
}

#[test]
fn shows_serial_numbers(rt: HostRuntime) -> Result<(), Fail> {
    let rows: [(&[u8], &str); 5] = [
        (&[0x00, 0x97], "serial number: 97\n"),
        (&[0x12, 0x34], "serial number: 12:34\n"),
        (&[0xfb, 0x00], "serial number: -05:00\n"),
        (&[0xff, 0x7f], "serial number: -81\n"),
        (&[0x80, 0x00], "serial number: -80:00\n"),
    ];
    for (number, line) in rows {
        let text = with(rt.alloc(), &[(SERIAL, number)])?;
        assert_contains(&rt, text.as_str(), line);
    }
    Ok(())
}

/// The offset of the serial number's octets.
const SERIAL: usize = 15;
