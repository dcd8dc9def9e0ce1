//! How many characters the texts of a name have (RFC 5280 appendix A.1): for each bound the text that
//! just fits and the next one.

use crate::tests::same_in;
use der_asn1_types::FromDer;
use der_pkix::name::Name;
use der_verify::sizes_hold;
use std::alloc::{AllocError, Global};
use std::test::Fail;

/// Returns the encoding of a name of one attribute, with `count` octets in its string.
fn name_of(
    alloc: Global,
    type_: &[u8],
    tag: u8,
    octet: u8,
    count: usize,
) -> Result<Vec<u8>, AllocError> {
    let mut value = Vec::new(alloc);
    for _ in 0..count {
        value.push(octet)?;
    }
    let string = encoding(alloc, tag, value.as_slice())?;
    let mut pair = encoding(alloc, 0x06, type_)?;
    pair.extend_from_slice(string.as_slice())?;
    let attribute = encoding(alloc, 0x30, pair.as_slice())?;
    let part = encoding(alloc, 0x31, attribute.as_slice())?;
    encoding(alloc, 0x30, part.as_slice())
}

/// Returns a header, with the fewest length octets, and contents octets.
fn encoding(alloc: Global, tag: u8, contents: &[u8]) -> Result<Vec<u8>, AllocError> {
    let mut octets = Vec::new(alloc);
    octets.push(tag)?;
    let count = contents.len();
    if count > 255 {
        octets.extend_from_slice(&[0x82, (count / 256 % 256) as u8])?;
    } else if count > 127 {
        octets.push(0x81)?;
    }
    octets.push((count % 256) as u8)?;
    octets.extend_from_slice(contents)?;
    Ok(octets)
}

fn holds_of(alloc: Global, octets: &[u8]) -> Result<bool, u8> {
    match Name::from_der(alloc, octets) {
        Ok(name) => Ok(sizes_hold(alloc, &name)),
        Err(e) => Err(e.kind().number()),
    }
}

#[test]
fn texts_have_sizes(rt: HostRuntime) -> Result<(), Fail> {
    let alloc = rt.alloc();
    // the last arc of 2.5.4, the string, and how many octets: whether that holds
    let rows = [
        (3, 0x0c, 0, false),
        (3, 0x0c, 1, true),
        (3, 0x0c, 64, true),
        (3, 0x0c, 65, false),
        (5, 0x13, 64, true),
        (5, 0x13, 65, false),
        (6, 0x13, 1, false),
        (6, 0x13, 2, true),
        (6, 0x13, 3, false),
        (7, 0x0c, 128, true),
        (7, 0x0c, 129, false),
        (8, 0x13, 128, true),
        (8, 0x13, 129, false),
        (10, 0x0c, 64, true),
        (10, 0x14, 65, false),
        (11, 0x0c, 65, false),
        (12, 0x0c, 64, true),
        (12, 0x0c, 65, false),
        (41, 0x0c, 4000, true),
        (46, 0x13, 0, true),
        (65, 0x0c, 129, false),
        // two octets a character
        (3, 0x1e, 128, true),
        (3, 0x1e, 130, false),
        // no text of these strings: an OCTET STRING
        (3, 0x04, 200, true),
    ];
    for (arc, tag, count, wanted) in rows {
        let octets = name_of(alloc, &[0x55, 0x04, arc], tag, 0x41, count)?;
        let told = holds_of(alloc, octets.as_slice());
        same_in(&rt, &(arc, tag, count), told, Ok(wanted));
    }
    Ok(())
}

#[test]
fn characters_of_two_octets_count_once(rt: HostRuntime) -> Result<(), Fail> {
    let alloc = rt.alloc();
    let mut text = Vec::new(alloc);
    for _ in 0..64 {
        text.extend_from_slice("é".as_bytes())?;
    }
    let string = encoding(alloc, 0x0c, text.as_slice())?;
    let mut pair = encoding(alloc, 0x06, &[0x55, 0x04, 0x03])?;
    pair.extend_from_slice(string.as_slice())?;
    let attribute = encoding(alloc, 0x30, pair.as_slice())?;
    let part = encoding(alloc, 0x31, attribute.as_slice())?;
    let name = encoding(alloc, 0x30, part.as_slice())?;
    same_in(&rt, &"of 64", holds_of(alloc, name.as_slice()), Ok(true));
    Ok(())
}
