//! Strings of each type, through the traits' bounds.

use crate::tests::types::reads_back_in_order;
use crate::tests::{holds, numbered, same, same_in};
use der_ascii::{
    Ia5String, Ia5StringRef, PrintableString, PrintableStringRef, TeletexString, TeletexStringRef,
    VideotexStringRef,
};
use der_elem::{DerOrd, TakesMemory, ValueOrd};
use der_opaque::{Any, AnyRef, OctetStringRef};
use der_tlv::Tag;
use std::cmp::Ordering;
use std::test::Fail;

// Returns `Test User 1` after a tag.
fn test_user(tag: u8) -> [u8; 13] {
    [
        tag, 0x0b, 0x54, 0x65, 0x73, 0x74, 0x20, 0x55, 0x73, 0x65, 0x72, 0x20, 0x31,
    ]
}

#[test]
fn reads_strings(rt: HostRuntime) -> Result<(), Fail> {
    let alloc = rt.alloc();
    let address = [
        0x16, 0x0d, 0x74, 0x65, 0x73, 0x74, 0x31, 0x40, 0x72, 0x73, 0x61, 0x2e, 0x63, 0x6f, 0x6d,
    ];
    reads_back_in_order::<Ia5StringRef>(&rt, alloc, &address)?;
    reads_back_in_order::<Ia5String>(&rt, alloc, &address)?;
    reads_back_in_order::<PrintableStringRef>(&rt, alloc, &test_user(0x13))?;
    reads_back_in_order::<PrintableString>(&rt, alloc, &test_user(0x13))?;
    reads_back_in_order::<TeletexStringRef>(&rt, alloc, &test_user(0x14))?;
    reads_back_in_order::<TeletexString>(&rt, alloc, &test_user(0x14))?;
    reads_back_in_order::<VideotexStringRef>(&rt, alloc, &test_user(0x15))?;
    holds(&rt, !PrintableStringRef::TAKES_MEMORY);
    holds(&rt, PrintableString::TAKES_MEMORY);
    Ok(())
}

#[test]
fn octets_that_are_no_characters_are_refused(rt: HostRuntime) {
    let alloc = rt.alloc();
    holds(
        &rt,
        matches!(TeletexStringRef::new(&[0x80]), Err(e) if e.kind().number() == 13),
    );
    same(
        &rt,
        numbered(TeletexString::new(alloc, &[0xff])).err(),
        Some(13),
    );
}

#[test]
fn takes_the_printable_characters(rt: HostRuntime) {
    let others = b" '()+,-./:=?";
    let mut count = 0;
    for octet in 0..=255u8 {
        let expected = octet.is_ascii_alphanumeric() || others.contains(&octet);
        let taken = PrintableStringRef::new(&[octet]).is_ok();
        same_in(&rt, &octet, taken, expected);
        let ascii = VideotexStringRef::new(&[octet]).is_ok();
        same_in(&rt, &octet, ascii, octet < 0x80);
        if taken && count < 255u8 {
            count += 1;
        }
    }
    same(&rt, count, 74);
}

#[test]
fn converts(rt: HostRuntime) -> Result<(), Fail> {
    let alloc = rt.alloc();
    let Ok(hi) = PrintableStringRef::new(b"hi") else {
        return Err(Fail::from("refused"));
    };
    same(&rt, hi.as_str(), "hi");
    same(&rt, hi.as_bytes(), b"hi".as_slice());
    same(&rt, (hi.len().value(), hi.is_empty()), (2, false));
    same(&rt, <&[u8]>::from(hi), b"hi".as_slice());
    let owned = hi.ref_to_owned(alloc)?;
    same(
        &rt,
        (owned.as_str(), owned.as_bytes()),
        ("hi", b"hi".as_slice()),
    );
    same(&rt, (owned.len().value(), owned.is_empty()), (2, false));
    holds(&rt, owned.owned_to_ref() == hi);
    holds(
        &rt,
        PrintableStringRef::from(&owned) == PrintableStringRef::from(&hi),
    );
    holds(&rt, owned.clone()? == owned);
    let text = format!(in alloc; "{hi} {owned} {hi:?} {owned:?}")?;
    same(
        &rt,
        text.as_str(),
        "hi hi PrintableString(\"hi\") PrintableString(\"hi\")",
    );
    let any = AnyRef::from(hi);
    holds(&rt, any == AnyRef::from(&owned));
    let Ok(again) = PrintableStringRef::try_from(any) else {
        return Err(Fail::from("refused"));
    };
    holds(&rt, again == hi);
    let kept = Any::from_ref(alloc, any)?;
    holds(&rt, PrintableStringRef::try_from(&kept).is_ok());
    holds(
        &rt,
        matches!(Ia5StringRef::try_from(any), Err(e) if e.kind().number() == 4),
    );
    let Ok(star) = AnyRef::new(Tag::PrintableString, b"*") else {
        return Err(Fail::from("refused"));
    };
    holds(
        &rt,
        matches!(PrintableStringRef::try_from(star), Err(e) if e.kind().number() == 13),
    );
    let from_text = PrintableString::try_from(String::from_str(alloc, "hi")?);
    holds(&rt, numbered(from_text).is_ok());
    let refused = PrintableString::try_from(String::from_str(alloc, "a*b")?);
    same(&rt, numbered(refused).err(), Some(13));
    Ok(())
}

#[test]
fn orders_by_contents(rt: HostRuntime) -> Result<(), Fail> {
    let alloc = rt.alloc();
    let (short, long) = (Ia5String::new(alloc, b"b")?, Ia5String::new(alloc, b"aa")?);
    holds(&rt, long < short);
    same(&rt, numbered(long.value_cmp(&short)), Ok(Ordering::Less));
    same(&rt, numbered(long.der_cmp(&short)), Ok(Ordering::Greater));
    Ok(())
}

#[test]
fn reads_octet_strings_of_strings(rt: HostRuntime) -> Result<(), Fail> {
    let Ok(octets) = OctetStringRef::new(&[0x13, 0x02, 0x68, 0x69]) else {
        return Err(Fail::from("refused"));
    };
    let Ok(hi) = octets.decode_into::<PrintableStringRef>(rt.alloc()) else {
        return Err(Fail::from("refused"));
    };
    same(&rt, hi.as_str(), "hi");
    Ok(())
}
