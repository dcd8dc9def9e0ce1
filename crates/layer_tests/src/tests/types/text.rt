//! Strings of each type, through the traits' bounds.

use crate::tests::types::reads_back;
use crate::tests::{holds, numbered, same};
use der_elem::{DerOrd, Encode, FromDer, Tagged, TakesMemory, ValueOrd};
use der_opaque::{Any, AnyRef, OctetStringRef};
use der_text::{BmpString, GeneralStringRef, Utf8StringRef};
use der_tlv::Tag;
use std::cmp::Ordering;
use std::test::Fail;

#[test]
fn reads_utf8(rt: HostRuntime) -> Result<(), Fail> {
    let hello = [0x0c, 0x06, 0x48, 0x65, 0x6c, 0x6c, 0xc3, 0xb3];
    reads_back::<Utf8StringRef>(&rt, rt.alloc(), &hello)?;
    holds(&rt, !Utf8StringRef::TAKES_MEMORY);
    Ok(())
}

#[test]
fn refuses_what_is_not_utf8(rt: HostRuntime) -> Result<(), Fail> {
    let Err(e) = Utf8StringRef::new(&[0x80]) else {
        return Err(Fail::from("taken"));
    };
    same(&rt, e.kind().number(), 12);
    Ok(())
}

#[test]
fn converts_utf8(rt: HostRuntime) -> Result<(), Fail> {
    let alloc = rt.alloc();
    let Ok(hello) = Utf8StringRef::try_from("Helló") else {
        return Err(Fail::from("refused"));
    };
    same(&rt, hello.as_str(), "Helló");
    same(
        &rt,
        hello.as_bytes(),
        [0x48, 0x65, 0x6c, 0x6c, 0xc3, 0xb3].as_slice(),
    );
    same(&rt, (hello.len().value(), hello.is_empty()), (6, false));
    let owned = hello.ref_to_owned(alloc)?;
    same(&rt, owned.as_str(), "Helló");
    let Ok(from_owned) = Utf8StringRef::try_from(&owned) else {
        return Err(Fail::from("refused"));
    };
    holds(&rt, from_owned == Utf8StringRef::from(&hello));
    let text = format!(in alloc; "{hello} {hello:?}")?;
    same(&rt, text.as_str(), "Helló Utf8String(\"Helló\")");
    let any = AnyRef::from(hello);
    holds(&rt, any.tag().equals(Tag::Utf8String));
    let Ok(again) = Utf8StringRef::try_from(any) else {
        return Err(Fail::from("refused"));
    };
    holds(&rt, again == hello);
    let kept = Any::from_ref(alloc, any)?;
    let Ok(kept) = Utf8StringRef::try_from(&kept) else {
        return Err(Fail::from("refused"));
    };
    holds(&rt, kept == hello);
    Ok(())
}

#[test]
fn converts_only_utf8_strings(rt: HostRuntime) -> Result<(), Fail> {
    let Ok(bad) = AnyRef::new(Tag::Utf8String, &[0xff]) else {
        return Err(Fail::from("refused"));
    };
    let Err(e) = Utf8StringRef::try_from(bad) else {
        return Err(Fail::from("taken"));
    };
    same(&rt, e.kind().number(), 12);
    let Ok(other) = AnyRef::new(Tag::Ia5String, b"hi") else {
        return Err(Fail::from("refused"));
    };
    let Err(e) = Utf8StringRef::try_from(other) else {
        return Err(Fail::from("taken"));
    };
    same(&rt, e.kind().number(), 4);
    Ok(())
}

#[test]
fn orders_utf8_by_contents(rt: HostRuntime) -> Result<(), Fail> {
    let (Ok(short), Ok(long)) = (Utf8StringRef::new(b"b"), Utf8StringRef::new(b"aa")) else {
        return Err(Fail::from("refused"));
    };
    holds(&rt, long < short);
    same(&rt, numbered(long.value_cmp(&short)), Ok(Ordering::Less));
    same(&rt, numbered(long.der_cmp(&short)), Ok(Ordering::Greater));
    Ok(())
}

#[test]
fn reads_octet_strings_of_utf8(rt: HostRuntime) -> Result<(), Fail> {
    let Ok(octets) = OctetStringRef::new(&[0x0c, 0x02, 0x68, 0x69]) else {
        return Err(Fail::from("refused"));
    };
    let Ok(hi) = octets.decode_into::<Utf8StringRef>(rt.alloc()) else {
        return Err(Fail::from("refused"));
    };
    same(&rt, hi.as_str(), "hi");
    Ok(())
}

#[test]
fn reads_general_strings(rt: HostRuntime) -> Result<(), Fail> {
    let alloc = rt.alloc();
    reads_back::<GeneralStringRef>(&rt, alloc, &[0x1b, 0x01, 0x80])?;
    let Ok(string) = GeneralStringRef::from_der(alloc, &[0x1b, 0x02, 0x0e, 0xff]) else {
        return Err(Fail::from("refused"));
    };
    same(&rt, string.as_bytes(), [0x0e, 0xff].as_slice());
    holds(&rt, !GeneralStringRef::TAKES_MEMORY);
    Ok(())
}

#[test]
fn reads_bmp(rt: HostRuntime) -> Result<(), Fail> {
    let octets = [0x1e, 0x04, 0xe0, 0x00, 0x00, 0x00];
    reads_back::<BmpString>(&rt, rt.alloc(), &octets)?;
    holds(&rt, BmpString::TAKES_MEMORY);
    Ok(())
}

#[test]
fn makes_bmp_of_texts(rt: HostRuntime) -> Result<(), Fail> {
    let alloc = rt.alloc();
    let template = numbered(BmpString::from_utf8(alloc, "CertificateTemplate"))?;
    let written = numbered(template.to_der(alloc))?;
    assert_eq!(rt; written.len(), 40);
    same(
        &rt,
        written[..6].to_vec(alloc)?.as_slice(),
        [0x1e, 0x26, 0x00, 0x43, 0x00, 0x65].as_slice(),
    );
    same(
        &rt,
        written[36..].to_vec(alloc)?.as_slice(),
        [0x00, 0x74, 0x00, 0x65].as_slice(),
    );
    let text = format!(in alloc; "{template} {template:?}")?;
    same(
        &rt,
        text.as_str(),
        "CertificateTemplate BmpString(\"CertificateTemplate\")",
    );
    let past = numbered(BmpString::from_utf8(alloc, "a\u{1f600}"));
    same(&rt, past.err(), Some(13));
    let mixed = numbered(BmpString::from_utf8(alloc, "é\u{ffff}"))?;
    same(&rt, mixed.as_bytes(), [0x00, 0xe9, 0xff, 0xff].as_slice());
    let text = format!(in alloc; "{mixed}")?;
    same(&rt, text.as_str(), "é\u{ffff}");
    Ok(())
}

#[test]
fn makes_bmp_of_octets(rt: HostRuntime) -> Result<(), Fail> {
    let alloc = rt.alloc();
    let hi = numbered(BmpString::from_ucs2([0x00, 0x68, 0x00, 0x69].to_vec(alloc)?))?;
    holds(&rt, hi == numbered(BmpString::from_utf8(alloc, "hi"))?);
    let mut codepoints = hi.codepoints();
    same(&rt, codepoints.len(), 2);
    same(&rt, codepoints.next(), Some(0x68));
    same(&rt, codepoints.len(), 1);
    same(&rt, codepoints.next(), Some(0x69));
    same(&rt, (codepoints.next(), codepoints.next()), (None, None));
    let mut chars = hi.chars();
    same(&rt, chars.len(), 2);
    same(&rt, chars.next(), Some('h'));
    same(
        &rt,
        (chars.next(), chars.next(), chars.len()),
        (Some('i'), None, 0),
    );
    holds(&rt, hi.clone()? == hi);
    holds(&rt, numbered(hi.clone_from_ref(alloc))? == hi);
    same(
        &rt,
        hi.into_bytes().as_slice(),
        [0x00, 0x68, 0x00, 0x69].as_slice(),
    );
    let odd = numbered(BmpString::from_ucs2([0xd8, 0x00, 0x00].to_vec(alloc)?));
    same(&rt, odd.err(), Some(7));
    let surrogate = numbered(BmpString::from_ucs2([0x00, 0x41, 0xd8, 0x00].to_vec(alloc)?));
    same(&rt, surrogate.err(), Some(13));
    Ok(())
}

#[test]
fn orders_bmp_by_contents(rt: HostRuntime) -> Result<(), Fail> {
    let alloc = rt.alloc();
    let short = numbered(BmpString::from_utf8(alloc, "b"))?;
    let long = numbered(BmpString::from_utf8(alloc, "aa"))?;
    holds(&rt, long < short);
    same(&rt, numbered(long.value_cmp(&short)), Ok(Ordering::Less));
    same(&rt, numbered(long.der_cmp(&short)), Ok(Ordering::Greater));
    Ok(())
}
