//! The examples that open the crates' sources: `tests/contracts` compares them with these tests.

use der_asn1_types::asn1::{
    BitStringRef, ContextSpecific, OctetStringRef, PrintableStringRef, SetOfVec, UintRef, UtcTime,
    Utf8StringRef,
};
use der_asn1_types::{
    DateTime, Encode, End, Field, FieldSequence, FromDer, Header, Length, SliceWriter, Tag,
    canonical,
};
use der_pkix::certificate::SubjectPublicKeyInfo;
use std::test::Fail;

#[test]
fn der_tlv(rt: HostRuntime) -> Result<(), Fail> {
    let mut buffer = [0; 4];
    let mut writer = SliceWriter::new(&mut buffer);
    let header = Header::new(Tag::OctetString, Length::new(200));
    assert!(rt; header.encode(&mut writer).is_ok());
    assert_eq!(rt; writer.finish(), [0x04, 0x81, 0xc8].as_slice());
    Ok(())
}

#[test]
fn der_elem(rt: HostRuntime) -> Result<(), Fail> {
    let octets = [0x30, 0x07, 0x02, 0x01, 0x05, 0x02, 0x02, 0x00, 0x80];
    let numbers = Vec::<i64>::from_der(rt.alloc(), &octets)?;
    assert_eq!(rt; numbers.as_slice(), [5, 128].as_slice());
    assert_eq!(rt; numbers.to_der(rt.alloc())?.as_slice(), octets.as_slice());
    Ok(())
}

#[test]
fn der_opaque(rt: HostRuntime) -> Result<(), Fail> {
    match OctetStringRef::from_der(rt.alloc(), &[0x04, 0x02, 0x01, 0x02]) {
        Ok(string) => assert_eq!(rt; string.as_bytes(), [0x01, 0x02].as_slice()),
        Err(_) => return Err("refused".into()),
    }
    Ok(())
}

#[test]
fn der_numbers(rt: HostRuntime) -> Result<(), Fail> {
    match UintRef::new(&[0x00, 0x80]) {
        Ok(number) => {
            assert_eq!(rt; number.as_bytes(), [0x80].as_slice());
            assert_eq!(rt;
                number.to_der(rt.alloc())?.as_slice(),
                [0x02, 0x02, 0x00, 0x80].as_slice()
            );
        }
        Err(_) => return Err("refused".into()),
    }
    Ok(())
}

#[test]
fn der_bits(rt: HostRuntime) -> Result<(), Fail> {
    match BitStringRef::from_der(rt.alloc(), &[0x03, 0x02, 0x05, 0xa0]) {
        Ok(usages) => {
            assert_eq!(rt; usages.bit_len(), 3);
            assert_eq!(rt; usages.get(2), Some(true));
        }
        Err(_) => return Err("refused".into()),
    }
    Ok(())
}

#[test]
fn der_ascii(rt: HostRuntime) -> Result<(), Fail> {
    match PrintableStringRef::new("DE".as_bytes()) {
        Ok(country) => assert_eq!(rt;
            country.to_der(rt.alloc())?.as_slice(),
            [0x13, 0x02, 0x44, 0x45].as_slice()
        ),
        Err(_) => return Err("refused".into()),
    }
    Ok(())
}

#[test]
fn der_text(rt: HostRuntime) -> Result<(), Fail> {
    match Utf8StringRef::from_der(rt.alloc(), &[0x0c, 0x02, 0xc3, 0xa9]) {
        Ok(name) => assert_eq!(rt; name.as_str(), "é"),
        Err(_) => return Err("refused".into()),
    }
    Ok(())
}

#[test]
fn der_time(rt: HostRuntime) -> Result<(), Fail> {
    match UtcTime::from_der(rt.alloc(), "\u{17}\u{d}260131235959Z".as_bytes()) {
        Ok(time) => assert_eq!(rt; time.to_date_time().year(), 2026),
        Err(_) => return Err("refused".into()),
    }
    Ok(())
}

#[test]
fn der_wrap(rt: HostRuntime) -> Result<(), Fail> {
    match ContextSpecific::<u8>::from_der(rt.alloc(), &[0xa0, 0x03, 0x02, 0x01, 0x02]) {
        Ok(version) => {
            assert_eq!(rt; version.tag_number.0, 0);
            assert_eq!(rt; version.value, 2);
        }
        Err(_) => return Err("refused".into()),
    }
    Ok(())
}

#[test]
fn der_nest(rt: HostRuntime) -> Result<(), Fail> {
    let set = SetOfVec::from_array(rt.alloc(), [300u16, 8, 7])?;
    assert_eq!(rt; set.as_slice(), [7, 8, 300].as_slice());
    Ok(())
}

#[test]
fn der_fields(rt: HostRuntime) -> Result<(), Fail> {
    type Limit = FieldSequence<Field<bool, Field<Option<u8>, End>>>;
    match Limit::from_der(
        rt.alloc(),
        &[0x30, 0x06, 0x01, 0x01, 0xff, 0x02, 0x01, 0x03],
    ) {
        Ok(limit) => {
            assert!(rt; limit.fields.first);
            assert_eq!(rt; limit.fields.rest.first, Some(3));
        }
        Err(_) => return Err("refused".into()),
    }
    Ok(())
}

#[test]
fn der_asn1_types(rt: HostRuntime) -> Result<(), Fail> {
    let octets = [0x31, 0x06, 0x02, 0x01, 0x08, 0x02, 0x01, 0x07];
    let written = canonical::<SetOfVec<u16>>(rt.alloc(), &octets)?;
    assert_eq!(rt;
        written.as_slice(),
        [0x31, 0x06, 0x02, 0x01, 0x07, 0x02, 0x01, 0x08].as_slice()
    );
    Ok(())
}

#[test]
fn der_pkix(rt: HostRuntime) -> Result<(), Fail> {
    let octets = [
        0x30, 0x0a, 0x30, 0x05, 0x06, 0x03, 0x2b, 0x65, 0x70, 0x03, 0x01, 0x00,
    ];
    match SubjectPublicKeyInfo::from_der(rt.alloc(), &octets) {
        Ok(key) => {
            assert!(rt; key.algorithm().parameters.is_none());
            match key.to_der(rt.alloc()) {
                Ok(written) => assert_eq!(rt; written.as_slice(), octets.as_slice()),
                Err(_) => return Err("no memory".into()),
            }
        }
        Err(_) => return Err("refused".into()),
    }
    Ok(())
}
