//! The callers, called; and values of several crates in one another.

mod building;
mod canonical;
mod choices;
mod history;
mod rooms;
mod rows;
mod sets;
mod time_stamps;

use crate::tests::{holds, numbered, same};
use der_asn1_types::asn1::{AnyRef, BitStringRef, ContextSpecific, Enumerated, NamedBitsRef};
use der_asn1_types::{
    DateTime, DerOrd, Duplicate, FromDer, Length, Reader, Tag, TagMode, TagNumber,
};
use der_examples::{
    ResponseStatus, Watched, attribute_set, common_name, contents_of_string, country,
    explicit_version, first_header, is_before, is_same_named_policy, is_same_policy, is_usage,
    is_within, may_sign_certificates, named_curve, number_in, read_named_policy, read_numbers,
    read_policy, read_policy_fields, read_status, read_watched, serial_number, with_attribute,
    write_named_policy, write_numbers, write_policy, write_status,
};
use std::cmp::Ordering;
use std::test::Fail;

// Returns a value with this context-specific tag.
fn tagged<T>(number: u32, tag_mode: TagMode, value: T) -> ContextSpecific<T> {
    ContextSpecific {
        tag_number: TagNumber(number),
        tag_mode,
        value,
    }
}

#[test]
fn numbers_are_read_and_written(rt: HostRuntime) -> Result<(), Fail> {
    let octets = [0x30, 0x07, 0x02, 0x01, 0x05, 0x02, 0x02, 0x00, 0x80];
    let numbers = numbered(read_numbers(rt.alloc(), &octets))?;
    same(&rt, numbers.as_slice(), [5, 128].as_slice());
    let written = numbered(write_numbers(rt.alloc(), &numbers))?;
    same(&rt, written.as_slice(), octets.as_slice());
    Ok(())
}

#[test]
fn octets_are_borrowed(rt: HostRuntime) -> Result<(), Fail> {
    let octets = [0x04, 0x02, 0x01, 0x02];
    let contents = numbered(contents_of_string(rt.alloc(), &octets))?;
    same(&rt, contents, [0x01, 0x02].as_slice());
    match serial_number(rt.alloc(), &[0x02, 0x01, 0x80]) {
        Ok(_) => return Err("read".into()),
        Err(e) => same(&rt, e.kind().number(), 13),
    }
    Ok(())
}

#[test]
fn a_number_is_written_into_a_buffer(rt: HostRuntime) -> Result<(), Fail> {
    let mut buffer = [0; 8];
    let octets = numbered(number_in(300, &mut buffer))?;
    same(&rt, octets, [0x02, 0x02, 0x01, 0x2c].as_slice());
    let mut short = [0; 3];
    same(&rt, numbered(number_in(300, &mut short)).err(), Some(10));
    Ok(())
}

#[test]
fn the_order_is_that_of_encodings(rt: HostRuntime) -> Result<(), Fail> {
    holds(&rt, numbered(is_before(&1, &2))?);
    holds(&rt, !numbered(is_before(&-1, &1))?);
    holds(&rt, numbered(is_before(&-1, &128))?);
    Ok(())
}

#[test]
fn a_set_stands_in_order(rt: HostRuntime) -> Result<(), Fail> {
    let mut set = numbered(attribute_set(rt.alloc(), [8, 7, 300, 7]))?;
    numbered(with_attribute(&mut set, 9))?;
    same(&rt, set.as_slice(), [7, 7, 8, 9, 300].as_slice());
    Ok(())
}

/// Returns a policy with a qualifier, and no version.
fn octets_without_version() -> [u8; 10] {
    [0x30, 0x08, 0x06, 0x02, 0x2a, 0x03, 0x04, 0x02, 0x01, 0x02]
}

#[test]
fn a_policy_is_read(rt: HostRuntime) -> Result<(), Fail> {
    let octets = [
        0x30, 0x0b, 0x06, 0x02, 0x2a, 0x03, 0x04, 0x02, 0x01, 0x02, 0x80, 0x01, 0x05,
    ];
    match read_policy_fields(rt.alloc(), &octets) {
        Ok(policy) => {
            holds(&rt, policy.qualifier.is_some());
            holds(&rt, policy.version.is_some());
        }
        Err(_) => return Err("refused".into()),
    }
    match read_policy(rt.alloc(), &octets) {
        Ok(policy) => {
            holds(&rt, policy.fields.second().is_some());
            let written = numbered(write_policy(rt.alloc(), &policy))?;
            same(&rt, written.as_slice(), octets.as_slice());
            holds(&rt, is_same_policy(&policy, &policy));
            // the same policy with no version, and so with other octets
            match read_policy(rt.alloc(), &octets_without_version()) {
                Ok(other) => holds(&rt, !is_same_policy(&policy, &other)),
                Err(_) => return Err("refused".into()),
            }
        }
        Err(_) => return Err("refused".into()),
    }
    let left_over = [0x30, 0x05, 0x06, 0x01, 0x2a, 0x05, 0x00];
    match read_policy_fields(rt.alloc(), &left_over) {
        Ok(_) => return Err("read".into()),
        Err(e) => same(&rt, e.kind().number(), 3),
    }
    Ok(())
}

#[test]
fn a_policy_with_names_is_read(rt: HostRuntime) -> Result<(), Fail> {
    let octets = [
        0x30, 0x0b, 0x06, 0x02, 0x2a, 0x03, 0x04, 0x02, 0x01, 0x02, 0x80, 0x01, 0x05,
    ];
    match read_named_policy(rt.alloc(), &octets) {
        Ok(policy) => {
            holds(&rt, policy.fields.qualifier.is_some());
            holds(&rt, policy.fields.version.is_some());
            holds(&rt, is_same_named_policy(&policy, &policy));
            match read_named_policy(rt.alloc(), &octets_without_version()) {
                Ok(other) => holds(&rt, !is_same_named_policy(&policy, &other)),
                Err(_) => return Err("refused".into()),
            }
            same(&rt, numbered(policy.der_cmp(&policy)), Ok(Ordering::Equal));
            let written = numbered(write_named_policy(rt.alloc(), &policy))?;
            same(&rt, written.as_slice(), octets.as_slice());
            match policy.duplicate() {
                Ok(copy) => holds(&rt, copy == policy),
                Err(_) => return Err("not copied".into()),
            }
        }
        Err(_) => return Err("refused".into()),
    }
    let left_over = [0x30, 0x05, 0x06, 0x01, 0x2a, 0x05, 0x00];
    match read_named_policy(rt.alloc(), &left_over) {
        Ok(_) => return Err("read".into()),
        Err(e) => same(&rt, e.kind().number(), 3),
    }
    Ok(())
}

#[test]
fn a_header_says_how_many_octets_follow(rt: HostRuntime) -> Result<(), Fail> {
    let header = numbered(first_header(&[0x30, 0x82, 0x01, 0x00]))?;
    holds(&rt, header.tag == Tag::Sequence);
    holds(&rt, header.length == Length::new(256));
    same(&rt, numbered(first_header(&[0x30])).err(), Some(2));
    Ok(())
}

#[test]
fn names_are_borrowed(rt: HostRuntime) -> Result<(), Fail> {
    match country(b"NO") {
        Ok(country) => same(&rt, country.as_str(), "NO"),
        Err(_) => return Err("refused".into()),
    }
    holds(&rt, country(b"N*").is_err());
    match common_name(rt.alloc(), &[0x0c, 0x02, 0xc3, 0xa6]) {
        Ok(name) => same(&rt, name.as_str(), "\u{e6}"),
        Err(_) => return Err("refused".into()),
    }
    Ok(())
}

#[test]
fn a_key_may_sign_certificates(rt: HostRuntime) -> Result<(), Fail> {
    match BitStringRef::from_der(rt.alloc(), &[0x03, 0x02, 0x02, 0x04]) {
        Ok(usage) => holds(&rt, may_sign_certificates(usage)),
        Err(_) => return Err("refused".into()),
    }
    match BitStringRef::from_der(rt.alloc(), &[0x03, 0x02, 0x07, 0x80]) {
        Ok(usage) => holds(&rt, !may_sign_certificates(usage)),
        Err(_) => return Err("refused".into()),
    }
    Ok(())
}

#[test]
fn uses_of_a_key_are_asked_by_name(rt: HostRuntime) -> Result<(), Fail> {
    match NamedBitsRef::from_der(rt.alloc(), &[0x03, 0x03, 0x07, 0x06, 0x80]) {
        Ok(usage) => {
            holds(&rt, is_usage(usage, 5));
            holds(&rt, is_usage(usage, 8));
            holds(&rt, !is_usage(usage, 7));
            holds(&rt, !is_usage(usage, 9));
        }
        Err(_) => return Err("refused".into()),
    }
    Ok(())
}

#[test]
fn a_status_has_a_name(rt: HostRuntime) -> Result<(), Fail> {
    let status = numbered(read_status(rt.alloc(), &[0x0a, 0x01, 0x05]))?;
    same(&rt, status.value, ResponseStatus::SigRequired);
    let written = numbered(write_status(rt.alloc(), &status))?;
    same(&rt, written.as_slice(), [0x0a, 0x01, 0x05].as_slice());
    let unnamed = numbered(read_status(rt.alloc(), &[0x0a, 0x01, 0x04]));
    same(&rt, unnamed.err(), Some(13));
    let later = Enumerated {
        value: ResponseStatus::TryLater,
    };
    same(&rt, status == later, false);
    Ok(())
}

#[test]
fn a_time_is_within_a_validity(rt: HostRuntime) -> Result<(), Fail> {
    let first = numbered(DateTime::new(2026, 1, 1, 0, 0, 0))?;
    let last = numbered(DateTime::new(2026, 12, 31, 23, 59, 59))?;
    let later = numbered(DateTime::new(2027, 1, 1, 0, 0, 0))?;
    holds(&rt, is_within(&last, &first, &last));
    holds(&rt, !is_within(&later, &first, &last));
    Ok(())
}

#[test]
fn parameters_name_a_curve(rt: HostRuntime) -> Result<(), Fail> {
    let curve = [0x2b, 0x81, 0x04, 0x00, 0x22];
    match AnyRef::new(Tag::ObjectIdentifier, &curve) {
        Ok(parameters) => holds(&rt, named_curve(rt.alloc(), parameters).is_ok()),
        Err(_) => return Err("refused".into()),
    }
    holds(&rt, named_curve(rt.alloc(), AnyRef::NULL).is_err());
    Ok(())
}

#[test]
fn a_version_is_written(rt: HostRuntime) -> Result<(), Fail> {
    let written = numbered(explicit_version(rt.alloc(), 2))?;
    same(
        &rt,
        written.as_slice(),
        [0xa0, 0x03, 0x02, 0x01, 0x02].as_slice(),
    );
    Ok(())
}

#[test]
fn a_source_of_ones_own_is_read(rt: HostRuntime) -> Result<(), Fail> {
    let alloc = rt.alloc();
    let octets = [0x02, 0x01, 0x05, 0x01, 0x01, 0xff];
    match Watched::new(&octets) {
        Ok(mut source) => {
            // a tag is looked at where it stands, and is another's
            let absent: Option<bool> = numbered(read_watched(alloc, &mut source))?;
            same(&rt, absent, None);
            same(&rt, (source.position().value(), source.furthest()), (0, 0));
            same(&rt, numbered(read_watched::<u8>(alloc, &mut source))?, 5);
            holds(&rt, numbered(read_watched::<bool>(alloc, &mut source))?);
            same(&rt, (source.position().value(), source.furthest()), (6, 6));
            // nothing is left, and then it has failed
            let kinds = [2, 17];
            for kind in kinds {
                let refused = numbered(read_watched::<bool>(alloc, &mut source)).err();
                same(&rt, refused, Some(kind));
            }
        }
        Err(_) => holds(&rt, false),
    }
    Ok(())
}
