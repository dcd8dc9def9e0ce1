//! Elements after the fields that a module does not have: kept, not looked at, and written as they came.

use crate::tests::{again, compared, holds, is_copied, numbered, same, same_in};
use der_additions::Additions;
use der_elem::{Encode, FromDer};
use der_fields::{FieldSequence, Fields1};
use der_shapes::shapes::{Extensible, Titled};
use std::alloc::Global;
use std::cmp::Ordering;
use std::test::Fail;

/// The octets of a refused row, and the number of the refusal.
type Row = (&'static str, u8);

/// A SEQUENCE of one INTEGER and of additions after it.
type Limit<'a> = FieldSequence<Fields1<u8, Additions<'a>>>;

fn extensible_again(alloc: Global, octets: &[u8]) -> Result<Vec<u8>, u8> {
    again::<Extensible>(alloc, octets)
}

fn titled_again(alloc: Global, octets: &[u8]) -> Result<Vec<u8>, u8> {
    again::<Titled>(alloc, octets)
}

fn limit_again(alloc: Global, octets: &[u8]) -> Result<Vec<u8>, u8> {
    again::<Limit>(alloc, octets)
}

#[test]
fn elements_are_read_and_written_as_they_came(rt: HostRuntime) -> Result<(), Fail> {
    let alloc = rt.alloc();
    // none; the field b, which `Limit` has not; one; three, of which two are no DER inside; a tag
    // with a number of two octets
    let rows = [
        "3003020105",
        "30060201058001ff",
        "30060201058101ff",
        "300d02010530030101058200a10100",
        "30090201059f8101020000",
    ];
    for digits in rows {
        let octets = hex::decode(alloc, digits)?;
        let written = extensible_again(alloc, octets.as_slice())?;
        same_in(&rt, &digits, written.as_slice(), octets.as_slice());
        let written = limit_again(alloc, octets.as_slice())?;
        same_in(&rt, &digits, written.as_slice(), octets.as_slice());
    }
    Ok(())
}

#[test]
fn an_element_with_a_fault_is_refused(rt: HostRuntime) -> Result<(), Fail> {
    let alloc = rt.alloc();
    // one octet too few; no length; a length that takes more octets than it needs; an indefinite
    // length; a tag that is not known; NULL as a constructed value
    let rows: [Row; 6] = [
        ("30050201058101", 2),
        ("300402010581", 2),
        ("3006020105818100", 10),
        ("30070201058180ff00", 16),
        ("30050201050f00", 5),
        ("30050201052500", 8),
    ];
    for (digits, number) in rows {
        let octets = hex::decode(alloc, digits)?;
        same_in(
            &rt,
            &digits,
            extensible_again(alloc, octets.as_slice()),
            Err(number),
        );
    }
    Ok(())
}

#[test]
fn a_value_is_made_with_elements(rt: HostRuntime) -> Result<(), Fail> {
    let alloc = rt.alloc();
    let octets = [0x82, 0x01, 0xff];
    let kept = numbered(Additions::new(alloc, octets.as_slice()))?;
    let value = Extensible::new(5, None, &kept);
    let written = numbered(value.to_der(alloc))?;
    same(&rt, written, hex::decode(alloc, "30060201058201ff")?);
    let none = Extensible::new(5, None, &Additions::none(alloc));
    same(&rt, compared(&none, &value), Ok((Ordering::Less, false)));
    same(&rt, compared(&value, &value), Ok((Ordering::Equal, true)));
    holds(&rt, is_copied(&value));
    Ok(())
}

#[test]
fn an_element_with_the_tag_of_an_absent_field_is_that_field(rt: HostRuntime) -> Result<(), Fail> {
    let alloc = rt.alloc();
    let octets = [0x80, 0x01, 0xff];
    let kept = numbered(Additions::new(alloc, octets.as_slice()))?;
    let written = numbered(Extensible::new(5, None, &kept).to_der(alloc))?;
    let value = numbered(Extensible::from_der(alloc, written.as_slice()))?;
    same(&rt, value.b(), Some(true));
    holds(&rt, value.additions().is_empty());
    Ok(())
}

#[test]
fn octets_that_are_no_elements_are_not_kept(rt: HostRuntime) -> Result<(), Fail> {
    let alloc = rt.alloc();
    let octets = [0x81, 0x02, 0xff];
    same(
        &rt,
        numbered(Additions::new(alloc, octets.as_slice())).err(),
        Some(2),
    );
    Ok(())
}

#[test]
fn elements_stand_after_an_addition_that_is_known(rt: HostRuntime) -> Result<(), Fail> {
    let alloc = rt.alloc();
    for digits in ["3003040161", "3006040161800162", "300904016180016283016a"] {
        let octets = hex::decode(alloc, digits)?;
        let written = titled_again(alloc, octets.as_slice())?;
        same_in(&rt, &digits, written.as_slice(), octets.as_slice());
    }
    let octets = hex::decode(alloc, "300904016180016283016a")?;
    let value = numbered(Titled::from_der(alloc, octets.as_slice()))?;
    holds(&rt, is_copied(&value));
    let (_title, _note, additions) = value.into_parts();
    same(&rt, additions.as_bytes(), [0x83, 1, 0x6a].as_slice());
    Ok(())
}

#[test]
fn elements_are_shown_as_octets(rt: HostRuntime) -> Result<(), Fail> {
    let alloc = rt.alloc();
    let octets = [0x82, 0x00];
    let kept = numbered(Additions::new(alloc, octets.as_slice()))?;
    let value = Extensible::new(5, None, &kept);
    let text = format!(in alloc; "{value:?}")?;
    same(
        &rt,
        text.as_str(),
        "Extensible { a: 5, b: None, additions: OctetStringRef { octets: [130, 0] } }",
    );
    Ok(())
}
