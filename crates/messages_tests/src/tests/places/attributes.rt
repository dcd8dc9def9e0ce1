//! Places in attributes.

use super::at;
use crate::tests::same;
use der_elem::FromDer;
use der_pkix::name::{Attribute, AttributeTypeAndValue};
use der_places::name::{AttributePlaces, AttributeTypeAndValuePlaces};
use der_places::{next_place, places_of};
use std::alloc::Global;
use std::test::Fail;

// Returns the byte ranges of the fields of an attribute of a name.
fn in_a_name(alloc: Global, octets: &[u8]) -> Result<AttributeTypeAndValuePlaces, u8> {
    match AttributeTypeAndValue::from_der(alloc, octets) {
        Ok(attribute) => Ok(places_of(&attribute, octets, 0)),
        Err(e) => Err(e.kind().number()),
    }
}

// Returns the byte ranges of the fields of an attribute with a set of values.
fn with_values(alloc: Global, octets: &[u8]) -> Result<AttributePlaces, u8> {
    match Attribute::from_der(alloc, octets) {
        Ok(attribute) => Ok(places_of(&attribute, octets, 0)),
        Err(e) => Err(e.kind().number()),
    }
}

#[test]
fn the_fields_of_an_attribute_of_a_name_stand_where_openssl_says(
    rt: HostRuntime,
) -> Result<(), Fail> {
    let alloc = rt.alloc();
    let octets = hex::decode(alloc, "300b06035504030c046d696c6c")?;
    let fields = AttributeTypeAndValuePlaces {
        type_: at(2, 5),
        value: at(7, 6),
    };
    same(&rt, in_a_name(alloc, octets.as_slice()), Ok(fields));
    Ok(())
}

#[test]
fn the_fields_of_an_attribute_stand_where_openssl_says(rt: HostRuntime) -> Result<(), Fail> {
    let alloc = rt.alloc();
    let digits = "302006092a864886f70d01090e31133011300f0603551d110408300682046d696c6c";
    let octets = hex::decode(alloc, digits)?;
    let fields = AttributePlaces {
        type_: at(2, 11),
        values: at(13, 21),
    };
    same(&rt, with_values(alloc, octets.as_slice()), Ok(fields));
    Ok(())
}

#[test]
fn the_next_place_is_behind_the_last(rt: HostRuntime) -> Result<(), Fail> {
    let octets = [0x30, 0x02, 0x05, 0x00, 0x02, 0x01, 0x07];
    same(&rt, next_place(&octets, at(0, 0), true), at(0, 4));
    same(&rt, next_place(&octets, at(0, 4), true), at(4, 3));
    same(&rt, next_place(&octets, at(4, 3), true), at(7, 0));
    Ok(())
}
