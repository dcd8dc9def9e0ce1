//! The order of machine integers, which is that of their encodings.

use crate::tests::{holds, same_in};
use der_elem::{DerOrd, Encode};
use std::process::Abort;

// Returns whether the order of the values is the order of their encodings.
fn is_that_of_encodings<T: DerOrd + Encode>(a: &T, b: &T) -> bool {
    let (mut a_room, mut b_room) = ([0; 19], [0; 19]);
    let Ok(a_octets) = a.encode_to_slice(&mut a_room) else {
        return false;
    };
    let Ok(b_octets) = b.encode_to_slice(&mut b_room) else {
        return false;
    };
    match a.der_cmp(b) {
        Ok(order) => order == a_octets.cmp(&b_octets),
        Err(_) => false,
    }
}

// Asserts for each pair of the values that their order is the order of their encodings.
fn all_pairs<T: DerOrd + Encode>(rt: &impl Abort, values: &[T]) {
    for a in values {
        for b in values {
            holds(rt, is_that_of_encodings(a, b));
        }
    }
}

#[test]
fn integers_of_one_octet(rt: HostRuntime) {
    for a in 0..=255u8 {
        for b in 0..=255u8 {
            same_in(&rt, &(a, b), is_that_of_encodings(&a, &b), true);
            let (c, d) = (a.cast_signed(), b.cast_signed());
            same_in(&rt, &(c, d), is_that_of_encodings(&c, &d), true);
        }
    }
}

#[test]
fn integers_of_more_octets(rt: HostRuntime) {
    all_pairs(&rt, &[0u16, 127, 128, 255, 256, 32767, 32768, 65535]);
    all_pairs(
        &rt,
        &[-32768i16, -32767, -129, -128, -1, 0, 127, 128, 32767],
    );
    all_pairs(
        &rt,
        &[-32768i128, -32767, -129, -128, -1, 0, 127, 128, 32767],
    );
    all_pairs(
        &rt,
        &[
            0u128,
            127,
            128,
            255,
            256,
            32767,
            32768,
            65535,
            1 << 119,
            1 << 126,
            (1 << 127) - 1,
            1 << 127,
            (1 << 127) + 1,
            (1 << 127) + 256,
            u128::MAX - 1,
            u128::MAX,
        ],
    );
}
