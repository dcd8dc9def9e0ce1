//! Octets as hexadecimal digits, and numbers.

use crate::page::Page;
use std::alloc::AllocError;
use std::fmt::Write;

/// Adds two digits for each octet, with a colon between octets.
pub fn push_with_colons(page: &mut Page, octets: &[u8]) -> Result<(), AllocError> {
    let mut is_first = true;
    for octet in octets {
        if !is_first {
            page.text.push(':')?;
        }
        is_first = false;
        push_octet(page, *octet)?;
    }
    Ok(())
}

/// Adds two digits for each octet.
pub fn push_digits(page: &mut Page, octets: &[u8]) -> Result<(), AllocError> {
    for octet in octets {
        push_octet(page, *octet)?;
    }
    Ok(())
}

/// Adds the two digits of an octet.
pub fn push_octet(page: &mut Page, octet: u8) -> Result<(), AllocError> {
    page.text.push(digit(octet >> 4))?;
    page.text.push(digit(octet & 15))
}

/// Returns the digit of a number below 16.
fn digit(number: u8) -> char {
    match number {
        0..=9 => (b'0' + number) as char,
        10..=15 => (b'a' + (number - 10)) as char,
        _ => '?',
    }
}

/// Adds the non-negative number in these octets, high octet first: in decimal if it has up to 16
/// octets, and else `0x` and its digits, as OpenSSL does.
pub fn push_number_of(page: &mut Page, octets: &[u8]) -> Result<(), AllocError> {
    if octets.len() > 16 {
        page.text.push_str("0x")?;
        return push_digits(page, octets);
    }
    let mut number: u128 = 0;
    for octet in octets {
        number = (number << 8) | u128::from(*octet);
    }
    write!(page.text, "{number}")
}

/// Adds the octets of an INTEGER as OpenSSL shows serial numbers: without an octet that only
/// carries the sign, and for a negative number with a `-` and the octets of its absolute value.
pub fn push_serial(page: &mut Page, octets: &[u8]) -> Result<(), AllocError> {
    match octets {
        [0, rest @ ..] if !rest.is_empty() => push_with_colons(page, rest),
        [first, ..] if *first >= 0x80 => {
            page.text.push('-')?;
            push_opposite(page, octets)
        }
        _ => push_with_colons(page, octets),
    }
}

/// Adds the octets of the absolute value of a negative number: those before the last nonzero
/// octet are inverted, and that one is subtracted from 256.
fn push_opposite(page: &mut Page, octets: &[u8]) -> Result<(), AllocError> {
    let last = last_of_value(octets);
    let mut is_first = true;
    for (index, octet) in octets.iter().enumerate() {
        let opposite = if index < last {
            !*octet
        } else {
            octet.wrapping_neg()
        };
        if is_first && opposite == 0 {
            continue;
        }
        if !is_first {
            page.text.push(':')?;
        }
        is_first = false;
        push_octet(page, opposite)?;
    }
    Ok(())
}

/// Returns the index of the last nonzero octet.
fn last_of_value(octets: &[u8]) -> usize {
    let mut last = 0;
    for (index, octet) in octets.iter().enumerate() {
        if *octet != 0 {
            last = index;
        }
    }
    last
}
