//! Units of 16 bits, high octet first.

ghost use Rattle.std.specs.Prelude.{◌≡◌, ◌⊎◌, ◌+◌, ◌/◌, ◌%◌, ◌*◌, ◌^◌, ◌<◌, ◌≤◌, ◌++◌, [], ◌∷◌, chars, length, true, false, IfOk, IfErr};
ghost use Rattle.der_tlv.specs.declared.error.ErrorKind.TheVariants as kinds;
ghost use Rattle.der_tlv.specs.declared.tag.Tag.TheVariants as tags;
ghost use Rattle.der_text.specs.BmpUnits.{units, are_bmp_characters, is_basic, HasUnits, NoUnits};

use crate::bmp_iter::BmpCodepoints;
use der_tlv::{Error, ErrorKind, Length, Tag};
use std::alloc::Global;

/// Returns whether each unit is a character, that is, outside D800 to DFFF.
pub fn are_bmp_characters(octets: &[u8]) -> bool
    ensures { result ≡ are_bmp_characters octets.now }
{
    let mut rest = BmpCodepoints::new(octets);
    'units: while let Some(unit) = rest.next() {
        if char::from_u32(unit as u32).is_none() {
            return false;
        }
    }
    true
}

/// Checks that octets are characters, each a unit of 16 bits.
///
/// # Errors
/// `ErrorKind::Length` (7) for an odd number of octets; `ErrorKind::Value` (13) for a unit from
/// D800 to DFFF.
pub fn check_units(octets: &[u8]) -> Result<(), ErrorKind>
    ensures good { IfOk result (λ _.
        (length octets.now % 2 ≡ 0) × (are_bmp_characters octets.now ≡ true)) }
    ensures refused { IfErr result (λ kind.
        ((kind ≡ kinds.Length tags.BmpString) × (length octets.now % 2 ≡ 1))
        ⊎ ((kind ≡ kinds.Value tags.BmpString) × (length octets.now % 2 ≡ 0)
        × (are_bmp_characters octets.now ≡ false))) }
{
    if octets.len() % 2 != 0 {
        return Err(Tag::BmpString.length_error());
    }
    if !are_bmp_characters(octets) {
        return Err(Tag::BmpString.value_error());
    }
    Ok(())
}

// Appends the two octets of a unit.
fn push_unit(octets: &mut Vec<u8>, unit: u16) -> Result<(), Error>
    ensures pushed { IfOk result (λ _.
        octets.new.items ≡ octets.old.items ++ (unit / 256) ∷ (unit % 256) ∷ []) }
    ensures refused { IfErr result (λ e. e.kind ≡ kinds.Memory) }
{
    octets.extend_from_slice(&[(unit / 256) as u8, (unit % 256) as u8])?;
    Ok(())
}

/// Adds the octets of one unit to a number of octets. The sum is exact as long as a length can
/// count it.
fn with_unit(len: usize) -> usize
    ensures exact { result < 2 ^ 32 → result ≡ len + 2 }
    ensures bounded { result ≤ len + 2 }
{
    if len < 0x1_0000_0000 { len + 2 } else { len }
}

/// Returns the number of octets in the units of the characters of a text. It takes no memory, so
/// these errors are found before any growth.
///
/// # Errors
/// `ErrorKind::Value` (13) for a character above U+FFFF; `ErrorKind::Overflow` (9) for more than
/// 4294967295 octets.
#[tactic(auto, using(crate::proofs::FromText::taken_first, crate::proofs::FromText::taken_wide))]
fn units_len(text: &str) -> Result<Length, ErrorKind>
    ensures len { IfOk result (λ len. (len ≡ 2 * length (chars text.now)) × (len < 2 ^ 32)) }
    ensures basic { IfOk result (λ len. is_basic text.now ≡ true) }
    ensures refused { IfErr result (λ kind. NoUnits text.now kind) }
{
    let mut len = 0;
    let mut rest = text.chars();
    'characters: while let Some(character) = rest.next() {
        if character as u32 >= 0x10000 {
            return Err(Tag::BmpString.value_error());
        }
        len = with_unit(len);
    }
    match Length::of(len) {
        Ok(len) => Ok(len),
        Err(_) => Err(ErrorKind::Overflow),
    }
}

/// Returns the octets of the characters of a text.
///
/// # Errors
/// `ErrorKind::Value` (13) for a character above U+FFFF; `ErrorKind::Overflow` (9) for more than
/// 4294967295 octets; else `ErrorKind::Memory` (1) if memory runs out.
#[tactic(auto, using(crate::proofs::FromText::taken_first, crate::proofs::FromText::taken_wide))]
pub fn octets_of(alloc: Global, text: &str) -> Result<Vec<u8>, Error>
    ensures even { IfOk result (λ octets. length octets.items % 2 ≡ 0) }
    ensures units { IfOk result (λ octets. units octets.items ≡ chars text.now) }
    ensures basic { IfOk result (λ octets. is_basic text.now ≡ true) }
    ensures characters { IfOk result (λ octets. are_bmp_characters octets.items ≡ true) }
    ensures len { IfOk result (λ octets. (length octets.items ≡ 2 * length (chars text.now))
        × (length octets.items < 2 ^ 32)) }
    ensures refused { IfErr result (λ e. ((e.kind ≡ kinds.Memory) × HasUnits text.now)
        ⊎ NoUnits text.now e.kind) }
{
    let len = match units_len(text) {
        Ok(len) => len,
        Err(kind) => return Err(Error::from_kind(kind)),
    };
    let mut octets = Vec::with_capacity(alloc, usize::from(len))?;
    let mut rest = text.chars();
    'characters: while let Some(character) = rest.next() {
        let code = character as u32;
        if code >= 0x10000 {
            return Err(Error::from_kind(Tag::BmpString.value_error()));
        }
        push_unit(&mut octets, code as u16)?;
    }
    Ok(octets)
}
