//! Encodings of contents octets, of numbers and of dates.

ghost use Rattle.std.specs.Prelude.{◌≡◌, ◌⊎◌, ◌∷◌, IfErr, IfOk};
ghost use Rattle.der_tlv.specs.declared.tag.Tag.{Tag};
ghost use Rattle.der_tlv.specs.declared.tag.Tag.TheVariants as tags;
ghost use Rattle.der_bits.specs.BitStringRef as bit_string;
ghost use Rattle.der_bits.specs.NamedBitsRef as named_bits;
ghost use Rattle.der_numbers.specs.UintRef as unsigned;
ghost use Rattle.der_opaque.specs.AnyRef.{contents_of, tag_of};
ghost use Rattle.der_c.specs.Building.{Builds};
ghost use Rattle.der_c.specs.Numbers.{IsDate, IsGeneral, IsNoDate};
ghost use Rattle.der_c.specs.Values.{HasBits, IsNatural, IsNoTag, IsNotNatural, IsTagOf, IsTooMany};

use super::numbers::{date_of, general_of};
use super::room_writer::write_made;
use crate::fault::{Fault, fault_of};
use der_bits::{BitStringRef, NamedBitsRef};
use der_elem::Form;
use der_numbers::UintRef;
use der_opaque::AnyRef;
use der_pkix::certificate::Time;
use der_time::GeneralizedTime;
use der_tlv::{Error, ErrorKind, SliceReader, Tag};

/// Writes an encoding with one identifier octet and these contents octets.
///
/// 30 with 02 01 05 is encoded as 30 03 02 01 05.
#[unsafe(no_mangle)]
pub extern "C" fn der_write_encoding<'a>(
    identifier: u32,
    contents: &'a [u8],
    room: &mut [u8],
    count: &mut usize,
    fault: &mut Fault,
) -> u32
    ensures { Builds ⟦<AnyRef<'a> as Form>⟧ (λ v. IsTagOf identifier (tag_of v) × (contents_of v ≡ contents.now))
        (λ f. IsNoTag identifier f ⊎ ((tag : Tag) × IsTagOf identifier tag × IsTooMany tag contents.now f))
        room.old room.new count.old count.new fault.old fault.new result }
{
    write_made(any_of(identifier, contents), room, count, fault)
}

/// Returns the value with an identifier octet and contents octets.
fn any_of<'a>(identifier: u32, contents: &'a [u8]) -> Result<AnyRef<'a>, Fault>
    ensures ok { IfOk result (λ v. IsTagOf identifier (tag_of v) × (contents_of v ≡ contents.now)) }
    ensures err { IfErr result (λ f. IsNoTag identifier f ⊎ ((tag : Tag) × IsTagOf identifier tag × IsTooMany tag contents.now f)) }
{
    let tag = match tag_at(identifier) {
        Ok(tag) => tag,
        Err(fault) => return Err(fault),
    };
    match AnyRef::new(tag, contents) {
        Ok(value) => Ok(value),
        Err(error) => Err(fault_of(error)),
    }
}

/// Returns the tag with one identifier octet.
fn tag_at(identifier: u32) -> Result<Tag, Fault>
    ensures ok { IfOk result (λ tag. IsTagOf identifier tag) }
    ensures err { IfErr result (λ f. IsNoTag identifier f) }
{
    if identifier > 255 {
        return Err(fault_of(Error::from_kind(ErrorKind::TagNumberInvalid)));
    }
    let octets = [identifier as u8];
    let mut reader = match SliceReader::new(&octets) {
        Ok(reader) => reader,
        Err(error) => return Err(fault_of(error)),
    };
    match Tag::decode(&mut reader) {
        Ok(tag) => Ok(tag),
        Err(error) => Err(fault_of(error)),
    }
}

/// Writes a BIT STRING of all bits of these octets, such as a signature or a key.
#[unsafe(no_mangle)]
pub extern "C" fn der_write_bit_string<'a>(
    octets: &'a [u8],
    room: &mut [u8],
    count: &mut usize,
    fault: &mut Fault,
) -> u32
    ensures { Builds ⟦<BitStringRef<'a> as Form>⟧ (λ v. bit_string.contents_of v ≡ 0 ∷ octets.now) (λ f. IsTooMany tags.BitString octets.now f)
        room.old room.new count.old count.new fault.old fault.new result }
{
    write_made(bits_of(octets), room, count, fault)
}

/// Returns all bits of these octets.
fn bits_of<'a>(octets: &'a [u8]) -> Result<BitStringRef<'a>, Fault>
    ensures ok { IfOk result (λ v. bit_string.contents_of v ≡ 0 ∷ octets.now) }
    ensures err { IfErr result (λ f. IsTooMany tags.BitString octets.now f) }
{
    match BitStringRef::from_bytes(octets) {
        Ok(bits) => Ok(bits),
        Err(error) => Err(fault_of(error)),
    }
}

/// Writes a BIT STRING with named bits (X.680 22.7), such as a KeyUsage: bit 0 is the highest bit
/// of the first octet, and bits at the end that are 0 are left out.
///
/// 06, keyCertSign (5) and cRLSign (6), is encoded as 03 02 01 06.
#[unsafe(no_mangle)]
pub extern "C" fn der_write_named_bits<'a>(
    octets: &'a [u8],
    room: &mut [u8],
    count: &mut usize,
    fault: &mut Fault,
) -> u32
    ensures { Builds ⟦<NamedBitsRef<'a> as Form>⟧ (λ v. HasBits octets.now (named_bits.contents_of v)) (λ f. IsTooMany tags.BitString octets.now f)
        room.old room.new count.old count.new fault.old fault.new result }
{
    write_made(named_bits_of(octets), room, count, fault)
}

/// Returns the named bits of these octets.
fn named_bits_of<'a>(octets: &'a [u8]) -> Result<NamedBitsRef<'a>, Fault>
    ensures ok { IfOk result (λ v. HasBits octets.now (named_bits.contents_of v)) }
    ensures err { IfErr result (λ f. IsTooMany tags.BitString octets.now f) }
{
    match bits_of(octets) {
        Ok(bits) => Ok(NamedBitsRef::new(bits)),
        Err(fault) => Err(fault),
    }
}

/// Writes an INTEGER that is not negative, from its octets, most significant first.
#[unsafe(no_mangle)]
pub extern "C" fn der_write_unsigned_integer<'a>(
    octets: &'a [u8],
    room: &mut [u8],
    count: &mut usize,
    fault: &mut Fault,
) -> u32
    ensures { Builds ⟦<UintRef<'a> as Form>⟧ (λ v. IsNatural octets.now (unsigned.contents_of v)) (λ f. IsNotNatural octets.now f)
        room.old room.new count.old count.new fault.old fault.new result }
{
    write_made(natural_of(octets), room, count, fault)
}

/// Returns the number with these octets.
fn natural_of<'a>(octets: &'a [u8]) -> Result<UintRef<'a>, Fault>
    ensures ok { IfOk result (λ v. IsNatural octets.now (unsigned.contents_of v)) }
    ensures err { IfErr result (λ f. IsNotNatural octets.now f) }
{
    match UintRef::new(octets) {
        Ok(number) => Ok(number),
        Err(error) => Err(fault_of(error)),
    }
}

/// Writes a Time (RFC 5280 4.1.2.5): a UTCTime up to the year 2049, and a GeneralizedTime after
/// it, from the seconds after 1970-01-01T00:00:00Z.
#[unsafe(no_mangle)]
pub extern "C" fn der_write_time(
    seconds: u64,
    room: &mut [u8],
    count: &mut usize,
    fault: &mut Fault,
) -> u32
    ensures { Builds ⟦<Time as Form>⟧ (IsDate seconds) (IsNoDate seconds)
        room.old room.new count.old count.new fault.old fault.new result }
{
    write_made(date_of(seconds), room, count, fault)
}

/// Writes a GeneralizedTime from the seconds after 1970-01-01T00:00:00Z.
#[unsafe(no_mangle)]
pub extern "C" fn der_write_generalized_time(
    seconds: u64,
    room: &mut [u8],
    count: &mut usize,
    fault: &mut Fault,
) -> u32
    ensures { Builds ⟦<GeneralizedTime as Form>⟧ (IsGeneral seconds) (IsNoDate seconds)
        room.old room.new count.old count.new fault.old fault.new result }
{
    write_made(general_of(seconds), room, count, fault)
}
