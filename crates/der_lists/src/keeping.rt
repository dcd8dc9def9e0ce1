//! Contents octets that are kept after their items were read.

ghost use Rattle.std.specs.Prelude.{◌≡◌, ◌<◌, ◌≤◌, ◌-◌, ◌^◌, length, take, drop, IfErr, OnOk};
ghost use Rattle.std.specs.Ordering.{is_gt};
ghost use Rattle.der_tlv.specs.Octets.{lex};
ghost use Rattle.der_tlv.specs.declared.error.ErrorKind.TheVariants as kinds;
ghost use Rattle.der_tlv.specs.declared.tag.Tag.TheVariants as tags;
ghost use Rattle.der_opaque.specs.OctetStringRef.{octets_of};
ghost use Rattle.der_nest.specs.KeptFormat.{KeepsContents, position_behind};
ghost use Rattle.der_nest.specs.BorrowedSequences.{items_format};
ghost use Rattle.der_lists.specs.SetFormat.{set_format};

use der_elem::{Choice, Decode};
use der_opaque::OctetStringRef;
use der_tlv::{Error, ErrorKind, Length, Reader, SliceReader};
use std::alloc::Global;

/// Keeps contents octets if they are read as items until nothing is left.
pub(crate) fn keep_each<'a, T: Decode<'a, SliceReader<'a>> + Choice>(
    alloc: Global,
    octets: &'a [u8],
) -> Result<OctetStringRef<'a>, Error>
    ensures kept { length octets.now < 2 ^ 32
        → KeepsContents octets_of (items_format T.Form) octets.now result }
    ensures fits { OnOk result (length octets.now < 2 ^ 32) }
    ensures long { IfErr result (λ e. 2 ^ 32 ≤ length octets.now → e.kind ≡ kinds.Length tags.OctetString) }
{
    let octets = match OctetStringRef::new(octets) {
        Ok(octets) => octets,
        Err(e) => return Err(e),
    };
    let mut reader = match SliceReader::new(octets.as_bytes()) {
        Ok(reader) => reader,
        Err(e) => return Err(e),
    };
    'items: while !reader.is_finished() {
        let _item = T::decode(alloc, &mut reader)?;
    }
    Ok(octets)
}

/// Keeps contents octets if they are read as items until nothing is left, and no item is less
/// than the one before it (`ErrorKind::SetOrdering`, 11). The octets of the items are compared as
/// they were read.
pub(crate) fn keep_in_order<'a, T: Decode<'a, SliceReader<'a>> + Choice>(
    alloc: Global,
    octets: &'a [u8],
) -> Result<OctetStringRef<'a>, Error>
    ensures kept { length octets.now < 2 ^ 32
        → KeepsContents octets_of (set_format T.Form) octets.now result }
    ensures fits { OnOk result (length octets.now < 2 ^ 32) }
    ensures long { IfErr result (λ e. 2 ^ 32 ≤ length octets.now → e.kind ≡ kinds.Length tags.OctetString) }
{
    let octets = match OctetStringRef::new(octets) {
        Ok(octets) => octets,
        Err(e) => return Err(e),
    };
    let bytes = octets.as_bytes();
    let mut reader = match SliceReader::new(bytes) {
        Ok(reader) => reader,
        Err(e) => return Err(e),
    };
    let mut before = 0;
    'items: while !reader.is_finished() {
        let start = reader.position().value() as usize;
        let _item = T::decode(alloc, &mut reader)?;
        if is_less(bytes, before, start, reader.position().value() as usize) {
            return Err(reader.error(ErrorKind::SetOrdering));
        }
        before = start;
    }
    Ok(octets)
}

/// Returns whether the item in `start..end` is less than the item before it, which begins at
/// `before`. The first item has none before it, and `before` is then equal to `start`.
#[inline(always)]
#[tactic(auto, using(crate::proofs::InOrderReading::none_before))]
fn is_less(octets: &[u8], before: usize, start: usize, end: usize) -> bool
    requires behind { before ≤ start }
    requires ordered { start ≤ end }
    requires inside { end ≤ length octets.now }
    ensures { result ≡ is_gt (lex (take (start - before) (drop before octets.now))
        (take (end - start) (drop start octets.now))) }
{
    if before == start {
        return false;
    }
    is_above(&octets[before..start], &octets[start..end])
}

/// Returns whether octets are greater than others.
#[inline(never)]
fn is_above(octets: &[u8], others: &[u8]) -> bool
    ensures { result ≡ is_gt (lex octets.now others.now) }
{
    octets.cmp(others).is_gt()
}

/// Moves the position of an error in contents octets by the offset of those octets.
pub(crate) fn behind(begin: Length, error: Error) -> Error
    ensures kind { result.kind ≡ error.kind }
    ensures position { result.position ≡ position_behind begin error.position }
{
    let kind = error.kind;
    let position = match error.position {
        Some(position) => Some(Length::new(begin.value().saturating_add(position.value()))),
        None => None,
    };
    Error { kind, position }
}
