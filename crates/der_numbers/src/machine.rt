//! Machine integers as integers of any length.

ghost use Rattle.std.specs.Prelude.{◌≡◌, ◌≤◌, length, false};
ghost use Rattle.der_elem.specs.Integer.{integer_contents, natural_contents};
ghost use Rattle.der_numbers.specs.AnyLength.{CopiesContents};
ghost use Rattle.der_numbers.specs.Int as signed;
ghost use Rattle.der_numbers.specs.Uint as unsigned;

use crate::int::Int;
use crate::octets::strip_zeros;
use crate::uint::Uint;
use der_elem::{EncodeValue, FormValue};
use der_tlv::{Error, ErrorKind, SliceWriter};
use std::alloc::Global;

// The maximum number of contents octets of an integer of 128 bits: 16, and a 00 before them.
const MAX_OCTETS: usize = 17;

/// Writes the contents octets of a value, which are at most 17, into a buffer.
fn contents_in<'b, T: EncodeValue>(value: &T, buffer: &'b mut [u8; MAX_OCTETS]) -> &'b [u8]
    requires short { length (T.value.contents value.now) ≤ 17 }
    requires kept { T.value.re_reads value.now ≡ false }
    ensures { result.now ≡ T.value.contents value.now }
{
    let mut writer = SliceWriter::new(buffer);
    match value.encode_value(&mut writer) {
        Ok(()) => writer.finish(),
        Err(_) => unreachable!(),
    }
}

fn int_from(alloc: Global, number: i128) -> Result<Int, Error>
    ensures { CopiesContents signed.contents_of (integer_contents number) result }
{
    let mut buffer = [0; MAX_OCTETS];
    let octets = contents_in(&number, &mut buffer);
    match octets.to_vec(alloc) {
        Ok(octets) => Ok(Int { octets }),
        Err(_) => Err(Error::from_kind(ErrorKind::Memory)),
    }
}

fn uint_from(alloc: Global, number: u128) -> Result<Uint, Error>
    ensures { CopiesContents unsigned.contents_of (natural_contents number) result }
{
    let mut buffer = [0; MAX_OCTETS];
    let octets = strip_zeros(contents_in(&number, &mut buffer));
    match octets.to_vec(alloc) {
        Ok(octets) => Ok(Uint { octets }),
        Err(_) => Err(Error::from_kind(ErrorKind::Memory)),
    }
}

impl Int {
    /// Creates an `Int` with the value `number`.
    ///
    /// # Errors
    /// `ErrorKind::Memory` (1) if memory runs out.
    pub fn try_from_i8(alloc: Global, number: i8) -> Result<Int, Error>
        ensures { CopiesContents signed.contents_of (integer_contents number) result }
    {
        int_from(alloc, i128::from(number))
    }

    /// Creates an `Int` with the value `number`.
    ///
    /// # Errors
    /// `ErrorKind::Memory` (1) if memory runs out.
    pub fn try_from_i16(alloc: Global, number: i16) -> Result<Int, Error>
        ensures { CopiesContents signed.contents_of (integer_contents number) result }
    {
        int_from(alloc, i128::from(number))
    }

    /// Creates an `Int` with the value `number`.
    ///
    /// # Errors
    /// `ErrorKind::Memory` (1) if memory runs out.
    pub fn try_from_i32(alloc: Global, number: i32) -> Result<Int, Error>
        ensures { CopiesContents signed.contents_of (integer_contents number) result }
    {
        int_from(alloc, i128::from(number))
    }

    /// Creates an `Int` with the value `number`.
    ///
    /// # Errors
    /// `ErrorKind::Memory` (1) if memory runs out.
    pub fn try_from_i64(alloc: Global, number: i64) -> Result<Int, Error>
        ensures { CopiesContents signed.contents_of (integer_contents number) result }
    {
        int_from(alloc, i128::from(number))
    }

    /// Creates an `Int` with the value `number`.
    ///
    /// # Errors
    /// `ErrorKind::Memory` (1) if memory runs out.
    pub fn try_from_i128(alloc: Global, number: i128) -> Result<Int, Error>
        ensures { CopiesContents signed.contents_of (integer_contents number) result }
    {
        int_from(alloc, number)
    }
}

impl Uint {
    /// Creates a `Uint` with the value `number`.
    ///
    /// # Errors
    /// `ErrorKind::Memory` (1) if memory runs out.
    pub fn try_from_u8(alloc: Global, number: u8) -> Result<Uint, Error>
        ensures { CopiesContents unsigned.contents_of (natural_contents number) result }
    {
        uint_from(alloc, u128::from(number))
    }

    /// Creates a `Uint` with the value `number`.
    ///
    /// # Errors
    /// `ErrorKind::Memory` (1) if memory runs out.
    pub fn try_from_u16(alloc: Global, number: u16) -> Result<Uint, Error>
        ensures { CopiesContents unsigned.contents_of (natural_contents number) result }
    {
        uint_from(alloc, u128::from(number))
    }

    /// Creates a `Uint` with the value `number`.
    ///
    /// # Errors
    /// `ErrorKind::Memory` (1) if memory runs out.
    pub fn try_from_u32(alloc: Global, number: u32) -> Result<Uint, Error>
        ensures { CopiesContents unsigned.contents_of (natural_contents number) result }
    {
        uint_from(alloc, u128::from(number))
    }

    /// Creates a `Uint` with the value `number`.
    ///
    /// # Errors
    /// `ErrorKind::Memory` (1) if memory runs out.
    pub fn try_from_u64(alloc: Global, number: u64) -> Result<Uint, Error>
        ensures { CopiesContents unsigned.contents_of (natural_contents number) result }
    {
        uint_from(alloc, u128::from(number))
    }

    /// Creates a `Uint` with the value `number`.
    ///
    /// # Errors
    /// `ErrorKind::Memory` (1) if memory runs out.
    pub fn try_from_u128(alloc: Global, number: u128) -> Result<Uint, Error>
        ensures { CopiesContents unsigned.contents_of (natural_contents number) result }
    {
        uint_from(alloc, number)
    }
}
