//! The canonical encoding of the value that octets encode, in a buffer that is kept.

ghost use Rattle.der_tlv.specs.declared.tag.Tag.TheVariants.{Sequence, Set};
ghost use Rattle.der_nest.specs.Sets.{parse_set};
ghost use Rattle.der_lines.specs.Puts.{Puts};
ghost use Rattle.der_lines.specs.Rows.{row_of, tagged, taking, between};

use crate::kept_writer::KeptWriter;
use der_elem::{Decode, DerOrd, Encode, FromDer, Tagged};
use der_fields::{DecodeFields, EncodeFields, FieldSequence};
use der_nest::SetOfVec;
use der_tlv::{Error, SliceReader};
use std::alloc::Global;
use std::marker::PhantomData;

/// Reads a value from all of the octets, and replaces the octets of `encoding` by its canonical
/// encoding.
///
/// # Errors
/// The first error in the octets; `ErrorKind::Memory` (1) if memory runs out: for a type that
/// takes no memory to be read, only for octets that encode a value; for one that takes memory
/// after every error of the value is found, only for octets that begin with the encoding of a
/// value.
pub fn put_canonical<'a, T: FromDer<'a> + Encode>(
    alloc: Global,
    octets: &'a [u8],
    encoding: &mut KeptWriter,
) -> Result<(), Error>
    ensures { Puts (row_of T.Form) octets.now encoding.new.octets.items result }
{
    let value = T::from_der(alloc, octets)?;
    encoding.clear();
    value.encode(encoding)
}

/// Does the work of `put_canonical` for a set of any number of items.
///
/// # Errors
/// The first error in the octets; `ErrorKind::Memory` (1) if memory runs out.
pub fn put_canonical_set<'a, T: Decode<'a, SliceReader<'a>> + Encode + DerOrd + Tagged>(
    alloc: Global,
    octets: &'a [u8],
    encoding: &mut KeptWriter,
) -> Result<(), Error>
    ensures { Puts (tagged between Set (parse_set T.parse)) octets.now
        encoding.new.octets.items result }
{
    put_canonical::<SetOfVec<T>>(alloc, octets, encoding)
}

/// Does the work of `put_canonical` for a SEQUENCE of a list of fields; `_sequence` has its type.
///
/// It is proved once for every list, so that a call with a long list is checked faster.
///
/// # Errors
/// The first error in the octets; `ErrorKind::Memory` (1) if memory runs out.
pub fn put_canonical_sequence<'a, F: DecodeFields<'a, SliceReader<'a>> + EncodeFields>(
    alloc: Global,
    octets: &'a [u8],
    encoding: &mut KeptWriter,
    _sequence: PhantomData<FieldSequence<F>>,
) -> Result<(), Error>
    ensures { Puts (tagged (taking F.list.octets.TAKES_MEMORY F.list.octets.FAULTS_FIRST)
        Sequence F.list.octets.parse) octets.now encoding.new.octets.items result }
{
    put_canonical::<FieldSequence<F>>(alloc, octets, encoding)
}
