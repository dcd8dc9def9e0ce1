//! SEQUENCE of a list of fields (X.690 8.9, X.680 25).
//!
//! The tag is 30. The contents octets are the encodings of the fields that are present, one after
//! another: the fields 5 and `true` are encoded as 30 06 02 01 05 01 01 FF.
//!
//! Decoding fails with the first error of the fields, in their order, and then on octets that are
//! left over (`ErrorKind::TrailingData`, 3). The order of two values is that of their encodings.

ghost use Rattle.std.specs.Prelude.{refl};
ghost use Rattle.der_elem.specs.Decoding.{ReadsAll};
ghost use Rattle.der_elem.specs.FormatMakers.{mapped_format};
ghost use Rattle.der_fields.specs.SequenceWriting.{WritesAll};

use crate::coded::{DecodeFields, EncodeFields};
use crate::copied::{DuplicateFields, DuplicateFieldsAreEqual};
use crate::equal::FieldsEq;
use crate::field_list::FieldList;
use crate::ordered::FieldsOrd;
use der_elem::{
    ContentsEq, DecodeValue, DuplicateValue, DuplicateValueIsEqual, Encode, EncodeValue, Form,
    FormValue, FromDer, OneTag, Sequence, SequenceTag, ValueOrd,
};
use der_tlv::{BackWriter, Error, Header, Length, SliceReader, Source, Writer};
use std::alloc::Global;
use std::cmp::Ordering;

/// A SEQUENCE of these fields in their order.
#[derive(Clone, Copy, Debug, PartialEq, Eq, Drop)]
pub struct FieldSequence<F> {
    /// The fields.
    pub fields: F,
}

impl<F: FieldList> FormValue for FieldSequence<F> {
    ghost value = { mapped_format (λ v. v.fields) F.list.octets };
}

impl<F> OneTag for FieldSequence<F> {
    type Marker = SequenceTag;
}

impl<'a, F> Sequence<'a> for FieldSequence<F> {
    ghost is_sequence = { refl };
}

impl<'a, R: Source<'a>, F: DecodeFields<'a, R>> DecodeValue<'a, R> for FieldSequence<F> {
    ghost TAKES_MEMORY = { F.DecodeFields.TAKES_MEMORY };

    const TAKES_MEMORY: bool = <F as DecodeFields<'a, R>>::TAKES_MEMORY;

    fn decode_value(
        alloc: Global,
        reader: &mut R,
        _header: Header,
    ) -> Result<FieldSequence<F>, Error> {
        let fields = F::decode_fields(alloc, reader)?;
        Ok(FieldSequence { fields })
    }

    ghost takes_memory_is = { F.DecodeFields.takes_memory_is };
}

impl<F: EncodeFields> EncodeValue for FieldSequence<F> {
    fn value_len(&self) -> Result<Length, Error> {
        self.fields.fields_len()
    }

    fn encode_value<W: Writer>(&self, writer: &mut W) -> Result<(), Error> {
        self.fields.encode_fields(writer)
    }

    fn encode_value_back<W: BackWriter>(&self, writer: &mut W) -> Result<(), Error> {
        self.fields.encode_fields_back(writer)
    }
}

impl<F: FieldsOrd> ValueOrd for FieldSequence<F> {
    fn value_cmp(&self, other: &FieldSequence<F>) -> Result<Ordering, Error> {
        self.fields.cmp_fields(&other.fields)
    }
}

impl<F: FieldsEq> ContentsEq for FieldSequence<F> {
    ghost contents_eq = { λ v w. F.fields_eq v.fields w.fields };
}

impl<F: DuplicateFields> DuplicateValue for FieldSequence<F> {
    ghost is_copy_value = { λ v w. F.are_copies v.fields w.fields };

    ghost takes_memory_to_copy_value = { F.take_memory_to_copy };

    fn duplicate_value(&self) -> Result<FieldSequence<F>, Error> {
        let fields = self.fields.duplicate_fields()?;
        Ok(FieldSequence { fields })
    }

    ghost copy_contents = { λ v w c. F.copy_joined v.fields w.fields c };

    ghost copy_comparable_value = { λ v w x c f. F.copy_all_comparable v.fields w.fields x.fields c f };

    ghost copy_re_reads_value = { λ v w c. F.copy_re_read v.fields w.fields c };
}

impl<F: DuplicateFieldsAreEqual> DuplicateValueIsEqual for FieldSequence<F> {
    ghost copy_value_is_equal = { λ v w. F.copies_are_equal v.fields w.fields };
}

/// Reads a SEQUENCE of these fields from all of the octets, under DER.
///
/// It is `from_der`, proved once for every list, so that the prover checks a call at a long list
/// sooner.
///
/// # Errors
/// The first error of the octets, in the order of the fields; `ErrorKind::TrailingData` (3) if
/// octets are left over; `ErrorKind::Overflow` (9) if there are more than 4294967295;
/// `ErrorKind::Memory` (1) if a type takes memory and memory runs out.
pub fn read_sequence<'a, F: DecodeFields<'a, SliceReader<'a>>>(
    alloc: Global,
    bytes: &'a [u8],
) -> Result<FieldSequence<F>, Error>
    ensures { ReadsAll ⟦<FieldSequence<F> as Form>⟧ bytes.now result }
{
    FieldSequence::<F>::from_der(alloc, bytes)
}

/// Writes the one encoding of a SEQUENCE of these fields.
///
/// It is `to_der`, proved once for every list.
///
/// # Errors
/// `ErrorKind::Memory` (1) if memory runs out; `ErrorKind::Overflow` (9) if there are more than
/// 4294967295 octets.
pub fn write_sequence<F: EncodeFields>(
    alloc: Global,
    value: &FieldSequence<F>,
) -> Result<Vec<u8>, Error>
    ensures { WritesAll ⟦<FieldSequence<F> as Form>⟧ value.now result }
{
    value.to_der(alloc)
}
