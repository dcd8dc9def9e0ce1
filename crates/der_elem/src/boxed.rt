//! `Box`, which is encoded as its value.
//!
//! Reading refuses with the errors of the value, and then if memory runs out (1).

ghost use Rattle.std.specs.Prelude.{true, refl};
ghost use Rattle.der_elem.specs.FormatMakers.{allocating, mapped_format};

use crate::decode::DecodeValue;
use crate::duplicate::{DuplicateValue, DuplicateValueIsEqual};
use crate::encode::EncodeValue;
use crate::equality::ContentsEq;
use crate::fixed_tag::OneTag;
use crate::form::FormValue;
use crate::sequence::Sequence;
use der_tlv::{BackWriter, Error, ErrorKind, Header, Length, Reader, Source, Writer};
use std::alloc::Global;

impl<T: OneTag> OneTag for Box<T> {
    type Marker = <T as OneTag>::Marker;
}

impl<'a, T: Sequence<'a> + OneTag> Sequence<'a> for Box<T> {
    ghost is_sequence = { T.is_sequence };
}

impl<T: FormValue> FormValue for Box<T> {
    ghost value = { allocating (record (mapped_format (λ v. v.value) T.value) { has_tag = λ v. T.value.has_tag v.value }) };
}

impl<'a, R: Source<'a>, T: DecodeValue<'a, R>> DecodeValue<'a, R> for Box<T> {
    ghost TAKES_MEMORY = { true };

    const TAKES_MEMORY: bool = true;

    fn decode_value(alloc: Global, reader: &mut R, header: Header) -> Result<Box<T>, Error> {
        let value = T::decode_value(alloc, reader, header)?;
        match Box::new(alloc, value) {
            Ok(boxed) => Ok(boxed),
            Err(_) => Err(reader.error(ErrorKind::Memory)),
        }
    }

    ghost takes_memory_is = { refl };
}

impl<T: EncodeValue> EncodeValue for Box<T> {
    fn value_len(&self) -> Result<Length, Error> {
        self.as_ref().value_len()
    }

    fn encode_value<W: Writer>(&self, writer: &mut W) -> Result<(), Error> {
        self.as_ref().encode_value(writer)
    }

    fn encode_value_back<W: BackWriter>(&self, writer: &mut W) -> Result<(), Error> {
        self.as_ref().encode_value_back(writer)
    }
}

impl<T: ContentsEq> ContentsEq for Box<T> {
    ghost contents_eq = { λ v w. T.contents_eq v.value w.value };
}

impl<T: DuplicateValue> DuplicateValue for Box<T> {
    ghost is_copy_value = { λ v w. T.is_copy_value v.value w.value };

    ghost takes_memory_to_copy_value = { true };

    fn duplicate_value(&self) -> Result<Box<T>, Error> {
        let copy = self.as_ref().duplicate_value()?;
        match Box::new(*Box::allocator(self), copy) {
            Ok(boxed) => Ok(boxed),
            Err(_) => Err(Error::from_kind(ErrorKind::Memory)),
        }
    }

    ghost copy_contents = { λ v w. T.copy_contents v.value w.value };

    ghost copy_comparable_value = { λ v w x. T.copy_comparable_value v.value w.value x.value };

    ghost copy_re_reads_value = { λ v w. T.copy_re_reads_value v.value w.value };
}

impl<T: DuplicateValueIsEqual> DuplicateValueIsEqual for Box<T> {
    ghost copy_value_is_equal = { λ v w. T.copy_value_is_equal v.value w.value };
}
