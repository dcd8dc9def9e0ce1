//! Implicit tagging. The type knows the class and the number of the tag (X.690 8.14.3).
//!
//! The tag replaces the value's own tag, and is constructed if that one is. The contents octets
//! are those of the value: [1] of the INTEGER 5 is encoded as 81 01 05.
//!
//! Decoding fails on another tag (4), also on the tag of the other form, and with the errors of
//! the contents octets.

ghost use Rattle.std.specs.Prelude.{◌≡◌};
ghost use Rattle.der_elem.specs.FormatMakers.{mapped_format};

use crate::marker_tag::ImplicitTagIn;
use der_elem::{
    ContentsEq, DecodeValue, DuplicateValue, DuplicateValueIsEqual, EncodeValue, FormValue, OneTag,
    ValueOrd,
};
use der_tlv::{BackWriter, Error, Header, Length, Source, Writer};
use std::alloc::Global;
use std::cmp::Ordering;
use std::ops::Deref;

/// A value whose own tag is replaced by a tag of this class with this number. The class is bits 8
/// and 7 of the identifier. Other crates only get it by the names below, so it is application
/// (1), context-specific (2) or private (3).
#[derive(Clone, Copy, Debug, PartialEq, Eq, Drop)]
pub struct ImplicitIn<T, const CLASS: u8, const NUMBER: u32> {
    /// The value.
    pub value: T,
}

/// A value after a context-specific tag with this number: `[NUMBER] IMPLICIT T`.
pub type Implicit<T, const NUMBER: u32> = ImplicitIn<T, 2, NUMBER>;

/// A value after an application tag with this number: `[APPLICATION NUMBER] IMPLICIT T`.
pub type ImplicitApplication<T, const NUMBER: u32> = ImplicitIn<T, 1, NUMBER>;

/// A value after a private tag with this number: `[PRIVATE NUMBER] IMPLICIT T`.
pub type ImplicitPrivate<T, const NUMBER: u32> = ImplicitIn<T, 3, NUMBER>;

impl<T, const CLASS: u8, const NUMBER: u32> Deref for ImplicitIn<T, CLASS, NUMBER> {
    type Target = T;

    ghost deref_gives = { λ tagged value. value ≡ tagged.value };

    /// Returns the value after the tag.
    fn deref(&self) -> &T {
        &self.value
    }
}

impl<T: OneTag, const CLASS: u8, const NUMBER: u32> OneTag for ImplicitIn<T, CLASS, NUMBER> {
    type Marker = ImplicitTagIn<<T as OneTag>::Marker, CLASS, NUMBER>;
}

impl<T: FormValue, const CLASS: u8, const NUMBER: u32> FormValue for ImplicitIn<T, CLASS, NUMBER> {
    ghost value = { mapped_format (λ v. v.value) T.value };
}

impl<'a, R: Source<'a>, T: DecodeValue<'a, R>, const CLASS: u8, const NUMBER: u32> DecodeValue<
    'a,
    R,
> for ImplicitIn<T, CLASS, NUMBER> {
    ghost TAKES_MEMORY = { T.DecodeValue.TAKES_MEMORY };

    const TAKES_MEMORY: bool = <T as DecodeValue<'a, R>>::TAKES_MEMORY;

    fn decode_value(
        alloc: Global,
        reader: &mut R,
        header: Header,
    ) -> Result<ImplicitIn<T, CLASS, NUMBER>, Error> {
        let value = T::decode_value(alloc, reader, header)?;
        Ok(ImplicitIn { value })
    }

    ghost takes_memory_is = { T.DecodeValue.takes_memory_is };
}

impl<T: EncodeValue, const CLASS: u8, const NUMBER: u32> EncodeValue
    for ImplicitIn<T, CLASS, NUMBER> {
    fn value_len(&self) -> Result<Length, Error> {
        self.value.value_len()
    }

    fn encode_value<W: Writer>(&self, writer: &mut W) -> Result<(), Error> {
        self.value.encode_value(writer)
    }

    fn encode_value_back<W: BackWriter>(&self, writer: &mut W) -> Result<(), Error> {
        self.value.encode_value_back(writer)
    }
}

impl<T: ValueOrd, const CLASS: u8, const NUMBER: u32> ValueOrd for ImplicitIn<T, CLASS, NUMBER> {
    fn value_cmp(&self, other: &ImplicitIn<T, CLASS, NUMBER>) -> Result<Ordering, Error> {
        self.value.value_cmp(&other.value)
    }
}

impl<T: ContentsEq, const CLASS: u8, const NUMBER: u32> ContentsEq
    for ImplicitIn<T, CLASS, NUMBER> {
    ghost contents_eq = { λ v w. T.contents_eq v.value w.value };
}

impl<T: DuplicateValue, const CLASS: u8, const NUMBER: u32> DuplicateValue
    for ImplicitIn<T, CLASS, NUMBER> {
    ghost is_copy_value = { λ v w. T.is_copy_value v.value w.value };

    ghost takes_memory_to_copy_value = { T.takes_memory_to_copy_value };

    fn duplicate_value(&self) -> Result<ImplicitIn<T, CLASS, NUMBER>, Error> {
        let value = self.value.duplicate_value()?;
        Ok(ImplicitIn { value })
    }

    ghost copy_contents = { λ v w. T.copy_contents v.value w.value };

    ghost copy_comparable_value = { λ v w x. T.copy_comparable_value v.value w.value x.value };

    ghost copy_re_reads_value = { λ v w. T.copy_re_reads_value v.value w.value };
}

impl<T: DuplicateValueIsEqual, const CLASS: u8, const NUMBER: u32> DuplicateValueIsEqual
    for ImplicitIn<T, CLASS, NUMBER> {
    ghost copy_value_is_equal = { λ v w. T.copy_value_is_equal v.value w.value };
}
