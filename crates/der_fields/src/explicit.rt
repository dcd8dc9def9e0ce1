//! Explicit tagging. The type knows the class and the number of the tag (X.690 8.14.2).
//!
//! The tag is constructed, and the contents octets are the whole encoding of the value: [1] of
//! the INTEGER 5 is encoded as A1 03 02 01 05. The value may also be a list of fields.
//!
//! Decoding fails on another tag (4), with the errors of the value, and on octets left over after
//! it (3).

ghost use Rattle.std.specs.Prelude.{◌≡◌};
ghost use Rattle.der_elem.specs.FormatMakers.{mapped_format};

use crate::coded::{DecodeFields, EncodeFields};
use crate::copied::{DuplicateFields, DuplicateFieldsAreEqual};
use crate::end::End;
use crate::equal::FieldsEq;
use crate::field::Field;
use crate::field_list::FieldList;
use crate::marker_tag::ExplicitTagIn;
use crate::ordered::FieldsOrd;
use der_elem::{
    ContentsEq, DecodeValue, DuplicateValue, DuplicateValueIsEqual, EncodeValue, FormValue, OneTag,
    ValueOrd,
};
use der_tlv::{BackWriter, Error, Header, Length, Source, Writer};
use std::alloc::Global;
use std::cmp::Ordering;
use std::ops::Deref;

/// Fields after a constructed tag of this class with this number. The class is bits 8 and 7 of
/// the identifier. Other crates only get it by the names below, so it is application (1),
/// context-specific (2) or private (3).
#[derive(Clone, Copy, Debug, PartialEq, Eq, Drop)]
pub struct ExplicitIn<F, const CLASS: u8, const NUMBER: u32> {
    /// The fields.
    pub fields: F,
}

/// A value after a context-specific tag with this number: `[NUMBER] EXPLICIT T`.
pub type Explicit<T, const NUMBER: u32> = ExplicitIn<Field<T, End>, 2, NUMBER>;

/// A value after an application tag with this number: `[APPLICATION NUMBER] EXPLICIT T`.
pub type ExplicitApplication<T, const NUMBER: u32> = ExplicitIn<Field<T, End>, 1, NUMBER>;

/// A value after a private tag with this number: `[PRIVATE NUMBER] EXPLICIT T`.
pub type ExplicitPrivate<T, const NUMBER: u32> = ExplicitIn<Field<T, End>, 3, NUMBER>;

impl<T, const CLASS: u8, const NUMBER: u32> Deref for ExplicitIn<Field<T, End>, CLASS, NUMBER> {
    type Target = T;

    ghost deref_gives = { λ tagged value. value ≡ tagged.fields.first };

    /// Returns the value after the tag.
    fn deref(&self) -> &T {
        &self.fields.first
    }
}

impl<F, const CLASS: u8, const NUMBER: u32> OneTag for ExplicitIn<F, CLASS, NUMBER> {
    type Marker = ExplicitTagIn<CLASS, NUMBER>;
}

impl<F: FieldList, const CLASS: u8, const NUMBER: u32> FormValue for ExplicitIn<F, CLASS, NUMBER> {
    ghost value = { mapped_format (λ v. v.fields) F.list.octets };
}

impl<'a, R: Source<'a>, F: DecodeFields<'a, R>, const CLASS: u8, const NUMBER: u32> DecodeValue<
    'a,
    R,
> for ExplicitIn<F, CLASS, NUMBER> {
    ghost TAKES_MEMORY = { F.DecodeFields.TAKES_MEMORY };

    const TAKES_MEMORY: bool = <F as DecodeFields<'a, R>>::TAKES_MEMORY;

    fn decode_value(
        alloc: Global,
        reader: &mut R,
        _header: Header,
    ) -> Result<ExplicitIn<F, CLASS, NUMBER>, Error> {
        let fields = F::decode_fields(alloc, reader)?;
        Ok(ExplicitIn { fields })
    }

    ghost takes_memory_is = { F.DecodeFields.takes_memory_is };
}

impl<F: EncodeFields, const CLASS: u8, const NUMBER: u32> EncodeValue
    for ExplicitIn<F, CLASS, NUMBER> {
    fn value_len(&self) -> Result<Length, Error> {
        self.fields.fields_len()
    }

    fn encode_value<W: Writer>(&self, writer: &mut W) -> Result<(), Error> {
        self.fields.encode_fields(writer)
    }

    fn encode_value_back<W: BackWriter>(&self, writer: &mut W) -> Result<(), Error> {
        self.fields.encode_fields_back(writer)
    }
}

impl<F: FieldsOrd, const CLASS: u8, const NUMBER: u32> ValueOrd for ExplicitIn<F, CLASS, NUMBER> {
    fn value_cmp(&self, other: &ExplicitIn<F, CLASS, NUMBER>) -> Result<Ordering, Error> {
        self.fields.cmp_fields(&other.fields)
    }
}

impl<F: FieldsEq, const CLASS: u8, const NUMBER: u32> ContentsEq for ExplicitIn<F, CLASS, NUMBER> {
    ghost contents_eq = { λ v w. F.fields_eq v.fields w.fields };
}

impl<F: DuplicateFields, const CLASS: u8, const NUMBER: u32> DuplicateValue
    for ExplicitIn<F, CLASS, NUMBER> {
    ghost is_copy_value = { λ v w. F.are_copies v.fields w.fields };

    ghost takes_memory_to_copy_value = { F.take_memory_to_copy };

    fn duplicate_value(&self) -> Result<ExplicitIn<F, CLASS, NUMBER>, Error> {
        let fields = self.fields.duplicate_fields()?;
        Ok(ExplicitIn { fields })
    }

    ghost copy_contents = { λ v w c. F.copy_joined v.fields w.fields c };

    ghost copy_comparable_value = { λ v w x c f. F.copy_all_comparable v.fields w.fields x.fields c f };

    ghost copy_re_reads_value = { λ v w c. F.copy_re_read v.fields w.fields c };
}

impl<F: DuplicateFieldsAreEqual, const CLASS: u8, const NUMBER: u32> DuplicateValueIsEqual
    for ExplicitIn<F, CLASS, NUMBER> {
    ghost copy_value_is_equal = { λ v w. F.copies_are_equal v.fields w.fields };
}
