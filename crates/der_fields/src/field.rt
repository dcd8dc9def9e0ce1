//! A field of a SEQUENCE, and the fields after it.
//!
//! The octets are those of the field, and then those of the fields after it. A field is absent if
//! nothing follows, or if the next tag is one that none of its encodings begins with. A value
//! whose fields cannot be distinguished in this way is not read from any octets.

ghost use Rattle.std.specs.Prelude.{◌≡◌, ◌||◌};
ghost use Rattle.der_fields.specs.ListMakers.{field_list};
ghost use Rattle.der_fields.specs.FieldLaws.{either_memory};
ghost use Rattle.der_fields.specs.Listing.{field};
ghost use Rattle.der_fields.specs.DistinguishingLaws.{starts_both, distinguished, eq_both};
ghost use Rattle.der_fields.specs.CopyingLaws.{copy_both, copy_comparable_both, copy_re_read_both};
ghost use Rattle.std.proofs.lemmas.Bool.{and_from};

use crate::coded::{DecodeFields, EncodeFields};
use crate::copied::{DuplicateFields, DuplicateFieldsAreEqual};
use crate::equal::FieldsEq;
use crate::field_list::FieldList;
use crate::ordered::{FieldsFirstTag, FieldsOrd, both_or_none, cmp_first_tags};
use crate::soundness::is_sound;
use der_elem::{
    DecodeField, DerOrd, Duplicate, DuplicateIsEqual, Encode, EncodingEq, FirstTag, Form,
};
use der_tlv::{BackWriter, Error, Length, Source, Tag, Writer};
use std::alloc::Global;
use std::cmp::Ordering;

/// A field, and the fields after it.
#[derive(Clone, Copy, Debug, PartialEq, Eq, Drop)]
pub struct Field<T, Rest> {
    /// The field.
    pub first: T,
    /// The fields after it.
    pub rest: Rest,
}

impl<T, Rest> Field<T, Rest> {
    /// Creates a list of this field and the fields after it.
    pub fn new(first: T, rest: Rest) -> Field<T, Rest>
        ensures { result ≡ field first rest }
    {
        Field { first, rest }
    }
}

impl<T: Form, Rest: FieldList> FieldList for Field<T, Rest> {
    ghost list = { field_list T.Form Rest.list };
}

impl<'a, R: Source<'a>, T: DecodeField<'a, R>, Rest: DecodeFields<'a, R>> DecodeFields<'a, R>
    for Field<T, Rest> {
    ghost TAKES_MEMORY = { T.DecodeField.TAKES_MEMORY || Rest.DecodeFields.TAKES_MEMORY };

    const TAKES_MEMORY: bool = <T as DecodeField<'a, R>>::TAKES_MEMORY
        || <Rest as DecodeFields<'a, R>>::TAKES_MEMORY;

    fn decode_fields(alloc: Global, reader: &mut R) -> Result<Field<T, Rest>, Error> {
        is_sound(reader);
        let first = T::decode_field(alloc, reader)?;
        let rest = Rest::decode_fields(alloc, reader)?;
        is_sound(reader);
        Ok(Field { first, rest })
    }

    ghost takes_memory_is = { either_memory T.DecodeField.takes_memory_is Rest.DecodeFields.takes_memory_is };
}

impl<T: Encode, Rest: EncodeFields> EncodeFields for Field<T, Rest> {
    fn fields_len(&self) -> Result<Length, Error> {
        let len = self.first.encoded_len()?;
        len.add(self.rest.fields_len()?)
    }

    fn encode_fields<W: Writer>(&self, writer: &mut W) -> Result<(), Error> {
        self.first.encode(writer)?;
        self.rest.encode_fields(writer)
    }

    fn encode_fields_back<W: BackWriter>(&self, writer: &mut W) -> Result<(), Error> {
        self.rest.encode_fields_back(writer)?;
        self.first.encode_back(writer)
    }
}

impl<T: FirstTag, Rest: FieldsFirstTag> FieldsFirstTag for Field<T, Rest> {
    fn fields_first_tag(&self) -> Option<Tag> {
        match self.first.first_tag() {
            Some(tag) => Some(tag),
            None => self.rest.fields_first_tag(),
        }
    }

    ghost starts_fields = { λ v. starts_both (T.first_tag_of v.first) (Rest.list.first_tag v.rest)
        (T.encoding v.first) (Rest.list.octets.contents v.rest) (T.starts v.first) (Rest.starts_fields v.rest) };
}

impl<T: DerOrd + FirstTag, Rest: FieldsOrd + FieldsFirstTag> FieldsOrd for Field<T, Rest> {
    fn cmp_fields(&self, other: &Field<T, Rest>) -> Result<Ordering, Error> {
        if both_or_none(self.first.first_tag(), other.first.first_tag()) {
            return match self.first.der_cmp(&other.first)? {
                Ordering::Equal => self.rest.cmp_fields(&other.rest),
                order => Ok(order),
            };
        }
        match cmp_first_tags(self.fields_first_tag(), other.fields_first_tag()) {
            Ordering::Equal => Err(Error::from_kind(Tag::Sequence.value_error())),
            order => Ok(order),
        }
    }
}

impl<T: EncodingEq + FirstTag, Rest: FieldsEq + FieldsFirstTag> FieldsEq for Field<T, Rest> {
    ghost fields_eq = { λ v w one.
        eq_both (T.eq v.first w.first) (Rest.eq v.rest w.rest) (T.encoding v.first)
        (T.encoding w.first) (Rest.list.octets.contents v.rest) (Rest.list.octets.contents w.rest)
        (T.encoding_eq v.first w.first one.0) (Rest.fields_eq v.rest w.rest one.1)
        (distinguished T.tags (T.first_tag_of v.first) (T.first_tag_of w.first) (Rest.list.first_tag v.rest)
        (Rest.list.first_tag w.rest) (T.encoding v.first) (T.encoding w.first) (Rest.list.octets.contents v.rest)
        (Rest.list.octets.contents w.rest) (T.own_first_tag v.first) (T.own_first_tag w.first) (T.starts v.first)
        (T.starts w.first) (Rest.starts_fields v.rest) (Rest.starts_fields w.rest)
        (T.same_beginning v.first w.first) one.2 one.3) };
}

impl<T: Duplicate + FirstTag, Rest: DuplicateFields + FieldsFirstTag> DuplicateFields
    for Field<T, Rest> {
    ghost are_copies = { λ v w. T.is_copy v.first w.first × Rest.are_copies v.rest w.rest };

    ghost take_memory_to_copy = { T.takes_memory_to_copy || Rest.take_memory_to_copy };

    fn duplicate_fields(&self) -> Result<Field<T, Rest>, Error> {
        let first = self.first.duplicate()?;
        let rest = self.rest.duplicate_fields()?;
        Ok(Field { first, rest })
    }

    ghost copy_joined = { λ v w c. copy_both (T.encoding v.first) (T.encoding w.first)
        (Rest.list.octets.contents v.rest) (Rest.list.octets.contents w.rest) (T.copy_encoding v.first w.first c.0)
        (Rest.copy_joined v.rest w.rest c.1) };

    ghost copy_all_comparable = { λ v w x c one. (
      T.copy_comparable v.first w.first x.first c.0 one.0,
      Rest.copy_all_comparable v.rest w.rest
          x.rest c.1 one.1,
      copy_comparable_both T.tags (T.first_tag_of v.first) (T.first_tag_of w.first)
          (Rest.list.first_tag v.rest) (Rest.list.first_tag w.rest) (T.encoding v.first) (T.encoding w.first)
          (Rest.list.octets.contents v.rest) (Rest.list.octets.contents w.rest) (T.starts v.first) (T.starts w.first)
          (Rest.starts_fields v.rest) (Rest.starts_fields w.rest)
          (T.copy_encoding v.first w.first c.0) (Rest.copy_joined v.rest w.rest c.1) one.2,
      one.3,
    ) };

    ghost copy_re_read = { λ v w c. copy_re_read_both (T.copy_re_reads v.first w.first c.0)
        (Rest.copy_re_read v.rest w.rest c.1) };
}

impl<
    T: DuplicateIsEqual + FirstTag,
    Rest: DuplicateFieldsAreEqual + FieldsFirstTag,
> DuplicateFieldsAreEqual for Field<T, Rest> {
    ghost copies_are_equal = { λ v w c. and_from (T.eq v.first w.first) (Rest.eq v.rest w.rest)
        (T.copy_is_equal v.first w.first c.0) (Rest.copies_are_equal v.rest w.rest c.1) };
}
