//! Two fields of a SEQUENCE, and those after them.

ghost use Rattle.std.specs.Prelude.{◌≡◌, ◌||◌};
ghost use Rattle.der_fields.specs.ListMakers.{part_of, field_list};
ghost use Rattle.der_fields.specs.FieldLaws.{either_memory};
ghost use Rattle.der_fields.specs.FieldSteps.{each, both, list_tags, tags_after, rest_starts, rest_equality, rest_copies, rest_equal_copies, rest_distinct, starts_step, equality_step, copies_step, equal_copies_step, distinct_step};
ghost use Rattle.der_fields.specs.Listing.{field, end};

use crate::coded::{DecodeFields, EncodeFields};
use crate::copied::{DuplicateFields, DuplicateFieldsAreEqual};
use crate::distinct::DistinctTags;
use crate::end::End;
use crate::equal::FieldsEq;
use crate::field::Field;
use crate::field_list::FieldList;
use crate::ordered::{FieldsFirstTag, FieldsOrd};
use der_elem::{
    DecodeField, DerOrd, Duplicate, DuplicateIsEqual, Encode, EncodingEq, FirstTag, Form, KnownTags,
};
use der_tlv::{BackWriter, Error, Length, Source, Tag, Writer};
use std::alloc::Global;
use std::cmp::Ordering;

/// Two fields, and those after them.
#[derive(Clone, Copy, Debug, PartialEq, Eq, Drop)]
pub struct Fields2<A, B, Rest = End> {
    /// The list.
    pub list: Field<A, Field<B, Rest>>,
}

impl<A, B> Fields2<A, B> {
    /// A list of these fields.
    pub fn new(first: A, second: B) -> Fields2<A, B>
        ensures { result.list ≡ field first (field second end) }
    {
        Fields2::with_rest(first, second, End)
    }

    /// The fields, in their order.
    pub fn into_parts(self) -> (A, B)
        ensures { self.list ≡ field result.0 (field result.1 end) }
    {
        let list = self.list;
        (list.first, list.rest.first)
    }
}

impl<A, B, Rest> Fields2<A, B, Rest> {
    /// A list of these fields, and of those after them.
    pub fn with_rest(first: A, second: B, rest: Rest) -> Fields2<A, B, Rest>
        ensures { result.list ≡ field first (field second rest) }
    {
        let rest = Field {
            first: second,
            rest,
        };
        let list = Field { first, rest };
        Fields2 { list }
    }

    /// The first field.
    pub fn first(&self) -> &A
        ensures { result.now ≡ self.now.list.first }
    {
        &self.list.first
    }

    /// The second field.
    pub fn second(&self) -> &B
        ensures { result.now ≡ self.now.list.rest.first }
    {
        &self.list.rest.first
    }

    /// The fields after.
    pub fn rest(&self) -> &Rest
        ensures { result.now ≡ self.now.list.rest.rest }
    {
        &self.list.rest.rest
    }
}

impl<A: Form, B: Form, Rest: FieldList> FieldList for Fields2<A, B, Rest> {
    ghost list = { part_of (λ v. v.list) (field_list A.Form (field_list B.Form Rest.list)) };
}

impl<
    'a,
    R: Source<'a>,
    A: DecodeField<'a, R>,
    B: DecodeField<'a, R>,
    Rest: DecodeFields<'a, R>,
> DecodeFields<'a, R> for Fields2<A, B, Rest> {
    ghost TAKES_MEMORY = { A.DecodeField.TAKES_MEMORY || (B.DecodeField.TAKES_MEMORY || Rest.DecodeFields.TAKES_MEMORY) };

    const TAKES_MEMORY: bool = <A as DecodeField<'a, R>>::TAKES_MEMORY
        || (<B as DecodeField<'a, R>>::TAKES_MEMORY || <Rest as DecodeFields<'a, R>>::TAKES_MEMORY);

    fn decode_fields(alloc: Global, reader: &mut R) -> Result<Fields2<A, B, Rest>, Error> {
        let list = Field::<A, Field<B, Rest>>::decode_fields(alloc, reader)?;
        Ok(Fields2 { list })
    }

    ghost takes_memory_is = { either_memory A.DecodeField.takes_memory_is (either_memory B.DecodeField.takes_memory_is Rest.DecodeFields.takes_memory_is) };
}

impl<A: Encode, B: Encode, Rest: EncodeFields> EncodeFields for Fields2<A, B, Rest> {
    fn fields_len(&self) -> Result<Length, Error> {
        self.list.fields_len()
    }

    fn encode_fields<W: Writer>(&self, writer: &mut W) -> Result<(), Error> {
        self.list.encode_fields(writer)
    }

    fn encode_fields_back<W: BackWriter>(&self, writer: &mut W) -> Result<(), Error> {
        self.list.encode_fields_back(writer)
    }
}

impl<A: FirstTag, B: FirstTag, Rest: FieldsFirstTag> FieldsFirstTag for Fields2<A, B, Rest> {
    fn fields_first_tag(&self) -> Option<Tag> {
        self.list.fields_first_tag()
    }

    ghost starts_fields = { λ v. (starts_step A.Form A.starts (starts_step B.Form B.starts (rest_starts Rest.list Rest.starts_fields))).starts v.list };
}

impl<A: DerOrd + FirstTag, B: DerOrd + FirstTag, Rest: FieldsOrd + FieldsFirstTag> FieldsOrd
    for Fields2<A, B, Rest> {
    fn cmp_fields(&self, other: &Fields2<A, B, Rest>) -> Result<Ordering, Error> {
        self.list.cmp_fields(&other.list)
    }
}

impl<A: EncodingEq + FirstTag, B: EncodingEq + FirstTag, Rest: FieldsEq + FieldsFirstTag> FieldsEq
    for Fields2<A, B, Rest> {
    ghost fields_eq = { λ v w.
        (equality_step A.Form A.eq A.encoding_eq A.starts A.own_first_tag A.same_beginning
        (equality_step B.Form B.eq B.encoding_eq B.starts B.own_first_tag B.same_beginning
        (rest_equality Rest.list Rest.starts_fields Rest.eq Rest.fields_eq))).equal v.list w.list };
}

impl<
    A: Duplicate + FirstTag,
    B: Duplicate + FirstTag,
    Rest: DuplicateFields + FieldsFirstTag,
> DuplicateFields for Fields2<A, B, Rest> {
    ghost are_copies = { λ v w. (both A.is_copy (both B.is_copy Rest.are_copies)) v.list w.list };

    ghost take_memory_to_copy = { A.takes_memory_to_copy || (B.takes_memory_to_copy || Rest.take_memory_to_copy) };

    fn duplicate_fields(&self) -> Result<Fields2<A, B, Rest>, Error> {
        let list = self.list.duplicate_fields()?;
        Ok(Fields2 { list })
    }

    ghost copy_joined = { λ v w.
        (copies_step A.Form A.is_copy A.starts A.copy_encoding A.copy_comparable A.copy_re_reads
        (copies_step B.Form B.is_copy B.starts B.copy_encoding B.copy_comparable B.copy_re_reads
        (rest_copies Rest.list Rest.starts_fields Rest.are_copies Rest.copy_joined Rest.copy_all_comparable Rest.copy_re_read))).joined v.list w.list };

    ghost copy_all_comparable = { λ v w x.
        (copies_step A.Form A.is_copy A.starts A.copy_encoding A.copy_comparable A.copy_re_reads
        (copies_step B.Form B.is_copy B.starts B.copy_encoding B.copy_comparable B.copy_re_reads
        (rest_copies Rest.list Rest.starts_fields Rest.are_copies Rest.copy_joined Rest.copy_all_comparable Rest.copy_re_read))).comparable v.list w.list x.list };

    ghost copy_re_read = { λ v w.
        (copies_step A.Form A.is_copy A.starts A.copy_encoding A.copy_comparable A.copy_re_reads
        (copies_step B.Form B.is_copy B.starts B.copy_encoding B.copy_comparable B.copy_re_reads
        (rest_copies Rest.list Rest.starts_fields Rest.are_copies Rest.copy_joined Rest.copy_all_comparable Rest.copy_re_read))).re_read v.list w.list };
}

impl<
    A: DuplicateIsEqual + FirstTag,
    B: DuplicateIsEqual + FirstTag,
    Rest: DuplicateFieldsAreEqual + FieldsFirstTag,
> DuplicateFieldsAreEqual for Fields2<A, B, Rest> {
    ghost copies_are_equal = { λ v w.
        (equal_copies_step A.is_copy A.eq A.copy_is_equal
        (equal_copies_step B.is_copy B.eq B.copy_is_equal
        (rest_equal_copies Rest.are_copies Rest.eq Rest.copies_are_equal))).equal v.list w.list };
}

impl<A: KnownTags + FirstTag, B: KnownTags + FirstTag, Rest: DistinctTags> DistinctTags
    for Fields2<A, B, Rest> {
    ghost first_tags = { (tags_after A.MAY_BE_ABSENT A.known_tags (tags_after B.MAY_BE_ABSENT B.known_tags (list_tags Rest.first_tags Rest.TAGS_ARE_DISTINCT))).first };

    ghost TAGS_ARE_DISTINCT = { (tags_after A.MAY_BE_ABSENT A.known_tags (tags_after B.MAY_BE_ABSENT B.known_tags (list_tags Rest.first_tags Rest.TAGS_ARE_DISTINCT))).are_distinct };

    ghost each_readable = { λ v. (each A.readable (each B.readable Rest.each_readable)) v.list };

    ghost each_comparable = { λ v w. (both A.comparable (both B.comparable Rest.each_comparable)) v.list w.list };

    ghost first_is_known = { λ v.
        (distinct_step A.Form A.known_tags A.MAY_BE_ABSENT A.own_first_tag A.are_known A.is_there
        (distinct_step B.Form B.known_tags B.MAY_BE_ABSENT B.own_first_tag B.are_known B.is_there
        (rest_distinct Rest.list Rest.first_tags Rest.TAGS_ARE_DISTINCT Rest.each_readable Rest.each_comparable Rest.first_is_known Rest.readable_if_distinct Rest.comparable_if_distinct))).known v.list };

    ghost readable_if_distinct = { λ e v.
        (distinct_step A.Form A.known_tags A.MAY_BE_ABSENT A.own_first_tag A.are_known A.is_there
        (distinct_step B.Form B.known_tags B.MAY_BE_ABSENT B.own_first_tag B.are_known B.is_there
        (rest_distinct Rest.list Rest.first_tags Rest.TAGS_ARE_DISTINCT Rest.each_readable Rest.each_comparable Rest.first_is_known Rest.readable_if_distinct Rest.comparable_if_distinct))).readable e v.list };

    ghost comparable_if_distinct = { λ e v w.
        (distinct_step A.Form A.known_tags A.MAY_BE_ABSENT A.own_first_tag A.are_known A.is_there
        (distinct_step B.Form B.known_tags B.MAY_BE_ABSENT B.own_first_tag B.are_known B.is_there
        (rest_distinct Rest.list Rest.first_tags Rest.TAGS_ARE_DISTINCT Rest.each_readable Rest.each_comparable Rest.first_is_known Rest.readable_if_distinct Rest.comparable_if_distinct))).comparable e v.list w.list };
}
