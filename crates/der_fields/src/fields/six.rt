//! Six fields of a SEQUENCE, and those after them.

ghost use Rattle.std.specs.Prelude.{◌≡◌, ◌||◌};
ghost use Rattle.der_fields.specs.ListMakers.{part_of, field_list};
ghost use Rattle.der_fields.specs.FieldLaws.{either_memory};
ghost use Rattle.der_fields.specs.FieldSteps.{each, both, list_tags, tags_after, rest_starts, rest_equality, rest_copies, rest_equal_copies, rest_distinct, starts_step, equality_step, copies_step, equal_copies_step, distinct_step};
ghost use Rattle.der_fields.specs.Listing.{field, end};

use crate::coded::{DecodeFields, EncodeFields};
use crate::copied::{DuplicateFields, DuplicateFieldsAreEqual};
use crate::distinct::DistinctTags;
use crate::end::End;
use crate::equal::FieldsEq;
use crate::field::Field;
use crate::field_list::FieldList;
use crate::ordered::{FieldsFirstTag, FieldsOrd};
use der_elem::{
    DecodeField, DerOrd, Duplicate, DuplicateIsEqual, Encode, EncodingEq, FirstTag, Form, KnownTags,
};
use der_tlv::{BackWriter, Error, Length, Source, Tag, Writer};
use std::alloc::Global;
use std::cmp::Ordering;

/// Six fields, and those after them.
#[derive(Clone, Copy, Debug, PartialEq, Eq, Drop)]
pub struct Fields6<A, B, C, D, E, F, Rest = End> {
    /// The list.
    pub list: Field<A, Field<B, Field<C, Field<D, Field<E, Field<F, Rest>>>>>>,
}

impl<A, B, C, D, E, F> Fields6<A, B, C, D, E, F> {
    /// A list of these fields.
    pub fn new(
        first: A,
        second: B,
        third: C,
        fourth: D,
        fifth: E,
        sixth: F,
    ) -> Fields6<A, B, C, D, E, F>
        ensures { result.list ≡ field first (field second (field third (field fourth (field fifth (field sixth end))))) }
    {
        Fields6::with_rest(first, second, third, fourth, fifth, sixth, End)
    }

    /// The fields, in their order.
    pub fn into_parts(self) -> (A, B, C, D, E, F)
        ensures { self.list ≡ field result.0 (field result.1 (field result.2 (field result.3 (field result.4 (field result.5 end))))) }
    {
        let list = self.list;
        (
            list.first,
            list.rest.first,
            list.rest.rest.first,
            list.rest.rest.rest.first,
            list.rest.rest.rest.rest.first,
            list.rest.rest.rest.rest.rest.first,
        )
    }
}

impl<A, B, C, D, E, F, Rest> Fields6<A, B, C, D, E, F, Rest> {
    /// A list of these fields, and of those after them.
    pub fn with_rest(
        first: A,
        second: B,
        third: C,
        fourth: D,
        fifth: E,
        sixth: F,
        rest: Rest,
    ) -> Fields6<A, B, C, D, E, F, Rest>
        ensures { result.list ≡ field first (field second (field third (field fourth (field fifth (field sixth rest))))) }
    {
        let rest = Field { first: sixth, rest };
        let rest = Field { first: fifth, rest };
        let rest = Field {
            first: fourth,
            rest,
        };
        let rest = Field { first: third, rest };
        let rest = Field {
            first: second,
            rest,
        };
        let list = Field { first, rest };
        Fields6 { list }
    }

    /// The first field.
    pub fn first(&self) -> &A
        ensures { result.now ≡ self.now.list.first }
    {
        &self.list.first
    }

    /// The second field.
    pub fn second(&self) -> &B
        ensures { result.now ≡ self.now.list.rest.first }
    {
        &self.list.rest.first
    }

    /// The third field.
    pub fn third(&self) -> &C
        ensures { result.now ≡ self.now.list.rest.rest.first }
    {
        &self.list.rest.rest.first
    }

    /// The fourth field.
    pub fn fourth(&self) -> &D
        ensures { result.now ≡ self.now.list.rest.rest.rest.first }
    {
        &self.list.rest.rest.rest.first
    }

    /// The fifth field.
    pub fn fifth(&self) -> &E
        ensures { result.now ≡ self.now.list.rest.rest.rest.rest.first }
    {
        &self.list.rest.rest.rest.rest.first
    }

    /// The sixth field.
    pub fn sixth(&self) -> &F
        ensures { result.now ≡ self.now.list.rest.rest.rest.rest.rest.first }
    {
        &self.list.rest.rest.rest.rest.rest.first
    }

    /// The fields after.
    pub fn rest(&self) -> &Rest
        ensures { result.now ≡ self.now.list.rest.rest.rest.rest.rest.rest }
    {
        &self.list.rest.rest.rest.rest.rest.rest
    }
}

impl<A: Form, B: Form, C: Form, D: Form, E: Form, F: Form, Rest: FieldList> FieldList
    for Fields6<A, B, C, D, E, F, Rest> {
    ghost list = { part_of (λ v. v.list) (field_list A.Form (field_list B.Form (field_list C.Form (field_list D.Form (field_list E.Form (field_list F.Form Rest.list)))))) };
}

impl<
    'a,
    R: Source<'a>,
    A: DecodeField<'a, R>,
    B: DecodeField<'a, R>,
    C: DecodeField<'a, R>,
    D: DecodeField<'a, R>,
    E: DecodeField<'a, R>,
    F: DecodeField<'a, R>,
    Rest: DecodeFields<'a, R>,
> DecodeFields<'a, R> for Fields6<A, B, C, D, E, F, Rest> {
    ghost TAKES_MEMORY = { A.DecodeField.TAKES_MEMORY || (B.DecodeField.TAKES_MEMORY || (C.DecodeField.TAKES_MEMORY || (D.DecodeField.TAKES_MEMORY || (E.DecodeField.TAKES_MEMORY || (F.DecodeField.TAKES_MEMORY || Rest.DecodeFields.TAKES_MEMORY))))) };

    const TAKES_MEMORY: bool = <A as DecodeField<'a, R>>::TAKES_MEMORY
        || (<B as DecodeField<'a, R>>::TAKES_MEMORY
            || (<C as DecodeField<'a, R>>::TAKES_MEMORY
                || (<D as DecodeField<'a, R>>::TAKES_MEMORY
                    || (<E as DecodeField<'a, R>>::TAKES_MEMORY
                        || (<F as DecodeField<'a, R>>::TAKES_MEMORY
                            || <Rest as DecodeFields<'a, R>>::TAKES_MEMORY)))));

    fn decode_fields(
        alloc: Global,
        reader: &mut R,
    ) -> Result<Fields6<A, B, C, D, E, F, Rest>, Error> {
        let list = Field::<
            A,
            Field<B, Field<C, Field<D, Field<E, Field<F, Rest>>>>>,
        >::decode_fields(alloc, reader)?;
        Ok(Fields6 { list })
    }

    ghost takes_memory_is = { either_memory A.DecodeField.takes_memory_is (either_memory B.DecodeField.takes_memory_is (either_memory C.DecodeField.takes_memory_is (either_memory D.DecodeField.takes_memory_is (either_memory E.DecodeField.takes_memory_is (either_memory F.DecodeField.takes_memory_is Rest.DecodeFields.takes_memory_is))))) };
}

impl<
    A: Encode,
    B: Encode,
    C: Encode,
    D: Encode,
    E: Encode,
    F: Encode,
    Rest: EncodeFields,
> EncodeFields for Fields6<A, B, C, D, E, F, Rest> {
    fn fields_len(&self) -> Result<Length, Error> {
        self.list.fields_len()
    }

    fn encode_fields<W: Writer>(&self, writer: &mut W) -> Result<(), Error> {
        self.list.encode_fields(writer)
    }

    fn encode_fields_back<W: BackWriter>(&self, writer: &mut W) -> Result<(), Error> {
        self.list.encode_fields_back(writer)
    }
}

impl<
    A: FirstTag,
    B: FirstTag,
    C: FirstTag,
    D: FirstTag,
    E: FirstTag,
    F: FirstTag,
    Rest: FieldsFirstTag,
> FieldsFirstTag for Fields6<A, B, C, D, E, F, Rest> {
    fn fields_first_tag(&self) -> Option<Tag> {
        self.list.fields_first_tag()
    }

    ghost starts_fields = { λ v. (starts_step A.Form A.starts (starts_step B.Form B.starts (starts_step C.Form C.starts (starts_step D.Form D.starts (starts_step E.Form E.starts (starts_step F.Form F.starts (rest_starts Rest.list Rest.starts_fields))))))).starts v.list };
}

impl<
    A: DerOrd + FirstTag,
    B: DerOrd + FirstTag,
    C: DerOrd + FirstTag,
    D: DerOrd + FirstTag,
    E: DerOrd + FirstTag,
    F: DerOrd + FirstTag,
    Rest: FieldsOrd + FieldsFirstTag,
> FieldsOrd for Fields6<A, B, C, D, E, F, Rest> {
    fn cmp_fields(&self, other: &Fields6<A, B, C, D, E, F, Rest>) -> Result<Ordering, Error> {
        self.list.cmp_fields(&other.list)
    }
}

impl<
    A: EncodingEq + FirstTag,
    B: EncodingEq + FirstTag,
    C: EncodingEq + FirstTag,
    D: EncodingEq + FirstTag,
    E: EncodingEq + FirstTag,
    F: EncodingEq + FirstTag,
    Rest: FieldsEq + FieldsFirstTag,
> FieldsEq for Fields6<A, B, C, D, E, F, Rest> {
    ghost fields_eq = { λ v w.
        (equality_step A.Form A.eq A.encoding_eq A.starts A.own_first_tag A.same_beginning
        (equality_step B.Form B.eq B.encoding_eq B.starts B.own_first_tag B.same_beginning
        (equality_step C.Form C.eq C.encoding_eq C.starts C.own_first_tag C.same_beginning
        (equality_step D.Form D.eq D.encoding_eq D.starts D.own_first_tag D.same_beginning
        (equality_step E.Form E.eq E.encoding_eq E.starts E.own_first_tag E.same_beginning
        (equality_step F.Form F.eq F.encoding_eq F.starts F.own_first_tag F.same_beginning
        (rest_equality Rest.list Rest.starts_fields Rest.eq Rest.fields_eq))))))).equal v.list w.list };
}

impl<
    A: Duplicate + FirstTag,
    B: Duplicate + FirstTag,
    C: Duplicate + FirstTag,
    D: Duplicate + FirstTag,
    E: Duplicate + FirstTag,
    F: Duplicate + FirstTag,
    Rest: DuplicateFields + FieldsFirstTag,
> DuplicateFields for Fields6<A, B, C, D, E, F, Rest> {
    ghost are_copies = { λ v w. (both A.is_copy (both B.is_copy (both C.is_copy (both D.is_copy (both E.is_copy (both F.is_copy Rest.are_copies)))))) v.list w.list };

    ghost take_memory_to_copy = { A.takes_memory_to_copy || (B.takes_memory_to_copy || (C.takes_memory_to_copy || (D.takes_memory_to_copy || (E.takes_memory_to_copy || (F.takes_memory_to_copy || Rest.take_memory_to_copy))))) };

    fn duplicate_fields(&self) -> Result<Fields6<A, B, C, D, E, F, Rest>, Error> {
        let list = self.list.duplicate_fields()?;
        Ok(Fields6 { list })
    }

    ghost copy_joined = { λ v w.
        (copies_step A.Form A.is_copy A.starts A.copy_encoding A.copy_comparable A.copy_re_reads
        (copies_step B.Form B.is_copy B.starts B.copy_encoding B.copy_comparable B.copy_re_reads
        (copies_step C.Form C.is_copy C.starts C.copy_encoding C.copy_comparable C.copy_re_reads
        (copies_step D.Form D.is_copy D.starts D.copy_encoding D.copy_comparable D.copy_re_reads
        (copies_step E.Form E.is_copy E.starts E.copy_encoding E.copy_comparable E.copy_re_reads
        (copies_step F.Form F.is_copy F.starts F.copy_encoding F.copy_comparable F.copy_re_reads
        (rest_copies Rest.list Rest.starts_fields Rest.are_copies Rest.copy_joined Rest.copy_all_comparable Rest.copy_re_read))))))).joined v.list w.list };

    ghost copy_all_comparable = { λ v w x.
        (copies_step A.Form A.is_copy A.starts A.copy_encoding A.copy_comparable A.copy_re_reads
        (copies_step B.Form B.is_copy B.starts B.copy_encoding B.copy_comparable B.copy_re_reads
        (copies_step C.Form C.is_copy C.starts C.copy_encoding C.copy_comparable C.copy_re_reads
        (copies_step D.Form D.is_copy D.starts D.copy_encoding D.copy_comparable D.copy_re_reads
        (copies_step E.Form E.is_copy E.starts E.copy_encoding E.copy_comparable E.copy_re_reads
        (copies_step F.Form F.is_copy F.starts F.copy_encoding F.copy_comparable F.copy_re_reads
        (rest_copies Rest.list Rest.starts_fields Rest.are_copies Rest.copy_joined Rest.copy_all_comparable Rest.copy_re_read))))))).comparable v.list w.list x.list };

    ghost copy_re_read = { λ v w.
        (copies_step A.Form A.is_copy A.starts A.copy_encoding A.copy_comparable A.copy_re_reads
        (copies_step B.Form B.is_copy B.starts B.copy_encoding B.copy_comparable B.copy_re_reads
        (copies_step C.Form C.is_copy C.starts C.copy_encoding C.copy_comparable C.copy_re_reads
        (copies_step D.Form D.is_copy D.starts D.copy_encoding D.copy_comparable D.copy_re_reads
        (copies_step E.Form E.is_copy E.starts E.copy_encoding E.copy_comparable E.copy_re_reads
        (copies_step F.Form F.is_copy F.starts F.copy_encoding F.copy_comparable F.copy_re_reads
        (rest_copies Rest.list Rest.starts_fields Rest.are_copies Rest.copy_joined Rest.copy_all_comparable Rest.copy_re_read))))))).re_read v.list w.list };
}

impl<
    A: DuplicateIsEqual + FirstTag,
    B: DuplicateIsEqual + FirstTag,
    C: DuplicateIsEqual + FirstTag,
    D: DuplicateIsEqual + FirstTag,
    E: DuplicateIsEqual + FirstTag,
    F: DuplicateIsEqual + FirstTag,
    Rest: DuplicateFieldsAreEqual + FieldsFirstTag,
> DuplicateFieldsAreEqual for Fields6<A, B, C, D, E, F, Rest> {
    ghost copies_are_equal = { λ v w.
        (equal_copies_step A.is_copy A.eq A.copy_is_equal
        (equal_copies_step B.is_copy B.eq B.copy_is_equal
        (equal_copies_step C.is_copy C.eq C.copy_is_equal
        (equal_copies_step D.is_copy D.eq D.copy_is_equal
        (equal_copies_step E.is_copy E.eq E.copy_is_equal
        (equal_copies_step F.is_copy F.eq F.copy_is_equal
        (rest_equal_copies Rest.are_copies Rest.eq Rest.copies_are_equal))))))).equal v.list w.list };
}

impl<
    A: KnownTags + FirstTag,
    B: KnownTags + FirstTag,
    C: KnownTags + FirstTag,
    D: KnownTags + FirstTag,
    E: KnownTags + FirstTag,
    F: KnownTags + FirstTag,
    Rest: DistinctTags,
> DistinctTags for Fields6<A, B, C, D, E, F, Rest> {
    ghost first_tags = { (tags_after A.MAY_BE_ABSENT A.known_tags (tags_after B.MAY_BE_ABSENT B.known_tags (tags_after C.MAY_BE_ABSENT C.known_tags (tags_after D.MAY_BE_ABSENT D.known_tags (tags_after E.MAY_BE_ABSENT E.known_tags (tags_after F.MAY_BE_ABSENT F.known_tags (list_tags Rest.first_tags Rest.TAGS_ARE_DISTINCT))))))).first };

    ghost TAGS_ARE_DISTINCT = { (tags_after A.MAY_BE_ABSENT A.known_tags (tags_after B.MAY_BE_ABSENT B.known_tags (tags_after C.MAY_BE_ABSENT C.known_tags (tags_after D.MAY_BE_ABSENT D.known_tags (tags_after E.MAY_BE_ABSENT E.known_tags (tags_after F.MAY_BE_ABSENT F.known_tags (list_tags Rest.first_tags Rest.TAGS_ARE_DISTINCT))))))).are_distinct };

    ghost each_readable = { λ v. (each A.readable (each B.readable (each C.readable (each D.readable (each E.readable (each F.readable Rest.each_readable)))))) v.list };

    ghost each_comparable = { λ v w. (both A.comparable (both B.comparable (both C.comparable (both D.comparable (both E.comparable (both F.comparable Rest.each_comparable)))))) v.list w.list };

    ghost first_is_known = { λ v.
        (distinct_step A.Form A.known_tags A.MAY_BE_ABSENT A.own_first_tag A.are_known A.is_there
        (distinct_step B.Form B.known_tags B.MAY_BE_ABSENT B.own_first_tag B.are_known B.is_there
        (distinct_step C.Form C.known_tags C.MAY_BE_ABSENT C.own_first_tag C.are_known C.is_there
        (distinct_step D.Form D.known_tags D.MAY_BE_ABSENT D.own_first_tag D.are_known D.is_there
        (distinct_step E.Form E.known_tags E.MAY_BE_ABSENT E.own_first_tag E.are_known E.is_there
        (distinct_step F.Form F.known_tags F.MAY_BE_ABSENT F.own_first_tag F.are_known F.is_there
        (rest_distinct Rest.list Rest.first_tags Rest.TAGS_ARE_DISTINCT Rest.each_readable Rest.each_comparable Rest.first_is_known Rest.readable_if_distinct Rest.comparable_if_distinct))))))).known v.list };

    ghost readable_if_distinct = { λ e v.
        (distinct_step A.Form A.known_tags A.MAY_BE_ABSENT A.own_first_tag A.are_known A.is_there
        (distinct_step B.Form B.known_tags B.MAY_BE_ABSENT B.own_first_tag B.are_known B.is_there
        (distinct_step C.Form C.known_tags C.MAY_BE_ABSENT C.own_first_tag C.are_known C.is_there
        (distinct_step D.Form D.known_tags D.MAY_BE_ABSENT D.own_first_tag D.are_known D.is_there
        (distinct_step E.Form E.known_tags E.MAY_BE_ABSENT E.own_first_tag E.are_known E.is_there
        (distinct_step F.Form F.known_tags F.MAY_BE_ABSENT F.own_first_tag F.are_known F.is_there
        (rest_distinct Rest.list Rest.first_tags Rest.TAGS_ARE_DISTINCT Rest.each_readable Rest.each_comparable Rest.first_is_known Rest.readable_if_distinct Rest.comparable_if_distinct))))))).readable e v.list };

    ghost comparable_if_distinct = { λ e v w.
        (distinct_step A.Form A.known_tags A.MAY_BE_ABSENT A.own_first_tag A.are_known A.is_there
        (distinct_step B.Form B.known_tags B.MAY_BE_ABSENT B.own_first_tag B.are_known B.is_there
        (distinct_step C.Form C.known_tags C.MAY_BE_ABSENT C.own_first_tag C.are_known C.is_there
        (distinct_step D.Form D.known_tags D.MAY_BE_ABSENT D.own_first_tag D.are_known D.is_there
        (distinct_step E.Form E.known_tags E.MAY_BE_ABSENT E.own_first_tag E.are_known E.is_there
        (distinct_step F.Form F.known_tags F.MAY_BE_ABSENT F.own_first_tag F.are_known F.is_there
        (rest_distinct Rest.list Rest.first_tags Rest.TAGS_ARE_DISTINCT Rest.each_readable Rest.each_comparable Rest.first_is_known Rest.readable_if_distinct Rest.comparable_if_distinct))))))).comparable e v.list w.list };
}
