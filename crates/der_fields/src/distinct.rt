//! Lists of fields whose tags are distinct (X.680 25.6).

ghost use Rattle.std.specs.Prelude.{◌≡◌, List, [], Bool, true, ◌&&◌, Option, Some};
ghost use Rattle.std.proofs.lemmas.Bool.{and_parts};
ghost use Rattle.der_tlv.specs.declared.tag.Tag.{Tag};
ghost use Rattle.der_elem.specs.KnownTags.{may_be};
ghost use Rattle.der_fields.specs.DistinctTags.{first_known, is_distinguished};
ghost use Rattle.der_fields.specs.DistinctTagLaws.{field_distinguished, first_is_known};

use crate::end::End;
use crate::field::Field;
use crate::field_list::FieldList;
use der_elem::{FirstTag, KnownTags};

/// Fields whose tags are known, so that a computation decides whether they are distinct: whether
/// each field that may be absent has none of the tags of the fields that may follow it.
pub trait DistinctTags: FieldList {
    // the tags that the joined encodings may begin with; `None` if any tag may
    ghost first_tags: { Option (List Tag) };

    // whether the tags are distinct
    ghost TAGS_ARE_DISTINCT: { Bool };

    // whether reading can give the value of each field
    ghost each_readable: { Self → Type 0 };

    // whether the values of each field can be compared
    ghost each_comparable: { Self → Self → Type 0 };

    ghost first_is_known: { (v : Self) (t : Tag) → Self.list.first_tag v ≡ Some t
        → may_be first_tags t ≡ true };

    ghost readable_if_distinct: { TAGS_ARE_DISTINCT ≡ true → (v : Self) → each_readable v
        → Self.list.octets.readable v };

    ghost comparable_if_distinct: { TAGS_ARE_DISTINCT ≡ true → (v w : Self) → each_comparable v w
        → Self.list.octets.comparable v w };
}

impl DistinctTags for End {
    ghost first_tags = { Some [] };

    ghost TAGS_ARE_DISTINCT = { true };

    ghost each_readable = { λ v. Unit {0} };

    ghost each_comparable = { λ v w. Unit {0} };

    ghost first_is_known = { λ v t e. absurd (cc) };

    ghost readable_if_distinct = { λ e v r. tt };

    ghost comparable_if_distinct = { λ e v w c. tt };
}

impl<T: KnownTags + FirstTag, Rest: DistinctTags> DistinctTags for Field<T, Rest> {
    ghost first_tags = { first_known T.MAY_BE_ABSENT T.known_tags Rest.first_tags };

    ghost TAGS_ARE_DISTINCT = { is_distinguished T.MAY_BE_ABSENT T.known_tags Rest.first_tags
        && Rest.TAGS_ARE_DISTINCT };

    ghost each_readable = { λ v. T.readable v.first × Rest.each_readable v.rest };

    ghost each_comparable = { λ v w. T.comparable v.first w.first × Rest.each_comparable v.rest w.rest };

    ghost first_is_known = { λ v. first_is_known T.tags T.known_tags Rest.first_tags T.are_known
        T.MAY_BE_ABSENT (T.first_tag_of v.first) (Rest.list.first_tag v.rest) (T.own_first_tag v.first)
        (λ e. T.is_there e v.first) (Rest.first_is_known v.rest) };

    ghost readable_if_distinct = { λ e v r.
        let parts = and_parts (is_distinguished T.MAY_BE_ABSENT T.known_tags Rest.first_tags) Rest.TAGS_ARE_DISTINCT e in (
          r.0,
          Rest.readable_if_distinct parts.1 v.rest r.1,
          field_distinguished T.tags T.known_tags Rest.first_tags T.are_known T.MAY_BE_ABSENT (T.first_tag_of v.first)
              (Rest.list.first_tag v.rest) (λ e. T.is_there e v.first) (Rest.first_is_known v.rest) parts.0,
        ) };

    ghost comparable_if_distinct = { λ e v w c.
        let parts = and_parts (is_distinguished T.MAY_BE_ABSENT T.known_tags Rest.first_tags) Rest.TAGS_ARE_DISTINCT e in (
          c.0,
          Rest.comparable_if_distinct parts.1 v.rest w.rest c.1,
          field_distinguished T.tags T.known_tags Rest.first_tags T.are_known T.MAY_BE_ABSENT (T.first_tag_of v.first)
              (Rest.list.first_tag v.rest) (λ e. T.is_there e v.first) (Rest.first_is_known v.rest) parts.0,
          field_distinguished T.tags T.known_tags Rest.first_tags T.are_known T.MAY_BE_ABSENT (T.first_tag_of w.first)
              (Rest.list.first_tag w.rest) (λ e. T.is_there e w.first) (Rest.first_is_known w.rest) parts.0,
        ) };
}
