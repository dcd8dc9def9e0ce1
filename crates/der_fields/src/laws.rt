//! Laws of lists of fields: functions that do nothing and state what holds for all values.

ghost use Rattle.std.specs.Prelude.{◌≡◌, ◌↔◌, IsTrue, ◌<◌, ◌^◌, length, true};
ghost use Rattle.der_elem.specs.EncodingLaws.{OwnEncodingIsRead};
ghost use Rattle.der_fields.specs.Alternatives.{AskedOfOne, AskedOfBoth};
ghost use Rattle.der_fields.specs.DistinctTags.{are_distinct};

use crate::distinct::DistinctTags;
use crate::equal::FieldsEq;
use crate::field_sequence::FieldSequence;
use crate::named::{NamedFields, NamedSequence};
use crate::one_of::OneOf;
use der_elem::laws::{equal_encodings, own_encoding_is_read};
use der_elem::{Form, KnownTags, Tagged};

/// If a list has distinct tags, decoding can return it if decoding can return each of its fields,
/// and two such lists are comparable if their fields are.
pub fn distinct_tags_distinguish_fields<F: DistinctTags>()
    requires { F.TAGS_ARE_DISTINCT ≡ true }
    ensures readable { (v : F) → F.each_readable v → F.list.octets.readable v }
    ensures comparable { (v w : F) → F.each_comparable v w → F.list.octets.comparable v w }
{}

/// A SEQUENCE whose fields have distinct tags is decoded from its own encoding if that has at
/// most 4294967295 octets, and `==` is equality of encodings. The premise is that of the fields
/// alone.
pub fn sequence_is_read_back<F: DistinctTags + FieldsEq>()
    requires { F.TAGS_ARE_DISTINCT ≡ true }
    ensures read { (v : FieldSequence F) → F.each_readable v.fields
        → length (⟦<FieldSequence<F> as Form>⟧.encoding v) < 2 ^ 32
        → OwnEncodingIsRead ⟦<FieldSequence<F> as Form>⟧ ⟦<FieldSequence<F> as PartialEq>⟧.eq v }
    ensures equal { (v w : FieldSequence F) → F.each_comparable v.fields w.fields
        → (IsTrue (⟦<FieldSequence<F> as PartialEq>⟧.eq v w)
        ↔ (⟦<FieldSequence<F> as Form>⟧.encoding v ≡ ⟦<FieldSequence<F> as Form>⟧.encoding w)) }
{
    distinct_tags_distinguish_fields::<F>();
    own_encoding_is_read::<FieldSequence<F>>();
    equal_encodings::<FieldSequence<F>>();
}

/// Decoding can return a CHOICE of alternatives with distinct tags (X.680 29.3) if it can return
/// the alternative. Any two values are comparable, unless both are of one alternative whose
/// values are not.
pub fn distinct_tags_distinguish_alternatives<A: Tagged + KnownTags, B: Tagged + KnownTags>()
    requires { are_distinct A.known_tags B.known_tags ≡ true }
    ensures readable { (v : OneOf A B) → AskedOfOne A.readable B.readable v
        → ⟦<OneOf<A, B> as Form>⟧.readable v }
    ensures comparable { (v w : OneOf A B) → AskedOfBoth A.comparable B.comparable v w
        → ⟦<OneOf<A, B> as Form>⟧.comparable v w }
{}

/// A SEQUENCE with named fields that have distinct tags, as in `sequence_is_read_back`.
pub fn named_sequence_is_read_back<S: NamedFields>()
where
    S::List: DistinctTags + FieldsEq,
    requires { S.List.TAGS_ARE_DISTINCT ≡ true }
    ensures read { (v : NamedSequence S) → S.List.each_readable (S.list_of v.fields)
        → length (⟦<NamedSequence<S> as Form>⟧.encoding v) < 2 ^ 32
        → OwnEncodingIsRead ⟦<NamedSequence<S> as Form>⟧ ⟦<NamedSequence<S> as PartialEq>⟧.eq v }
    ensures equal { (v w : NamedSequence S) → S.List.each_comparable (S.list_of v.fields) (S.list_of w.fields)
        → (IsTrue (⟦<NamedSequence<S> as PartialEq>⟧.eq v w)
        ↔ (⟦<NamedSequence<S> as Form>⟧.encoding v ≡ ⟦<NamedSequence<S> as Form>⟧.encoding w)) }
{
    distinct_tags_distinguish_fields::<S::List>();
    own_encoding_is_read::<NamedSequence<S>>();
    equal_encodings::<NamedSequence<S>>();
}
