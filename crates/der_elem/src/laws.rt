//! Laws of encodings: functions that do nothing, and whose contracts hold of all encodings.

ghost use Rattle.std.specs.Prelude.{◌≡◌, ◌<◌, ◌^◌, ◌↔◌, IsTrue, length, ◌∷◌, []};
ghost use Rattle.der_tlv.specs.declared.tag.Tag.TheVariants as tags;
ghost use Rattle.der_elem.specs.EncodingLaws.{FaultsAreOfOctets, CopiesAreEqual, NoneBeginsAnother, NoneReadBeginsAnother, PaddingIsLexicographic, FirstPairDecides, OneValueIsRead, EncodingsReadBack, OwnEncodingIsRead, IntegersAreFewest};
ghost use Rattle.der_elem.specs.Fields.{FirstFieldDecides, FieldsAreDistinguished};

use crate::duplicate::DuplicateIsEqual;
use crate::equality::EncodingEq;
use crate::fixed_tag::FixedTag;
use crate::form::Form;
use crate::tag::Tagged;
use der_tlv::Tag;

/// States that no encoding is a proper prefix of another, for any two tags and contents octets.
pub fn no_encoding_begins_another()
    ensures { NoneBeginsAnother }
{}

/// States that no octets that are read as a tagged value, under any rules, are a proper prefix of
/// octets that are read as a tagged value of that or another type. So octets that are cut short,
/// or have more octets after them, are read as no such value.
pub fn no_octets_read_begin_others<T: Tagged, U: Tagged>()
    ensures { NoneReadBeginsAnother T.Form U.Form }
{}

/// States that the lexicographic order of two encodings is that of X.690 11.6, where zero octets
/// are added to the end of the shorter.
pub fn padding_is_lexicographic()
    ensures { PaddingIsLexicographic }
{}

/// States that the first pair of items that differs decides the order of two joined lists of
/// encodings, else the number of items.
pub fn first_pair_decides<T: Tagged>()
    ensures { FirstPairDecides T.encoding }
{}

/// States that the first field that differs decides the order of two pairs of a field and an
/// optional field, as in a SEQUENCE. An absent field is before any other.
pub fn first_field_decides<T: Tagged, U: Tagged>()
    ensures { FirstFieldDecides T.encoding U.encoding }
{}

/// States that if two pairs of a field and an optional field have the same octets, both fields
/// have the same octets.
pub fn fields_are_distinguished<T: Tagged, U: Tagged>()
    ensures { FieldsAreDistinguished T.encoding U.encoding }
{}

/// States that reading octets gives a value or an error in them, and never lack of memory (1) or
/// the error of a reader that had failed (17). So reading a type that takes no memory never
/// refuses with (1).
pub fn faults_are_of_octets<T: Form>()
    ensures { FaultsAreOfOctets T.parse }
{}

/// States that a copy of a value is equal to it.
pub fn copies_are_equal<T: DuplicateIsEqual>()
    ensures { CopiesAreEqual T.is_copy T.eq }
{}

/// States that values that are read from the same octets have one encoding.
pub fn one_value_is_read<T: Form>()
    ensures { OneValueIsRead T.Form }
{}

/// States that the encoding of a value that was read is read as that value. So making octets
/// canonical twice is the same as making them canonical once.
pub fn encodings_read_back<T: Form>()
    ensures { EncodingsReadBack T.Form }
{}

/// States that the encoding of a readable value that fits a length is read as a value that is
/// equal to it. So reading after writing returns what was written.
pub fn own_encoding_is_read<T: EncodingEq>()
    ensures { (v : T) → T.readable v → length (T.encoding v) < 2 ^ 32
        → OwnEncodingIsRead T.Form T.eq v }
{}

/// States that two values that can be compared are equal exactly if their encodings are.
pub fn equal_encodings<T: EncodingEq>()
    ensures { (v w : T) → T.comparable v w → (IsTrue (T.eq v w) ↔ (T.encoding v ≡ T.encoding w)) }
{}

/// States that the contents octets of an integer are its two's complement, and that no fewer
/// octets are (X.690 8.3).
pub fn integers_are_fewest()
    ensures { IntegersAreFewest }
{}

/// Returns the tags of the built-in types (X.680 8.6), in this order: BOOLEAN, NULL, the ten
/// INTEGERs, UTF8String, and SEQUENCE of a list and of an array.
pub fn universal_tags() -> [Tag; 15]
    ensures { result ≡ tags.Boolean ∷ tags.Null ∷ tags.Integer ∷ tags.Integer ∷ tags.Integer
        ∷ tags.Integer ∷ tags.Integer ∷ tags.Integer ∷ tags.Integer ∷ tags.Integer ∷ tags.Integer
        ∷ tags.Integer ∷ tags.Utf8String ∷ tags.Sequence ∷ tags.Sequence ∷ [] }
{
    [
        <bool as FixedTag>::TAG,
        <() as FixedTag>::TAG,
        <i8 as FixedTag>::TAG,
        <i16 as FixedTag>::TAG,
        <i32 as FixedTag>::TAG,
        <i64 as FixedTag>::TAG,
        <i128 as FixedTag>::TAG,
        <u8 as FixedTag>::TAG,
        <u16 as FixedTag>::TAG,
        <u32 as FixedTag>::TAG,
        <u64 as FixedTag>::TAG,
        <u128 as FixedTag>::TAG,
        <String as FixedTag>::TAG,
        <Vec<bool> as FixedTag>::TAG,
        <[bool; 1] as FixedTag>::TAG,
    ]
}
