//! The meaning of octets: the encodings of the values of a type, and the values that octets are
//! read as.
//!
//! These traits have no code. All traits that read, write or compare octets refer to the one
//! meaning that they give.

ghost use Rattle.std.specs.Prelude.{◌≡◌, ℕ, ◌+◌, List, ◌∷◌, ◌++◌, length, Bool, true, Option, Some, Ok};
ghost use Rattle.der_tlv.specs.declared.encoding_rules.EncodingRules.{EncodingRules};
ghost use Rattle.der_tlv.specs.declared.tag.Tag.{Tag};
ghost use Rattle.der_tlv.specs.Identifier.{same_identifier};
ghost use Rattle.der_tlv.specs.OctetFaults.{IsOfOctets};
ghost use Rattle.der_tlv.specs.HeaderOctets.{tlv};
ghost use Rattle.der_elem.specs.Parsing.{Parse, parse_tagged};
ghost use Rattle.der_elem.specs.Accepting.{Fits, BeginsWith, MayFollow, accepts_tagged};
ghost use Rattle.der_elem.specs.FirstTags.{BeginsWithFirst, begins_first_tagged};
ghost use Rattle.der_elem.specs.ContentsFormat.{ContentsFormat};
ghost use Rattle.der_elem.specs.TaggedLaws.{parse_of_tagged, tagged_of_octets, begins_tagged, same_length_tagged, accepts_tagged_encoding, readable_tagged, comparable_tagged};

use crate::fixed_tag::OneTag;

/// The contents octets of a value, and the contents octets that are read as it.
pub trait FormValue: Sized + Drop {
    // the meaning of the contents octets
    ghost value: { ContentsFormat Self };
}

/// The whole encoding of a value, and the octets that are read as the value. The encoding of an
/// absent option has no octets.
pub trait Form: Sized + Drop {
    // the one encoding of a value
    ghost encoding: { Self → List ℕ };

    // whether the two values can be compared
    ghost comparable: { Self → Self → Type 0 };

    // whether writing or comparing the value reads its items again, which takes memory
    ghost re_reads: { Self → Bool };

    // the grammar under rules: the value is read from exactly these octets
    ghost accepts: { EncodingRules → Self → List ℕ → Type 0 };

    // the result of parsing octets from the front
    ghost parse: { Parse };

    // the tags that its encodings begin with
    ghost tags: { Tag → Bool };

    // the tag that the encoding begins with, if it has octets
    ghost first_tag_of: { Self → Option Tag };

    // whether reading can give the value
    ghost readable: { Self → Type 0 };

    // whether reading takes memory
    ghost TAKES_MEMORY: { Bool };

    // whether reading finds every error in the octets before it takes memory
    ghost FAULTS_FIRST: { Bool };

    ghost parse_of_accepted: { (rules : EncodingRules) (v : Self) (p : ℕ) (b x : List ℕ)
        → accepts rules v b → Fits b → MayFollow tags b x
        → parse rules p (b ++ x) ≡ Ok (length b, encoding v) };

    ghost faults_of_octets: { (rules : EncodingRules) (p : ℕ) (b : List ℕ)
        → IsOfOctets (parse rules p b) };

    ghost begins: { (rules : EncodingRules) (v : Self) (z : ℕ) (b : List ℕ)
        → accepts rules v (z ∷ b) → BeginsWith tags true (z ∷ b) };

    ghost begins_first: { (rules : EncodingRules) (v : Self) (b : List ℕ) → accepts rules v b
        → BeginsWithFirst (first_tag_of v) b };

    ghost same_length: { (rules : EncodingRules) (v : Self) (b : List ℕ) → accepts rules v b
        → length (encoding v) ≡ length b };

    ghost accepts_encoding: { (rules : EncodingRules) (v : Self) → readable v
        → accepts rules v (encoding v) };

    ghost only_readable: { (rules : EncodingRules) (v : Self) (b : List ℕ) → accepts rules v b
        → readable v };

    ghost accepts_comparable: { (rules : EncodingRules) (v w : Self) (b c : List ℕ)
        → accepts rules v b → accepts rules w c → comparable v w };

    ghost re_reads_memory: { (v : Self) → re_reads v ≡ true → TAKES_MEMORY ≡ true };
}

impl<T: FormValue + OneTag> Form for T {
    ghost encoding = { λ v. tlv T.Marker.TAG (T.value.contents v) };

    ghost comparable = { T.value.comparable };

    ghost re_reads = { T.value.re_reads };

    ghost accepts = { accepts_tagged T.Marker.TAG T.value.accepts };

    ghost parse = { parse_tagged T.Marker.TAG T.value.parse };

    ghost tags = { λ t. same_identifier t T.Marker.TAG };

    ghost first_tag_of = { λ v. Some T.Marker.TAG };

    ghost readable = { T.value.readable };

    ghost TAKES_MEMORY = { T.value.TAKES_MEMORY };

    ghost FAULTS_FIRST = { T.value.FAULTS_FIRST };

    ghost parse_of_accepted = { parse_of_tagged T.Marker.TAG T.Marker.tag_in_range T.value.accepts T.value.contents
        T.value.parse T.value.parse_of_accepted };

    ghost faults_of_octets = { tagged_of_octets T.Marker.TAG T.value.parse T.value.faults_of_octets };

    ghost begins = { begins_tagged T.Marker.TAG T.Marker.tag_in_range T.value.accepts };

    ghost begins_first = { begins_first_tagged T.Marker.TAG T.Marker.tag_in_range T.value.accepts };

    ghost same_length = { same_length_tagged T.Marker.TAG T.value.accepts T.value.contents T.value.same_length };

    ghost accepts_encoding = { accepts_tagged_encoding T.Marker.TAG T.value.accepts T.value.contents
        T.value.readable T.value.accepts_contents };

    ghost only_readable = { readable_tagged T.Marker.TAG T.value.accepts T.value.readable
        T.value.only_readable };

    ghost accepts_comparable = { comparable_tagged T.Marker.TAG T.value.accepts T.value.comparable
        T.value.accepts_comparable };

    ghost re_reads_memory = { T.value.re_reads_memory };
}
