//! Laws of sets and sequences: functions that do little and state what holds for all of them.

ghost use Rattle.std.specs.Prelude.{◌≡◌, ℕ, List, [], ◌∷◌, ◌++◌, map, flat_map};
ghost use Rattle.std.specs.List.Sorted.{IsPermutation, IsSorted};
ghost use Rattle.der_tlv.specs.Octets.{lex};
ghost use Rattle.der_tlv.specs.declared.encoding_rules.EncodingRules.TheVariants.{Der};
ghost use Rattle.der_tlv.specs.declared.tag.Tag.TheVariants as tags;
ghost use Rattle.der_elem.specs.Accepting.{Fits};
ghost use Rattle.der_nest.specs.Lists.{AcceptsEach};
ghost use Rattle.der_nest.specs.BorrowedSequences.{item_encodings};
ghost use Rattle.der_nest.specs.Places.{IsInOrder, insert_in_order, insert_each, sort_encodings};
ghost use Rattle.der_nest.specs.Stable.{IsSetOf};
ghost use Rattle.der_nest.specs.SequenceRef.{octets_of};

use crate::item_set::ItemSet;
use crate::non_empty::NonEmpty;
use crate::sequence_of::SequenceOf;
use crate::sequence_of_ref::SequenceOfRef;
use crate::sequence_ref::SequenceRef;
use crate::set_of::SetOf;
use crate::set_of_ref::SetOfRef;
use crate::set_of_vec::SetOfVec;
use der_elem::{FixedTag, Form, FormValue};
use der_tlv::Tag;
use std::cmp::Ordering;

/// Encodings that are inserted one after another result in one list, whatever order they came in:
/// it has the same encodings, each as often, and none is greater than the next.
#[tactic(auto, using(crate::proofs::Unique::laws))]
pub fn sorted_is_one_list()
    ensures one { (ss ts : List (List ℕ)) → IsPermutation ss ts
        → sort_encodings ss ≡ sort_encodings ts }
    ensures in_order { (ss : List (List ℕ)) → IsSorted lex (sort_encodings ss) }
    ensures same { (ss : List (List ℕ)) → IsPermutation ss (sort_encodings ss) }
    ensures only { (ss ts : List (List ℕ)) → IsPermutation ss ts → IsSorted lex ts
        → sort_encodings ss ≡ ts }
{}

/// The encodings of a set's items are the sorted encodings of the inserted items, whatever order
/// they were inserted in.
#[tactic(auto, using(crate::proofs::Unique::laws))]
pub fn set_is_sorted<T: Form>()
    ensures encoded { (xs : List T) → map T.encoding (insert_each T.encoding [] xs)
        ≡ sort_encodings (map T.encoding xs) }
    ensures one { (xs ys : List T) → IsPermutation xs ys → map T.encoding
        (insert_each T.encoding [] xs) ≡ map T.encoding (insert_each T.encoding [] ys) }
{}

/// The history of a set. After any calls, the set is the set of the items that came by those
/// calls, one after another, and there is only one such list. It has the same items, in the
/// non-decreasing order of their encodings; items with equal encodings are in the order in which
/// they came.
///
/// An empty set is the set of no items. `inserted` states the result of `insert`, `ordered` that
/// of `insert_ordered`, and `extended` that of `extend`, `from_iter`, `from_array` and
/// `try_from`. Items that came in another order have the same contents octets.
pub fn set_of_what_came<T: Form>()
    ensures none { IsSetOf T.encoding [] [] }
    ensures inserted { (came set : List T) (item : T) → IsSetOf T.encoding came set
        → IsSetOf T.encoding (came ++ item ∷ []) (insert_in_order T.encoding set item) }
    ensures ordered { (came set : List T) (item : T) → IsSetOf T.encoding came set → IsInOrder
        T.encoding (set ++ item ∷ []) → IsSetOf T.encoding (came ++ item ∷ []) (set ++ item ∷ []) }
    ensures extended { (came set more : List T) → IsSetOf T.encoding came set
        → IsSetOf T.encoding (came ++ more) (insert_each T.encoding set more) }
    ensures one { (came a b : List T) → IsSetOf T.encoding came a
        → IsSetOf T.encoding came b → a ≡ b }
    ensures encoded { (came set : List T) → IsSetOf T.encoding came set
        → map T.encoding set ≡ sort_encodings (map T.encoding came) }
    ensures octets { (xs ys a b : List T) → IsPermutation xs ys → IsSetOf T.encoding xs a
        → IsSetOf T.encoding ys b → flat_map T.encoding a ≡ flat_map T.encoding b }
{}

/// The items that a borrowed sequence gives are those that its octets are read as: they have the
/// same encodings.
#[tactic(auto, using(crate::specs::BorrowedSequences::encodings_of_items))]
pub fn sequence_gives_its_items<T: Form>()
    ensures { (octets : List ℕ) (vs : List T) → AcceptsEach (T.accepts Der) vs octets
        → Fits octets → item_encodings T.parse octets ≡ map T.encoding vs }
{}

/// Compares two SEQUENCEs by their contents octets, which are not decoded.
pub fn sequences_by_contents<'a>(one: SequenceRef<'a>, other: SequenceRef<'a>) -> Ordering
    ensures { result ≡ lex (octets_of one.entry) (octets_of other.entry) }
{
    one.cmp(&other)
}

/// Returns the tags of the types (X.680 8.6): of `SetOfVec`, `ItemSet`, `SetOf`, `SetOfRef`,
/// `SequenceOf`, `SequenceOfRef` and `SequenceRef`. `NonEmpty` has the tag of its list: here of a
/// set and of a sequence.
pub fn universal_tags() -> [Tag; 9]
    ensures { result ≡ tags.Set ∷ tags.Set ∷ tags.Set ∷ tags.Set ∷ tags.Sequence ∷ tags.Sequence
        ∷ tags.Sequence ∷ tags.Set ∷ tags.Sequence ∷ [] }
{
    [
        SetOfVec::<bool>::TAG,
        ItemSet::<bool>::TAG,
        SetOf::<bool, 1>::TAG,
        SetOfRef::<bool>::TAG,
        SequenceOf::<bool, 1>::TAG,
        SequenceOfRef::<bool>::TAG,
        SequenceRef::TAG,
        NonEmpty::<ItemSet<bool>>::TAG,
        NonEmpty::<Vec<bool>>::TAG,
    ]
}
