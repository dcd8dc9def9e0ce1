//! Equality, order, hash and debug text of sequences and sets, which come from their items.

ghost use Rattle.std.specs.Cmp.Lexicographic.{slice_cmp, slice_partial_cmp, lists_equiv, lists_agrees, lists_total, lists_ties, lists_po};
ghost use Rattle.std.specs.Hash as hashed;
ghost use Rattle.std.specs.Hash.{items_Alike};

use crate::item_order::ItemOrder;
use crate::item_set::ItemSet;
use crate::sequence_of::SequenceOf;
use crate::set_of::SetOf;
use crate::set_of_ref::SetOfRef;
use crate::set_of_ref_iter::SetOfRefIter;
use crate::set_of_vec::SetOfVec;
use der_elem::{Decode, Duplicate, Form};
use der_tlv::SliceReader;
use std::cmp::Ordering;
use std::fmt;
use std::hash::{Hash, Hasher};

impl<T: Form + Eq> Eq for SetOfVec<T> {
    ghost laws = { lists_equiv T.Eq.laws };
}

impl<T: Form + PartialOrd> PartialOrd for SetOfVec<T> {
    ghost partial_cmp = { slice_partial_cmp T.partial_cmp };

    ghost laws = { lists_po T.PartialOrd.laws };

    fn partial_cmp(&self, other: &SetOfVec<T>) -> Option<Ordering> {
        self.as_slice().partial_cmp(&other.as_slice())
    }
}

impl<T: Form + Ord> Ord for SetOfVec<T> {
    ghost cmp = { slice_cmp T.cmp };

    ghost total = { lists_total T.total };

    ghost matches_partial_cmp = { lists_agrees T.matches_partial_cmp };

    ghost matches_eq = { lists_ties T.cmp T.matches_eq };

    /// Compares the items as values, then their number. `der_cmp` compares the encodings instead.
    fn cmp(&self, other: &SetOfVec<T>) -> Ordering {
        self.as_slice().cmp(&other.as_slice())
    }
}

impl<T: Form + Hash> Hash for SetOfVec<T> {
    ghost hash_input = { hashed.slice T.hash_input };

    ghost respects_eq = { (items_Alike (record { fed = T.respects_eq })).fed };

    fn hash<H: Hasher>(&self, state: &mut H) {
        self.as_slice().hash(state);
    }
}

impl<T: Eq, M: ItemOrder<T>> Eq for ItemSet<T, M> {
    ghost laws = { lists_equiv T.Eq.laws };
}

impl<T: PartialOrd, M: ItemOrder<T>> PartialOrd for ItemSet<T, M> {
    ghost partial_cmp = { slice_partial_cmp T.partial_cmp };

    ghost laws = { lists_po T.PartialOrd.laws };

    fn partial_cmp(&self, other: &ItemSet<T, M>) -> Option<Ordering> {
        self.as_slice().partial_cmp(&other.as_slice())
    }
}

impl<T: Ord, M: ItemOrder<T>> Ord for ItemSet<T, M> {
    ghost cmp = { slice_cmp T.cmp };

    ghost total = { lists_total T.total };

    ghost matches_partial_cmp = { lists_agrees T.matches_partial_cmp };

    ghost matches_eq = { lists_ties T.cmp T.matches_eq };

    /// Compares the items as values, then their number. `der_cmp` compares the encodings instead.
    fn cmp(&self, other: &ItemSet<T, M>) -> Ordering {
        self.as_slice().cmp(&other.as_slice())
    }
}

impl<T: Hash, M: ItemOrder<T>> Hash for ItemSet<T, M> {
    ghost hash_input = { hashed.slice T.hash_input };

    ghost respects_eq = { (items_Alike (record { fed = T.respects_eq })).fed };

    fn hash<H: Hasher>(&self, state: &mut H) {
        self.as_slice().hash(state);
    }
}

impl<T: Form + Eq, const N: usize> Eq for SetOf<T, N> {
    ghost laws = { lists_equiv T.Eq.laws };
}

impl<T: Form + PartialOrd, const N: usize> PartialOrd for SetOf<T, N> {
    ghost partial_cmp = { slice_partial_cmp T.partial_cmp };

    ghost laws = { lists_po T.PartialOrd.laws };

    fn partial_cmp(&self, other: &SetOf<T, N>) -> Option<Ordering> {
        self.as_slice().partial_cmp(&other.as_slice())
    }
}

impl<T: Form + Ord, const N: usize> Ord for SetOf<T, N> {
    ghost cmp = { slice_cmp T.cmp };

    ghost total = { lists_total T.total };

    ghost matches_partial_cmp = { lists_agrees T.matches_partial_cmp };

    ghost matches_eq = { lists_ties T.cmp T.matches_eq };

    /// Compares the items as values, then their number. `der_cmp` compares the encodings instead.
    fn cmp(&self, other: &SetOf<T, N>) -> Ordering {
        self.as_slice().cmp(&other.as_slice())
    }
}

impl<T: Form + Hash, const N: usize> Hash for SetOf<T, N> {
    ghost hash_input = { hashed.slice T.hash_input };

    ghost respects_eq = { (items_Alike (record { fed = T.respects_eq })).fed };

    fn hash<H: Hasher>(&self, state: &mut H) {
        self.as_slice().hash(state);
    }
}

impl<T: Eq, const N: usize> Eq for SequenceOf<T, N> {
    ghost laws = { lists_equiv T.Eq.laws };
}

impl<T: Form + fmt::Debug> fmt::Debug for SetOfVec<T> {
    fn fmt<W: fmt::Write>(&self, f: &mut fmt::Formatter<W>) -> fmt::Result {
        fmt::Debug::fmt(&self.as_slice(), f)
    }
}

impl<T: fmt::Debug, M: ItemOrder<T>> fmt::Debug for ItemSet<T, M> {
    fn fmt<W: fmt::Write>(&self, f: &mut fmt::Formatter<W>) -> fmt::Result {
        fmt::Debug::fmt(&self.as_slice(), f)
    }
}

impl<T: Form + fmt::Debug, const N: usize> fmt::Debug for SetOf<T, N> {
    fn fmt<W: fmt::Write>(&self, f: &mut fmt::Formatter<W>) -> fmt::Result {
        fmt::Debug::fmt(&self.as_slice(), f)
    }
}

impl<T: fmt::Debug, const N: usize> fmt::Debug for SequenceOf<T, N> {
    fn fmt<W: fmt::Write>(&self, f: &mut fmt::Formatter<W>) -> fmt::Result {
        fmt::Debug::fmt(&self.as_slice(), f)
    }
}

impl<'a, T: Form> fmt::Debug for SetOfRef<'a, T> {
    /// Writes the number of items; they are not read again.
    fn fmt<W: fmt::Write>(&self, f: &mut fmt::Formatter<W>) -> fmt::Result {
        f.debug_struct("SetOfRef")
            .field("len", &self.len())
            .finish_non_exhaustive()
    }
}

impl<'a, T: Decode<'a, SliceReader<'a>> + Duplicate> fmt::Debug for SetOfRefIter<'a, T> {
    /// Writes the number of items that are left; they are not read again.
    fn fmt<W: fmt::Write>(&self, f: &mut fmt::Formatter<W>) -> fmt::Result {
        f.debug_struct("SetOfRefIter")
            .field("len", &self.len())
            .finish_non_exhaustive()
    }
}
