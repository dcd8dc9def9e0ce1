//! SET OF in any order, borrowed, which is `UnorderedSetRef` (X.690 8.12).
//!
//! The tag is 31. The contents octets are the encodings of the items, one after another, in the
//! order in which they came: BER requires no order. This type is for standards in which BER is
//! written and readers must accept it; `SetRef` is the SET OF of DER.
//!
//! Decoding keeps the octets, and no item. It fails with the first error of an item, from the
//! left, and with `ErrorKind::Memory` (1) if the item takes memory and none is left. A reader of
//! the contents octets alone reads the items, from position 0 and under DER. The position of an
//! error is relative to the first octet of all. The octets are compared and written as they were
//! read.

ghost use Rattle.std.specs.Prelude.{◌≡◌, ◌<◌, ◌≤◌, ◌==◌, ◌^◌, ⊤, List, false, length, refl, IfErr, OnOk};
ghost use Rattle.der_tlv.specs.declared.error.ErrorKind.TheVariants as kinds;
ghost use Rattle.der_tlv.specs.declared.tag.Tag.TheVariants as tags;
ghost use Rattle.std.specs.List.{list_all, list_any};
ghost use Rattle.std.specs.Cmp.{on_per, on_equiv};
ghost use Rattle.std.specs.Cmp.Lexicographic.{bytes_decides};
ghost use Rattle.der_opaque.specs.contracts.octet_string_ref.OctetStringRefPartialEq.TheImpl.Laws as string_eq;
ghost use Rattle.der_opaque.specs.contracts.octet_string_ref.OctetStringRefEq.TheImpl.Laws as string_equivalence;
ghost use Rattle.der_tlv.specs.ReaderState.{new_reader};
ghost use Rattle.der_tlv.specs.declared.encoding_rules.EncodingRules.TheVariants.{Der};
ghost use Rattle.der_nest.specs.KeptFormat.{AreContentsOf, KeepsContents, kept_format};
ghost use Rattle.der_nest.specs.BorrowedSequences.{items_format, item_encodings};
ghost use Rattle.der_lists.specs.UnorderedSetRef.{octets_of};
ghost use Rattle.der_lists.specs.Items.{AreItems};
ghost use Rattle.der_lists.specs.ReadingOn.{HasItems, ReReadsAll, ComesAt, Counts, encodings_to_come};

use crate::item_iter::ItemIter;
use crate::item_test::ItemTest;
use crate::keeping::{behind, keep_each};
use der_elem::{
    Choice, ContentsEq, CopyIsDuplicate, Decode, DecodeValue, EncodeValue, Form, FormValue, OneTag,
    SetTag, ValueOrd, read_contents,
};
use der_opaque::OctetStringRef;
use der_tlv::{BackWriter, Error, Header, Length, Reader, SliceReader, Source, Writer};
use std::alloc::{AllocError, Global};
use std::cmp::Ordering;
use std::fmt;
use std::marker::PhantomData;

/// The contents octets of items that were read in any order, borrowed. There are at most
/// 4294967295 of them.
#[derive(Drop)]
pub struct UnorderedSetRef<'a, T> {
    octets: OctetStringRef<'a>,
    of: PhantomData<&'a T>,
}

impl<'a, T> UnorderedSetRef<'a, T> {
    ghost use Rattle.der_lists.specs.UnorderedSetRef.{octets_of};

    /// Returns the contents octets.
    pub fn as_bytes(&self) -> &'a [u8]
        ensures { result.now ≡ octets_of self.now }
    {
        self.octets.as_bytes()
    }

    /// Returns whether there are no contents octets, and so no items.
    pub fn is_empty(&self) -> bool
        ensures { result ≡ (length (octets_of self.now) == 0) }
    {
        self.octets.as_bytes().len() == 0
    }
}

impl<'a, T: Decode<'a, SliceReader<'a>> + Choice> UnorderedSetRef<'a, T> {
    ghost use Rattle.der_lists.specs.UnorderedSetRef.{octets_of};

    /// Creates the list of these contents octets, and reads each item once.
    ///
    /// # Errors
    /// The first error of the items; `ErrorKind::Length` (7) for more than 4294967295 octets.
    pub fn new(alloc: Global, octets: &'a [u8]) -> Result<UnorderedSetRef<'a, T>, Error>
        ensures kept { length octets.now < 2 ^ 32
            → KeepsContents octets_of (items_format T.Form) octets.now result }
        ensures fits { OnOk result (length octets.now < 2 ^ 32) }
        ensures long { IfErr result (λ e. 2 ^ 32 ≤ length octets.now → e.kind ≡ kinds.Length tags.OctetString) }
    {
        match keep_each::<T>(alloc, octets) {
            Ok(octets) => Ok(UnorderedSetRef {
                octets,
                of: PhantomData,
            }),
            Err(e) => Err(e),
        }
    }

    /// Counts the items.
    ///
    /// # Errors
    /// `ErrorKind::Memory` (1) if an item takes memory and none is left.
    pub fn count(&self, alloc: Global) -> Result<usize, Error>
        ensures { AreContentsOf (items_format T.Form) (octets_of self.now)
            → Counts T.Form (item_encodings T.parse (octets_of self.now)) result }
    {
        self.iter(alloc).counted()
    }

    /// Reads again the item at an index, after the items before it. Returns `None` if there is no
    /// such item.
    ///
    /// # Errors
    /// `ErrorKind::Memory` (1) if the item, or one before it, takes memory and none is left.
    pub fn get(&self, alloc: Global, index: usize) -> Option<Result<T, Error>>
        ensures { AreContentsOf (items_format T.Form) (octets_of self.now)
            → ComesAt T.Form (item_encodings T.parse (octets_of self.now)) index result }
    {
        self.iter(alloc).at(index)
    }

    /// Returns whether one of the items passes a test. The result is also false if items take
    /// memory, and memory runs out.
    #[tactic(auto, using(crate::proofs::TestedItems::all_to_come))]
    pub fn any<P: ItemTest<T>>(&self, alloc: Global, test: &P) -> bool
        ensures { T.Form.TAKES_MEMORY ≡ false → (items : List T) → AreItems T.Form (octets_of self.now) items
            → result ≡ list_any (P.passes test.now) items }
    {
        self.iter(alloc).has_one(test)
    }

    /// Returns whether each of the items passes a test. The result is also false if items take
    /// memory, and memory runs out.
    #[tactic(auto, using(crate::proofs::TestedItems::all_to_come))]
    pub fn all<P: ItemTest<T>>(&self, alloc: Global, test: &P) -> bool
        ensures { T.Form.TAKES_MEMORY ≡ false → (items : List T) → AreItems T.Form (octets_of self.now) items
            → result ≡ list_all (P.passes test.now) items }
    {
        self.iter(alloc).has_all(test)
    }

    /// Reads the items into a vector.
    ///
    /// # Errors
    /// `ErrorKind::Memory` (1) if memory runs out.
    pub fn to_vec(&self, alloc: Global) -> Result<Vec<T>, Error>
        ensures { AreContentsOf (items_format T.Form) (octets_of self.now)
            → ReReadsAll T.Form (item_encodings T.parse (octets_of self.now)) result }
    {
        self.iter(alloc).in_vector(alloc)
    }
}

impl<'a, T: Form> UnorderedSetRef<'a, T> {
    ghost use Rattle.der_lists.specs.UnorderedSetRef.{octets_of};

    /// Returns the items in order. Each is read again, until nothing is left.
    #[tactic(auto, using(crate::proofs::ReadingOnItems::items_of_new, crate::proofs::ReadingOnItems::encodings_of_new))]
    pub fn iter(&self, alloc: Global) -> ItemIter<'a, T>
        ensures octets { result ≡ new_reader (octets_of self.now) Der }
        ensures items { AreContentsOf (items_format T.Form) (octets_of self.now)
            → HasItems T.Form result }
        ensures encodings { encodings_to_come T.parse result
            ≡ item_encodings T.parse (octets_of self.now) }
    {
        ItemIter::new(alloc, self.octets)
    }
}

impl<'a, T> Clone for UnorderedSetRef<'a, T> {
    ghost is_clone = { λ v w. w ≡ v };

    ghost is_infallible = { λ _. ⊤ };

    fn clone(&self) -> Result<UnorderedSetRef<'a, T>, AllocError> {
        let octets = self.octets;
        let of = PhantomData;
        Ok(UnorderedSetRef { octets, of })
    }
}

impl<'a, T> Copy for UnorderedSetRef<'a, T> {}

impl<'a, T> fmt::Debug for UnorderedSetRef<'a, T> {
    /// Writes the octets as an OCTET STRING shows them.
    fn fmt<W: fmt::Write>(&self, f: &mut fmt::Formatter<W>) -> fmt::Result {
        fmt::Debug::fmt(&self.octets, f)
    }
}

impl<'a, T> PartialEq for UnorderedSetRef<'a, T> {
    ghost eq = { λ v w. ⟦<OctetStringRef<'a> as PartialEq>⟧.eq v.octets w.octets };

    ghost laws = { on_per (λ v. v.octets) string_eq.laws-law };

    fn eq(&self, other: &UnorderedSetRef<'a, T>) -> bool {
        self.octets == other.octets
    }
}

impl<'a, T> Eq for UnorderedSetRef<'a, T> {
    ghost laws = { on_equiv (λ v. v.octets) string_equivalence.laws-law };
}

impl<'a, T> OneTag for UnorderedSetRef<'a, T> {
    type Marker = SetTag;
}

impl<'a, T: Form> FormValue for UnorderedSetRef<'a, T> {
    ghost use Rattle.der_lists.specs.UnorderedSetRef.{octets_of};

    ghost value = { kept_format octets_of (items_format T.Form) };
}

impl<'a, R: Source<'a>, T: Decode<'a, SliceReader<'a>> + Choice> DecodeValue<'a, R>
    for UnorderedSetRef<'a, T> {
    ghost TAKES_MEMORY = { T.Decode.TAKES_MEMORY };

    const TAKES_MEMORY: bool = <T as Decode<'a, SliceReader<'a>>>::TAKES_MEMORY;

    fn decode_value(
        alloc: Global,
        reader: &mut R,
        header: Header,
    ) -> Result<UnorderedSetRef<'a, T>, Error> {
        let begin = reader.position();
        let octets = read_contents(reader, header)?;
        match UnorderedSetRef::new(alloc, octets) {
            Ok(list) => Ok(list),
            Err(e) => {
                reader.error(e.kind);
                Err(behind(begin, e))
            }
        }
    }

    ghost takes_memory_is = { T.Decode.takes_memory_is };
}

impl<'a, T: Form> EncodeValue for UnorderedSetRef<'a, T> {
    fn value_len(&self) -> Result<Length, Error> {
        Ok(self.octets.len())
    }

    fn encode_value<W: Writer>(&self, writer: &mut W) -> Result<(), Error> {
        writer.write(self.octets.as_bytes())
    }

    fn encode_value_back<W: BackWriter>(&self, writer: &mut W) -> Result<(), Error> {
        writer.put(self.octets.as_bytes());
        Ok(())
    }
}

impl<'a, T: Form> ValueOrd for UnorderedSetRef<'a, T> {
    fn value_cmp(&self, other: &UnorderedSetRef<'a, T>) -> Result<Ordering, Error> {
        self.octets.value_cmp(&other.octets)
    }
}

impl<'a, T: Form> ContentsEq for UnorderedSetRef<'a, T> {
    ghost contents_eq = { λ v w one. bytes_decides v.octets.octets.now w.octets.octets.now };
}

impl<'a, T: Form> CopyIsDuplicate for UnorderedSetRef<'a, T> {}
