//! SEQUENCE OF, borrowed, which is `SequenceOfRef` (X.690 8.10).
//!
//! The tag is 30. The contents octets are the encodings of the items, one after another, so that
//! the INTEGERs 8 and 7 are encoded as 30 06 02 01 08 02 01 07.
//!
//! Decoding keeps the octets and the number of items, and no item. It fails with the first error
//! of an item, from the left, and with `ErrorKind::Memory` (1) if the item takes memory and none
//! is left. A reader of the contents octets alone reads the items, from position 0 and under DER.
//! The octets are compared and written as they were read. Each call that gives items reads them
//! again.

ghost use Rattle.std.specs.Prelude.{◌≡◌, ◌<◌, ◌==◌, ◌^◌, ⊤, length, map, refl, nat_eq, false, IfOk, IfErr};
ghost use Rattle.std.proofs.Common.{sym};
ghost use Rattle.std.specs.List.{All};
ghost use Rattle.std.specs.Cmp.{partial_equiv_from_equiv};
ghost use Rattle.std.specs.Cmp.Lexicographic.{pointwise, bytes_decides, nat_list_eq_equiv};
ghost use Rattle.der_tlv.specs.declared.encoding_rules.EncodingRules.TheVariants.{Der};
ghost use Rattle.der_tlv.specs.declared.error.ErrorKind.TheVariants.{Memory};
ghost use Rattle.der_nest.specs.KeptFormat.{kept_format, KeepsContents};
ghost use Rattle.der_nest.specs.ReReading.{ReReadsAt, encodings_read};
ghost use Rattle.der_nest.specs.BorrowedSequences.{items_format, item_encodings};

use crate::item_reader::ItemReader;
use crate::sequence_of_ref_iter::SequenceOfRefIter;
use der_elem::{
    Choice, ContentsEq, Decode, DecodeValue, DuplicateValue, DuplicateValueIsEqual, EncodeValue,
    Form, FormValue, OneTag, Sequence, SequenceTag, ValueOrd, read_contents,
};
use der_opaque::OctetStringRef;
use der_tlv::{BackWriter, Error, ErrorKind, Header, Length, Reader, SliceReader, Source, Writer};
use std::alloc::{AllocError, Global};
use std::cmp::Ordering;
use std::fmt;
use std::marker::{Model, PhantomData};

/// The contents octets of items that were read, borrowed. There are at most 4294967295 of them.
#[derive(Drop)]
pub struct SequenceOfRef<'a, T: Form> {
    octets: OctetStringRef<'a>,
    count: usize,
    alloc: Global,
    of: PhantomData<&'a T>,
    ghost counted: { length (item_encodings T.parse octets.octets.now) ≡ count },
    ghost read: { encodings_read count T.parse Der 0 octets.octets.now
        ≡ item_encodings T.parse octets.octets.now },
}

impl<'a, T: Form> Model for SequenceOfRef<'a, T> {
    ghost use Rattle.std.specs.Prelude.{ℕ, List};

    ghost Value = { List ℕ };

    ghost view = { λ s. s.octets.octets.now };
}

impl<'a, T: Form> SequenceOfRef<'a, T> {
    /// Returns the contents octets.
    pub fn as_bytes(&self) -> &'a [u8]
        ensures { result.now ≡ self.now }
    {
        self.octets.as_bytes()
    }

    /// Returns the number of items.
    pub fn len(&self) -> usize
        ensures { result ≡ length (item_encodings T.parse self.now) }
    {
        self.count
    }

    /// Returns whether there are no items.
    pub fn is_empty(&self) -> bool
        ensures { result ≡ (length (item_encodings T.parse self.now) == 0) }
    {
        self.len() == 0
    }

    /// Returns the items in order, each read again.
    pub fn iter(&self) -> SequenceOfRefIter<'a, T>
        ensures { result ≡ item_encodings T.parse self.now }
    {
        SequenceOfRefIter {
            items: ItemReader::new(self.alloc, self.octets.as_bytes(), self.count),
        }
    }
}

impl<'a, T: Decode<'a, SliceReader<'a>>> SequenceOfRef<'a, T> {
    /// Reads again the item at an index, after the items before it. Returns `None` if there is no
    /// such item.
    ///
    /// # Errors
    /// `ErrorKind::Memory` (1) if an item takes memory and none is left.
    pub fn get(&self, index: usize) -> Option<Result<T, Error>>
        ensures { ReReadsAt T.Form (item_encodings T.parse self.now) index result }
    {
        self.iter().items.at(index)
    }

    /// Reads the items into a vector.
    ///
    /// # Errors
    /// `ErrorKind::Memory` (1) if memory runs out.
    pub fn ref_to_owned(&self, alloc: Global) -> Result<Vec<T>, Error>
        ensures readable { IfOk result (λ items. All T.readable items.items) }
        ensures ok { IfOk result (λ items. map T.encoding items.items
            ≡ item_encodings T.parse self.now) }
        ensures refused { IfErr result (λ e. e.kind ≡ Memory) }
    {
        let mut items = Vec::new(alloc);
        let mut rest = self.iter();
        'items: while let Some(item) = rest.next() {
            let item = item?;
            if items.push(item).is_err() {
                return Err(Error::from_kind(ErrorKind::Memory));
            }
        }
        Ok(items)
    }
}

impl<'a, 'b, T: Form> From<&'b SequenceOfRef<'a, T>> for SequenceOfRef<'a, T> {
    ghost from_gives = { λ s r. r ≡ s.now };

    /// Creates the same sequence, of the same octets.
    fn from(sequence: &'b SequenceOfRef<'a, T>) -> SequenceOfRef<'a, T> {
        SequenceOfRef {
            octets: sequence.octets,
            count: sequence.count,
            alloc: sequence.alloc,
            of: PhantomData,
        }
    }
}

impl<'a, T: Form> Clone for SequenceOfRef<'a, T> {
    ghost is_clone = { λ v w. w ≡ v };

    ghost is_infallible = { λ _. ⊤ };

    fn clone(&self) -> Result<SequenceOfRef<'a, T>, AllocError> {
        Ok(SequenceOfRef::from(self))
    }
}

impl<'a, T: Form> fmt::Debug for SequenceOfRef<'a, T> {
    /// Writes the contents octets; the items are not read again.
    fn fmt<W: fmt::Write>(&self, f: &mut fmt::Formatter<W>) -> fmt::Result {
        f.debug_struct("SequenceOfRef")
            .field("octets", &self.as_bytes())
            .finish()
    }
}

impl<'a, T: Form> PartialEq for SequenceOfRef<'a, T> {
    ghost eq = { pointwise nat_eq };

    ghost laws = { partial_equiv_from_equiv nat_list_eq_equiv };

    fn eq(&self, other: &SequenceOfRef<'a, T>) -> bool {
        self.octets == other.octets
    }
}

impl<'a, T: Form> Eq for SequenceOfRef<'a, T> {
    ghost laws = { nat_list_eq_equiv };
}

impl<'a, T: Form> OneTag for SequenceOfRef<'a, T> {
    type Marker = SequenceTag;
}

impl<'a, T: Form> Sequence<'a> for SequenceOfRef<'a, T> {
    ghost is_sequence = { refl };
}

impl<'a, T: Form> FormValue for SequenceOfRef<'a, T> {
    ghost value = { kept_format (λ octets. octets) (items_format T.Form) };
}

/// Keeps the contents octets if they are read as items until nothing is left.
fn keep_items<'a, T: Decode<'a, SliceReader<'a>> + Choice>(
    alloc: Global,
    octets: &'a [u8],
) -> Result<SequenceOfRef<'a, T>, Error>
    ensures { length octets.now < 2 ^ 32
        → KeepsContents (λ octets. octets) (items_format T.Form) octets.now result }
{
    let octets = match OctetStringRef::new(octets) {
        Ok(octets) => octets,
        Err(e) => return Err(e),
    };
    let mut reader = match SliceReader::new(octets.as_bytes()) {
        Ok(reader) => reader,
        Err(e) => return Err(e),
    };
    let mut count = 0;
    'items: while !reader.is_finished() {
        let _item = T::decode(alloc, &mut reader)?;
        count += 1;
    }
    Ok(SequenceOfRef {
        octets,
        count,
        alloc,
        of: PhantomData,
    })
}

impl<'a, R: Source<'a>, T: Decode<'a, SliceReader<'a>> + Choice> DecodeValue<'a, R>
    for SequenceOfRef<'a, T> {
    ghost TAKES_MEMORY = { T.Decode.TAKES_MEMORY };

    const TAKES_MEMORY: bool = <T as Decode<'a, SliceReader<'a>>>::TAKES_MEMORY;

    fn decode_value(
        alloc: Global,
        reader: &mut R,
        header: Header,
    ) -> Result<SequenceOfRef<'a, T>, Error> {
        let octets = read_contents(reader, header)?;
        match keep_items(alloc, octets) {
            Ok(kept) => Ok(kept),
            Err(e) => {
                // The reader fails; the position is that of the reader of the contents octets.
                reader.error(e.kind);
                Err(e)
            }
        }
    }

    ghost takes_memory_is = { T.Decode.takes_memory_is };
}

impl<'a, T: Form> EncodeValue for SequenceOfRef<'a, T> {
    fn value_len(&self) -> Result<Length, Error> {
        Ok(self.octets.len())
    }

    fn encode_value<W: Writer>(&self, writer: &mut W) -> Result<(), Error> {
        writer.write(self.octets.as_bytes())
    }

    fn encode_value_back<W: BackWriter>(&self, writer: &mut W) -> Result<(), Error> {
        writer.put(self.octets.as_bytes());
        Ok(())
    }
}

impl<'a, T: Form> ValueOrd for SequenceOfRef<'a, T> {
    fn value_cmp(&self, other: &SequenceOfRef<'a, T>) -> Result<Ordering, Error> {
        self.octets.value_cmp(&other.octets)
    }
}

impl<'a, T: Form> ContentsEq for SequenceOfRef<'a, T> {
    ghost contents_eq = { λ v w one. bytes_decides v w };
}

impl<'a, T: Form> DuplicateValue for SequenceOfRef<'a, T> {
    ghost is_copy_value = { λ v w. w ≡ v };

    ghost takes_memory_to_copy_value = { false };

    fn duplicate_value(&self) -> Result<SequenceOfRef<'a, T>, Error> {
        Ok(SequenceOfRef::from(self))
    }

    ghost copy_contents = { λ v w e. e };

    ghost copy_comparable_value = { λ v w x e one. one };

    ghost copy_re_reads_value = { λ v w e. refl };
}

impl<'a, T: Form> DuplicateValueIsEqual for SequenceOfRef<'a, T> {
    ghost copy_value_is_equal = { λ v w e. (bytes_decides v w).1 (sym e) };
}
