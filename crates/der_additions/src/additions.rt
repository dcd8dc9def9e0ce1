//! The extension additions of a SEQUENCE that a module does not have (X.680 7, 25): whole encodings
//! with any tags, one after another.
//!
//! In the octets 30 06 02 01 05 81 01 FF of a SEQUENCE with one INTEGER, they are 81 01 FF.
//!
//! The contents octets of an addition are not checked. Reading returns the first error of a
//! header under DER, or `ErrorKind::Incomplete` (2) if fewer octets are left than a header says.
//! Additions are written, compared and copied as they came.

ghost use Rattle.std.specs.Prelude.{◌≡◌, ◌<◌, ◌≤◌, ◌==◌, ◌^◌, [], length, IfErr, OnOk};
ghost use Rattle.der_tlv.specs.ReaderState.{new_reader};
ghost use Rattle.der_tlv.specs.declared.encoding_rules.EncodingRules.TheVariants.{Der};
ghost use Rattle.der_tlv.specs.declared.error.ErrorKind.TheVariants as kinds;
ghost use Rattle.der_tlv.specs.declared.tag.Tag.TheVariants as tags;
ghost use Rattle.der_lists.specs.ListRef as list_ref;
ghost use Rattle.der_lists.specs.ReadingOn.{HasItems, encodings_to_come};
ghost use Rattle.der_additions.specs.Elements.{AreElements, KeepsElements, StandsAt, encodings_of};

use der_elem::Form;
use der_lists::{ItemIter, ListRef};
use der_opaque::AnyRef;
use der_tlv::Error;
use std::alloc::Global;
use std::fmt;

/// Whole encodings with any tags, borrowed, one after another: at most 4294967295 octets.
#[derive(Clone, Copy, PartialEq, Eq, Drop)]
pub struct Additions<'a> {
    pub(crate) list: ListRef<'a, AnyRef<'a>>,
    ghost elements: { ∥ AreElements (list_ref.octets_of list) ∥₁ },
}

impl<'a> Additions<'a> {
    ghost use Rattle.der_additions.specs.Additions.{octets_of};

    /// Keeps the additions in these octets, and reads each header once.
    ///
    /// # Errors
    /// The first error of a header under DER, or of the number of octets that it says;
    /// `ErrorKind::Length` (7) for more than 4294967295 octets.
    pub fn new(alloc: Global, octets: &'a [u8]) -> Result<Additions<'a>, Error>
        ensures kept { length octets.now < 2 ^ 32 → KeepsElements octets_of octets.now result }
        ensures fits { OnOk result (length octets.now < 2 ^ 32) }
        ensures long { IfErr result (λ e. 2 ^ 32 ≤ length octets.now → e.kind ≡ kinds.Length tags.OctetString) }
    {
        match ListRef::new(alloc, octets) {
            Ok(list) => Ok(Additions { list }),
            Err(e) => Err(e),
        }
    }

    /// Returns a value with no additions.
    pub fn none(alloc: Global) -> Additions<'a>
        ensures { octets_of result ≡ [] }
    {
        match Additions::new(alloc, &[]) {
            Ok(additions) => additions,
            Err(_) => unreachable!(),
        }
    }

    /// Returns the octets of all additions, as they came.
    pub fn as_bytes(&self) -> &'a [u8]
        ensures { result.now ≡ octets_of self.now }
    {
        self.list.as_bytes()
    }

    /// Returns whether there are no additions.
    pub fn is_empty(&self) -> bool
        ensures { result ≡ (length (octets_of self.now) == 0) }
    {
        self.list.is_empty()
    }

    /// Returns the addition at an index, if there is one. It reads those before it again.
    pub fn get(&self, alloc: Global, index: usize) -> Option<AnyRef<'a>>
        ensures { StandsAt (encodings_of (octets_of self.now)) index result }
    {
        match self.list.get(alloc, index) {
            Some(Ok(addition)) => Some(addition),
            Some(Err(_)) => unreachable!(),
            None => None,
        }
    }

    /// Returns the additions in their order, each read again, until no octets are left.
    pub fn iter(&self, alloc: Global) -> ItemIter<'a, AnyRef<'a>>
        ensures octets { result ≡ new_reader (octets_of self.now) Der }
        ensures items { ∥ HasItems ⟦<AnyRef<'a> as Form>⟧ result ∥₁ }
        ensures encodings { encodings_to_come ⟦<AnyRef<'a> as Form>⟧.parse result
            ≡ encodings_of (octets_of self.now) }
    {
        self.list.iter(alloc)
    }
}

impl<'a> fmt::Debug for Additions<'a> {
    /// Formats the octets as those of an OCTET STRING.
    fn fmt<W: fmt::Write>(&self, f: &mut fmt::Formatter<W>) -> fmt::Result {
        fmt::Debug::fmt(&self.list, f)
    }
}
