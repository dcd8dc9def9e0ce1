//! A SEQUENCE that reaches itself.

ghost use Rattle.std.specs.Prelude.{refl, false};
ghost use Rattle.der_tlv.specs.Views.{slice_reader_state};
ghost use Rattle.der_elem.specs.FormatMakers.{mapped_format};
ghost use Rattle.der_recursive.specs.Held.{LendsAt, ReadsHeld};

use der_elem::{Decode, DecodeValue, Form, FormValue, OneTag, SequenceTag};
use der_fields::{DecodeFields, FieldList, Fields2, Implicit};
use der_nest::SequenceRef;
use der_recursive::Recursive;
use der_tlv::{Error, Header, SliceReader, Source};
use std::alloc::Global;

/// The list of the fields.
type Fields<'a> = Fields2<Implicit<SequenceRef<'a>, 0>, Implicit<SequenceRef<'a>, 1>>;

/// ```text
/// Tree ::= SEQUENCE { left [0] SEQUENCE OF Tree, right [1] SEQUENCE OF Tree }
/// ```
///
/// Its components are kept, and not read.
#[derive(Clone, Copy)]
pub struct Tree<'a> {
    fields: Fields<'a>,
}

impl<'a> Tree<'a> {
    ghost use Rattle.layer_tests.specs.Tree.{held_of};

    /// Returns the octets of `left` at index 0, and of `right` at index 1.
    fn held(self, index: usize) -> Option<&'a [u8]>
        ensures { LendsAt (held_of self.entry) index result }
    {
        match index {
            0 => Some(self.fields.list.first.value.as_bytes()),
            1 => Some(self.fields.list.rest.first.value.as_bytes()),
            _ => None,
        }
    }
}

impl<'a> OneTag for Tree<'a> {
    type Marker = SequenceTag;
}

impl<'a> FormValue for Tree<'a> {
    ghost value = { mapped_format (λ v. v.fields) ⟦<Fields<'a> as FieldList>⟧.list.octets };
}

impl<'a, R: Source<'a>> DecodeValue<'a, R> for Tree<'a> {
    ghost TAKES_MEMORY = { false };

    const TAKES_MEMORY: bool = false;

    fn decode_value(alloc: Global, reader: &mut R, _header: Header) -> Result<Tree<'a>, Error> {
        match Fields::<'a>::decode_fields(alloc, reader) {
            Ok(fields) => Ok(Tree { fields }),
            Err(e) => Err(e),
        }
    }

    ghost takes_memory_is = { refl };
}

impl<'a> Recursive for Tree<'a> {
    ghost use Rattle.layer_tests.specs.Tree.{held_of};
    ghost use Rattle.layer_tests.specs.HeldLaws.{same_two};

    ghost held = { held_of };

    fn read_held<'b>(
        alloc: Global,
        reader: &mut SliceReader<'b>,
        index: usize,
    ) -> Result<Option<&'b [u8]>, Error>
        ensures { ReadsHeld ⟦<Tree<'b> as Form>⟧ held_of index
            (slice_reader_state reader.old) (slice_reader_state reader.new) result }
    {
        match Tree::<'b>::decode(alloc, reader) {
            Ok(tree) => Ok(tree.held(index)),
            Err(e) => Err(e),
        }
    }

    ghost held_by_encoding = { λ v w e. same_two _ _ _ _ _ _ _ e };

    ghost takes_no_memory = { refl };
}
