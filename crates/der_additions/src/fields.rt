//! The additions as the end of a list of fields.
//!
//! No octets are left over then: octets that `End` refuses (3) are additions. A field that may be
//! absent is distinguished from the first addition by its tag, as from any field after it. So a
//! value in which such a field is absent, and whose first addition has the tag of the field, can
//! be written, but is read as another value.

ghost use Rattle.std.specs.Prelude.{◌≡◌, true, false, None, length, refl};
ghost use Rattle.std.proofs.Common.{ap, subst, sym};
ghost use Rattle.std.specs.Cmp.Lexicographic.{bytes_decides};
ghost use Rattle.der_tlv.specs.ReaderState.{rest};
ghost use Rattle.der_additions.specs.ElementLaws.{starts_with_first};
ghost use Rattle.der_additions.specs.Additions.{additions_format, octets_of};

use crate::additions::Additions;
use crate::first_tag::first_tag;
use der_elem::{DecodeValue, EncodeValue, ValueOrd};
use der_fields::{
    DecodeFields, DistinctTags, DuplicateFields, DuplicateFieldsAreEqual, EncodeFields, FieldList,
    FieldsEq, FieldsFirstTag, FieldsOrd,
};
use der_lists::ListRef;
use der_modules::copy_of;
use der_opaque::AnyRef;
use der_tlv::{BackWriter, Error, Header, Length, Reader, Source, Tag, Writer};
use std::alloc::Global;
use std::cmp::Ordering;

/// Returns the number of octets that a reader has left.
fn shown_len<'a, R: Source<'a>>(reader: &R) -> Length
    ensures { result ≡ length (rest (R.state reader.now)) }
{
    reader.remaining_len()
}

impl<'a> FieldList for Additions<'a> {
    ghost list = { additions_format };
}

impl<'a, R: Source<'a>> DecodeFields<'a, R> for Additions<'a> {
    ghost TAKES_MEMORY = { false };

    const TAKES_MEMORY: bool = false;

    fn decode_fields(alloc: Global, reader: &mut R) -> Result<Additions<'a>, Error> {
        let length = shown_len(reader);
        let tag = Tag::Sequence;
        let header = Header { tag, length };
        match ListRef::<'a, AnyRef<'a>>::decode_value(alloc, reader, header) {
            Ok(list) => Ok(Additions { list }),
            Err(e) => Err(e),
        }
    }

    ghost takes_memory_is = { refl };
}

impl<'a> EncodeFields for Additions<'a> {
    fn fields_len(&self) -> Result<Length, Error> {
        self.list.value_len()
    }

    fn encode_fields<W: Writer>(&self, writer: &mut W) -> Result<(), Error> {
        self.list.encode_value(writer)
    }

    fn encode_fields_back<W: BackWriter>(&self, writer: &mut W) -> Result<(), Error> {
        self.list.encode_value_back(writer)
    }
}

impl<'a> FieldsFirstTag for Additions<'a> {
    fn fields_first_tag(&self) -> Option<Tag> {
        first_tag(self.list.as_bytes())
    }

    ghost starts_fields = { λ v. starts_with_first (octets_of v) v.elements };
}

impl<'a> FieldsOrd for Additions<'a> {
    fn cmp_fields(&self, other: &Additions<'a>) -> Result<Ordering, Error> {
        self.list.value_cmp(&other.list)
    }
}

impl<'a> FieldsEq for Additions<'a> {
    ghost fields_eq = { λ v w one. bytes_decides (octets_of v) (octets_of w) };
}

impl<'a> DuplicateFields for Additions<'a> {
    ghost are_copies = { λ v w. w ≡ v };

    ghost take_memory_to_copy = { false };

    fn duplicate_fields(&self) -> Result<Additions<'a>, Error> {
        Ok(copy_of(self))
    }

    ghost copy_joined = { λ v w c. ap octets_of c };

    ghost copy_all_comparable = { λ v w x c f. tt };

    ghost copy_re_read = { λ v w c. refl };
}

impl<'a> DuplicateFieldsAreEqual for Additions<'a> {
    ghost copies_are_equal = { λ v w c. (bytes_decides (octets_of v) (octets_of w)).1 (ap octets_of (sym c)) };
}

impl<'a> DistinctTags for Additions<'a> {
    ghost first_tags = { None };

    ghost TAGS_ARE_DISTINCT = { true };

    ghost each_readable = { λ v. Unit {0} };

    ghost each_comparable = { λ v w. Unit {0} };

    ghost first_is_known = { λ v t e. refl };

    ghost readable_if_distinct = { λ e v r. tt };

    ghost comparable_if_distinct = { λ e v w c. tt };
}
