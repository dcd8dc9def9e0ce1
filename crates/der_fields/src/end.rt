//! The end of a list of fields: no octets.
//!
//! Decoding fails on octets that are left over (3).

ghost use Rattle.std.specs.Prelude.{◌≡◌, false, None, refl};
ghost use Rattle.der_fields.specs.ListMakers.{end_list};

use crate::coded::{DecodeFields, EncodeFields};
use crate::copied::{DuplicateFields, DuplicateFieldsAreEqual};
use crate::equal::FieldsEq;
use crate::field_list::FieldList;
use crate::ordered::{FieldsFirstTag, FieldsOrd};
use crate::soundness::is_sound;
use der_elem::check_ready;
use der_tlv::{BackWriter, Error, ErrorKind, Length, Reader, Source, Tag, Writer};
use std::alloc::Global;
use std::cmp::Ordering;

/// The end of a list of fields.
#[derive(Clone, Copy, Debug, PartialEq, Eq)]
pub struct End;

impl FieldList for End {
    ghost list = { end_list };
}

impl<'a, R: Source<'a>> DecodeFields<'a, R> for End {
    ghost TAKES_MEMORY = { false };

    const TAKES_MEMORY: bool = false;

    fn decode_fields(_alloc: Global, reader: &mut R) -> Result<End, Error> {
        check_ready(reader)?;
        if reader.is_finished() {
            return Ok(End);
        }
        is_sound(reader);
        let decoded = reader.position();
        let remaining = reader.remaining_len();
        Err(reader.error(ErrorKind::TrailingData { decoded, remaining }))
    }

    ghost takes_memory_is = { refl };
}

impl EncodeFields for End {
    fn fields_len(&self) -> Result<Length, Error> {
        Ok(Length::ZERO)
    }

    fn encode_fields<W: Writer>(&self, _writer: &mut W) -> Result<(), Error> {
        Ok(())
    }

    fn encode_fields_back<W: BackWriter>(&self, _writer: &mut W) -> Result<(), Error> {
        Ok(())
    }
}

impl FieldsFirstTag for End {
    fn fields_first_tag(&self) -> Option<Tag> {
        None
    }

    ghost starts_fields = { λ v. refl };
}

impl FieldsOrd for End {
    fn cmp_fields(&self, _other: &End) -> Result<Ordering, Error> {
        Ok(Ordering::Equal)
    }
}

impl FieldsEq for End {
    ghost fields_eq = { λ v w one. (λ h. refl, λ e. refl) };
}

impl DuplicateFields for End {
    ghost are_copies = { λ v w. Unit {0} };

    ghost take_memory_to_copy = { false };

    fn duplicate_fields(&self) -> Result<End, Error> {
        Ok(End)
    }

    ghost copy_joined = { λ v w c. refl };

    ghost copy_all_comparable = { λ v w x c f. tt };

    ghost copy_re_read = { λ v w c. refl };
}

impl DuplicateFieldsAreEqual for End {
    ghost copies_are_equal = { λ v w c. refl };
}
