//! Tags of the application, the context-specific and the private class, whose number is known in
//! the type (X.690 8.14).

ghost use Rattle.std.specs.Prelude.{true};
ghost use Rattle.der_tlv.specs.TagParts.{is_constructed};
ghost use Rattle.der_fields.specs.MarkerTags.{marker_tag, marker_tag-in_range};

use der_elem::TagMarker;
use der_tlv::{Tag, TagNumber};
use std::marker::PhantomData;

/// The constructed tag of this class with this number. The class is bits 8 and 7 of the
/// identifier. Other crates only get it by the names below, so it is application (1),
/// context-specific (2) or private (3).
pub struct ExplicitTagIn<const CLASS: u8, const NUMBER: u32>;

/// The tag of `[NUMBER] EXPLICIT`.
pub type ExplicitTag<const NUMBER: u32> = ExplicitTagIn<2, NUMBER>;

/// The tag of `[APPLICATION NUMBER] EXPLICIT`.
pub type ExplicitApplicationTag<const NUMBER: u32> = ExplicitTagIn<1, NUMBER>;

/// The tag of `[PRIVATE NUMBER] EXPLICIT`.
pub type ExplicitPrivateTag<const NUMBER: u32> = ExplicitTagIn<3, NUMBER>;

impl<const CLASS: u8, const NUMBER: u32> TagMarker for ExplicitTagIn<CLASS, NUMBER> {
    ghost TAG = { marker_tag CLASS true NUMBER };

    const TAG: Tag = if CLASS == 1 {
        Tag::Application {
            constructed: true,
            number: TagNumber(NUMBER),
        }
    } else if CLASS == 2 {
        Tag::ContextSpecific {
            constructed: true,
            number: TagNumber(NUMBER),
        }
    } else {
        Tag::Private {
            constructed: true,
            number: TagNumber(NUMBER),
        }
    };

    ghost tag_in_range = { marker_tag-in_range CLASS true NUMBER };
}

/// The tag of this class with this number, which is constructed if the marked tag is. The class
/// has the numbers of `ExplicitTagIn`.
pub struct ImplicitTagIn<M, const CLASS: u8, const NUMBER: u32> {
    of: PhantomData<M>,
}

/// The tag of `[NUMBER] IMPLICIT`.
pub type ImplicitTag<M, const NUMBER: u32> = ImplicitTagIn<M, 2, NUMBER>;

/// The tag of `[APPLICATION NUMBER] IMPLICIT`.
pub type ImplicitApplicationTag<M, const NUMBER: u32> = ImplicitTagIn<M, 1, NUMBER>;

/// The tag of `[PRIVATE NUMBER] IMPLICIT`.
pub type ImplicitPrivateTag<M, const NUMBER: u32> = ImplicitTagIn<M, 3, NUMBER>;

impl<M: TagMarker, const CLASS: u8, const NUMBER: u32> TagMarker
    for ImplicitTagIn<M, CLASS, NUMBER> {
    ghost TAG = { marker_tag CLASS (is_constructed M.TAG) NUMBER };

    const TAG: Tag = {
        let constructed = match M::TAG {
            Tag::Sequence | Tag::Set => true,
            Tag::Application { constructed, .. } => constructed,
            Tag::ContextSpecific { constructed, .. } => constructed,
            Tag::Private { constructed, .. } => constructed,
            _ => false,
        };
        let number = TagNumber(NUMBER);
        if CLASS == 1 {
            Tag::Application {
                constructed,
                number,
            }
        } else if CLASS == 2 {
            Tag::ContextSpecific {
                constructed,
                number,
            }
        } else {
            Tag::Private {
                constructed,
                number,
            }
        }
    };

    ghost tag_in_range = { marker_tag-in_range CLASS (is_constructed M.TAG) NUMBER };
}
