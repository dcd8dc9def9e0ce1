//! Extensions by their identifiers (RFC 5280 4.2): "A certificate MUST NOT include more than one instance of a
//! particular extension."

ghost use Rattle.std.specs.Prelude.{◌≡◌, List, length, Result, Err, Some};
ghost use Rattle.std.specs.List.{list_any};
ghost use Rattle.der_pkix.specs.declared.certificate.extension.Extension.{Extension};
ghost use Rattle.der_lists.specs.Items.{AreToCome};
ghost use Rattle.der_verify.specs.Extensions.{has_identifier, with_identifier, AreExtensions, FindsOne};

use crate::shown::{ShownTest, one_passes};
use der_elem::Form;
use der_lists::ItemIter;
use der_pkix::certificate::{Extension, Extensions};
use der_tlv::{Error, Tag};
use std::alloc::Global;

/// Returns the extension whose identifier has these contents octets, such as 55 1D 0F for
/// keyUsage, if one has it.
///
/// # Errors
/// `ErrorKind::Value` (13) with the tag of SEQUENCE if two or more have it.
pub fn find_extension<'a>(
    alloc: Global,
    extensions: &Extensions<'a>,
    identifier: &[u8],
) -> Result<Option<Extension<'a>>, Error>
    ensures { (items : List Extension) → AreExtensions ⟦<Extension<'a> as Form>⟧ extensions.now items
        → FindsOne ⟦<Extension<'a> as Form>⟧ (with_identifier identifier.now items) result }
{
    let mut left = extensions.items().iter(alloc);
    'each: while let Some(item) = left.next() {
        let extension = match item {
            Ok(extension) => extension,
            Err(e) => return Err(e),
        };
        if has_identifier(&extension, identifier) {
            if one_has(left, identifier) {
                return Err(Error::from_kind(Tag::Sequence.value_error()));
            }
            return Ok(Some(extension));
        }
    }
    Ok(None)
}

/// Returns whether the identifier of an extension has these contents octets.
pub(crate) fn has_identifier(extension: &Extension<'_>, identifier: &[u8]) -> bool
    ensures { result ≡ has_identifier identifier.now extension.now }
{
    extension.extn_id().as_bytes() == identifier
}

/// Returns whether one of the extensions that are left has an identifier with these contents
/// octets.
pub(crate) fn one_has<'a>(extensions: ItemIter<'a, Extension<'a>>, identifier: &[u8]) -> bool
    ensures { (items : List Extension) → AreToCome ⟦<Extension<'a> as Form>⟧ extensions.entry items
        → result ≡ list_any (has_identifier identifier.now) items }
{
    one_passes(extensions, &HasIdentifier { identifier })
}

/// The test that an extension has this identifier.
#[derive(Drop)]
struct HasIdentifier<'b> {
    identifier: &'b [u8],
}

impl<'a, 'b> ShownTest<Extension<'a>> for HasIdentifier<'b> {
    ghost use Rattle.der_pkix.specs.declared.certificate.extension.Extension.{Extension};
    ghost use Rattle.der_verify.specs.Extensions.{has_identifier};
    ghost use Rattle.der_verify.specs.Shown.{Encodes, encodes_too};

    ghost Shown = { Extension };

    ghost shows = { λ p v x. Encodes ⟦<Extension<'a> as Form>⟧ v x };

    ghost passes = { λ p x. has_identifier p.identifier.now x };

    fn passes(&self, item: &Extension<'a>) -> bool {
        has_identifier(item, self.identifier)
    }

    ghost respects = { λ p v w x. encodes_too ⟦<Extension<'a> as Form>⟧ v w x };
}
