//! Values of extensions, by their identifiers.

ghost use Rattle.std.specs.Prelude.{◌≡◌, false, List, option_copied};
ghost use Rattle.der_pkix.specs.declared.certificate.extension.Extension.{Extension};
ghost use Rattle.der_verify.specs.Extensions.{with_identifier};
ghost use Rattle.der_verify.specs.Rfc5280.{AreListed};
ghost use Rattle.der_path.specs.Facts.{Reads, ShowsOne};

use crate::facts::{NoFacts, extensions_in, value_of};
use der_elem::{Decode, Form};
use der_pkix::certificate::{Extension, Extensions};
use der_tlv::SliceReader;
use std::alloc::Global;

/// Reads the value of the extension with this identifier, if there is one.
pub(crate) fn value_in<'a, T: Decode<'a, SliceReader<'a>>>(
    alloc: Global,
    extensions: Option<&Extensions<'a>>,
    identifier: &[u8],
) -> Result<Option<T>, NoFacts>
    ensures { T.Form.TAKES_MEMORY ≡ false
        → (listed : List Extension) → AreListed ⟦<Extension<'a> as Form>⟧ (option_copied extensions.entry) listed
        → Reads (ShowsOne T.Form (with_identifier identifier.now listed)) result }
{
    match extensions_in(alloc, extensions) {
        Ok(kept) => value_of(alloc, &kept, identifier),
        Err(_error) => Err(NoFacts::Memory),
    }
}
