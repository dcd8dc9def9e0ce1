//! Tagged fields.

ghost use Rattle.std.specs.Prelude.{◌≡◌, IfOk};

use der_asn1_types::asn1::ContextSpecific;
use der_asn1_types::{Encode, Error, Form, TagMode, TagNumber};
use std::alloc::Global;

/// Returns the encoding of a version as `[0] EXPLICIT INTEGER`, such as A0 03 02 01 02 for 2.
pub fn explicit_version(alloc: Global, version: u8) -> Result<Vec<u8>, Error>
    ensures { IfOk result (λ octets.
        octets.items ≡ ⟦<ContextSpecific<u8> as Form>⟧.encoding
        (record { tag_number = record { 0 = 0 }; tag_mode = TagMode.Explicit; value = version })) }
{
    let field: ContextSpecific<u8> = ContextSpecific {
        tag_number: TagNumber(0),
        tag_mode: TagMode::Explicit,
        value: version,
    };
    field.to_der(alloc)
}
