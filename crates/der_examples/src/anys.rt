//! Values with any tag.

ghost use Rattle.std.specs.Prelude.{◌≡◌};
ghost use Rattle.der_asn1_types.specs.DecodingAs.{DecodesAs};
ghost use Rattle.der_asn1_types.specs.EncodingRules.TheVariants.{Der};
ghost use Rattle.der_asn1_types.specs.AnyRef.{tag_of, contents_of};

use der_asn1_types::asn1::{AnyRef, ObjectIdentifier};
use der_asn1_types::{Error, Form, FormValue, Tagged};
use std::alloc::Global;

/// Reads the parameters of an algorithm as the identifier of a curve. Parameters with another
/// tag, or that are no identifier, are refused.
pub fn named_curve<'a>(alloc: Global, parameters: AnyRef<'a>) -> Result<ObjectIdentifier<39>, Error>
    ensures { DecodesAs ⟦<ObjectIdentifier<39> as Form>⟧ ⟦<ObjectIdentifier<39> as FormValue>⟧.value Der
        (tag_of parameters.entry) (contents_of parameters.entry) result }
{
    parameters.decode_as::<ObjectIdentifier<39>>(alloc)
}
