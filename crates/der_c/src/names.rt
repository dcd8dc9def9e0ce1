//! Names compared as RFC 5280 section 7.1 requires.

ghost use Rattle.std.specs.Prelude.{◌≡◌, List};
ghost use Rattle.der_pkix.specs.declared.name.attribute_type_and_value.AttributeTypeAndValue.{AttributeTypeAndValue};
ghost use Rattle.der_verify.specs.Names.{AreParts, same_name};
ghost use Rattle.der_c.specs.Answers.{AnswersPair};
ghost use Rattle.der_c.specs.Bits.{bit};

use crate::bits::number_of_flag;
use crate::fault::{Fault, refuse};
use der_elem::{Form, FromDer};
use der_pkix::name::{AttributeTypeAndValue, Name, RelativeDistinguishedName};
use der_verify::names_match;
use std::alloc::Global;

/// Reads all octets of both inputs as Names (RFC 5280 4.1.2.4), and writes 1 if they match (7.1),
/// else 0.
///
/// Returns 0; or the number of the first error of `first`, or of `second` if `first` has none,
/// and `out` is unchanged.
#[unsafe(no_mangle)]
pub extern "C" fn der_names_match<'a>(
    alloc: Global,
    first: &'a [u8],
    second: &'a [u8],
    out: &mut u32,
    fault: &mut Fault,
) -> u32
    ensures { AnswersPair ⟦<Name<'a> as Form>⟧ ⟦<Name<'a> as Form>⟧ first.now second.now
        (λ v w n. (parts others : List (List AttributeTypeAndValue))
        → AreParts ⟦<RelativeDistinguishedName<'a> as Form>⟧ ⟦<AttributeTypeAndValue<'a> as Form>⟧ v parts
        → AreParts ⟦<RelativeDistinguishedName<'a> as Form>⟧ ⟦<AttributeTypeAndValue<'a> as Form>⟧ w others
        → n ≡ bit (same_name parts others))
        out.old out.new fault.old fault.new result }
{
    let one = match Name::from_der(alloc, first) {
        Ok(name) => name,
        Err(error) => return refuse(error, fault),
    };
    let other = match Name::from_der(alloc, second) {
        Ok(name) => name,
        Err(error) => return refuse(error, fault),
    };
    *out = number_of_flag(names_match(alloc, &one, &other));
    0
}
