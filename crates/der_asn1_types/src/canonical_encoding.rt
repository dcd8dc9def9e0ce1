//! The canonical encoding of the value that octets encode.

ghost use Rattle.std.specs.Prelude.{◌≡◌, Ok, IfOk, IfErr};
ghost use Rattle.der_elem.specs.Decoding.{parse_all};
ghost use Rattle.der_asn1_types.specs.Canonical.{Gives, NotGiven, EncodingOfRead};

use der_elem::laws::encodings_read_back;
use der_elem::{Encode, FromDer};
use der_tlv::Error;
use std::alloc::Global;

/// Reads a value from all of the octets, and returns its canonical encoding. The canonical
/// encoding of a canonical encoding is itself.
///
/// # Errors
/// The first error in the octets; `ErrorKind::Memory` (1) if memory runs out: for a type that
/// takes no memory to be read, only if the octets have no error.
pub fn canonical<'a, T: FromDer<'a> + Encode>(
    alloc: Global,
    octets: &'a [u8],
) -> Result<Vec<u8>, Error>
    ensures encoding { Gives result (parse_all T.parse octets.now) }
    ensures refused { IfErr result (λ e. NotGiven T.Form.TAKES_MEMORY (parse_all T.parse octets.now) e.kind) }
    ensures value { IfOk result (λ encoding. EncodingOfRead T.Form octets.now encoding.items) }
    ensures canonical { IfOk result (λ encoding.
        parse_all T.parse encoding.items ≡ Ok encoding.items) }
{
    let value = T::from_der(alloc, octets)?;
    encodings_read_back::<T>();
    value.to_der(alloc)
}
