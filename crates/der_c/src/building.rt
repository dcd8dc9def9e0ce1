//! Encodings that are written to a buffer of the caller, from parts: fields, which are encodings
//! in octets of the caller, and numbers.
//!
//! A call takes the struct that the call that reads the message writes. Each byte range that it
//! looks at has a field with its tag, wherever in the octets; a field that may be absent is absent
//! where the length is 0. Versions, dates in seconds, flags and the status of a response are taken
//! from the numbers, and their byte ranges are not looked at; a date or a version that may be
//! absent is absent where the number is 0.
//!
//! A call returns 0, with the encoding at the front of the buffer and its length in `count`; or
//! 103 if the buffer is too short, with the length that it should have in `count`. Else it returns
//! the number of the first part that is refused, numbers before fields: 100 for a byte range that
//! is not within the octets, or the number of the first error, whose position counts from the
//! part; or 9 for an encoding of more than 4294967295 octets. The buffer and `count` are then
//! unchanged.

mod certificate;
mod certificate_list;
mod extension;
mod keys;
mod numbers;
mod ocsp_request;
mod ocsp_response;
mod optional;
pub(crate) mod parts;
mod request;
pub(crate) mod room_writer;
mod values;

ghost use Rattle.std.specs.Prelude.{◌≡◌, false};
ghost use Rattle.der_c.specs.Building.{BuildsFrom, Makes, Parts};

use crate::fault::Fault;
pub use certificate::{der_write_certificate, der_write_tbs_certificate};
pub use certificate_list::{
    der_write_certificate_list, der_write_revoked_certificate, der_write_tbs_cert_list,
};
use der_elem::{Encode, Form};
pub use extension::der_write_extension;
pub use keys::{
    der_write_ed25519_key, der_write_name_attribute, der_write_p256_key, der_write_rsa_key,
};
pub use ocsp_request::{
    der_write_cert_id, der_write_ocsp_request, der_write_request, der_write_tbs_request,
};
pub use ocsp_response::{
    der_write_basic_ocsp_response, der_write_ocsp_response, der_write_response_data,
    der_write_single_response,
};
pub use request::{der_write_certification_request, der_write_certification_request_info};
use room_writer::write_made;
use std::alloc::Global;
pub use values::{
    der_write_bit_string, der_write_encoding, der_write_generalized_time, der_write_named_bits,
    der_write_time, der_write_unsigned_integer,
};

/// A message that is made from parts: fields at byte ranges, and numbers.
pub trait FromParts<'a>: Encode {
    /// The byte ranges, and the numbers.
    type At;

    // the parts
    ghost parts: { Self.At → Parts Self };

    /// Makes the message from the octets of its fields, and from its numbers.
    fn from_parts(alloc: Global, octets: &'a [u8], at: &Self::At) -> Result<Self, Fault>
        ensures { Makes octets.now (parts at.now) result };

    ghost takes_no_memory: { Self.Form.TAKES_MEMORY ≡ false };
}

/// Makes a message from its parts, and writes its encoding to the front of a buffer.
pub(crate) fn write_from_parts<'a, T: FromParts<'a>>(
    alloc: Global,
    octets: &'a [u8],
    at: &T::At,
    room: &mut [u8],
    count: &mut usize,
    fault: &mut Fault,
) -> u32
    ensures { BuildsFrom T.Form octets.now (T.parts at.now)
        room.old room.new count.old count.new fault.old fault.new result }
{
    write_made(T::from_parts(alloc, octets, at), room, count, fault)
}
