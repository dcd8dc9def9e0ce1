//! Keys of RSA and of elliptic curves, and encrypted ones.

ghost use Rattle.der_c.specs.Answers.{AnswersPlaces};

use crate::fault::Fault;
use crate::message::read_message;
use der_elem::Form;
use der_pkcs::encryption::EncryptedPrivateKeyInfo;
use der_pkix::key::{EcPrivateKey, RsaPrivateKey, RsaPublicKey};
use der_places::Placed;
use der_places::encryption::EncryptedPrivateKeyInfoPlaces;
use der_places::key::{EcPrivateKeyPlaces, RsaPrivateKeyPlaces, RsaPublicKeyPlaces};
use std::alloc::Global;

/// Reads all octets as an RSAPublicKey (RFC 8017 A.1.1), and writes the byte ranges of its fields.
///
/// Returns 0, or the number of the first error; `out` is then unchanged.
#[unsafe(no_mangle)]
pub extern "C" fn der_rsa_public_key<'a>(
    alloc: Global,
    octets: &'a [u8],
    out: &mut RsaPublicKeyPlaces,
    fault: &mut Fault,
) -> u32
    ensures { AnswersPlaces ⟦<RsaPublicKey<'a> as Form>⟧ ⟦<RsaPublicKey<'a> as Placed>⟧.layout ⟦<RsaPublicKey<'a> as Placed>⟧.listed
        octets.now out.old out.new fault.old fault.new result }
{
    read_message::<RsaPublicKeyPlaces, RsaPublicKey<'a>>(alloc, octets, out, fault)
}

/// Reads all octets as an RSAPrivateKey (RFC 8017 A.1.2), and writes the byte ranges of its fields.
///
/// Returns 0, or the number of the first error; `out` is then unchanged.
#[unsafe(no_mangle)]
pub extern "C" fn der_rsa_private_key<'a>(
    alloc: Global,
    octets: &'a [u8],
    out: &mut RsaPrivateKeyPlaces,
    fault: &mut Fault,
) -> u32
    ensures { AnswersPlaces ⟦<RsaPrivateKey<'a> as Form>⟧ ⟦<RsaPrivateKey<'a> as Placed>⟧.layout ⟦<RsaPrivateKey<'a> as Placed>⟧.listed
        octets.now out.old out.new fault.old fault.new result }
{
    read_message::<RsaPrivateKeyPlaces, RsaPrivateKey<'a>>(alloc, octets, out, fault)
}

/// Reads all octets as an ECPrivateKey (RFC 5915 section 3), and writes the byte ranges of its
/// fields.
///
/// Returns 0, or the number of the first error; `out` is then unchanged.
#[unsafe(no_mangle)]
pub extern "C" fn der_ec_private_key<'a>(
    alloc: Global,
    octets: &'a [u8],
    out: &mut EcPrivateKeyPlaces,
    fault: &mut Fault,
) -> u32
    ensures { AnswersPlaces ⟦<EcPrivateKey<'a> as Form>⟧ ⟦<EcPrivateKey<'a> as Placed>⟧.layout ⟦<EcPrivateKey<'a> as Placed>⟧.listed
        octets.now out.old out.new fault.old fault.new result }
{
    read_message::<EcPrivateKeyPlaces, EcPrivateKey<'a>>(alloc, octets, out, fault)
}

/// Reads all octets as an EncryptedPrivateKeyInfo (RFC 5958 section 3), and writes the byte
/// ranges of its fields.
///
/// Returns 0, or the number of the first error; `out` is then unchanged.
#[unsafe(no_mangle)]
pub extern "C" fn der_encrypted_private_key_info<'a>(
    alloc: Global,
    octets: &'a [u8],
    out: &mut EncryptedPrivateKeyInfoPlaces,
    fault: &mut Fault,
) -> u32
    ensures { AnswersPlaces ⟦<EncryptedPrivateKeyInfo<'a> as Form>⟧ ⟦<EncryptedPrivateKeyInfo<'a> as Placed>⟧.layout ⟦<EncryptedPrivateKeyInfo<'a> as Placed>⟧.listed
        octets.now out.old out.new fault.old fault.new result }
{
    read_message::<EncryptedPrivateKeyInfoPlaces, EncryptedPrivateKeyInfo<'a>>(
        alloc, octets, out, fault,
    )
}
