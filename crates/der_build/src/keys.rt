//! Public keys from their octets (RFC 5280 section 4.1.2.7): for Ed25519 (RFC 8410), P-256
//! (RFC 5480) and RSA (RFC 3279 section 2.3.1).

ghost use Rattle.std.specs.Prelude.{◌≡◌, ◌⊎◌, ◌<◌, ◌≤◌, ◌^◌, [], false, length, true, IfOk, IfErr, IsOk, OnOk, ◌↔◌};
ghost use Rattle.der_tlv.specs.declared.error.ErrorKind.TheVariants as kinds;
ghost use Rattle.der_tlv.specs.declared.tag.Tag.TheVariants as tags;
ghost use Rattle.der_elem.specs.Options.{encoding_option};
ghost use Rattle.der_build.specs.Keys.{ed25519_octets, is_p256_point, key_info_octets, p256_octets, rsa_octets, rsa_public_key_octets, RefusesRsaPublicKey};

use der_bits::BitStringRef;
use der_elem::{Encode, Form};
use der_numbers::UintRef;
use der_opaque::{AnyRef, ObjectIdentifierRef};
use der_pkix::AlgorithmIdentifier;
use der_pkix::certificate::SubjectPublicKeyInfo;
use der_pkix::key::RsaPublicKey;
use der_tlv::{Error, Tag};
use std::alloc::Global;

/// id-Ed25519, 1.3.101.112, as contents octets.
const ID_ED25519: &[u8] = &[0x2b, 0x65, 0x70];

/// id-ecPublicKey, 1.2.840.10045.2.1, as contents octets.
const ID_EC_PUBLIC_KEY: &[u8] = &[0x2a, 0x86, 0x48, 0xce, 0x3d, 0x02, 0x01];

/// secp256r1, 1.2.840.10045.3.1.7, as contents octets.
const SECP256R1: &[u8] = &[0x2a, 0x86, 0x48, 0xce, 0x3d, 0x03, 0x01, 0x07];

/// rsaEncryption, 1.2.840.113549.1.1.1, as contents octets.
const RSA_ENCRYPTION: &[u8] = &[0x2a, 0x86, 0x48, 0x86, 0xf7, 0x0d, 0x01, 0x01, 0x01];

/// Makes an Ed25519 public key from its 32 octets.
///
/// It is encoded as 30 2A 30 05 06 03 2B 65 70 03 21 00 and the 32 octets.
///
/// # Errors
/// `ErrorKind::Length` (7) with the tag of BIT STRING for another number of octets.
pub fn ed25519_key<'a>(key: &'a [u8]) -> Result<SubjectPublicKeyInfo<'a>, Error>
    ensures made { IsOk result ↔ (length key.now ≡ 32) }
    ensures octets { IfOk result (λ k. ⟦<SubjectPublicKeyInfo<'a> as Form>⟧.encoding k ≡ ed25519_octets key.now) }
    ensures refused { IfErr result (λ e. e.kind ≡ kinds.Length tags.BitString) }
{
    if key.len() != 32 {
        return Err(Error::from_kind(Tag::BitString.length_error()));
    }
    key_info(ID_ED25519, None, key)
}

/// Makes a P-256 public key from a point: 04 and both coordinates, or 02 or 03 and the first.
///
/// A point of 65 octets is encoded as 30 59 30 13 06 07 2A 86 48 CE 3D 02 01 06 08 2A 86 48 CE 3D
/// 03 01 07 03 42 00 and its octets. Whether it is a point of the curve is not checked.
///
/// # Errors
/// `ErrorKind::Value` (13) with the tag of BIT STRING for octets of another form.
pub fn p256_key<'a>(point: &'a [u8]) -> Result<SubjectPublicKeyInfo<'a>, Error>
    ensures made { IsOk result ↔ (is_p256_point point.now ≡ true) }
    ensures octets { IfOk result (λ k. ⟦<SubjectPublicKeyInfo<'a> as Form>⟧.encoding k ≡ p256_octets point.now) }
    ensures refused { IfErr result (λ e. e.kind ≡ kinds.Value tags.BitString) }
{
    if !is_p256_point(point) {
        return Err(Error::from_kind(Tag::BitString.value_error()));
    }
    match AnyRef::new(Tag::ObjectIdentifier, SECP256R1) {
        Ok(curve) => key_info(ID_EC_PUBLIC_KEY, Some(curve), point),
        Err(e) => Err(e),
    }
}

/// Makes an RSA public key from the encoding of its RSAPublicKey, which `rsa_public_key` writes.
///
/// # Errors
/// `ErrorKind::Length` (7) with the tag of BIT STRING for more than 4294967295 octets.
pub fn rsa_key<'a>(key: &'a [u8]) -> Result<SubjectPublicKeyInfo<'a>, Error>
    ensures octets { IfOk result (λ k. ⟦<SubjectPublicKeyInfo<'a> as Form>⟧.encoding k ≡ rsa_octets key.now) }
    ensures refused { IfErr result (λ e. (e.kind ≡ kinds.Length tags.BitString) × (2 ^ 32 ≤ length key.now)) }
{
    key_info(RSA_ENCRYPTION, Some(AnyRef::NULL), key)
}

/// Returns the encoding of an RSAPublicKey from the octets of its modulus and of its exponent,
/// most significant first.
///
/// C5 and 03 are encoded as 30 07 02 02 00 C5 02 01 03.
///
/// # Errors
/// `ErrorKind::Length` (7) with the tag of INTEGER for a number of no octets, or of more octets than a
/// length can count; `ErrorKind::Overflow` (9) for an encoding of more octets than that; `ErrorKind::Memory` (1) if
/// memory runs out.
pub fn rsa_public_key(alloc: Global, modulus: &[u8], exponent: &[u8]) -> Result<Vec<u8>, Error>
    ensures octets { IfOk result (λ octets. octets.items ≡ rsa_public_key_octets modulus.now exponent.now) }
    ensures refused { IfErr result (λ e. RefusesRsaPublicKey modulus.now exponent.now e.kind) }
{
    let modulus = match UintRef::new(modulus) {
        Ok(modulus) => modulus,
        Err(e) => return Err(e),
    };
    match UintRef::new(exponent) {
        Ok(exponent) => RsaPublicKey::new(modulus, exponent).to_der(alloc),
        Err(e) => Err(e),
    }
}

/// Returns whether a point is 04 and two coordinates of 32 octets, or 02 or 03 and one
/// coordinate.
fn is_p256_point(point: &[u8]) -> bool
    ensures { result ≡ is_p256_point point.now }
{
    match point {
        [form, others @ ..] => {
            (*form == 4 && others.len() == 64) || ((*form == 2 || *form == 3) && others.len() == 32)
        }
        [] => false,
    }
}

/// Makes a public key from these octets, for an algorithm with these parameters.
fn key_info<'a>(
    algorithm: &'a [u8],
    parameters: Option<AnyRef<'a>>,
    key: &'a [u8],
) -> Result<SubjectPublicKeyInfo<'a>, Error>
    requires some { 0 < length algorithm.now }
    requires few { length algorithm.now ≤ 39 }
    ensures octets { IfOk result (λ k. ⟦<SubjectPublicKeyInfo<'a> as Form>⟧.encoding k
        ≡ key_info_octets algorithm.now (encoding_option ⟦<AnyRef<'a> as Form>⟧.encoding parameters.entry) key.now) }
    ensures refused { IfErr result (λ e. (e.kind ≡ kinds.Length tags.BitString) × (2 ^ 32 ≤ length key.now)) }
{
    let oid = match ObjectIdentifierRef::from_bytes(algorithm) {
        Ok(oid) => oid,
        Err(e) => return Err(e),
    };
    match BitStringRef::from_bytes(key) {
        Ok(bits) => Ok(SubjectPublicKeyInfo::new(&AlgorithmIdentifier { oid, parameters }, bits)),
        Err(e) => Err(e),
    }
}
