//! Attributes of names and public keys, as `der_build` makes them.

ghost use Rattle.std.specs.Prelude.{◌≡◌, IfErr, IfOk};
ghost use Rattle.der_tlv.specs.declared.tag.Tag.TheVariants as tags;
ghost use Rattle.der_build.specs.Attributes.{attribute_octets};
ghost use Rattle.der_build.specs.Keys.{ed25519_octets, p256_octets, rsa_octets};
ghost use Rattle.der_c.specs.Building.{Builds};
ghost use Rattle.der_c.specs.Keys.{IsNoAttribute, IsNoEd25519, IsNoPoint};
ghost use Rattle.der_c.specs.Values.{IsTooMany};

use super::room_writer::write_made;
use crate::fault::{Fault, fault_of};
use der_build::{TextAttribute, attribute, ed25519_key, p256_key, rsa_key};
use der_elem::{Form, text_of};
use der_pkix::certificate::SubjectPublicKeyInfo;
use der_pkix::name::AttributeTypeAndValue;
use der_tlv::Error;

/// Writes an attribute of a name (RFC 5280 4.1.2.4) from the contents octets of its type and its
/// text, which is UTF-8, in the string that RFC 5280 requires.
///
/// 55 04 03 with `mill` is encoded as 30 0B 06 03 55 04 03 0C 04 6D 69 6C 6C.
#[unsafe(no_mangle)]
pub extern "C" fn der_write_name_attribute<'a>(
    type_: &'a [u8],
    text: &'a [u8],
    room: &mut [u8],
    count: &mut usize,
    fault: &mut Fault,
) -> u32
    ensures { Builds ⟦<AttributeTypeAndValue<'a> as Form>⟧
        (λ a. ⟦<AttributeTypeAndValue<'a> as Form>⟧.encoding a ≡ attribute_octets type_.now text.now)
        (IsNoAttribute type_.now text.now)
        room.old room.new count.old count.new fault.old fault.new result }
{
    write_made(attribute_of(type_, text), room, count, fault)
}

/// Returns the attribute with a type and a text.
fn attribute_of<'a>(type_: &'a [u8], text: &'a [u8]) -> Result<AttributeTypeAndValue<'a>, Fault>
    ensures ok { IfOk result (λ a. ⟦<AttributeTypeAndValue<'a> as Form>⟧.encoding a
        ≡ attribute_octets type_.now text.now) }
    ensures err { IfErr result (λ f. IsNoAttribute type_.now text.now f) }
{
    let text = match text_of(text) {
        Ok(text) => text,
        Err(kind) => return Err(fault_of(Error::from_kind(kind))),
    };
    match attribute(TextAttribute { type_, text }) {
        Ok(attribute) => Ok(attribute),
        Err(error) => Err(fault_of(error)),
    }
}

/// Writes a SubjectPublicKeyInfo of an Ed25519 key, which has 32 octets (RFC 8410 4).
#[unsafe(no_mangle)]
pub extern "C" fn der_write_ed25519_key<'a>(
    key: &'a [u8],
    room: &mut [u8],
    count: &mut usize,
    fault: &mut Fault,
) -> u32
    ensures { Builds ⟦<SubjectPublicKeyInfo<'a> as Form>⟧
        (λ k. ⟦<SubjectPublicKeyInfo<'a> as Form>⟧.encoding k ≡ ed25519_octets key.now)
        (IsNoEd25519 key.now)
        room.old room.new count.old count.new fault.old fault.new result }
{
    write_made(ed25519_of(key), room, count, fault)
}

/// Returns an Ed25519 key.
fn ed25519_of<'a>(key: &'a [u8]) -> Result<SubjectPublicKeyInfo<'a>, Fault>
    ensures ok { IfOk result (λ k. ⟦<SubjectPublicKeyInfo<'a> as Form>⟧.encoding k
        ≡ ed25519_octets key.now) }
    ensures err { IfErr result (λ f. IsNoEd25519 key.now f) }
{
    match ed25519_key(key) {
        Ok(key) => Ok(key),
        Err(error) => Err(fault_of(error)),
    }
}

/// Writes a SubjectPublicKeyInfo of a P-256 key: 04 and both coordinates, or 02 or 03 and the
/// first (RFC 5480 2.2).
#[unsafe(no_mangle)]
pub extern "C" fn der_write_p256_key<'a>(
    point: &'a [u8],
    room: &mut [u8],
    count: &mut usize,
    fault: &mut Fault,
) -> u32
    ensures { Builds ⟦<SubjectPublicKeyInfo<'a> as Form>⟧
        (λ k. ⟦<SubjectPublicKeyInfo<'a> as Form>⟧.encoding k ≡ p256_octets point.now)
        (IsNoPoint point.now)
        room.old room.new count.old count.new fault.old fault.new result }
{
    write_made(p256_of(point), room, count, fault)
}

/// Returns a P-256 key.
fn p256_of<'a>(point: &'a [u8]) -> Result<SubjectPublicKeyInfo<'a>, Fault>
    ensures ok { IfOk result (λ k. ⟦<SubjectPublicKeyInfo<'a> as Form>⟧.encoding k
        ≡ p256_octets point.now) }
    ensures err { IfErr result (λ f. IsNoPoint point.now f) }
{
    match p256_key(point) {
        Ok(key) => Ok(key),
        Err(error) => Err(fault_of(error)),
    }
}

/// Writes a SubjectPublicKeyInfo of an RSA key from the encoding of its RSAPublicKey, which is not
/// read (RFC 3279 2.3.1).
#[unsafe(no_mangle)]
pub extern "C" fn der_write_rsa_key<'a>(
    key: &'a [u8],
    room: &mut [u8],
    count: &mut usize,
    fault: &mut Fault,
) -> u32
    ensures { Builds ⟦<SubjectPublicKeyInfo<'a> as Form>⟧
        (λ k. ⟦<SubjectPublicKeyInfo<'a> as Form>⟧.encoding k ≡ rsa_octets key.now)
        (IsTooMany tags.BitString key.now)
        room.old room.new count.old count.new fault.old fault.new result }
{
    write_made(rsa_of(key), room, count, fault)
}

/// Returns an RSA key.
fn rsa_of<'a>(key: &'a [u8]) -> Result<SubjectPublicKeyInfo<'a>, Fault>
    ensures ok { IfOk result (λ k. ⟦<SubjectPublicKeyInfo<'a> as Form>⟧.encoding k
        ≡ rsa_octets key.now) }
    ensures err { IfErr result (λ f. IsTooMany tags.BitString key.now f) }
{
    match rsa_key(key) {
        Ok(key) => Ok(key),
        Err(error) => Err(fault_of(error)),
    }
}
