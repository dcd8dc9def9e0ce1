//! The byte ranges of the fields of keys.

ghost use Rattle.std.specs.Prelude.{◌≡◌};
ghost use Rattle.der_elem.specs.Decoding.{AllRead};
ghost use Rattle.der_pkix.specs.Key.OneAsymmetricKey as key;
ghost use Rattle.der_places.specs.Layout.{LaidOut};
ghost use Rattle.der_c.specs.Answers.{Answers, AnswersPlaces};

use crate::fault::{Fault, refuse};
use crate::message::read_message;
use der_elem::{Form, FromDer};
use der_pkix::certificate::SubjectPublicKeyInfo;
use der_pkix::key::OneAsymmetricKey;
use der_places::certificate::SubjectPublicKeyInfoPlaces;
use der_places::key::OneAsymmetricKeyPlaces;
use der_places::{Placed, places_of};
use std::alloc::Global;

/// The byte ranges of the fields of a PrivateKeyInfo, and its version.
#[repr(C)]
#[derive(Clone, Copy, Debug, PartialEq, Eq)]
pub struct PrivateKeyInfoAt {
    /// Its fields.
    pub fields: OneAsymmetricKeyPlaces,
    /// 0 for v1, 1 for v2.
    pub version: u64,
}

/// Reads all octets as a SubjectPublicKeyInfo (RFC 5280 4.1.2.7), and writes the byte ranges of
/// its fields.
///
/// Returns 0 and writes the byte ranges to `out`, or returns the number of the first error and
/// leaves `out` unchanged.
#[unsafe(no_mangle)]
pub extern "C" fn der_subject_public_key_info<'a>(
    alloc: Global,
    octets: &'a [u8],
    out: &mut SubjectPublicKeyInfoPlaces,
    fault: &mut Fault,
) -> u32
    ensures { AnswersPlaces ⟦<SubjectPublicKeyInfo<'a> as Form>⟧ ⟦<SubjectPublicKeyInfo<'a> as Placed>⟧.layout ⟦<SubjectPublicKeyInfo<'a> as Placed>⟧.listed
        octets.now out.old out.new fault.old fault.new result }
{
    read_message::<SubjectPublicKeyInfoPlaces, SubjectPublicKeyInfo<'a>>(alloc, octets, out, fault)
}

/// Reads all octets as a PrivateKeyInfo (RFC 5958 section 2), and writes the byte ranges of its
/// fields.
///
/// Returns 0 and writes the byte ranges to `out`, or returns the number of the first error and
/// leaves `out` unchanged.
#[unsafe(no_mangle)]
pub extern "C" fn der_private_key_info<'a>(
    alloc: Global,
    octets: &'a [u8],
    out: &mut PrivateKeyInfoAt,
    fault: &mut Fault,
) -> u32
    ensures { Answers ⟦<OneAsymmetricKey<'a> as Form>⟧ octets.now (λ v at.
        LaidOut (⟦<OneAsymmetricKey<'a> as Placed>⟧.layout v) 0 (⟦<OneAsymmetricKey<'a> as Placed>⟧.listed at.fields) octets.now
        × (at.version ≡ key.version v))
        out.old out.new fault.old fault.new result }
{
    match OneAsymmetricKey::from_der(alloc, octets) {
        Ok(value) => {
            *out = private_key_info_at(&value, octets);
            0
        }
        Err(error) => refuse(error, fault),
    }
}

/// Returns the byte ranges of a private key that was read from these octets.
fn private_key_info_at<'a>(value: &OneAsymmetricKey<'a>, octets: &[u8]) -> PrivateKeyInfoAt
    ensures fields { AllRead ⟦<OneAsymmetricKey<'a> as Form>⟧ octets.now value.now
        → LaidOut (⟦<OneAsymmetricKey<'a> as Placed>⟧.layout value.now) 0 (⟦<OneAsymmetricKey<'a> as Placed>⟧.listed result.fields) octets.now }
    ensures version { result.version ≡ key.version value.now }
{
    PrivateKeyInfoAt {
        fields: places_of(value, octets, 0),
        version: u64::from(value.version()),
    }
}
