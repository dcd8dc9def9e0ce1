//! The byte ranges of the fields of signers, which are read one after another.

ghost use Rattle.std.specs.Prelude.{◌≡◌, take, List, ℕ};
ghost use Rattle.der_cms.specs.Cms.SignerInfo as signer;
ghost use Rattle.der_places.specs.Layout.{LaidOut};
ghost use Rattle.der_c.specs.Answers.{AnswersFront};
ghost use Rattle.der_c.specs.Items.{ReadAt};

use crate::fault::{Fault, refuse};
use crate::front::read_front;
use der_cms::cms::SignerInfo;
use der_elem::Form;
use der_places::cms::SignerInfoPlaces;
use der_places::{Place, Placed, places_of};
use std::alloc::Global;

/// The byte ranges of the fields of a signer, and the version.
#[repr(C)]
#[derive(Clone, Copy, Debug, PartialEq, Eq)]
pub struct SignerInfoAt {
    /// The whole SignerInfo; the next one begins after it.
    pub whole: Place,
    /// Its fields.
    pub fields: SignerInfoPlaces,
    /// 1 or 3 in a message that follows the RFC.
    pub version: u64,
}

/// Reads the SignerInfo at the front of the octets (RFC 5652 5.3), and writes the byte ranges of
/// its fields. The next signer of a message begins after it.
///
/// Returns 0 and writes the byte ranges to `out`, or returns the number of the first error and
/// leaves `out` unchanged.
#[unsafe(no_mangle)]
pub extern "C" fn der_signer_info<'a>(
    alloc: Global,
    octets: &'a [u8],
    out: &mut SignerInfoAt,
    fault: &mut Fault,
) -> u32
    ensures { AnswersFront ⟦<SignerInfo<'a> as Form>⟧ octets.now (λ v taken at.
        (at.whole.offset ≡ 0) × (at.whole.length ≡ taken)
        × LaidOut (⟦<SignerInfo<'a> as Placed>⟧.layout v) 0 (⟦<SignerInfo<'a> as Placed>⟧.listed at.fields) (take taken octets.now)
        × (at.version ≡ signer.version v))
        out.old out.new fault.old fault.new result }
{
    match read_front::<SignerInfo<'a>>(alloc, octets) {
        Ok((value, length)) => {
            *out = signer_info_at(&value, octets, Place { offset: 0, length });
            0
        }
        Err(error) => refuse(error, fault),
    }
}

/// Returns the byte ranges of a signer that was read from a byte range.
pub(crate) fn signer_info_at<'a>(
    value: &SignerInfo<'a>,
    octets: &[u8],
    whole: Place,
) -> SignerInfoAt
    ensures fields { (own : List ℕ) → ReadAt ⟦<SignerInfo<'a> as Form>⟧ octets.now whole.offset value.now own
        → LaidOut (⟦<SignerInfo<'a> as Placed>⟧.layout value.now) whole.offset (⟦<SignerInfo<'a> as Placed>⟧.listed result.fields) own }
    ensures offset { result.whole.offset ≡ whole.offset }
    ensures length { result.whole.length ≡ whole.length }
    ensures version { result.version ≡ signer.version value.now }
{
    SignerInfoAt {
        whole,
        fields: places_of(value, octets, whole.offset),
        version: u64::from(value.version()),
    }
}
