//! The byte ranges of the fields of extensions, which are read one after another.

ghost use Rattle.std.specs.Prelude.{◌≡◌, if◌then◌else◌, take, List, ℕ};
ghost use Rattle.der_pkix.specs.Certificate.Extension as extension;
ghost use Rattle.der_places.specs.Layout.{LaidOut};
ghost use Rattle.der_c.specs.Answers.{AnswersFront};
ghost use Rattle.der_c.specs.Items.{ReadAt};

use crate::fault::{Fault, refuse};
use crate::front::read_front;
use der_elem::Form;
use der_pkix::certificate::Extension;
use der_places::certificate::ExtensionPlaces;
use der_places::{Place, Placed, places_of};
use std::alloc::Global;

/// The byte ranges of the fields of an extension, and whether it is critical.
#[repr(C)]
#[derive(Clone, Copy, Debug, PartialEq, Eq)]
pub struct ExtensionAt {
    /// The whole extension; the next one begins after it.
    pub whole: Place,
    /// Its fields.
    pub fields: ExtensionPlaces,
    /// 1 if it is critical, else 0.
    pub is_critical: u32,
}

/// Reads the extension at the front of the octets (RFC 5280 4.2), and writes the byte ranges of
/// its fields. The next extension of a list begins after it.
///
/// Returns 0 and writes the byte ranges to `out`, or returns the number of the first error and
/// leaves `out` unchanged.
#[unsafe(no_mangle)]
pub extern "C" fn der_extension<'a>(
    alloc: Global,
    octets: &'a [u8],
    out: &mut ExtensionAt,
    fault: &mut Fault,
) -> u32
    ensures { AnswersFront ⟦<Extension<'a> as Form>⟧ octets.now (λ v taken at.
        (at.whole.offset ≡ 0) × (at.whole.length ≡ taken)
        × LaidOut (⟦<Extension<'a> as Placed>⟧.layout v) 0 (⟦<Extension<'a> as Placed>⟧.listed at.fields) (take taken octets.now)
        × (at.is_critical ≡ (if extension.critical v then 1 else 0)))
        out.old out.new fault.old fault.new result }
{
    match read_front::<Extension<'a>>(alloc, octets) {
        Ok((value, length)) => {
            *out = extension_at(&value, octets, Place { offset: 0, length });
            0
        }
        Err(error) => refuse(error, fault),
    }
}

/// Returns the byte ranges of an extension that was read from a byte range.
pub(crate) fn extension_at<'a>(value: &Extension<'a>, octets: &[u8], whole: Place) -> ExtensionAt
    ensures fields { (own : List ℕ) → ReadAt ⟦<Extension<'a> as Form>⟧ octets.now whole.offset value.now own
        → LaidOut (⟦<Extension<'a> as Placed>⟧.layout value.now) whole.offset (⟦<Extension<'a> as Placed>⟧.listed result.fields) own }
    ensures offset { result.whole.offset ≡ whole.offset }
    ensures length { result.whole.length ≡ whole.length }
    ensures is_critical { result.is_critical ≡ (if extension.critical value.now then 1 else 0) }
{
    ExtensionAt {
        whole,
        fields: places_of(value, octets, whole.offset),
        is_critical: u32::from(value.critical()),
    }
}
