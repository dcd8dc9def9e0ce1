//! The byte ranges of the fields of a signed message.

ghost use Rattle.std.specs.Prelude.{◌≡◌};
ghost use Rattle.der_cms.specs.Cms.SignedData as signed;
ghost use Rattle.der_elem.specs.Decoding.{AllRead};
ghost use Rattle.der_places.specs.Layout.{LaidAt, LaidOut};
ghost use Rattle.der_c.specs.Answers.{Answers, AnswersPlaces};

use crate::fault::{Fault, refuse};
use crate::message::read_message;
use der_cms::cms::{ContentInfo, EncapsulatedContentInfo, SignedData};
use der_elem::{Form, FromDer};
use der_places::cms::{ContentInfoPlaces, EncapsulatedContentInfoPlaces, SignedDataPlaces};
use der_places::{Placed, places_of};
use std::alloc::Global;

/// Reads all octets as a ContentInfo (RFC 5652 section 3), and writes the byte ranges of its
/// fields.
///
/// Returns 0 and writes the byte ranges to `out`, or returns the number of the first error and
/// leaves `out` unchanged.
#[unsafe(no_mangle)]
pub extern "C" fn der_content_info<'a>(
    alloc: Global,
    octets: &'a [u8],
    out: &mut ContentInfoPlaces,
    fault: &mut Fault,
) -> u32
    ensures { AnswersPlaces ⟦<ContentInfo<'a> as Form>⟧ ⟦<ContentInfo<'a> as Placed>⟧.layout ⟦<ContentInfo<'a> as Placed>⟧.listed
        octets.now out.old out.new fault.old fault.new result }
{
    read_message::<ContentInfoPlaces, ContentInfo<'a>>(alloc, octets, out, fault)
}

/// The byte ranges of the fields of a SignedData, and its version.
#[repr(C)]
#[derive(Clone, Copy, Debug, PartialEq, Eq)]
pub struct SignedDataAt {
    /// Its six fields.
    pub fields: SignedDataPlaces,
    /// The two fields of `encapContentInfo`.
    pub content: EncapsulatedContentInfoPlaces,
    /// 0 to 5.
    pub version: u64,
}

/// Reads all octets as a SignedData (RFC 5652 5.1), and writes the byte ranges of its fields.
/// These octets are those within the tag of `content` where `contentType` is id-signedData.
///
/// Returns 0 and writes the byte ranges to `out`, or returns the number of the first error and
/// leaves `out` unchanged.
#[unsafe(no_mangle)]
pub extern "C" fn der_signed_data<'a>(
    alloc: Global,
    octets: &'a [u8],
    out: &mut SignedDataAt,
    fault: &mut Fault,
) -> u32
    ensures { Answers ⟦<SignedData<'a> as Form>⟧ octets.now (λ v at.
        LaidOut (⟦<SignedData<'a> as Placed>⟧.layout v) 0 (⟦<SignedData<'a> as Placed>⟧.listed at.fields) octets.now
        × LaidAt (⟦<EncapsulatedContentInfo<'a> as Placed>⟧.layout (signed.encap_content_info v)) octets.now at.fields.encap_content_info (⟦<EncapsulatedContentInfo<'a> as Placed>⟧.listed at.content)
        × (at.version ≡ signed.version v))
        out.old out.new fault.old fault.new result }
{
    match SignedData::from_der(alloc, octets) {
        Ok(value) => {
            *out = signed_data_at(&value, octets);
            0
        }
        Err(error) => refuse(error, fault),
    }
}

/// Returns the byte ranges of a SignedData that was read from these octets.
fn signed_data_at<'a>(value: &SignedData<'a>, octets: &[u8]) -> SignedDataAt
    ensures fields { AllRead ⟦<SignedData<'a> as Form>⟧ octets.now value.now
        → LaidOut (⟦<SignedData<'a> as Placed>⟧.layout value.now) 0 (⟦<SignedData<'a> as Placed>⟧.listed result.fields) octets.now }
    ensures content { AllRead ⟦<SignedData<'a> as Form>⟧ octets.now value.now
        → LaidAt (⟦<EncapsulatedContentInfo<'a> as Placed>⟧.layout (signed.encap_content_info value.now)) octets.now result.fields.encap_content_info (⟦<EncapsulatedContentInfo<'a> as Placed>⟧.listed result.content) }
    ensures version { result.version ≡ signed.version value.now }
{
    let fields = places_of(value, octets, 0);
    let encapsulated = value.encap_content_info();
    let content = places_of(encapsulated, octets, fields.encap_content_info.offset);
    SignedDataAt {
        fields,
        content,
        version: u64::from(value.version()),
    }
}
