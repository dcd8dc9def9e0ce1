//! The next item of a list within a message. `left` is the byte range of the items that are left, at
//! first that of all items. All byte ranges count from the start of the octets of the message.

ghost use Rattle.std.specs.Prelude.{◌≡◌, if◌then◌else◌, length};
ghost use Rattle.der_cms.specs.Cms.SignerInfo as signer;
ghost use Rattle.der_ocsp.specs.Ocsp.SingleResponse as single;
ghost use Rattle.der_pkix.specs.Certificate.Extension as extension;
ghost use Rattle.der_pkix.specs.Crl.RevokedCertificate as revoked;
ghost use Rattle.der_places.specs.Layout.{LaidOut};
ghost use Rattle.der_c.specs.Items.{AnswersNext, AnswersNextPlaces};
ghost use Rattle.der_c.specs.Status.{number_of_status, revoked_at};
ghost use Rattle.der_c.specs.Times.{seconds_if_given, seconds_of, seconds_of_general};

use crate::attribute::{AttributeAt, attribute_at};
use crate::extension::{ExtensionAt, extension_at};
use crate::fault::Fault;
use crate::items::{behind, read_left, read_next_message, refuse_with};
use crate::revoked_certificate::{RevokedCertificateAt, revoked_certificate_at};
use crate::signer_info::{SignerInfoAt, signer_info_at};
use crate::single_response::{SingleResponseAt, single_response_at};
use der_cms::cms::SignerInfo;
use der_cms::ess::EssCertIdv2;
use der_elem::Form;
use der_extensions::extension::{
    AccessDescription, DistributionPoint, GeneralSubtree, PolicyInformation, PolicyMapping,
    PolicyQualifierInfo,
};
use der_ocsp::ocsp::{Request, SingleResponse};
use der_pkcs::pkcs12::SafeBag;
use der_pkix::certificate::Extension;
use der_pkix::crl::RevokedCertificate;
use der_pkix::name::Attribute;
use der_places::ess::EssCertIdv2Places;
use der_places::extension::{
    AccessDescriptionPlaces, DistributionPointPlaces, GeneralSubtreePlaces,
    PolicyInformationPlaces, PolicyMappingPlaces, PolicyQualifierInfoPlaces,
};
use der_places::ocsp::RequestPlaces;
use der_places::pkcs12::SafeBagPlaces;
use der_places::{Place, Placed};
use std::alloc::Global;

/// Reads the extension at the front of `left` (RFC 5280 4.2), writes the byte ranges of its
/// fields, and moves `left` past it.
///
/// Returns 0, or the number of the first error; `out` and `left` are then unchanged.
#[unsafe(no_mangle)]
pub extern "C" fn der_next_extension<'a>(
    alloc: Global,
    octets: &'a [u8],
    left: &mut Place,
    out: &mut ExtensionAt,
    fault: &mut Fault,
) -> u32
    ensures { AnswersNext ⟦<Extension<'a> as Form>⟧ octets.now left.old left.new (λ v own at.
        (at.whole.offset ≡ left.old.offset) × (at.whole.length ≡ length own)
        × LaidOut (⟦<Extension<'a> as Placed>⟧.layout v) left.old.offset (⟦<Extension<'a> as Placed>⟧.listed at.fields) own
        × (at.is_critical ≡ (if extension.critical v then 1 else 0)))
        out.old out.new fault.old fault.new result }
{
    match read_left::<Extension<'a>>(alloc, octets, *left) {
        Ok((value, whole)) => {
            *out = extension_at(&value, octets, whole);
            *left = behind(*left, whole.length);
            0
        }
        Err(reason) => refuse_with(reason, fault),
    }
}

/// Reads the entry of a list of revoked certificates at the front of `left` (RFC 5280 5.1.2.6),
/// writes the byte ranges of its fields, and moves `left` past it.
///
/// Returns 0, or the number of the first error; `out` and `left` are then unchanged.
#[unsafe(no_mangle)]
pub extern "C" fn der_next_revoked_certificate<'a>(
    alloc: Global,
    octets: &'a [u8],
    left: &mut Place,
    out: &mut RevokedCertificateAt,
    fault: &mut Fault,
) -> u32
    ensures { AnswersNext ⟦<RevokedCertificate<'a> as Form>⟧ octets.now left.old left.new (λ v own at.
        (at.whole.offset ≡ left.old.offset) × (at.whole.length ≡ length own)
        × LaidOut (⟦<RevokedCertificate<'a> as Placed>⟧.layout v) left.old.offset (⟦<RevokedCertificate<'a> as Placed>⟧.listed at.fields) own
        × (at.revocation_date ≡ seconds_of (revoked.revocation_date v)))
        out.old out.new fault.old fault.new result }
{
    match read_left::<RevokedCertificate<'a>>(alloc, octets, *left) {
        Ok((value, whole)) => {
            *out = revoked_certificate_at(&value, octets, whole);
            *left = behind(*left, whole.length);
            0
        }
        Err(reason) => refuse_with(reason, fault),
    }
}

/// Reads the response about one certificate at the front of `left` (RFC 6960 4.2.1), writes the
/// byte ranges of its fields, and moves `left` past it.
///
/// Returns 0, or the number of the first error; `out` and `left` are then unchanged.
#[unsafe(no_mangle)]
pub extern "C" fn der_next_single_response<'a>(
    alloc: Global,
    octets: &'a [u8],
    left: &mut Place,
    out: &mut SingleResponseAt,
    fault: &mut Fault,
) -> u32
    ensures { AnswersNext ⟦<SingleResponse<'a> as Form>⟧ octets.now left.old left.new (λ v own at.
        (at.whole.offset ≡ left.old.offset) × (at.whole.length ≡ length own)
        × LaidOut (⟦<SingleResponse<'a> as Placed>⟧.layout v) left.old.offset (⟦<SingleResponse<'a> as Placed>⟧.listed at.fields) own
        × (at.this_update ≡ seconds_of_general (single.this_update v))
        × (at.next_update ≡ seconds_if_given (single.next_update v))
        × (at.revocation_time ≡ revoked_at (single.cert_status v))
        × (at.status ≡ number_of_status (single.cert_status v)))
        out.old out.new fault.old fault.new result }
{
    match read_left::<SingleResponse<'a>>(alloc, octets, *left) {
        Ok((value, whole)) => {
            *out = single_response_at(&value, octets, whole);
            *left = behind(*left, whole.length);
            0
        }
        Err(reason) => refuse_with(reason, fault),
    }
}

/// Reads the signer at the front of `left` (RFC 5652 5.3), writes the byte ranges of its fields,
/// and moves `left` past it.
///
/// Returns 0, or the number of the first error; `out` and `left` are then unchanged.
#[unsafe(no_mangle)]
pub extern "C" fn der_next_signer_info<'a>(
    alloc: Global,
    octets: &'a [u8],
    left: &mut Place,
    out: &mut SignerInfoAt,
    fault: &mut Fault,
) -> u32
    ensures { AnswersNext ⟦<SignerInfo<'a> as Form>⟧ octets.now left.old left.new (λ v own at.
        (at.whole.offset ≡ left.old.offset) × (at.whole.length ≡ length own)
        × LaidOut (⟦<SignerInfo<'a> as Placed>⟧.layout v) left.old.offset (⟦<SignerInfo<'a> as Placed>⟧.listed at.fields) own
        × (at.version ≡ signer.version v))
        out.old out.new fault.old fault.new result }
{
    match read_left::<SignerInfo<'a>>(alloc, octets, *left) {
        Ok((value, whole)) => {
            *out = signer_info_at(&value, octets, whole);
            *left = behind(*left, whole.length);
            0
        }
        Err(reason) => refuse_with(reason, fault),
    }
}

/// Reads the attribute of a signer, a request or a private key at the front of `left` (RFC 5652
/// 5.3, RFC 2986 4.1, RFC 5958 section 2), writes the byte ranges of its fields, and moves `left`
/// past it.
///
/// Returns 0, or the number of the first error; `out` and `left` are then unchanged.
#[unsafe(no_mangle)]
pub extern "C" fn der_next_attribute<'a>(
    alloc: Global,
    octets: &'a [u8],
    left: &mut Place,
    out: &mut AttributeAt,
    fault: &mut Fault,
) -> u32
    ensures { AnswersNext ⟦<Attribute<'a> as Form>⟧ octets.now left.old left.new (λ v own at.
        (at.whole.offset ≡ left.old.offset) × (at.whole.length ≡ length own)
        × LaidOut (⟦<Attribute<'a> as Placed>⟧.layout v) left.old.offset (⟦<Attribute<'a> as Placed>⟧.listed at.fields) own)
        out.old out.new fault.old fault.new result }
{
    match read_left::<Attribute<'a>>(alloc, octets, *left) {
        Ok((value, whole)) => {
            *out = attribute_at(&value, octets, whole);
            *left = behind(*left, whole.length);
            0
        }
        Err(reason) => refuse_with(reason, fault),
    }
}

/// Reads the certificate policy at the front of `left` (RFC 5280 4.2.1.4), writes the byte ranges
/// of its fields, and moves `left` past it.
///
/// Returns 0, or the number of the first error; `out` and `left` are then unchanged.
#[unsafe(no_mangle)]
pub extern "C" fn der_next_policy_information<'a>(
    alloc: Global,
    octets: &'a [u8],
    left: &mut Place,
    out: &mut PolicyInformationPlaces,
    fault: &mut Fault,
) -> u32
    ensures { AnswersNextPlaces ⟦<PolicyInformation<'a> as Form>⟧ ⟦<PolicyInformation<'a> as Placed>⟧.layout ⟦<PolicyInformation<'a> as Placed>⟧.listed
        octets.now left.old left.new out.old out.new fault.old fault.new result }
{
    read_next_message::<PolicyInformationPlaces, PolicyInformation<'a>>(
        alloc, octets, left, out, fault,
    )
}

/// Reads the policy qualifier at the front of `left` (RFC 5280 4.2.1.4), writes the byte ranges of
/// its fields, and moves `left` past it.
///
/// Returns 0, or the number of the first error; `out` and `left` are then unchanged.
#[unsafe(no_mangle)]
pub extern "C" fn der_next_policy_qualifier_info<'a>(
    alloc: Global,
    octets: &'a [u8],
    left: &mut Place,
    out: &mut PolicyQualifierInfoPlaces,
    fault: &mut Fault,
) -> u32
    ensures { AnswersNextPlaces ⟦<PolicyQualifierInfo<'a> as Form>⟧ ⟦<PolicyQualifierInfo<'a> as Placed>⟧.layout ⟦<PolicyQualifierInfo<'a> as Placed>⟧.listed
        octets.now left.old left.new out.old out.new fault.old fault.new result }
{
    read_next_message::<PolicyQualifierInfoPlaces, PolicyQualifierInfo<'a>>(
        alloc, octets, left, out, fault,
    )
}

/// Reads the policy mapping at the front of `left` (RFC 5280 4.2.1.5), writes the byte ranges of
/// its fields, and moves `left` past it.
///
/// Returns 0, or the number of the first error; `out` and `left` are then unchanged.
#[unsafe(no_mangle)]
pub extern "C" fn der_next_policy_mapping<'a>(
    alloc: Global,
    octets: &'a [u8],
    left: &mut Place,
    out: &mut PolicyMappingPlaces,
    fault: &mut Fault,
) -> u32
    ensures { AnswersNextPlaces ⟦<PolicyMapping<'a> as Form>⟧ ⟦<PolicyMapping<'a> as Placed>⟧.layout ⟦<PolicyMapping<'a> as Placed>⟧.listed
        octets.now left.old left.new out.old out.new fault.old fault.new result }
{
    read_next_message::<PolicyMappingPlaces, PolicyMapping<'a>>(alloc, octets, left, out, fault)
}

/// Reads the subtree of names at the front of `left` (RFC 5280 4.2.1.10), writes the byte ranges
/// of its fields, and moves `left` past it.
///
/// Returns 0, or the number of the first error; `out` and `left` are then unchanged.
#[unsafe(no_mangle)]
pub extern "C" fn der_next_general_subtree<'a>(
    alloc: Global,
    octets: &'a [u8],
    left: &mut Place,
    out: &mut GeneralSubtreePlaces,
    fault: &mut Fault,
) -> u32
    ensures { AnswersNextPlaces ⟦<GeneralSubtree<'a> as Form>⟧ ⟦<GeneralSubtree<'a> as Placed>⟧.layout ⟦<GeneralSubtree<'a> as Placed>⟧.listed
        octets.now left.old left.new out.old out.new fault.old fault.new result }
{
    read_next_message::<GeneralSubtreePlaces, GeneralSubtree<'a>>(alloc, octets, left, out, fault)
}

/// Reads the distribution point at the front of `left` (RFC 5280 4.2.1.13), writes the byte ranges
/// of its fields, and moves `left` past it.
///
/// Returns 0, or the number of the first error; `out` and `left` are then unchanged.
#[unsafe(no_mangle)]
pub extern "C" fn der_next_distribution_point<'a>(
    alloc: Global,
    octets: &'a [u8],
    left: &mut Place,
    out: &mut DistributionPointPlaces,
    fault: &mut Fault,
) -> u32
    ensures { AnswersNextPlaces ⟦<DistributionPoint<'a> as Form>⟧ ⟦<DistributionPoint<'a> as Placed>⟧.layout ⟦<DistributionPoint<'a> as Placed>⟧.listed
        octets.now left.old left.new out.old out.new fault.old fault.new result }
{
    read_next_message::<DistributionPointPlaces, DistributionPoint<'a>>(
        alloc, octets, left, out, fault,
    )
}

/// Reads the access description at the front of `left` (RFC 5280 4.2.2.1), writes the byte ranges
/// of its fields, and moves `left` past it.
///
/// Returns 0, or the number of the first error; `out` and `left` are then unchanged.
#[unsafe(no_mangle)]
pub extern "C" fn der_next_access_description<'a>(
    alloc: Global,
    octets: &'a [u8],
    left: &mut Place,
    out: &mut AccessDescriptionPlaces,
    fault: &mut Fault,
) -> u32
    ensures { AnswersNextPlaces ⟦<AccessDescription<'a> as Form>⟧ ⟦<AccessDescription<'a> as Placed>⟧.layout ⟦<AccessDescription<'a> as Placed>⟧.listed
        octets.now left.old left.new out.old out.new fault.old fault.new result }
{
    read_next_message::<AccessDescriptionPlaces, AccessDescription<'a>>(
        alloc, octets, left, out, fault,
    )
}

/// Reads the request about one certificate at the front of `left` (RFC 6960 4.1.1), writes the
/// byte ranges of its fields, and moves `left` past it.
///
/// Returns 0, or the number of the first error; `out` and `left` are then unchanged.
#[unsafe(no_mangle)]
pub extern "C" fn der_next_request<'a>(
    alloc: Global,
    octets: &'a [u8],
    left: &mut Place,
    out: &mut RequestPlaces,
    fault: &mut Fault,
) -> u32
    ensures { AnswersNextPlaces ⟦<Request<'a> as Form>⟧ ⟦<Request<'a> as Placed>⟧.layout ⟦<Request<'a> as Placed>⟧.listed
        octets.now left.old left.new out.old out.new fault.old fault.new result }
{
    read_next_message::<RequestPlaces, Request<'a>>(alloc, octets, left, out, fault)
}

/// Reads the certificate's hash value at the front of `left` (RFC 5035 section 4), writes the byte
/// ranges of its fields, and moves `left` past it.
///
/// Returns 0, or the number of the first error; `out` and `left` are then unchanged.
#[unsafe(no_mangle)]
pub extern "C" fn der_next_ess_cert_idv2<'a>(
    alloc: Global,
    octets: &'a [u8],
    left: &mut Place,
    out: &mut EssCertIdv2Places,
    fault: &mut Fault,
) -> u32
    ensures { AnswersNextPlaces ⟦<EssCertIdv2<'a> as Form>⟧ ⟦<EssCertIdv2<'a> as Placed>⟧.layout ⟦<EssCertIdv2<'a> as Placed>⟧.listed
        octets.now left.old left.new out.old out.new fault.old fault.new result }
{
    read_next_message::<EssCertIdv2Places, EssCertIdv2<'a>>(alloc, octets, left, out, fault)
}

/// Reads the bag of a PKCS 12 file at the front of `left` (RFC 7292 4.2), writes the byte ranges
/// of its fields, and moves `left` past it.
///
/// Returns 0, or the number of the first error; `out` and `left` are then unchanged.
#[unsafe(no_mangle)]
pub extern "C" fn der_next_safe_bag<'a>(
    alloc: Global,
    octets: &'a [u8],
    left: &mut Place,
    out: &mut SafeBagPlaces,
    fault: &mut Fault,
) -> u32
    ensures { AnswersNextPlaces ⟦<SafeBag<'a> as Form>⟧ ⟦<SafeBag<'a> as Placed>⟧.layout ⟦<SafeBag<'a> as Placed>⟧.listed
        octets.now left.old left.new out.old out.new fault.old fault.new result }
{
    read_next_message::<SafeBagPlaces, SafeBag<'a>>(alloc, octets, left, out, fault)
}
