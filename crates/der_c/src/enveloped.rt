//! Enveloped and encrypted messages, and identifiers of certificates in messages.

ghost use Rattle.der_c.specs.Answers.{AnswersPlaces};

use crate::fault::Fault;
use crate::message::read_message;
use der_cms::cms::{EncryptedContentInfo, EncryptedData, IssuerAndSerialNumber};
use der_cms::ess::{EssCertIdv2, SigningCertificateV2};
use der_elem::Form;
use der_enveloped::enveloped::{EnvelopedData, KeyTransRecipientInfo};
use der_places::Placed;
use der_places::cms::{
    EncryptedContentInfoPlaces, EncryptedDataPlaces, IssuerAndSerialNumberPlaces,
};
use der_places::enveloped::{EnvelopedDataPlaces, KeyTransRecipientInfoPlaces};
use der_places::ess::{EssCertIdv2Places, SigningCertificateV2Places};
use std::alloc::Global;

/// Reads all octets as an IssuerAndSerialNumber (RFC 5652 10.2.4), and writes the byte ranges of
/// its fields.
///
/// Returns 0, or the number of the first error; `out` is then unchanged.
#[unsafe(no_mangle)]
pub extern "C" fn der_issuer_and_serial_number<'a>(
    alloc: Global,
    octets: &'a [u8],
    out: &mut IssuerAndSerialNumberPlaces,
    fault: &mut Fault,
) -> u32
    ensures { AnswersPlaces ⟦<IssuerAndSerialNumber<'a> as Form>⟧ ⟦<IssuerAndSerialNumber<'a> as Placed>⟧.layout ⟦<IssuerAndSerialNumber<'a> as Placed>⟧.listed
        octets.now out.old out.new fault.old fault.new result }
{
    read_message::<IssuerAndSerialNumberPlaces, IssuerAndSerialNumber<'a>>(
        alloc, octets, out, fault,
    )
}

/// Reads all octets as an EnvelopedData (RFC 5652 6.1), and writes the byte ranges of its fields.
///
/// Returns 0, or the number of the first error; `out` is then unchanged.
#[unsafe(no_mangle)]
pub extern "C" fn der_enveloped_data<'a>(
    alloc: Global,
    octets: &'a [u8],
    out: &mut EnvelopedDataPlaces,
    fault: &mut Fault,
) -> u32
    ensures { AnswersPlaces ⟦<EnvelopedData<'a> as Form>⟧ ⟦<EnvelopedData<'a> as Placed>⟧.layout ⟦<EnvelopedData<'a> as Placed>⟧.listed
        octets.now out.old out.new fault.old fault.new result }
{
    read_message::<EnvelopedDataPlaces, EnvelopedData<'a>>(alloc, octets, out, fault)
}

/// Reads all octets as an EncryptedContentInfo (RFC 5652 6.1), and writes the byte ranges of its
/// fields.
///
/// Returns 0, or the number of the first error; `out` is then unchanged.
#[unsafe(no_mangle)]
pub extern "C" fn der_encrypted_content_info<'a>(
    alloc: Global,
    octets: &'a [u8],
    out: &mut EncryptedContentInfoPlaces,
    fault: &mut Fault,
) -> u32
    ensures { AnswersPlaces ⟦<EncryptedContentInfo<'a> as Form>⟧ ⟦<EncryptedContentInfo<'a> as Placed>⟧.layout ⟦<EncryptedContentInfo<'a> as Placed>⟧.listed
        octets.now out.old out.new fault.old fault.new result }
{
    read_message::<EncryptedContentInfoPlaces, EncryptedContentInfo<'a>>(alloc, octets, out, fault)
}

/// Reads all octets as a KeyTransRecipientInfo (RFC 5652 6.2.1), and writes the byte ranges of
/// its fields.
///
/// Returns 0, or the number of the first error; `out` is then unchanged.
#[unsafe(no_mangle)]
pub extern "C" fn der_key_trans_recipient_info<'a>(
    alloc: Global,
    octets: &'a [u8],
    out: &mut KeyTransRecipientInfoPlaces,
    fault: &mut Fault,
) -> u32
    ensures { AnswersPlaces ⟦<KeyTransRecipientInfo<'a> as Form>⟧ ⟦<KeyTransRecipientInfo<'a> as Placed>⟧.layout ⟦<KeyTransRecipientInfo<'a> as Placed>⟧.listed
        octets.now out.old out.new fault.old fault.new result }
{
    read_message::<KeyTransRecipientInfoPlaces, KeyTransRecipientInfo<'a>>(
        alloc, octets, out, fault,
    )
}

/// Reads all octets as an EncryptedData (RFC 5652 section 8), and writes the byte ranges of its
/// fields.
///
/// Returns 0, or the number of the first error; `out` is then unchanged.
#[unsafe(no_mangle)]
pub extern "C" fn der_encrypted_data<'a>(
    alloc: Global,
    octets: &'a [u8],
    out: &mut EncryptedDataPlaces,
    fault: &mut Fault,
) -> u32
    ensures { AnswersPlaces ⟦<EncryptedData<'a> as Form>⟧ ⟦<EncryptedData<'a> as Placed>⟧.layout ⟦<EncryptedData<'a> as Placed>⟧.listed
        octets.now out.old out.new fault.old fault.new result }
{
    read_message::<EncryptedDataPlaces, EncryptedData<'a>>(alloc, octets, out, fault)
}

/// Reads all octets as a SigningCertificateV2 (RFC 5035 section 3), and writes the byte ranges of
/// its fields.
///
/// Returns 0, or the number of the first error; `out` is then unchanged.
#[unsafe(no_mangle)]
pub extern "C" fn der_signing_certificate_v2<'a>(
    alloc: Global,
    octets: &'a [u8],
    out: &mut SigningCertificateV2Places,
    fault: &mut Fault,
) -> u32
    ensures { AnswersPlaces ⟦<SigningCertificateV2<'a> as Form>⟧ ⟦<SigningCertificateV2<'a> as Placed>⟧.layout ⟦<SigningCertificateV2<'a> as Placed>⟧.listed
        octets.now out.old out.new fault.old fault.new result }
{
    read_message::<SigningCertificateV2Places, SigningCertificateV2<'a>>(alloc, octets, out, fault)
}

/// Reads all octets as an ESSCertIDv2 (RFC 5035 section 4), and writes the byte ranges of its
/// fields.
///
/// Returns 0, or the number of the first error; `out` is then unchanged.
#[unsafe(no_mangle)]
pub extern "C" fn der_ess_cert_idv2<'a>(
    alloc: Global,
    octets: &'a [u8],
    out: &mut EssCertIdv2Places,
    fault: &mut Fault,
) -> u32
    ensures { AnswersPlaces ⟦<EssCertIdv2<'a> as Form>⟧ ⟦<EssCertIdv2<'a> as Placed>⟧.layout ⟦<EssCertIdv2<'a> as Placed>⟧.listed
        octets.now out.old out.new fault.old fault.new result }
{
    read_message::<EssCertIdv2Places, EssCertIdv2<'a>>(alloc, octets, out, fault)
}
