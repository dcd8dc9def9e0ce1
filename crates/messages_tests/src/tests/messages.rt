//! The types of messages that the tables of rows name, and what is tried of each.

use crate::tests::{is_copied, numbered};
use der_asn1_types::{DerOrd, Duplicate, Encode, FromDer};
use der_enveloped::authenticated::AuthenticatedData;
use der_enveloped::enveloped::{EnvelopedData, RecipientInfo};
use der_pkcs::algorithm::{
    DhParameter, DomainParameters, DssParms, EcdsaSigValue, RsaesOaepParams, RsassaPssParams,
};
use der_pkcs::encryption::{EncryptedPrivateKeyInfo, PbeParameter, Pbes2Params, Pbkdf2Params};
use der_pkcs::pkcs12::{AuthenticatedSafe, CertBag, CrlBag, Pfx, SafeContents, SecretBag};
use der_time_stamp::time_stamp::{TimeStampReq, TimeStampResp, TstInfo};
use std::alloc::Global;
use std::cmp::Ordering;

/// A message type.
#[derive(Clone, Copy, Debug, PartialEq, Eq)]
pub(super) enum Message {
    EnvelopedData,
    RecipientInfo,
    AuthenticatedData,
    TimeStampReq,
    TimeStampResp,
    TstInfo,
    EncryptedPrivateKeyInfo,
    Pbes2Params,
    Pbkdf2Params,
    PbeParameter,
    RsassaPssParams,
    RsaesOaepParams,
    EcdsaSigValue,
    DssParms,
    DomainParameters,
    DhParameter,
    Pfx,
    AuthenticatedSafe,
    SafeContents,
    CertBag,
    CrlBag,
    SecretBag,
}

/// The results for two encodings: the encoding of the first one's value, whether its copy is
/// equal to it, the order of the two values, and whether they are equal.
pub(super) type Tried = (Vec<u8>, bool, Ordering, bool);

// Returns the order of two values, or the number of the error.
fn order_of<T: DerOrd>(first: &T, second: &T) -> Result<Ordering, u8> {
    match first.der_cmp(second) {
        Ok(order) => Ok(order),
        Err(e) => Err(e.kind().number()),
    }
}

// Returns the results for two values.
fn tried_of<T: Encode + DerOrd + Duplicate + PartialEq>(
    alloc: Global,
    first: &T,
    second: &T,
) -> Result<Tried, u8> {
    let written = numbered(first.to_der(alloc))?;
    let order = order_of(first, second)?;
    Ok((written, is_copied(first), order, first == second))
}

// Returns the results for two encodings, or the number of the first refusal.
fn tried<'a, T: FromDer<'a> + Encode + DerOrd + Duplicate + PartialEq>(
    alloc: Global,
    first: &'a [u8],
    second: &'a [u8],
) -> Result<Tried, u8> {
    match (T::from_der(alloc, first), T::from_der(alloc, second)) {
        (Ok(first), Ok(second)) => tried_of(alloc, &first, &second),
        (Err(e), _) => Err(e.kind().number()),
        (Ok(_), Err(e)) => Err(e.kind().number()),
    }
}

fn enveloped_data(alloc: Global, first: &[u8], second: &[u8]) -> Result<Tried, u8> {
    tried::<EnvelopedData>(alloc, first, second)
}

fn recipient_info(alloc: Global, first: &[u8], second: &[u8]) -> Result<Tried, u8> {
    tried::<RecipientInfo>(alloc, first, second)
}

fn authenticated_data(alloc: Global, first: &[u8], second: &[u8]) -> Result<Tried, u8> {
    tried::<AuthenticatedData>(alloc, first, second)
}

fn time_stamp_req(alloc: Global, first: &[u8], second: &[u8]) -> Result<Tried, u8> {
    tried::<TimeStampReq>(alloc, first, second)
}

fn time_stamp_resp(alloc: Global, first: &[u8], second: &[u8]) -> Result<Tried, u8> {
    tried::<TimeStampResp>(alloc, first, second)
}

fn tst_info(alloc: Global, first: &[u8], second: &[u8]) -> Result<Tried, u8> {
    tried::<TstInfo>(alloc, first, second)
}

fn encrypted_private_key_info(alloc: Global, first: &[u8], second: &[u8]) -> Result<Tried, u8> {
    tried::<EncryptedPrivateKeyInfo>(alloc, first, second)
}

fn pbes2_params(alloc: Global, first: &[u8], second: &[u8]) -> Result<Tried, u8> {
    tried::<Pbes2Params>(alloc, first, second)
}

fn pbkdf2_params(alloc: Global, first: &[u8], second: &[u8]) -> Result<Tried, u8> {
    tried::<Pbkdf2Params>(alloc, first, second)
}

fn pbe_parameter(alloc: Global, first: &[u8], second: &[u8]) -> Result<Tried, u8> {
    tried::<PbeParameter>(alloc, first, second)
}

fn rsassa_pss_params(alloc: Global, first: &[u8], second: &[u8]) -> Result<Tried, u8> {
    tried::<RsassaPssParams>(alloc, first, second)
}

fn rsaes_oaep_params(alloc: Global, first: &[u8], second: &[u8]) -> Result<Tried, u8> {
    tried::<RsaesOaepParams>(alloc, first, second)
}

fn ecdsa_sig_value(alloc: Global, first: &[u8], second: &[u8]) -> Result<Tried, u8> {
    tried::<EcdsaSigValue>(alloc, first, second)
}

fn dss_parms(alloc: Global, first: &[u8], second: &[u8]) -> Result<Tried, u8> {
    tried::<DssParms>(alloc, first, second)
}

fn domain_parameters(alloc: Global, first: &[u8], second: &[u8]) -> Result<Tried, u8> {
    tried::<DomainParameters>(alloc, first, second)
}

fn dh_parameter(alloc: Global, first: &[u8], second: &[u8]) -> Result<Tried, u8> {
    tried::<DhParameter>(alloc, first, second)
}

fn pfx(alloc: Global, first: &[u8], second: &[u8]) -> Result<Tried, u8> {
    tried::<Pfx>(alloc, first, second)
}

fn authenticated_safe(alloc: Global, first: &[u8], second: &[u8]) -> Result<Tried, u8> {
    tried::<AuthenticatedSafe>(alloc, first, second)
}

fn safe_contents(alloc: Global, first: &[u8], second: &[u8]) -> Result<Tried, u8> {
    tried::<SafeContents>(alloc, first, second)
}

fn cert_bag(alloc: Global, first: &[u8], second: &[u8]) -> Result<Tried, u8> {
    tried::<CertBag>(alloc, first, second)
}

fn crl_bag(alloc: Global, first: &[u8], second: &[u8]) -> Result<Tried, u8> {
    tried::<CrlBag>(alloc, first, second)
}

fn secret_bag(alloc: Global, first: &[u8], second: &[u8]) -> Result<Tried, u8> {
    tried::<SecretBag>(alloc, first, second)
}

// Returns the results for two encodings of this message type.
pub(super) fn tried_as(
    message: Message,
    alloc: Global,
    first: &[u8],
    second: &[u8],
) -> Result<Tried, u8> {
    match message {
        Message::EnvelopedData => enveloped_data(alloc, first, second),
        Message::RecipientInfo => recipient_info(alloc, first, second),
        Message::AuthenticatedData => authenticated_data(alloc, first, second),
        Message::TimeStampReq => time_stamp_req(alloc, first, second),
        Message::TimeStampResp => time_stamp_resp(alloc, first, second),
        Message::TstInfo => tst_info(alloc, first, second),
        Message::EncryptedPrivateKeyInfo => encrypted_private_key_info(alloc, first, second),
        Message::Pbes2Params => pbes2_params(alloc, first, second),
        Message::Pbkdf2Params => pbkdf2_params(alloc, first, second),
        Message::PbeParameter => pbe_parameter(alloc, first, second),
        Message::RsassaPssParams => rsassa_pss_params(alloc, first, second),
        Message::RsaesOaepParams => rsaes_oaep_params(alloc, first, second),
        Message::EcdsaSigValue => ecdsa_sig_value(alloc, first, second),
        Message::DssParms => dss_parms(alloc, first, second),
        Message::DomainParameters => domain_parameters(alloc, first, second),
        Message::DhParameter => dh_parameter(alloc, first, second),
        Message::Pfx => pfx(alloc, first, second),
        Message::AuthenticatedSafe => authenticated_safe(alloc, first, second),
        Message::SafeContents => safe_contents(alloc, first, second),
        Message::CertBag => cert_bag(alloc, first, second),
        Message::CrlBag => crl_bag(alloc, first, second),
        Message::SecretBag => secret_bag(alloc, first, second),
    }
}
