//! A message as text.

ghost use Rattle.std.specs.Prelude.{◌≡◌, None, OnOk};
ghost use Rattle.certview_text.specs.Faults.{first_fault};
ghost use Rattle.certview_text.specs.Grammars.{grammar_of};

use crate::certificate::push_certificate;
use crate::cms::push_cms;
use crate::curve_parameters::push_curve_parameters;
use crate::dsa::push_dsa_private_key;
use crate::encrypted_key::push_encrypted_key;
use crate::fault::Fault;
use crate::group_parameters::{push_dh_parameters, push_dsa_parameters, push_x942_parameters};
use crate::keys::{push_ec_private_key, push_private_key, push_public_key, push_rsa_public_key};
use crate::kind::Kind;
use crate::ocsp_request::push_ocsp_request;
use crate::ocsp_response::push_ocsp_response;
use crate::pkcs12::push_pfx;
use crate::request::push_request;
use crate::revocation::push_list;
use crate::rsa::push_rsa_private_key;
use crate::time_stamp_query::push_query;
use crate::time_stamp_reply::push_reply;
use crate::viewing::text_of;
use certview_parts::form::{Form, Writer};
use certview_parts::page::Page;
use der_asn1_types::{Error, ErrorKind};
use std::alloc::Global;

/// Adds the fields of the message of this kind in these octets, one line each. Adds nothing if
/// the octets are refused.
///
/// # Errors
/// As `push_certificate`.
pub fn push_message(alloc: Global, page: &mut Page, kind: Kind, octets: &[u8]) -> Result<(), Fault>
    ensures { OnOk result (first_fault (grammar_of kind) octets.now ≡ None) }
{
    match kind {
        Kind::Certificate => push_certificate(alloc, page, octets),
        Kind::RevocationList => push_list(alloc, page, octets),
        Kind::PublicKey => push_public_key(alloc, page, octets),
        Kind::PrivateKey => push_private_key(alloc, page, octets),
        Kind::RsaPrivateKey => push_rsa_private_key(alloc, page, octets),
        Kind::RsaPublicKey => push_rsa_public_key(alloc, page, octets),
        Kind::EcPrivateKey => push_ec_private_key(alloc, page, octets),
        Kind::DsaPrivateKey => push_dsa_private_key(alloc, page, octets),
        Kind::CertificationRequest => push_request(alloc, page, octets),
        Kind::EncryptedPrivateKey => push_encrypted_key(alloc, page, octets),
        Kind::OcspRequest => push_ocsp_request(alloc, page, octets),
        Kind::OcspResponse => push_ocsp_response(alloc, page, octets),
        Kind::Cms => push_cms(alloc, page, octets),
        Kind::TimeStampQuery => push_query(alloc, page, octets),
        Kind::TimeStampReply => push_reply(alloc, page, octets),
        Kind::Pkcs12 => push_pfx(alloc, page, octets),
        Kind::EcParameters => push_curve_parameters(alloc, page, octets),
        Kind::DsaParameters => push_dsa_parameters(alloc, page, octets),
        Kind::DhParameters => push_dh_parameters(alloc, page, octets),
        Kind::X942Parameters => push_x942_parameters(alloc, page, octets),
    }
}

/// Returns the fields of the message of this kind in these octets, one line each.
///
/// # Errors
/// The first error in the octets, in the order of the fields; `ErrorKind::TrailingData` (3) if
/// octets are left over; `ErrorKind::Overflow` (9) if there are more than 4294967295 octets;
/// `ErrorKind::Memory` (1) if memory runs out.
pub fn shown(alloc: Global, kind: Kind, octets: &[u8]) -> Result<String, Error>
    ensures { OnOk result (first_fault (grammar_of kind) octets.now ≡ None) }
{
    let mut page = Page::new(alloc);
    match push_message(alloc, &mut page, kind, octets) {
        Ok(()) => match text_of(alloc, Writer::new(Form::Text, None), &page) {
            Ok(text) => Ok(text),
            Err(_) => Err(Error::from_kind(ErrorKind::Memory)),
        },
        Err(Fault::Refused(error, _)) => Err(error),
        Err(_) => Err(Error::from_kind(ErrorKind::Memory)),
    }
}
