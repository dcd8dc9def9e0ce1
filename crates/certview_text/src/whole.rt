//! A message as a whole: its structure, its byte range and its name.

use crate::kind::Kind;
use crate::parts::Part;
use crate::shape::Shape;
use crate::site::Site;
use certview_parts::page::ItemKind;
use certview_parts::place::Place;
use certview_parts::printer::Printer;
use std::alloc::AllocError;

/// Returns a message of a kind: all of the octets.
pub fn whole_of(octets: &[u8], kind: Kind) -> Site {
    Site::whole(octets, shape_of(kind))
}

/// Begins a message: its byte range, and its name for people.
pub fn push_title(printer: &mut Printer<'_>, place: &Place, kind: Kind) -> Result<(), AllocError> {
    printer.page.begin(ItemKind::Message(*place), kind.name())?;
    printer.push('\n')
}

/// Returns the structure of a message of a kind.
pub fn shape_of(kind: Kind) -> Shape {
    match kind {
        Kind::DsaPrivateKey => Shape::DsaPrivateKey,
        _ => Shape::Part(part_of(kind)),
    }
}

/// Returns the part of the table for a message of a kind: for ECParameters a CHOICE, for a DSA
/// private key none.
fn part_of(kind: Kind) -> Part {
    match kind {
        Kind::Certificate => Part::Certificate,
        Kind::RevocationList => Part::CertificateList,
        Kind::PublicKey => Part::SubjectPublicKeyInfo,
        Kind::PrivateKey => Part::OneAsymmetricKey,
        Kind::RsaPrivateKey => Part::RsaPrivateKey,
        Kind::RsaPublicKey => Part::RsaPublicKey,
        Kind::EcPrivateKey => Part::EcPrivateKey,
        Kind::DsaPrivateKey => Part::Value,
        Kind::CertificationRequest => Part::CertificationRequest,
        Kind::EncryptedPrivateKey => Part::EncryptedPrivateKeyInfo,
        Kind::OcspRequest => Part::OcspRequest,
        Kind::OcspResponse => Part::OcspResponse,
        Kind::Cms => Part::CmsContentInfo,
        Kind::TimeStampQuery => Part::TimeStampReq,
        Kind::TimeStampReply => Part::TimeStampResp,
        Kind::Pkcs12 => Part::Pfx,
        Kind::EcParameters => Part::Value,
        Kind::DsaParameters => Part::DssParms,
        Kind::DhParameters => Part::DhParameter,
        Kind::X942Parameters => Part::DomainParameters,
    }
}
