//! The certificates that a path is found among.

ghost use Rattle.std.specs.Prelude.{◌≡◌, true, IfOk, OnOk};
ghost use Rattle.der_path.specs.Finding.{fits, has_octets, AddsLinks, AreLinks, IsRead, NamesMatch, ReadsLink};

use der_elem::FromDer;
use der_extensions::extension::constants::{
    ID_CE_AUTHORITY_KEY_IDENTIFIER, ID_CE_SUBJECT_KEY_IDENTIFIER,
};
use der_extensions::extension::{AuthorityKeyIdentifier, SubjectKeyIdentifier};
use der_modules::copy_of;
use der_pkix::certificate::{Certificate, TbsCertificate};
use der_pkix::name::Name;
use der_tlv::Error;
use der_verify::{find_extension, names_match};
use std::alloc::{AllocError, Global};

/// A certificate that may stand in a path.
#[derive(Clone, Copy)]
pub struct Link<'a> {
    /// The octets of the certificate.
    pub octets: &'a [u8],
    /// The issuer.
    pub issuer: Name<'a>,
    /// The subject.
    pub subject: Name<'a>,
    /// keyIdentifier of authorityKeyIdentifier (4.2.1.1), if it can be read.
    pub authority_key: Option<&'a [u8]>,
    /// subjectKeyIdentifier (4.2.1.2), if it can be read.
    pub subject_key: Option<&'a [u8]>,
}

/// Reads the certificates that can be read, each once.
pub(crate) fn links_of<'a>(
    alloc: Global,
    certificates: &[&'a [u8]],
) -> Result<Vec<Link<'a>>, AllocError>
    ensures { IfOk result (λ links. AreLinks certificates.now links.items) }
{
    let mut links = Vec::new(alloc);
    let mut left = certificates;
    'each: while let [octets, others @ ..] = left {
        add_link(alloc, *octets, &mut links)?;
        left = others;
    }
    Ok(links)
}

/// Adds a certificate that can be read, unless it is there.
fn add_link<'a>(
    alloc: Global,
    octets: &'a [u8],
    links: &mut Vec<Link<'a>>,
) -> Result<(), AllocError>
    ensures added { AddsLinks octets.entry links.old.items links.new.items }
    ensures read { OnOk result (IsRead links.new.items octets.entry) }
{
    match link_of(alloc, octets) {
        Ok(link) => {
            if has_octets(links, octets) {
                return Ok(());
            }
            links.push(link)?;
            Ok(())
        }
        Err(_error) => Ok(()),
    }
}

/// Returns whether one of these certificates has these octets.
fn has_octets(links: &[Link<'_>], octets: &[u8]) -> bool
    ensures { result ≡ has_octets octets.now links.now }
{
    links.iter().any(|link| link.octets == octets)
}

/// Reads a certificate.
///
/// # Errors
/// The error of reading the octets.
pub(crate) fn link_of<'a>(alloc: Global, octets: &'a [u8]) -> Result<Link<'a>, Error>
    ensures { ReadsLink octets.entry result }
{
    match Certificate::from_der(alloc, octets) {
        Ok(certificate) => {
            let signed = certificate.tbs_certificate();
            Ok(Link {
                octets,
                issuer: copy_of(signed.issuer()),
                subject: copy_of(signed.subject()),
                authority_key: authority_key(alloc, signed),
                subject_key: subject_key(alloc, signed),
            })
        }
        Err(error) => Err(error),
    }
}

/// Returns keyIdentifier of authorityKeyIdentifier, if it can be read.
fn authority_key<'a>(alloc: Global, certificate: &TbsCertificate<'a>) -> Option<&'a [u8]> {
    let octets = value_octets(alloc, certificate, &ID_CE_AUTHORITY_KEY_IDENTIFIER)?;
    match AuthorityKeyIdentifier::from_der(alloc, octets) {
        Ok(value) => match value.key_identifier() {
            Some(identifier) => Some(identifier.as_bytes()),
            None => None,
        },
        Err(_error) => None,
    }
}

/// Returns subjectKeyIdentifier, if it can be read.
fn subject_key<'a>(alloc: Global, certificate: &TbsCertificate<'a>) -> Option<&'a [u8]> {
    let octets = value_octets(alloc, certificate, &ID_CE_SUBJECT_KEY_IDENTIFIER)?;
    match SubjectKeyIdentifier::from_der(alloc, octets) {
        Ok(value) => Some(value.as_bytes()),
        Err(_error) => None,
    }
}

/// Returns the octets of the value of the only extension with this identifier.
fn value_octets<'a>(
    alloc: Global,
    certificate: &TbsCertificate<'a>,
    identifier: &[u8],
) -> Option<&'a [u8]> {
    let extensions = certificate.extensions()?;
    match find_extension(alloc, extensions, identifier) {
        Ok(Some(extension)) => Some(extension.extn_value().as_bytes()),
        _ => None,
    }
}

/// Returns whether a certificate has the subject that the other names as its issuer (7.1).
pub(crate) fn issued<'a>(alloc: Global, link: &Link<'a>, other: &Link<'a>) -> bool
    ensures { NamesMatch link.now.subject other.now.issuer → result ≡ true }
{
    names_match(alloc, &link.subject, &other.issuer)
}

/// Returns whether the key identifiers of a certificate and of the one that it issued do not
/// differ: one of them is absent, or they are equal.
pub(crate) fn fits(link: &Link<'_>, other: &Link<'_>) -> bool
    ensures { result ≡ fits link.now.subject_key other.now.authority_key }
{
    match (link.subject_key, other.authority_key) {
        (Some(key), Some(authority)) => key == authority,
        _ => true,
    }
}
