//! The signed part of a certificate and of a request for one, built from a name, a key and
//! extensions. `to_der` writes the octets that the signature covers.

ghost use Rattle.std.specs.Prelude.{◌≡◌, None, Some, IfOk};
ghost use Rattle.der_examples.specs.ExtensionRequests.{attribute_octets, attributes_octets};
ghost use Rattle.der_pkcs.specs.Request.CertificationRequestInfo as info_fields;
ghost use Rattle.der_pkix.specs.Certificate.TbsCertificate as tbs_fields;

use der_asn1_types::asn1::{IntRef, ObjectIdentifierRef};
use der_asn1_types::{Encode, Error, Form, FromDer};
use der_lists::UnorderedSetRef;
use der_modules::copy_of;
use der_pkcs::request::constants::PKCS_9_AT_EXTENSION_REQUEST;
use der_pkcs::request::{CERTIFICATION_REQUEST_INFO_VERSION_V1, CertificationRequestInfo};
use der_pkix::AlgorithmIdentifier;
use der_pkix::certificate::{
    Extensions, SubjectPublicKeyInfo, TbsCertificate, VERSION_V3, Validity,
};
use der_pkix::key::Attributes;
use der_pkix::name::{Attribute, Name};
use std::alloc::Global;

/// The fields of a self-signed certificate, without its extensions.
#[derive(Clone, Copy)]
pub struct SelfSigned<'a> {
    /// A serial number, which is positive.
    pub serial_number: IntRef<'a>,
    /// The algorithm of the signature.
    pub signature: AlgorithmIdentifier<'a>,
    /// The encoding of the name of the issuer, who is also the subject.
    pub name: &'a [u8],
    /// The first and the last moment at which the certificate is valid.
    pub validity: Validity,
    /// The public key.
    pub key: SubjectPublicKeyInfo<'a>,
}

/// Makes the signed part of a self-signed certificate of version 3 (RFC 5280 section 4.1).
///
/// # Errors
/// The first error in the name.
pub fn self_signed<'a>(
    alloc: Global,
    of: &SelfSigned<'a>,
    extensions: &Extensions<'a>,
) -> Result<TbsCertificate<'a>, Error>
    ensures version { IfOk result (λ tbs. tbs_fields.version tbs ≡ 2) }
    ensures serial_number { IfOk result (λ tbs. tbs_fields.serial_number tbs ≡ of.now.serial_number) }
    ensures signature { IfOk result (λ tbs. tbs_fields.signature tbs ≡ of.now.signature) }
    ensures issuer { IfOk result (λ tbs. ⟦<Name<'a> as Form>⟧.encoding (tbs_fields.issuer tbs) ≡ of.now.name.now) }
    ensures validity { IfOk result (λ tbs. tbs_fields.validity tbs ≡ of.now.validity) }
    ensures subject { IfOk result (λ tbs. ⟦<Name<'a> as Form>⟧.encoding (tbs_fields.subject tbs) ≡ of.now.name.now) }
    ensures key { IfOk result (λ tbs. tbs_fields.subject_public_key_info tbs ≡ of.now.key) }
    ensures extensions { IfOk result (λ tbs. tbs_fields.extensions tbs ≡ Some extensions.now) }
{
    let issuer = match name_of(alloc, of.name) {
        Ok(name) => name,
        Err(e) => return Err(e),
    };
    let subject = copy_of(&issuer);
    Ok(TbsCertificate::new(
        VERSION_V3,
        of.serial_number,
        &of.signature,
        &issuer,
        of.validity,
        &subject,
        &of.key,
        None,
        None,
        Some(extensions),
    ))
}

/// Makes the signed part of a request (RFC 2986 section 4.1), with these attributes.
///
/// # Errors
/// The first error in the name.
pub fn request_for<'a>(
    alloc: Global,
    name: &'a [u8],
    key: &SubjectPublicKeyInfo<'a>,
    attributes: &Attributes<'a>,
) -> Result<CertificationRequestInfo<'a>, Error>
    ensures version { IfOk result (λ info. info_fields.version info ≡ 0) }
    ensures subject { IfOk result (λ info. ⟦<Name<'a> as Form>⟧.encoding (info_fields.subject info) ≡ name.now) }
    ensures key { IfOk result (λ info. info_fields.subject_pk_info info ≡ key.now) }
    ensures attributes { IfOk result (λ info. info_fields.attributes info ≡ attributes.now) }
{
    let subject = match name_of(alloc, name) {
        Ok(name) => name,
        Err(e) => return Err(e),
    };
    Ok(CertificationRequestInfo::new(
        CERTIFICATION_REQUEST_INFO_VERSION_V1,
        &subject,
        key,
        attributes,
    ))
}

/// Returns the encoding of the attributes of a request that asks for these extensions: one
/// attribute, whose only value they are (RFC 2985 section 5.4.2). `Attributes::from_der` reads
/// it.
///
/// # Errors
/// `ErrorKind::Overflow` (9) for more than 4294967295 octets; `ErrorKind::Memory` (1) if memory
/// runs out.
pub fn extension_request<'a>(alloc: Global, extensions: &Extensions<'a>) -> Result<Vec<u8>, Error>
    ensures { IfOk result (λ octets. octets.items
        ≡ attributes_octets (⟦<Extensions<'a> as Form>⟧.encoding extensions.now)) }
{
    let value = extensions.to_der(alloc)?;
    let attribute = asking_for(alloc, value.as_slice())?;
    match UnorderedSetRef::new(alloc, attribute.as_slice()) {
        Ok(items) => Attributes::new(items).to_der(alloc),
        Err(e) => Err(e),
    }
}

/// Returns the encoding of the attribute with which a request asks for extensions with this
/// encoding.
fn asking_for(alloc: Global, extensions: &[u8]) -> Result<Vec<u8>, Error>
    ensures { IfOk result (λ octets. octets.items ≡ attribute_octets extensions.now) }
{
    let type_ = match ObjectIdentifierRef::from_bytes(&PKCS_9_AT_EXTENSION_REQUEST) {
        Ok(type_) => type_,
        Err(e) => return Err(e),
    };
    match UnorderedSetRef::new(alloc, extensions) {
        Ok(values) => Attribute::new(type_, &values).to_der(alloc),
        Err(e) => Err(e),
    }
}

/// Reads the name from these octets.
fn name_of<'a>(alloc: Global, octets: &'a [u8]) -> Result<Name<'a>, Error>
    ensures { IfOk result (λ name. ⟦<Name<'a> as Form>⟧.encoding name ≡ octets.now) }
{
    Name::from_der(alloc, octets)
}
