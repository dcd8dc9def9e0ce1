//! Identifiers of certificates in messages, compared with a certificate.

ghost use Rattle.std.specs.Prelude.{◌≡◌, ◌&&◌, List};
ghost use Rattle.der_cms.specs.Cms.IssuerAndSerialNumber as named_fields;
ghost use Rattle.der_pkix.specs.Certificate.Certificate as certificate_fields;
ghost use Rattle.der_pkix.specs.Certificate.TbsCertificate as tbs_fields;
ghost use Rattle.der_pkix.specs.declared.name.attribute_type_and_value.AttributeTypeAndValue.{AttributeTypeAndValue};
ghost use Rattle.der_verify.specs.Names.{AreParts, same_name};
ghost use Rattle.der_c.specs.Answers.{Answers, AnswersPair};
ghost use Rattle.der_c.specs.Bits.{bit};
ghost use Rattle.der_c.specs.Comparing.{has_hashes, same_serial};

use crate::bits::number_of_flag;
use crate::fault::{Fault, refuse};
use der_cms::cms::IssuerAndSerialNumber;
use der_elem::{Form, FromDer};
use der_ocsp::ocsp::CertId;
use der_pkix::certificate::Certificate;
use der_pkix::name::{AttributeTypeAndValue, RelativeDistinguishedName};
use der_verify::names_match;
use std::alloc::Global;

/// Reads all octets as a CertID (RFC 6960 4.1.1), and writes 1 if it has these hash values of the
/// issuer's name and key, and this serial number in contents octets, else 0. Its hash algorithm is
/// not compared.
///
/// Returns 0, or the number of the first error; `out` is then unchanged.
#[unsafe(no_mangle)]
pub extern "C" fn der_cert_id_is<'a>(
    alloc: Global,
    octets: &'a [u8],
    name_hash: &[u8],
    key_hash: &[u8],
    serial: &[u8],
    out: &mut u32,
    fault: &mut Fault,
) -> u32
    ensures { Answers ⟦<CertId<'a> as Form>⟧ octets.now
        (λ v n. n ≡ bit (has_hashes name_hash.now key_hash.now serial.now v))
        out.old out.new fault.old fault.new result }
{
    match CertId::from_der(alloc, octets) {
        Ok(value) => {
            *out = number_of_flag(has_hashes(&value, name_hash, key_hash, serial));
            0
        }
        Err(error) => refuse(error, fault),
    }
}

/// Returns whether a CertID has these hash values and this serial number.
fn has_hashes(value: &CertId<'_>, name_hash: &[u8], key_hash: &[u8], serial: &[u8]) -> bool
    ensures { result ≡ has_hashes name_hash.now key_hash.now serial.now value.now }
{
    value.issuer_name_hash().as_bytes() == name_hash
        && value.issuer_key_hash().as_bytes() == key_hash
        && value.serial_number().as_bytes() == serial
}

/// Reads all octets of the first input as an IssuerAndSerialNumber (RFC 5652 10.2.4), and all of
/// the second as a certificate, and writes 1 if the first names the second, else 0: the issuers
/// match (RFC 5280 7.1), and the serial numbers are equal.
///
/// Returns 0; or the number of the first error of `octets`, or of `certificate` if `octets` has
/// none, and `out` is unchanged.
#[unsafe(no_mangle)]
pub extern "C" fn der_issuer_and_serial_number_is<'a>(
    alloc: Global,
    octets: &'a [u8],
    certificate: &'a [u8],
    out: &mut u32,
    fault: &mut Fault,
) -> u32
    ensures { AnswersPair ⟦<IssuerAndSerialNumber<'a> as Form>⟧ ⟦<Certificate<'a> as Form>⟧ octets.now certificate.now
        (λ v c n. (parts others : List (List AttributeTypeAndValue))
        → AreParts ⟦<RelativeDistinguishedName<'a> as Form>⟧ ⟦<AttributeTypeAndValue<'a> as Form>⟧ (named_fields.issuer v) parts
        → AreParts ⟦<RelativeDistinguishedName<'a> as Form>⟧ ⟦<AttributeTypeAndValue<'a> as Form>⟧ (tbs_fields.issuer (certificate_fields.tbs_certificate c)) others
        → n ≡ bit (same_name parts others && same_serial v c))
        out.old out.new fault.old fault.new result }
{
    let named = match IssuerAndSerialNumber::from_der(alloc, octets) {
        Ok(named) => named,
        Err(error) => return refuse(error, fault),
    };
    let of = match Certificate::from_der(alloc, certificate) {
        Ok(of) => of,
        Err(error) => return refuse(error, fault),
    };
    *out = number_of_flag(names(alloc, &named, &of));
    0
}

/// Returns whether an IssuerAndSerialNumber names a certificate.
fn names<'a>(alloc: Global, named: &IssuerAndSerialNumber<'a>, of: &Certificate<'a>) -> bool
    ensures { (parts others : List (List AttributeTypeAndValue))
        → AreParts ⟦<RelativeDistinguishedName<'a> as Form>⟧ ⟦<AttributeTypeAndValue<'a> as Form>⟧ (named_fields.issuer named.now) parts
        → AreParts ⟦<RelativeDistinguishedName<'a> as Form>⟧ ⟦<AttributeTypeAndValue<'a> as Form>⟧ (tbs_fields.issuer (certificate_fields.tbs_certificate of.now)) others
        → result ≡ (same_name parts others && same_serial named.now of.now) }
{
    let certificate = of.tbs_certificate();
    names_match(alloc, named.issuer(), certificate.issuer())
        && named.serial_number().as_bytes() == certificate.serial_number().as_bytes()
}
