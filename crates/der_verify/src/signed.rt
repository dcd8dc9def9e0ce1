//! The octets that a signature covers (RFC 5280 4.1.1.3 and 5.1.1.3): the encoding of the first
//! field of a message, as it came.
//!
//! In a certificate 30 82 .. 30 82 .. they begin at the second 30, and end where the algorithm
//! begins.

ghost use Rattle.std.specs.Prelude.{◌≡◌, ◌<◌, ◌^◌, List, ℕ, length, IsOkAnd};
ghost use Rattle.der_tlv.specs.declared.encoding_rules.EncodingRules.TheVariants.{Der};
ghost use Rattle.der_tlv.specs.declared.tag.Tag.{Tag};
ghost use Rattle.der_tlv.specs.HeaderOctets.{tlv};
ghost use Rattle.der_pkix.specs.declared.certificate.certificate.Certificate.{Certificate};
ghost use Rattle.der_pkix.specs.declared.crl.certificate_list.CertificateList.{CertificateList};
ghost use Rattle.der_pkix.specs.Certificate.Certificate as certificate_fields;
ghost use Rattle.der_pkix.specs.Crl.CertificateList as certificate_list_fields;
ghost use Rattle.der_ocsp.specs.declared.ocsp.basic_ocsp_response.BasicOcspResponse.{BasicOcspResponse};
ghost use Rattle.der_ocsp.specs.Ocsp.BasicOcspResponse as answer_fields;
ghost use Rattle.der_pkcs.specs.declared.request.certification_request.CertificationRequest.{CertificationRequest};
ghost use Rattle.der_pkcs.specs.Request.CertificationRequest as request_fields;
ghost use Rattle.der_verify.specs.Signed.{BeginsWith, HasFirst, ReadsFirst};

use der_elem::Form;
use der_ocsp::ocsp::{BasicOcspResponse, ResponseData};
use der_pkcs::request::{CertificationRequest, CertificationRequestInfo};
use der_pkix::certificate::{Certificate, TbsCertificate};
use der_pkix::crl::{CertificateList, TbsCertList};
use der_tlv::{Error, Header, Reader, SliceReader};

/// Returns the encoding at the front of the octets, and its contents octets.
fn front<'a>(octets: &'a [u8]) -> Result<(&'a [u8], &'a [u8]), Error>
    ensures { (t : Tag) → (c others : List ℕ) → BeginsWith octets.now t c others
        → IsOkAnd result (λ found. (found.0.now ≡ tlv t c) × (found.1.now ≡ c)) }
{
    let mut reader = match SliceReader::new(octets) {
        Ok(reader) => reader,
        Err(e) => return Err(e),
    };
    let header = match Header::decode(&mut reader) {
        Ok(header) => header,
        Err(e) => return Err(e),
    };
    let contents = match reader.read_slice(header.length) {
        Ok(contents) => contents,
        Err(e) => return Err(e),
    };
    let end = reader.position().value() as usize;
    match octets.get(..end) {
        Some(whole) => Ok((whole, contents)),
        None => Err(reader.error(header.tag.length_error())),
    }
}

/// Returns the first encoding in the contents octets of an encoding, as it came: the first field
/// of a SEQUENCE.
pub fn first_field<'a>(octets: &'a [u8]) -> Result<&'a [u8], Error>
    ensures { (t u : Tag) → (c others : List ℕ) → HasFirst octets.now t u c others
        → IsOkAnd result (λ found. found.now ≡ tlv u c) }
{
    let contents = match front(octets) {
        Ok((_, contents)) => contents,
        Err(e) => return Err(e),
    };
    match front(contents) {
        Ok((whole, _)) => Ok(whole),
        Err(e) => Err(e),
    }
}

/// Returns the octets that the signature of a certificate covers, as a slice of its octets: the
/// encoding of tbsCertificate (RFC 5280 4.1.1.3). For octets that are no certificate, the result
/// may be any octets; `from_der` checks that they are one.
///
/// # Errors
/// The first error in the two headers; `ErrorKind::Overflow` (9) for more than 4294967295 octets.
pub fn octets_of_tbs_certificate<'a>(octets: &'a [u8]) -> Result<&'a [u8], Error>
    ensures read { (v : Certificate) → ⟦<Certificate<'a> as Form>⟧.accepts Der v octets.now → length octets.now < 2 ^ 32
        → IsOkAnd result (λ signed. ReadsFirst (⟦<TbsCertificate<'a> as Form>⟧.accepts Der (certificate_fields.tbs_certificate v)) octets.now signed.now) }
    ensures canonical { (v : Certificate) → octets.now ≡ ⟦<Certificate<'a> as Form>⟧.encoding v → length octets.now < 2 ^ 32
        → IsOkAnd result (λ signed. signed.now ≡ ⟦<TbsCertificate<'a> as Form>⟧.encoding (certificate_fields.tbs_certificate v)) }
{
    first_field(octets)
}

/// Returns the octets that the signature of a list of revoked certificates covers: the encoding
/// of tbsCertList (RFC 5280 5.1.1.3).
///
/// # Errors
/// The errors of `octets_of_tbs_certificate`.
pub fn octets_of_tbs_cert_list<'a>(octets: &'a [u8]) -> Result<&'a [u8], Error>
    ensures read { (v : CertificateList) → ⟦<CertificateList<'a> as Form>⟧.accepts Der v octets.now → length octets.now < 2 ^ 32
        → IsOkAnd result (λ signed. ReadsFirst (⟦<TbsCertList<'a> as Form>⟧.accepts Der (certificate_list_fields.tbs_cert_list v)) octets.now signed.now) }
    ensures canonical { (v : CertificateList) → octets.now ≡ ⟦<CertificateList<'a> as Form>⟧.encoding v → length octets.now < 2 ^ 32
        → IsOkAnd result (λ signed. signed.now ≡ ⟦<TbsCertList<'a> as Form>⟧.encoding (certificate_list_fields.tbs_cert_list v)) }
{
    first_field(octets)
}

/// Returns the octets that the signature of a request for a certificate covers: the encoding of
/// certificationRequestInfo (RFC 2986 4.2).
///
/// # Errors
/// The errors of `octets_of_tbs_certificate`.
pub fn octets_of_certification_request_info<'a>(octets: &'a [u8]) -> Result<&'a [u8], Error>
    ensures read { (v : CertificationRequest) → ⟦<CertificationRequest<'a> as Form>⟧.accepts Der v octets.now → length octets.now < 2 ^ 32
        → IsOkAnd result (λ signed. ReadsFirst (⟦<CertificationRequestInfo<'a> as Form>⟧.accepts Der (request_fields.certification_request_info v)) octets.now signed.now) }
    ensures canonical { (v : CertificationRequest) → octets.now ≡ ⟦<CertificationRequest<'a> as Form>⟧.encoding v → length octets.now < 2 ^ 32
        → IsOkAnd result (λ signed. signed.now ≡ ⟦<CertificationRequestInfo<'a> as Form>⟧.encoding (request_fields.certification_request_info v)) }
{
    first_field(octets)
}

/// Returns the octets that the signature of an OCSP response covers: the encoding of
/// tbsResponseData (RFC 6960 4.2.1).
///
/// # Errors
/// The errors of `octets_of_tbs_certificate`.
pub fn octets_of_tbs_response_data<'a>(octets: &'a [u8]) -> Result<&'a [u8], Error>
    ensures read { (v : BasicOcspResponse) → ⟦<BasicOcspResponse<'a> as Form>⟧.accepts Der v octets.now → length octets.now < 2 ^ 32
        → IsOkAnd result (λ signed. ReadsFirst (⟦<ResponseData<'a> as Form>⟧.accepts Der (answer_fields.tbs_response_data v)) octets.now signed.now) }
    ensures canonical { (v : BasicOcspResponse) → octets.now ≡ ⟦<BasicOcspResponse<'a> as Form>⟧.encoding v → length octets.now < 2 ^ 32
        → IsOkAnd result (λ signed. signed.now ≡ ⟦<ResponseData<'a> as Form>⟧.encoding (answer_fields.tbs_response_data v)) }
{
    first_field(octets)
}
