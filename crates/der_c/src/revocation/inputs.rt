//! The inputs of the check of an answer of OCSP that stand in octets (RFC 6960 sections 3.2 and
//! 4.1.1).

ghost use Rattle.std.specs.Prelude.{IfErr, IfOk};
ghost use Rattle.der_c.specs.AnswerInputs.{HasHashes, HasOcspInputs, RefusesHashes, RefusesOcspInputs};

use crate::building::parts::octets_at;
use crate::fault::Fault;
use crate::path::there::value_there;
use der_ocsp::ocsp::BasicOcspResponse;
use der_path::CertificateHashes;
use der_pkix::name::Name;
use der_places::Place;
use std::alloc::Global;

/// The inputs of the check of an answer: a number, and byte ranges in octets.
#[repr(C)]
#[derive(Clone, Copy, Debug, PartialEq, Eq)]
pub struct OcspInputs {
    /// The moment, in seconds from 1970-01-01T00:00:00Z.
    pub moment: u64,
    /// The answer, a BasicOCSPResponse.
    pub answer: Place,
    /// The name of the certificate's issuer, a Name.
    pub issuer: Place,
    /// The contents octets of the identifier of the hash algorithm: 2B 0E 03 02 1A for SHA-1.
    pub algorithm: Place,
    /// The hash of the encoding of the issuer's name.
    pub name_hash: Place,
    /// The hash of the issuer's public key: of the octets of the BIT STRING.
    pub key_hash: Place,
    /// The contents octets of the certificate's serial number.
    pub serial: Place,
}

/// The inputs that are read from octets.
#[derive(Drop)]
pub struct OcspParts<'a> {
    /// The answer.
    pub answer: BasicOcspResponse<'a>,
    /// The name of the issuer.
    pub issuer: Name<'a>,
    /// The certificate, as a CertID names it.
    pub hashes: CertificateHashes<'a>,
}

/// Reads the inputs.
pub(crate) fn ocsp_parts<'a>(
    alloc: Global,
    octets: &'a [u8],
    at: &OcspInputs,
) -> Result<OcspParts<'a>, Fault>
    ensures ok { IfOk result (λ parts. HasOcspInputs octets.now at.now parts) }
    ensures err { IfErr result (λ fault. RefusesOcspInputs octets.now at.now fault) }
{
    let answer = match value_there::<BasicOcspResponse<'a>>(alloc, octets, at.answer) {
        Ok(answer) => answer,
        Err(fault) => return Err(fault),
    };
    let issuer = match value_there::<Name<'a>>(alloc, octets, at.issuer) {
        Ok(issuer) => issuer,
        Err(fault) => return Err(fault),
    };
    match hashes_at(octets, at) {
        Ok(hashes) => Ok(OcspParts {
            answer,
            issuer,
            hashes,
        }),
        Err(fault) => Err(fault),
    }
}

/// Returns the octets that name a certificate.
fn hashes_at<'a>(octets: &'a [u8], at: &OcspInputs) -> Result<CertificateHashes<'a>, Fault>
    ensures ok { IfOk result (λ hashes. HasHashes octets.now at.now hashes) }
    ensures err { IfErr result (λ fault. RefusesHashes octets.now at.now fault) }
{
    let algorithm = match octets_at(octets, at.algorithm) {
        Ok(own) => own,
        Err(fault) => return Err(fault),
    };
    let name_hash = match octets_at(octets, at.name_hash) {
        Ok(own) => own,
        Err(fault) => return Err(fault),
    };
    let key_hash = match octets_at(octets, at.key_hash) {
        Ok(own) => own,
        Err(fault) => return Err(fault),
    };
    match octets_at(octets, at.serial) {
        Ok(serial) => Ok(CertificateHashes {
            algorithm,
            name_hash,
            key_hash,
            serial,
        }),
        Err(fault) => Err(fault),
    }
}
