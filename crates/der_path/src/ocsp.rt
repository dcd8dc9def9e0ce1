//! What an answer of OCSP says of a certificate (RFC 6960 sections 3.2 and 4.2.2.2).

ghost use Rattle.std.specs.Prelude.{◌≡◌, IfOk, option_map};
ghost use Rattle.std.specs.List.{list_any};
ghost use Rattle.der_time.specs.UnixTime.{unix_seconds};
ghost use Rattle.der_path.specs.Ocsp.{critical_fault, designated, is_after, is_named, is_of, is_ocsp_signing, issuer_responders, key_hash_of, may_answer, ocsp_answer, ocsp_time_fault, responders, responders_from, signs_answers, single_of, AnswersOcsp, Decides};

use crate::names::{Part, same_names};
use crate::ocsp_facts::{
    AnswerFacts, Delegate, DelegateFacts, Purpose, ResponderFacts, Single, answer_facts_of,
};
use crate::ocsp_step::OcspStep;
use crate::read_names::parts_of;
use der_extensions::extension::constants::ID_KP_OCSP_SIGNING;
use der_ocsp::ocsp::{BasicOcspResponse, CertStatus};
use der_pkix::name::Name;
use der_time::GeneralizedTime;
use der_verify::holds_at;
use std::alloc::{AllocError, Global};

/// A certificate as a CertID names it (4.1.1), with the hashes that the caller computes.
#[derive(Clone, Copy, Debug)]
pub struct CertificateHashes<'b> {
    /// The contents octets of the identifier of the hash's algorithm: 2B 0E 03 02 1A for SHA-1.
    pub algorithm: &'b [u8],
    /// The hash of the encoding of the issuer's name, as it stands in the certificate.
    pub name_hash: &'b [u8],
    /// The hash of the issuer's public key: of the octets of the BIT STRING subjectPublicKey,
    /// without tag, length and number of unused bits.
    pub key_hash: &'b [u8],
    /// The contents octets of the serial number.
    pub serial: &'b [u8],
}

/// What an answer says of a certificate, if it is signed by one of the responders.
#[derive(Drop)]
pub struct OcspStatus<'a> {
    /// Whether the certificate is good, revoked (with the time, and the reason if it is there) or
    /// unknown.
    pub status: CertStatus,
    /// thisUpdate: the status is known to be correct at this time.
    pub this_update: GeneralizedTime,
    /// nextUpdate: newer information is available at or before this time.
    pub next_update: Option<GeneralizedTime>,
    /// Who may have signed the answer: the signature of tbsResponseData has to verify with the key
    /// of one of these.
    pub responders: Vec<Responder>,
    /// If the answer names its responder by key: what the SHA-1 hash of the responder's public key
    /// has to be.
    pub key_hash: Option<&'a [u8]>,
}

/// Who may sign an answer (4.2.2.2).
#[derive(Clone, Copy, Debug, PartialEq, Eq)]
pub enum Responder {
    /// The issuer of the certificate.
    Issuer,
    /// The subject of the certificate of the answer (certs) at this index, whose own signature has
    /// to verify with the issuer's key.
    Certificate(usize),
}

/// Why an answer does not tell the status of a certificate.
#[derive(Clone, Copy, Debug, PartialEq, Eq)]
pub enum OcspError {
    /// Memory ran out.
    Memory,
    /// This step refuses the answer.
    Refused(OcspStep),
}

/// Returns what an answer says of a certificate whose issuer has this name. The moment is in
/// seconds from 1970-01-01T00:00:00Z.
///
/// A certificate of the answer may sign it if the issuer issued it, the moment is in its validity,
/// its extKeyUsage has id-kp-OCSPSigning, its keyUsage has digitalSignature or is absent, and no
/// extension is critical that RFC 5280 section 6.1 does not process.
///
/// Left to the caller: the signatures (3.2 (2)); the hash of the responder's key, if `key_hash` is
/// there; whether thisUpdate is sufficiently recent (3.2 (5)); and the revocation of a responder's
/// certificate without id-pkix-ocsp-nocheck (4.2.2.2.1).
///
/// # Errors
/// `OcspError::Refused` for the first step that refuses the answer; `OcspError::Memory` if memory
/// runs out.
pub fn ocsp_status<'a>(
    alloc: Global,
    answer: &BasicOcspResponse<'a>,
    issuer: &Name<'a>,
    certificate: CertificateHashes<'_>,
    moment: u64,
) -> Result<OcspStatus<'a>, OcspError>
    ensures { AnswersOcsp answer.now issuer.now certificate.entry moment result }
{
    let Ok(issuer) = parts_of(alloc, issuer) else {
        return Err(OcspError::Memory);
    };
    let Ok(facts) = answer_facts_of(alloc, answer) else {
        return Err(OcspError::Memory);
    };
    ocsp_answer(alloc, &issuer, &facts, certificate, moment)
}

/// Returns what an answer says of a certificate, by the facts of the answer.
fn ocsp_answer<'a>(
    alloc: Global,
    issuer: &[Part<'a>],
    facts: &AnswerFacts<'a>,
    certificate: CertificateHashes<'_>,
    moment: u64,
) -> Result<OcspStatus<'a>, OcspError>
    ensures { Decides (ocsp_answer issuer.now facts.now certificate.entry moment) result }
{
    let Some(single) = single_of(&facts.singles, certificate) else {
        return Err(OcspError::Refused(OcspStep::NotAnswered));
    };
    if let Some(step) = critical_fault(facts.has_critical, single) {
        return Err(OcspError::Refused(step));
    }
    if let Some(step) = ocsp_time_fault(single, moment) {
        return Err(OcspError::Refused(step));
    }
    let Ok(responders) = responders(alloc, issuer, facts, moment) else {
        return Err(OcspError::Memory);
    };
    if responders.len() == 0 {
        return Err(OcspError::Refused(OcspStep::NoResponder));
    }
    Ok(OcspStatus {
        status: single.status,
        this_update: single.this_update,
        next_update: single.next_update,
        responders,
        key_hash: key_hash_of(&facts.responder),
    })
}

/// Returns the first part of an answer that is about this certificate (3.2 (1)).
fn single_of<'a>(singles: &[Single<'a>], certificate: CertificateHashes<'_>) -> Option<Single<'a>>
    ensures { result ≡ single_of certificate.entry singles.now }
{
    let mut left = singles;
    'each: while let [single, others @ ..] = left {
        if is_of(*single, certificate) {
            return Some(*single);
        }
        left = others;
    }
    None
}

/// Returns whether a part of an answer is about this certificate.
fn is_of(single: Single<'_>, certificate: CertificateHashes<'_>) -> bool
    ensures { result ≡ is_of certificate.entry single.entry }
{
    single.algorithm == certificate.algorithm
        && single.name_hash == certificate.name_hash
        && single.key_hash == certificate.key_hash
        && single.serial == certificate.serial
}

/// Returns the step of section 4.4 that refuses an answer: one of its extensions is critical.
fn critical_fault(has_critical: bool, single: Single<'_>) -> Option<OcspStep>
    ensures { result ≡ critical_fault has_critical single.entry }
{
    if has_critical || single.has_critical {
        Some(OcspStep::CriticalExtension)
    } else {
        None
    }
}

/// Returns the first of the steps 3.2 (5) and (6) that refuses an answer.
fn ocsp_time_fault(single: Single<'_>, moment: u64) -> Option<OcspStep>
    ensures { result ≡ ocsp_time_fault single.entry moment }
{
    if moment < general_seconds(single.this_update) {
        Some(OcspStep::ThisUpdate)
    } else if is_after(moment, single.next_update) {
        Some(OcspStep::NextUpdate)
    } else {
        None
    }
}

/// Returns whether a moment is after a time, if it is there.
fn is_after(moment: u64, time: Option<GeneralizedTime>) -> bool
    ensures { result ≡ is_after moment time }
{
    match time {
        Some(time) => general_seconds(time) < moment,
        None => false,
    }
}

/// Returns the seconds from 1970-01-01T00:00:00Z, with no leap seconds.
fn general_seconds(time: GeneralizedTime) -> u64
    ensures { result ≡ unix_seconds time.date_time }
{
    time.to_date_time().unix_duration().as_secs()
}

/// Returns who may have signed an answer (4.2.2.2): the issuer first.
fn responders<'a>(
    alloc: Global,
    issuer: &[Part<'a>],
    facts: &AnswerFacts<'a>,
    moment: u64,
) -> Result<Vec<Responder>, AllocError>
    ensures { IfOk result (λ found. found.items ≡ responders issuer.now facts.now moment) }
{
    let found = issuer_responders(alloc, issuer, &facts.responder)?;
    responders_from(found, issuer, &facts.responder, moment, &facts.delegates)
}

/// Returns the issuer, if the answer may name it.
fn issuer_responders<'a>(
    alloc: Global,
    issuer: &[Part<'a>],
    responder: &ResponderFacts<'a>,
) -> Result<Vec<Responder>, AllocError>
    ensures { IfOk result (λ found. found.items ≡ issuer_responders issuer.now responder.now) }
{
    let mut found = Vec::new(alloc);
    if is_named(responder, issuer) {
        found.push(Responder::Issuer)?;
    }
    Ok(found)
}

/// Adds the certificates of an answer that may have signed it.
fn responders_from<'a>(
    known: Vec<Responder>,
    issuer: &[Part<'a>],
    responder: &ResponderFacts<'a>,
    moment: u64,
    delegates: &[Delegate<'a>],
) -> Result<Vec<Responder>, AllocError>
    ensures { IfOk result (λ found. found.items ≡ responders_from issuer.now responder.now moment known.items 0 delegates.now) }
{
    let mut found = known;
    let mut at = 0;
    let mut left = delegates;
    'each: while let [delegate, others @ ..] = left {
        if designated(delegate, issuer, responder, moment) {
            found.push(Responder::Certificate(at))?;
        }
        at += 1;
        left = others;
    }
    Ok(found)
}

/// Returns whether a certificate of an answer may sign it, and the answer may name it.
fn designated<'a>(
    delegate: &Delegate<'a>,
    issuer: &[Part<'a>],
    responder: &ResponderFacts<'a>,
    moment: u64,
) -> bool
    ensures { result ≡ designated issuer.now responder.now moment delegate.now }
{
    match delegate {
        Delegate::Read(facts) => is_named(responder, &facts.subject)
            && may_answer(facts, issuer, moment),
        Delegate::Unread => false,
    }
}

/// Returns whether the issuer designated a certificate to sign answers (4.2.2.2).
fn may_answer<'a>(facts: &DelegateFacts<'a>, issuer: &[Part<'a>], moment: u64) -> bool
    ensures { result ≡ may_answer issuer.now moment facts.now }
{
    same_names(&facts.issuer, issuer)
        && holds_at(facts.validity, moment)
        && signs_answers(&facts.purposes)
        && facts.signs
        && !facts.has_unknown_critical
}

/// Returns whether id-kp-OCSPSigning is one of some purposes.
fn signs_answers(purposes: &Option<Vec<Purpose<'_>>>) -> bool
    ensures { result ≡ signs_answers purposes.now }
{
    match purposes {
        Some(purposes) => one_is_ocsp_signing(purposes),
        None => false,
    }
}

/// Returns whether one of some purposes is id-kp-OCSPSigning.
fn one_is_ocsp_signing(purposes: &[Purpose<'_>]) -> bool
    ensures { result ≡ list_any is_ocsp_signing purposes.now }
{
    purposes.iter().any(|purpose| is_ocsp_signing(*purpose))
}

/// Returns whether a purpose is id-kp-OCSPSigning.
fn is_ocsp_signing(purpose: Purpose<'_>) -> bool
    ensures { result ≡ is_ocsp_signing purpose.entry }
{
    purpose.octets == ID_KP_OCSP_SIGNING.as_slice()
}

/// Returns whether an answer may name the one with this name: by this name, or by a key.
fn is_named(responder: &ResponderFacts<'_>, name: &[Part<'_>]) -> bool
    ensures { result ≡ is_named responder.now name.now }
{
    match responder {
        ResponderFacts::Name(parts) => same_names(parts, name),
        ResponderFacts::Key(_octets) => true,
    }
}

/// Returns the hash of the responder's key, if the answer names it so.
fn key_hash_of<'a>(responder: &ResponderFacts<'a>) -> Option<&'a [u8]>
    ensures { option_map (λ octets. octets.now) result ≡ key_hash_of responder.now }
{
    match responder {
        ResponderFacts::Name(_parts) => None,
        ResponderFacts::Key(octets) => Some(octets),
    }
}
