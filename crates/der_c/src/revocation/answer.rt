//! What an answer of OCSP that stands in octets says of a certificate (RFC 6960 sections 3.2 and
//! 4.2.2.2).

ghost use Rattle.std.specs.Prelude.{◌≡◌, IfErr, IfOk};
ghost use Rattle.der_c.specs.OcspStatuses.{key_hash_octets, ocsp_status_at, AnswersOcspAt, HasAnswer, RefusesAnswer, WritesAnswer, WritesNoAnswer};

use crate::bits::number_of_flag;
use crate::fault::{Fault, SHORT_ROOM, refuse_call};
use crate::revocation::inputs::{OcspInputs, OcspParts, ocsp_parts};
use crate::revocation::numbers::{number_of_status, reason_of_status, revoked_at};
use crate::revocation::refusal::{StatusRefusal, memory_ran_out, no_status, refusal_of_answer};
use crate::revocation::responders::{ResponderAt, responders_at};
use crate::times::{general_seconds, general_seconds_or_none};
use der_path::{OcspStatus, ocsp_status};
use std::alloc::Global;

/// What an answer says of a certificate.
#[repr(C)]
#[derive(Clone, Copy, Debug, PartialEq, Eq)]
pub struct OcspStatusAt {
    /// `thisUpdate`, in seconds from 1970-01-01T00:00:00Z.
    pub this_update: u64,
    /// `nextUpdate`, or 0 if it is absent.
    pub next_update: u64,
    /// `revocationTime` if the certificate is revoked, else 0.
    pub revocation_time: u64,
    /// The number of those who may have signed the answer.
    pub responder_count: u64,
    /// The number of octets of the hash of the responder's key.
    pub key_hash_len: u64,
    /// `certStatus`: 0 for good, 1 for revoked, 2 for unknown.
    pub status: u32,
    /// The number of the reason if the certificate is revoked; 0, unspecified, if there is none.
    pub reason: u32,
    /// Whether the answer names its responder by the hash of a key: 1 or 0.
    pub has_key_hash: u32,
    /// The number of the step that refuses the answer, or 0.
    pub step: u32,
}

/// What an answer says of a certificate, and who may have signed it.
#[derive(Drop)]
pub struct FoundAnswer<'a> {
    /// What the answer says.
    pub status: OcspStatus<'a>,
    /// Who may have signed it, as it is written.
    pub responders: Vec<ResponderAt>,
}

/// Says what an answer of OCSP tells of a certificate by RFC 6960 sections 3.2 and 4.2.2.2.
///
/// Returns 0 if the answer tells the status, provided that the signature of tbsResponseData verifies
/// with the key of one of `responders`: the issuer of the certificate, or a certificate of the
/// answer whose own signature verifies with the issuer's key. `key_hash` has what the SHA-1 hash of
/// that key has to be, if `has_key_hash` is 1.
///
/// Else returns 108 if a step refuses the answer; 100 for a byte range that is not within the
/// octets; the number of the first error of what is read at one, whose position counts from the
/// start of all octets; 1 if memory runs out; or 103 if one of the buffers is too short. The buffers
/// are then unchanged. `told` is always written.
#[unsafe(no_mangle)]
pub extern "C" fn der_ocsp_status<'a>(
    alloc: Global,
    octets: &'a [u8],
    inputs: &OcspInputs,
    responders: &mut [ResponderAt],
    key_hash: &mut [u8],
    told: &mut OcspStatusAt,
    fault: &mut Fault,
) -> u32
    ensures { AnswersOcspAt octets.now inputs.now responders.old responders.new
        key_hash.old key_hash.new told.new fault.old fault.new result }
{
    match status_by_answer(alloc, octets, inputs) {
        Ok(found) => write_answer(&found, responders, key_hash, told, fault),
        Err(refusal) => refuse_answer(refusal, told, fault),
    }
}

/// Returns what the answer at a byte range says.
fn status_by_answer<'a>(
    alloc: Global,
    octets: &'a [u8],
    at: &OcspInputs,
) -> Result<FoundAnswer<'a>, StatusRefusal>
    ensures ok { IfOk result (λ found. HasAnswer octets.now at.now found) }
    ensures err { IfErr result (λ refusal. RefusesAnswer octets.now at.now refusal) }
{
    let parts = match ocsp_parts(alloc, octets, at) {
        Ok(parts) => parts,
        Err(fault) => return Err(no_status(fault)),
    };
    match ocsp_status(alloc, &parts.answer, &parts.issuer, parts.hashes, at.moment) {
        Ok(status) => match responders_at(alloc, &status.responders) {
            Ok(responders) => Ok(FoundAnswer { status, responders }),
            Err(_error) => Err(memory_ran_out()),
        },
        Err(error) => Err(refusal_of_answer(error)),
    }
}

/// Writes what an answer says.
fn write_answer(
    found: &FoundAnswer<'_>,
    responders: &mut [ResponderAt],
    key_hash: &mut [u8],
    told: &mut OcspStatusAt,
    fault: &mut Fault,
) -> u32
    ensures { WritesAnswer found.now responders.old responders.new key_hash.old key_hash.new told.new fault.old fault.new result }
{
    let hash = key_hash_octets(&found.status);
    *told = ocsp_status_at(&found.status);
    let (count, length) = (found.responders.len(), hash.len());
    if responders.len() < count || key_hash.len() < length {
        return refuse_call(SHORT_ROOM, fault);
    }
    responders[..count].copy_from_slice(&found.responders);
    key_hash[..length].copy_from_slice(hash);
    0
}

/// Returns what an answer says, as it is written.
fn ocsp_status_at(status: &OcspStatus<'_>) -> OcspStatusAt
    ensures { result ≡ ocsp_status_at status.now }
{
    OcspStatusAt {
        this_update: general_seconds(status.this_update),
        next_update: general_seconds_or_none(status.next_update),
        revocation_time: revoked_at(status.status),
        responder_count: status.responders.len() as u64,
        key_hash_len: key_hash_octets(status).len() as u64,
        status: number_of_status(status.status),
        reason: reason_of_status(status.status),
        has_key_hash: number_of_flag(status.key_hash.is_some()),
        step: 0,
    }
}

/// Returns the hash of the responder's key, or no octets if the answer names it otherwise.
fn key_hash_octets<'a>(status: &OcspStatus<'a>) -> &'a [u8]
    ensures { result.now ≡ key_hash_octets status.now }
{
    match status.key_hash {
        Some(octets) => octets,
        None => &[],
    }
}

/// Writes why an answer says nothing, and returns the number of the error.
fn refuse_answer(refusal: StatusRefusal, told: &mut OcspStatusAt, fault: &mut Fault) -> u32
    ensures { WritesNoAnswer refusal told.new fault.new result }
{
    *told = OcspStatusAt {
        this_update: 0,
        next_update: 0,
        revocation_time: 0,
        responder_count: 0,
        key_hash_len: 0,
        status: 0,
        reason: 0,
        has_key_hash: 0,
        step: refusal.step,
    };
    *fault = refusal.fault;
    refusal.fault.number
}
