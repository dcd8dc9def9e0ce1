//! Versions and dates from numbers.

ghost use Rattle.std.specs.Prelude.{◌≡◌, IfErr, IfOk};
ghost use Rattle.der_ocsp.specs.Ocsp.OcspResponseStatus.{names_of_ocsp_response_status};
ghost use Rattle.der_c.specs.Numbers.{IsDate, IsDateIfGiven, IsGeneral, IsGeneralIfGiven, IsNamed, IsNoDate, IsNoVersion, IsUnnamed, IsVersionIfGiven};

use crate::fault::{Fault, fault_of};
use der_numbers::Enumeration;
use der_ocsp::ocsp::OcspResponseStatus;
use der_pkix::certificate::Time;
use der_time::{DateTime, GeneralizedTime};
use der_tlv::{Error, Tag};
use der_verify::time_at;
use std::time::Duration;

/// Returns a version.
pub(super) fn version_of(number: u64) -> Result<u8, Fault>
    ensures ok { IfOk result (λ version. version ≡ number) }
    ensures err { IfErr result (λ f. IsNoVersion number f) }
{
    if number > 255 {
        return Err(fault_of(Error::from_kind(Tag::Integer.value_error())));
    }
    Ok(number as u8)
}

/// Returns a version, or none for 0.
pub(super) fn version_if_given(number: u64) -> Result<Option<u8>, Fault>
    ensures ok { IfOk result (λ version. IsVersionIfGiven number version) }
    ensures err { IfErr result (λ f. IsNoVersion number f) }
{
    if number == 0 {
        return Ok(None);
    }
    match version_of(number) {
        Ok(version) => Ok(Some(version)),
        Err(fault) => Err(fault),
    }
}

/// Returns the date in this second, in the form that RFC 5280 requires.
pub(super) fn date_of(seconds: u64) -> Result<Time, Fault>
    ensures ok { IfOk result (λ t. IsDate seconds t) }
    ensures err { IfErr result (λ f. IsNoDate seconds f) }
{
    match general_of(seconds) {
        Ok(time) => Ok(time_at(time.to_date_time())),
        Err(fault) => Err(fault),
    }
}

/// Returns the date in this second, or none for 0.
pub(super) fn date_if_given(seconds: u64) -> Result<Option<Time>, Fault>
    ensures ok { IfOk result (λ t. IsDateIfGiven seconds t) }
    ensures err { IfErr result (λ f. IsNoDate seconds f) }
{
    if seconds == 0 {
        return Ok(None);
    }
    match date_of(seconds) {
        Ok(time) => Ok(Some(time)),
        Err(fault) => Err(fault),
    }
}

/// Returns the GeneralizedTime in this second.
pub(super) fn general_of(seconds: u64) -> Result<GeneralizedTime, Fault>
    ensures ok { IfOk result (λ t. IsGeneral seconds t) }
    ensures err { IfErr result (λ f. IsNoDate seconds f) }
{
    match DateTime::from_unix_duration(Duration::from_secs(seconds)) {
        Ok(date_time) => Ok(GeneralizedTime::from_date_time(date_time)),
        Err(error) => Err(fault_of(error)),
    }
}

/// Returns the GeneralizedTime in this second, or none for 0.
pub(super) fn general_if_given(seconds: u64) -> Result<Option<GeneralizedTime>, Fault>
    ensures ok { IfOk result (λ t. IsGeneralIfGiven seconds t) }
    ensures err { IfErr result (λ f. IsNoDate seconds f) }
{
    if seconds == 0 {
        return Ok(None);
    }
    match general_of(seconds) {
        Ok(time) => Ok(Some(time)),
        Err(fault) => Err(fault),
    }
}

/// Returns the status of an OCSP response with this number.
pub(super) fn status_of(number: i64) -> Result<OcspResponseStatus, Fault>
    ensures ok { IfOk result (λ status. IsNamed names_of_ocsp_response_status number status) }
    ensures err { IfErr result (λ f. IsUnnamed names_of_ocsp_response_status number f) }
{
    match OcspResponseStatus::of_number(number) {
        Some(status) => Ok(status),
        None => Err(fault_of(Error::from_kind(Tag::Enumerated.value_error()))),
    }
}
