//! Time stamps.

ghost use Rattle.der_c.specs.Answers.{AnswersPlaces};

use crate::fault::Fault;
use crate::message::read_message;
use der_elem::Form;
use der_places::Placed;
use der_places::time_stamp::{
    AccuracyPlaces, MessageImprintPlaces, PkiStatusInfoPlaces, TimeStampReqPlaces,
    TimeStampRespPlaces, TstInfoPlaces,
};
use der_time_stamp::time_stamp::{
    Accuracy, MessageImprint, PkiStatusInfo, TimeStampReq, TimeStampResp, TstInfo,
};
use std::alloc::Global;

/// Reads all octets as a TimeStampReq (RFC 3161 2.4.1), and writes the byte ranges of its fields.
///
/// Returns 0, or the number of the first error; `out` is then unchanged.
#[unsafe(no_mangle)]
pub extern "C" fn der_time_stamp_req<'a>(
    alloc: Global,
    octets: &'a [u8],
    out: &mut TimeStampReqPlaces,
    fault: &mut Fault,
) -> u32
    ensures { AnswersPlaces ⟦<TimeStampReq<'a> as Form>⟧ ⟦<TimeStampReq<'a> as Placed>⟧.layout ⟦<TimeStampReq<'a> as Placed>⟧.listed
        octets.now out.old out.new fault.old fault.new result }
{
    read_message::<TimeStampReqPlaces, TimeStampReq<'a>>(alloc, octets, out, fault)
}

/// Reads all octets as a MessageImprint (RFC 3161 2.4.1), and writes the byte ranges of its fields.
///
/// Returns 0, or the number of the first error; `out` is then unchanged.
#[unsafe(no_mangle)]
pub extern "C" fn der_message_imprint<'a>(
    alloc: Global,
    octets: &'a [u8],
    out: &mut MessageImprintPlaces,
    fault: &mut Fault,
) -> u32
    ensures { AnswersPlaces ⟦<MessageImprint<'a> as Form>⟧ ⟦<MessageImprint<'a> as Placed>⟧.layout ⟦<MessageImprint<'a> as Placed>⟧.listed
        octets.now out.old out.new fault.old fault.new result }
{
    read_message::<MessageImprintPlaces, MessageImprint<'a>>(alloc, octets, out, fault)
}

/// Reads all octets as a TimeStampResp (RFC 3161 2.4.2), and writes the byte ranges of its fields.
///
/// Returns 0, or the number of the first error; `out` is then unchanged.
#[unsafe(no_mangle)]
pub extern "C" fn der_time_stamp_resp<'a>(
    alloc: Global,
    octets: &'a [u8],
    out: &mut TimeStampRespPlaces,
    fault: &mut Fault,
) -> u32
    ensures { AnswersPlaces ⟦<TimeStampResp<'a> as Form>⟧ ⟦<TimeStampResp<'a> as Placed>⟧.layout ⟦<TimeStampResp<'a> as Placed>⟧.listed
        octets.now out.old out.new fault.old fault.new result }
{
    read_message::<TimeStampRespPlaces, TimeStampResp<'a>>(alloc, octets, out, fault)
}

/// Reads all octets as a PKIStatusInfo (RFC 3161 2.4.2), and writes the byte ranges of its fields.
///
/// Returns 0, or the number of the first error; `out` is then unchanged.
#[unsafe(no_mangle)]
pub extern "C" fn der_pki_status_info<'a>(
    alloc: Global,
    octets: &'a [u8],
    out: &mut PkiStatusInfoPlaces,
    fault: &mut Fault,
) -> u32
    ensures { AnswersPlaces ⟦<PkiStatusInfo<'a> as Form>⟧ ⟦<PkiStatusInfo<'a> as Placed>⟧.layout ⟦<PkiStatusInfo<'a> as Placed>⟧.listed
        octets.now out.old out.new fault.old fault.new result }
{
    read_message::<PkiStatusInfoPlaces, PkiStatusInfo<'a>>(alloc, octets, out, fault)
}

/// Reads all octets as a TSTInfo (RFC 3161 2.4.2), and writes the byte ranges of its fields.
///
/// Returns 0, or the number of the first error; `out` is then unchanged.
#[unsafe(no_mangle)]
pub extern "C" fn der_tst_info<'a>(
    alloc: Global,
    octets: &'a [u8],
    out: &mut TstInfoPlaces,
    fault: &mut Fault,
) -> u32
    ensures { AnswersPlaces ⟦<TstInfo<'a> as Form>⟧ ⟦<TstInfo<'a> as Placed>⟧.layout ⟦<TstInfo<'a> as Placed>⟧.listed
        octets.now out.old out.new fault.old fault.new result }
{
    read_message::<TstInfoPlaces, TstInfo<'a>>(alloc, octets, out, fault)
}

/// Reads all octets as an Accuracy (RFC 3161 2.4.2), and writes the byte ranges of its fields.
///
/// Returns 0, or the number of the first error; `out` is then unchanged.
#[unsafe(no_mangle)]
pub extern "C" fn der_accuracy<'a>(
    alloc: Global,
    octets: &'a [u8],
    out: &mut AccuracyPlaces,
    fault: &mut Fault,
) -> u32
    ensures { AnswersPlaces ⟦<Accuracy as Form>⟧ ⟦<Accuracy as Placed>⟧.layout ⟦<Accuracy as Placed>⟧.listed
        octets.now out.old out.new fault.old fault.new result }
{
    read_message::<AccuracyPlaces, Accuracy>(alloc, octets, out, fault)
}
