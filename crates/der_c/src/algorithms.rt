//! Algorithms and their parameters.

ghost use Rattle.der_c.specs.Answers.{AnswersPlaces};

use crate::fault::Fault;
use crate::message::read_message;
use der_elem::Form;
use der_pkcs::algorithm::{EcdsaSigValue, RsassaPssParams};
use der_pkcs::encryption::{Pbes2Params, Pbkdf2Params};
use der_pkix::AlgorithmIdentifier;
use der_places::algorithm::{EcdsaSigValuePlaces, RsassaPssParamsPlaces};
use der_places::encryption::{Pbes2ParamsPlaces, Pbkdf2ParamsPlaces};
use der_places::{AlgorithmIdentifierPlaces, Placed};
use std::alloc::Global;

/// Reads all octets as an AlgorithmIdentifier (RFC 5280 4.1.1.2), and writes the byte ranges of
/// its fields.
///
/// Returns 0, or the number of the first error; `out` is then unchanged.
#[unsafe(no_mangle)]
pub extern "C" fn der_algorithm_identifier<'a>(
    alloc: Global,
    octets: &'a [u8],
    out: &mut AlgorithmIdentifierPlaces,
    fault: &mut Fault,
) -> u32
    ensures { AnswersPlaces ⟦<AlgorithmIdentifier<'a> as Form>⟧ ⟦<AlgorithmIdentifier<'a> as Placed>⟧.layout ⟦<AlgorithmIdentifier<'a> as Placed>⟧.listed
        octets.now out.old out.new fault.old fault.new result }
{
    read_message::<AlgorithmIdentifierPlaces, AlgorithmIdentifier<'a>>(alloc, octets, out, fault)
}

/// Reads all octets as an RSASSA-PSS-params (RFC 4055 3.1), and writes the byte ranges of its
/// fields.
///
/// Returns 0, or the number of the first error; `out` is then unchanged.
#[unsafe(no_mangle)]
pub extern "C" fn der_rsassa_pss_params<'a>(
    alloc: Global,
    octets: &'a [u8],
    out: &mut RsassaPssParamsPlaces,
    fault: &mut Fault,
) -> u32
    ensures { AnswersPlaces ⟦<RsassaPssParams<'a> as Form>⟧ ⟦<RsassaPssParams<'a> as Placed>⟧.layout ⟦<RsassaPssParams<'a> as Placed>⟧.listed
        octets.now out.old out.new fault.old fault.new result }
{
    read_message::<RsassaPssParamsPlaces, RsassaPssParams<'a>>(alloc, octets, out, fault)
}

/// Reads all octets as an ECDSA-Sig-Value (RFC 3279 2.2.3), and writes the byte ranges of its
/// fields.
///
/// Returns 0, or the number of the first error; `out` is then unchanged.
#[unsafe(no_mangle)]
pub extern "C" fn der_ecdsa_sig_value<'a>(
    alloc: Global,
    octets: &'a [u8],
    out: &mut EcdsaSigValuePlaces,
    fault: &mut Fault,
) -> u32
    ensures { AnswersPlaces ⟦<EcdsaSigValue<'a> as Form>⟧ ⟦<EcdsaSigValue<'a> as Placed>⟧.layout ⟦<EcdsaSigValue<'a> as Placed>⟧.listed
        octets.now out.old out.new fault.old fault.new result }
{
    read_message::<EcdsaSigValuePlaces, EcdsaSigValue<'a>>(alloc, octets, out, fault)
}

/// Reads all octets as a PBES2-params (RFC 8018 A.4), and writes the byte ranges of its fields.
///
/// Returns 0, or the number of the first error; `out` is then unchanged.
#[unsafe(no_mangle)]
pub extern "C" fn der_pbes2_params<'a>(
    alloc: Global,
    octets: &'a [u8],
    out: &mut Pbes2ParamsPlaces,
    fault: &mut Fault,
) -> u32
    ensures { AnswersPlaces ⟦<Pbes2Params<'a> as Form>⟧ ⟦<Pbes2Params<'a> as Placed>⟧.layout ⟦<Pbes2Params<'a> as Placed>⟧.listed
        octets.now out.old out.new fault.old fault.new result }
{
    read_message::<Pbes2ParamsPlaces, Pbes2Params<'a>>(alloc, octets, out, fault)
}

/// Reads all octets as a PBKDF2-params (RFC 8018 A.2), and writes the byte ranges of its fields.
///
/// Returns 0, or the number of the first error; `out` is then unchanged.
#[unsafe(no_mangle)]
pub extern "C" fn der_pbkdf2_params<'a>(
    alloc: Global,
    octets: &'a [u8],
    out: &mut Pbkdf2ParamsPlaces,
    fault: &mut Fault,
) -> u32
    ensures { AnswersPlaces ⟦<Pbkdf2Params<'a> as Form>⟧ ⟦<Pbkdf2Params<'a> as Placed>⟧.layout ⟦<Pbkdf2Params<'a> as Placed>⟧.listed
        octets.now out.old out.new fault.old fault.new result }
{
    read_message::<Pbkdf2ParamsPlaces, Pbkdf2Params<'a>>(alloc, octets, out, fault)
}
