//! PKCS #12 files.

ghost use Rattle.der_c.specs.Answers.{AnswersPlaces};

use crate::fault::Fault;
use crate::message::read_message;
use der_elem::Form;
use der_pkcs::pkcs12::{CertBag, DigestInfo, MacData, Pfx, SafeBag};
use der_places::Placed;
use der_places::pkcs12::{
    CertBagPlaces, DigestInfoPlaces, MacDataPlaces, PfxPlaces, SafeBagPlaces,
};
use std::alloc::Global;

/// Reads all octets as a PFX (RFC 7292 section 4), and writes the byte ranges of its fields.
///
/// Returns 0, or the number of the first error; `out` is then unchanged.
#[unsafe(no_mangle)]
pub extern "C" fn der_pfx<'a>(
    alloc: Global,
    octets: &'a [u8],
    out: &mut PfxPlaces,
    fault: &mut Fault,
) -> u32
    ensures { AnswersPlaces ⟦<Pfx<'a> as Form>⟧ ⟦<Pfx<'a> as Placed>⟧.layout ⟦<Pfx<'a> as Placed>⟧.listed
        octets.now out.old out.new fault.old fault.new result }
{
    read_message::<PfxPlaces, Pfx<'a>>(alloc, octets, out, fault)
}

/// Reads all octets as a MacData (RFC 7292 section 4), and writes the byte ranges of its fields.
///
/// Returns 0, or the number of the first error; `out` is then unchanged.
#[unsafe(no_mangle)]
pub extern "C" fn der_mac_data<'a>(
    alloc: Global,
    octets: &'a [u8],
    out: &mut MacDataPlaces,
    fault: &mut Fault,
) -> u32
    ensures { AnswersPlaces ⟦<MacData<'a> as Form>⟧ ⟦<MacData<'a> as Placed>⟧.layout ⟦<MacData<'a> as Placed>⟧.listed
        octets.now out.old out.new fault.old fault.new result }
{
    read_message::<MacDataPlaces, MacData<'a>>(alloc, octets, out, fault)
}

/// Reads all octets as a DigestInfo (RFC 8017 9.2), and writes the byte ranges of its fields.
///
/// Returns 0, or the number of the first error; `out` is then unchanged.
#[unsafe(no_mangle)]
pub extern "C" fn der_digest_info<'a>(
    alloc: Global,
    octets: &'a [u8],
    out: &mut DigestInfoPlaces,
    fault: &mut Fault,
) -> u32
    ensures { AnswersPlaces ⟦<DigestInfo<'a> as Form>⟧ ⟦<DigestInfo<'a> as Placed>⟧.layout ⟦<DigestInfo<'a> as Placed>⟧.listed
        octets.now out.old out.new fault.old fault.new result }
{
    read_message::<DigestInfoPlaces, DigestInfo<'a>>(alloc, octets, out, fault)
}

/// Reads all octets as a SafeBag (RFC 7292 4.2), and writes the byte ranges of its fields.
///
/// Returns 0, or the number of the first error; `out` is then unchanged.
#[unsafe(no_mangle)]
pub extern "C" fn der_safe_bag<'a>(
    alloc: Global,
    octets: &'a [u8],
    out: &mut SafeBagPlaces,
    fault: &mut Fault,
) -> u32
    ensures { AnswersPlaces ⟦<SafeBag<'a> as Form>⟧ ⟦<SafeBag<'a> as Placed>⟧.layout ⟦<SafeBag<'a> as Placed>⟧.listed
        octets.now out.old out.new fault.old fault.new result }
{
    read_message::<SafeBagPlaces, SafeBag<'a>>(alloc, octets, out, fault)
}

/// Reads all octets as a CertBag (RFC 7292 4.2.3), and writes the byte ranges of its fields.
///
/// Returns 0, or the number of the first error; `out` is then unchanged.
#[unsafe(no_mangle)]
pub extern "C" fn der_cert_bag<'a>(
    alloc: Global,
    octets: &'a [u8],
    out: &mut CertBagPlaces,
    fault: &mut Fault,
) -> u32
    ensures { AnswersPlaces ⟦<CertBag<'a> as Form>⟧ ⟦<CertBag<'a> as Placed>⟧.layout ⟦<CertBag<'a> as Placed>⟧.listed
        octets.now out.old out.new fault.old fault.new result }
{
    read_message::<CertBagPlaces, CertBag<'a>>(alloc, octets, out, fault)
}
