//! Values of one field: a number, a time, the named bits of a BIT STRING, the kind of a GeneralName.

ghost use Rattle.std.specs.Prelude.{◌≡◌};
ghost use Rattle.der_bits.specs.NamedBitsRef.{contents_of};
ghost use Rattle.der_c.specs.Answers.{Answers};
ghost use Rattle.der_c.specs.Bits.{named_flags, bits};
ghost use Rattle.der_c.specs.GeneralNames.{kind_of_name};
ghost use Rattle.der_c.specs.Times.{IsSecondOf, seconds_of};
ghost use Rattle.der_simple.specs.FractionalTimeRef.{octets_of};

use crate::bits::number_of_flags;
use crate::fault::{Fault, refuse};
use crate::times::{general_seconds, seconds};
use der_bits::NamedBitsRef;
use der_elem::{Form, FromDer};
use der_extensions::extension::GeneralName;
use der_pkix::certificate::Time;
use der_simple::FractionalTimeRef;
use std::alloc::Global;

/// Reads all octets as an INTEGER from 0 to 18446744073709551615 (X.690 8.3), and writes the
/// number.
///
/// Returns 0, or the number of the first error; `out` is then unchanged.
#[unsafe(no_mangle)]
pub extern "C" fn der_unsigned_integer(
    alloc: Global,
    octets: &[u8],
    out: &mut u64,
    fault: &mut Fault,
) -> u32
    ensures { Answers ⟦<u64 as Form>⟧ octets.now (λ v n. n ≡ v)
        out.old out.new fault.old fault.new result }
{
    match u64::from_der(alloc, octets) {
        Ok(value) => {
            *out = value;
            0
        }
        Err(error) => refuse(error, fault),
    }
}

/// Reads all octets as a Time (RFC 5280 4.1.2.5), a UTCTime or a GeneralizedTime, and writes the
/// seconds from 1970-01-01T00:00:00Z, with no leap seconds.
///
/// Returns 0, or the number of the first error; `out` is then unchanged.
#[unsafe(no_mangle)]
pub extern "C" fn der_time(alloc: Global, octets: &[u8], out: &mut u64, fault: &mut Fault) -> u32
    ensures { Answers ⟦<Time as Form>⟧ octets.now (λ v n. n ≡ seconds_of v)
        out.old out.new fault.old fault.new result }
{
    match Time::from_der(alloc, octets) {
        Ok(value) => {
            *out = seconds(value);
            0
        }
        Err(error) => refuse(error, fault),
    }
}

/// Reads all octets as a GeneralizedTime that may have a fraction of a second (X.690 11.7), such as
/// `genTime` of a time stamp, and writes the seconds from 1970-01-01T00:00:00Z, without the fraction.
///
/// Returns 0, or the number of the first error; `out` is then unchanged.
#[unsafe(no_mangle)]
pub extern "C" fn der_fractional_time<'a>(
    alloc: Global,
    octets: &'a [u8],
    out: &mut u64,
    fault: &mut Fault,
) -> u32
    ensures { Answers ⟦<FractionalTimeRef<'a> as Form>⟧ octets.now (λ v n. IsSecondOf (octets_of v) n)
        out.old out.new fault.old fault.new result }
{
    match FractionalTimeRef::from_der(alloc, octets) {
        Ok(value) => {
            *out = general_seconds(value.seconds());
            0
        }
        Err(error) => refuse(error, fault),
    }
}

/// Reads all octets as a BIT STRING with named bits (X.680 22.7), such as a KeyUsage, and writes
/// the bits 0 to 15: bit 0 as 1, bit 1 as 2, bit 2 as 4, and so on.
///
/// Returns 0, or the number of the first error; `out` is then unchanged.
#[unsafe(no_mangle)]
pub extern "C" fn der_named_bits<'a>(
    alloc: Global,
    octets: &'a [u8],
    out: &mut u32,
    fault: &mut Fault,
) -> u32
    ensures { Answers ⟦<NamedBitsRef<'a> as Form>⟧ octets.now (λ v n. n ≡ bits (named_flags (contents_of v)))
        out.old out.new fault.old fault.new result }
{
    match NamedBitsRef::from_der(alloc, octets) {
        Ok(value) => {
            *out = number_of_bits(value);
            0
        }
        Err(error) => refuse(error, fault),
    }
}

/// Returns the bits 0 to 15 of a BIT STRING with named bits.
fn number_of_bits(value: NamedBitsRef<'_>) -> u32
    ensures { result ≡ bits (named_flags (contents_of value.entry)) }
{
    number_of_flags(&[
        value.has(15),
        value.has(14),
        value.has(13),
        value.has(12),
        value.has(11),
        value.has(10),
        value.has(9),
        value.has(8),
        value.has(7),
        value.has(6),
        value.has(5),
        value.has(4),
        value.has(3),
        value.has(2),
        value.has(1),
        value.has(0),
    ]) as u32
}

/// Reads all octets as a GeneralName (RFC 5280 4.2.1.6), and writes the number of its tag: 0 for
/// `otherName` to 8 for `registeredID`.
///
/// Returns 0, or the number of the first error; `out` is then unchanged.
#[unsafe(no_mangle)]
pub extern "C" fn der_general_name<'a>(
    alloc: Global,
    octets: &'a [u8],
    out: &mut u32,
    fault: &mut Fault,
) -> u32
    ensures { Answers ⟦<GeneralName<'a> as Form>⟧ octets.now (λ v n. n ≡ kind_of_name v)
        out.old out.new fault.old fault.new result }
{
    match GeneralName::from_der(alloc, octets) {
        Ok(value) => {
            *out = kind_of(&value);
            0
        }
        Err(error) => refuse(error, fault),
    }
}

/// Returns the number of the tag of an alternative.
fn kind_of(name: &GeneralName<'_>) -> u32
    ensures { result ≡ kind_of_name name.now }
{
    match name {
        GeneralName::OtherName(_) => 0,
        GeneralName::Rfc822Name(_) => 1,
        GeneralName::DnsName(_) => 2,
        GeneralName::X400Address(_) => 3,
        GeneralName::DirectoryName(_) => 4,
        GeneralName::EdiPartyName(_) => 5,
        GeneralName::UniformResourceIdentifier(_) => 6,
        GeneralName::IpAddress(_) => 7,
        GeneralName::RegisteredId(_) => 8,
    }
}
