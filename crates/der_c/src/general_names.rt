//! GeneralNames that name a host, or have an address (RFC 5280 4.2.1.6).

ghost use Rattle.std.specs.Prelude.{◌≡◌, ◌<◌, ◌^◌, length, List};
ghost use Rattle.der_extensions.specs.declared.extension.general_name.GeneralName.{GeneralName};
ghost use Rattle.der_lists.specs.Items.{AreItems};
ghost use Rattle.der_lists.specs.ListRef.{octets_of};
ghost use Rattle.der_c.specs.Answers.{Answers};
ghost use Rattle.der_c.specs.GeneralNames.{HasOne, HasSome, is_address, is_of_host};

use crate::bits::number_of_flag;
use crate::fault::{Fault, refuse};
use crate::finding::{Wanted, find_item};
use der_elem::{Form, FromDer};
use der_extensions::extension::GeneralName;
use der_lists::ListRef;
use der_path::names_host;
use der_places::Place;
use der_tlv::Length;
use std::alloc::Global;

/// Reads all octets as GeneralNames, such as the value of a subjectAltName, and writes 1 if one is
/// a dNSName that names the host (RFC 9525 6.3), else 0.
///
/// Returns 0, or the number of the first error; `out` is then unchanged.
#[unsafe(no_mangle)]
pub extern "C" fn der_names_host<'a>(
    alloc: Global,
    octets: &'a [u8],
    host: &[u8],
    out: &mut u32,
    fault: &mut Fault,
) -> u32
    ensures { Answers ⟦<ListRef<'a, GeneralName<'a>> as Form>⟧ octets.now
        (λ v n. HasOne ⟦<GeneralName<'a> as Form>⟧ (is_of_host host.now) (octets_of v) n)
        out.old out.new fault.old fault.new result }
{
    match ListRef::<GeneralName<'a>>::from_der(alloc, octets) {
        Ok(names) => {
            let wanted = IsOfHost { host };
            *out = number_of_flag(has_one(alloc, names.as_bytes(), &wanted));
            0
        }
        Err(error) => refuse(error, fault),
    }
}

/// Reads all octets as GeneralNames, and writes 1 if one is an iPAddress with these 4 or 16
/// octets, else 0.
///
/// Returns 0, or the number of the first error; `out` is then unchanged.
#[unsafe(no_mangle)]
pub extern "C" fn der_names_address<'a>(
    alloc: Global,
    octets: &'a [u8],
    address: &[u8],
    out: &mut u32,
    fault: &mut Fault,
) -> u32
    ensures { Answers ⟦<ListRef<'a, GeneralName<'a>> as Form>⟧ octets.now
        (λ v n. HasOne ⟦<GeneralName<'a> as Form>⟧ (is_address address.now) (octets_of v) n)
        out.old out.new fault.old fault.new result }
{
    match ListRef::<GeneralName<'a>>::from_der(alloc, octets) {
        Ok(names) => {
            let wanted = IsAddress { address };
            *out = number_of_flag(has_one(alloc, names.as_bytes(), &wanted));
            0
        }
        Err(error) => refuse(error, fault),
    }
}

/// Returns whether one of the names that octets are is wanted.
fn has_one<'a, P: Wanted<GeneralName<'a>>>(alloc: Global, octets: &'a [u8], wanted: &P) -> bool
    ensures { length octets.now < 2 ^ 32 → (given : List GeneralName) → AreItems ⟦<GeneralName<'a> as Form>⟧ octets.now given
        → HasSome ⟦<GeneralName<'a> as Form>⟧ (P.is_wanted wanted.now) octets.now result }
{
    let all = Place {
        offset: 0,
        length: length_of(octets),
    };
    match find_item::<GeneralName<'a>, P>(alloc, octets, all, wanted) {
        Some(_item) => true,
        None => false,
    }
}

/// Returns the number of octets that a length can count.
fn length_of(octets: &[u8]) -> u32
    ensures { length octets.now < 2 ^ 32 → result ≡ length octets.now }
{
    match Length::try_from(octets.len()) {
        Ok(length) => length.value(),
        Err(_) => 0,
    }
}

/// The test that a name is a dNSName that names a host.
#[derive(Drop)]
struct IsOfHost<'h> {
    host: &'h [u8],
}

impl<'a, 'h> Wanted<GeneralName<'a>> for IsOfHost<'h> {
    ghost use Rattle.der_c.specs.GeneralNames.{is_of_host};

    ghost is_wanted = { λ p. is_of_host p.host.now };

    fn is_wanted(&self, name: &GeneralName<'a>) -> bool {
        match name {
            GeneralName::DnsName(text) => names_host(text.value.as_bytes(), self.host),
            _ => false,
        }
    }
}

/// The test that a name is an iPAddress with these 4 or 16 octets.
#[derive(Drop)]
struct IsAddress<'h> {
    address: &'h [u8],
}

impl<'a, 'h> Wanted<GeneralName<'a>> for IsAddress<'h> {
    ghost use Rattle.der_c.specs.GeneralNames.{is_address};

    ghost is_wanted = { λ p. is_address p.address.now };

    fn is_wanted(&self, name: &GeneralName<'a>) -> bool {
        match name {
            GeneralName::IpAddress(octets) => {
                (self.address.len() == 4 || self.address.len() == 16)
                    && octets.value.as_bytes() == self.address
            }
            _ => false,
        }
    }
}
