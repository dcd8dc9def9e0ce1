//! The parameters of DSA and of Diffie-Hellman as text.

ghost use Rattle.std.specs.Prelude.{◌≡◌, None, OnOk};
ghost use Rattle.der_modules.specs.Asn1.{parse_of};
ghost use Rattle.der_pkcs.specs.Algorithm.Grammar.{dss_parms, dh_parameter, domain_parameters};
ghost use Rattle.certview_text.specs.Faults.{first_fault};

use crate::fault::{Fault, refusal};
use crate::kind::Kind;
use crate::whole::push_title;
use certview_parts::bit_strings::push_bits;
use certview_parts::field_name::FieldName;
use certview_parts::page::Page;
use certview_parts::place::{Place, place_of_all};
use certview_parts::printer::Printer;
use certview_parts::rows::{push_integer_row, push_number_row};
use der_asn1_types::FromDer;
use der_pkcs::algorithm::laws::{
    grammar_of_dh_parameter, grammar_of_domain_parameters, grammar_of_dss_parms,
};
use der_pkcs::algorithm::{DhParameter, DomainParameters, DssParms, ValidationParms};
use std::alloc::{AllocError, Global};

/// Adds the fields of the Dss-Parms in these octets, one line each.
///
/// # Errors
/// `Refused` with the first error in the octets, in the order of the fields; with
/// `ErrorKind::TrailingData` (3) if octets are left over; with `ErrorKind::Overflow` (9) if there
/// are more than 4294967295 octets. `Memory` if memory runs out.
pub fn push_dsa_parameters(alloc: Global, page: &mut Page, octets: &[u8]) -> Result<(), Fault>
    ensures { OnOk result (first_fault (parse_of dss_parms) octets.now ≡ None) }
{
    grammar_of_dss_parms();
    match DssParms::from_der(alloc, octets) {
        Ok(group) => Ok(dsa_fields(&mut Printer::new(alloc, page, octets), &group)?),
        Err(error) => Err(refusal(Kind::DsaParameters, octets, error)),
    }
}

fn dsa_fields(printer: &mut Printer<'_>, group: &DssParms<'_>) -> Result<(), AllocError> {
    let whole = place_of_all(printer.octets);
    push_title(printer, &whole, Kind::DsaParameters)?;
    let at = printer.places_of(group, &whole);
    push_number_row(printer, &at.p, FieldName::P, group.p().as_bytes())?;
    push_number_row(printer, &at.q, FieldName::Q, group.q().as_bytes())?;
    push_number_row(printer, &at.g, FieldName::G, group.g().as_bytes())
}

/// Adds the fields of the DHParameter in these octets, one line each.
///
/// # Errors
/// As `push_dsa_parameters`.
pub fn push_dh_parameters(alloc: Global, page: &mut Page, octets: &[u8]) -> Result<(), Fault>
    ensures { OnOk result (first_fault (parse_of dh_parameter) octets.now ≡ None) }
{
    grammar_of_dh_parameter();
    match DhParameter::from_der(alloc, octets) {
        Ok(group) => Ok(dh_fields(&mut Printer::new(alloc, page, octets), &group)?),
        Err(error) => Err(refusal(Kind::DhParameters, octets, error)),
    }
}

fn dh_fields(printer: &mut Printer<'_>, group: &DhParameter<'_>) -> Result<(), AllocError> {
    let whole = place_of_all(printer.octets);
    push_title(printer, &whole, Kind::DhParameters)?;
    let at = printer.places_of(group, &whole);
    push_number_row(
        printer,
        &at.prime,
        FieldName::Prime,
        group.prime().as_bytes(),
    )?;
    push_number_row(printer, &at.base, FieldName::Base, group.base().as_bytes())?;
    match group.private_value_length() {
        Some(length) => {
            let place = at.private_value_length;
            push_integer_row(printer, &place, FieldName::LengthOfAPrivateValue, length)
        }
        None => Ok(()),
    }
}

/// Adds the fields of the DomainParameters in these octets, one line each.
///
/// # Errors
/// As `push_dsa_parameters`.
pub fn push_x942_parameters(alloc: Global, page: &mut Page, octets: &[u8]) -> Result<(), Fault>
    ensures { OnOk result (first_fault (parse_of domain_parameters) octets.now ≡ None) }
{
    grammar_of_domain_parameters();
    match DomainParameters::from_der(alloc, octets) {
        Ok(group) => Ok(x942_fields(&mut Printer::new(alloc, page, octets), &group)?),
        Err(error) => Err(refusal(Kind::X942Parameters, octets, error)),
    }
}

fn x942_fields(printer: &mut Printer<'_>, group: &DomainParameters<'_>) -> Result<(), AllocError> {
    let whole = place_of_all(printer.octets);
    push_title(printer, &whole, Kind::X942Parameters)?;
    let at = printer.places_of(group, &whole);
    push_number_row(printer, &at.p, FieldName::P, group.p().as_bytes())?;
    push_number_row(printer, &at.g, FieldName::G, group.g().as_bytes())?;
    push_number_row(printer, &at.q, FieldName::Q, group.q().as_bytes())?;
    if let Some(factor) = group.j() {
        push_number_row(printer, &at.j, FieldName::J, factor.as_bytes())?;
    }
    match group.validation_parms() {
        Some(parameters) => push_validation(printer, &at.validation_parms, parameters),
        None => Ok(()),
    }
}

fn push_validation(
    printer: &mut Printer<'_>,
    place: &Place,
    parameters: &ValidationParms<'_>,
) -> Result<(), AllocError> {
    let at = printer.places_of(parameters, place);
    printer.begin(&at.seed, FieldName::Seed)?;
    push_bits(printer.page, parameters.seed())?;
    printer.push('\n')?;
    let count = parameters.pgen_counter();
    push_number_row(
        printer,
        &at.pgen_counter,
        FieldName::PgenCounter,
        count.as_bytes(),
    )
}
