//! The parameters of an elliptic curve as text.

ghost use Rattle.std.specs.Prelude.{◌≡◌, None, OnOk};
ghost use Rattle.der_modules.specs.Asn1.{parse_of};
ghost use Rattle.der_pkix.specs.Key.Grammar.{ec_parameters};
ghost use Rattle.certview_text.specs.Faults.{first_fault};

use crate::fault::{Fault, refusal};
use crate::keys::push_version;
use crate::kind::Kind;
use crate::whole::push_title;
use certview_parts::algorithms::push_algorithm;
use certview_parts::any_values::push_any;
use certview_parts::bit_strings::push_bits;
use certview_parts::field_name::FieldName;
use certview_parts::page::Page;
use certview_parts::place::{Place, place_of_all};
use certview_parts::printer::Printer;
use certview_parts::rows::{push_identifier_row, push_octets_row, push_signed_row};
use der_asn1_types::FromDer;
use der_pkix::key::laws::grammar_of_ec_parameters;
use der_pkix::key::{Curve, EcParameters, FieldId, SpecifiedEcDomain};
use std::alloc::{AllocError, Global};

/// Adds the fields of the ECParameters in these octets, one line each: a name, `implicit` if the
/// curve is known from elsewhere, or the fields of its domain.
///
/// # Errors
/// `Refused` with the first error in the octets, in the order of the fields; with
/// `ErrorKind::TrailingData` (3) if octets are left over; with `ErrorKind::Overflow` (9) if there
/// are more than 4294967295 octets. `Memory` if memory runs out.
pub fn push_curve_parameters(alloc: Global, page: &mut Page, octets: &[u8]) -> Result<(), Fault>
    ensures { OnOk result (first_fault (parse_of ec_parameters) octets.now ≡ None) }
{
    grammar_of_ec_parameters();
    match EcParameters::from_der(alloc, octets) {
        Ok(parameters) => Ok(push_fields(&mut Printer::new(alloc, page, octets), &parameters)?),
        Err(error) => Err(refusal(Kind::EcParameters, octets, error)),
    }
}

fn push_fields(printer: &mut Printer<'_>, parameters: &EcParameters<'_>) -> Result<(), AllocError> {
    let whole = place_of_all(printer.octets);
    push_title(printer, &whole, Kind::EcParameters)?;
    match parameters {
        EcParameters::NamedCurve(name) => {
            push_identifier_row(printer, &whole, FieldName::Curve, name.as_bytes())
        }
        EcParameters::ImplicitCurve(_) => {
            printer.begin(&whole, FieldName::Curve)?;
            printer.push_str("implicit\n")
        }
        EcParameters::SpecifiedCurve(domain) => push_domain(printer, &whole, domain),
    }
}

fn push_domain(
    printer: &mut Printer<'_>,
    place: &Place,
    domain: &SpecifiedEcDomain<'_>,
) -> Result<(), AllocError> {
    let at = printer.places_of(domain, place);
    push_version(printer, &at.version, domain.version())?;
    push_field(printer, &at.field_id, domain.field_id())?;
    push_curve(printer, &at.curve, domain.curve())?;
    push_octets_row(printer, &at.base, FieldName::Base, domain.base().as_bytes())?;
    push_signed_row(
        printer,
        &at.order,
        FieldName::Order,
        domain.order().as_bytes(),
    )?;
    if let Some(cofactor) = domain.cofactor() {
        push_signed_row(
            printer,
            &at.cofactor,
            FieldName::Cofactor,
            cofactor.as_bytes(),
        )?;
    }
    match domain.hash() {
        Some(hash) => push_algorithm(printer, &at.hash, FieldName::HashAlgorithm, hash),
        None => Ok(()),
    }
}

/// Adds the kind of a field and its parameters. For a prime field the parameters are the prime.
fn push_field(
    printer: &mut Printer<'_>,
    place: &Place,
    field: &FieldId<'_>,
) -> Result<(), AllocError> {
    let at = printer.places_of(field, place);
    let kind = field.field_type();
    push_identifier_row(printer, &at.field_type, FieldName::Field, kind.as_bytes())?;
    printer.begin(&at.parameters, FieldName::ParametersOfTheField)?;
    let end = at.parameters.behind() as usize;
    push_any(printer, Some(end), field.parameters())?;
    printer.push('\n')
}

fn push_curve(
    printer: &mut Printer<'_>,
    place: &Place,
    curve: &Curve<'_>,
) -> Result<(), AllocError> {
    let at = printer.places_of(curve, place);
    push_octets_row(printer, &at.a, FieldName::A, curve.a().as_bytes())?;
    push_octets_row(printer, &at.b, FieldName::B, curve.b().as_bytes())?;
    match curve.seed() {
        Some(seed) => {
            printer.begin(&at.seed, FieldName::Seed)?;
            push_bits(printer.page, seed)?;
            printer.push('\n')
        }
        None => Ok(()),
    }
}
