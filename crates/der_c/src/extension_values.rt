//! The values of extensions: what the contents octets of `extnValue` encode.

ghost use Rattle.der_c.specs.Answers.{AnswersPlaces};

use crate::fault::Fault;
use crate::message::read_message;
use der_elem::Form;
use der_extensions::extension::{
    AccessDescription, AuthorityKeyIdentifier, BasicConstraints, DistributionPoint, GeneralSubtree,
    IssuingDistributionPoint, NameConstraints, PolicyConstraints, PolicyInformation, PolicyMapping,
    PolicyQualifierInfo,
};
use der_places::Placed;
use der_places::extension::{
    AccessDescriptionPlaces, AuthorityKeyIdentifierPlaces, BasicConstraintsPlaces,
    DistributionPointPlaces, GeneralSubtreePlaces, IssuingDistributionPointPlaces,
    NameConstraintsPlaces, PolicyConstraintsPlaces, PolicyInformationPlaces, PolicyMappingPlaces,
    PolicyQualifierInfoPlaces,
};
use std::alloc::Global;

/// Reads all octets as an AuthorityKeyIdentifier (RFC 5280 4.2.1.1), and writes the byte ranges
/// of its fields.
///
/// Returns 0, or the number of the first error; `out` is then unchanged.
#[unsafe(no_mangle)]
pub extern "C" fn der_authority_key_identifier<'a>(
    alloc: Global,
    octets: &'a [u8],
    out: &mut AuthorityKeyIdentifierPlaces,
    fault: &mut Fault,
) -> u32
    ensures { AnswersPlaces ⟦<AuthorityKeyIdentifier<'a> as Form>⟧ ⟦<AuthorityKeyIdentifier<'a> as Placed>⟧.layout ⟦<AuthorityKeyIdentifier<'a> as Placed>⟧.listed
        octets.now out.old out.new fault.old fault.new result }
{
    read_message::<AuthorityKeyIdentifierPlaces, AuthorityKeyIdentifier<'a>>(
        alloc, octets, out, fault,
    )
}

/// Reads all octets as a PolicyInformation (RFC 5280 4.2.1.4), and writes the byte ranges of its
/// fields.
///
/// Returns 0, or the number of the first error; `out` is then unchanged.
#[unsafe(no_mangle)]
pub extern "C" fn der_policy_information<'a>(
    alloc: Global,
    octets: &'a [u8],
    out: &mut PolicyInformationPlaces,
    fault: &mut Fault,
) -> u32
    ensures { AnswersPlaces ⟦<PolicyInformation<'a> as Form>⟧ ⟦<PolicyInformation<'a> as Placed>⟧.layout ⟦<PolicyInformation<'a> as Placed>⟧.listed
        octets.now out.old out.new fault.old fault.new result }
{
    read_message::<PolicyInformationPlaces, PolicyInformation<'a>>(alloc, octets, out, fault)
}

/// Reads all octets as a PolicyQualifierInfo (RFC 5280 4.2.1.4), and writes the byte ranges of
/// its fields.
///
/// Returns 0, or the number of the first error; `out` is then unchanged.
#[unsafe(no_mangle)]
pub extern "C" fn der_policy_qualifier_info<'a>(
    alloc: Global,
    octets: &'a [u8],
    out: &mut PolicyQualifierInfoPlaces,
    fault: &mut Fault,
) -> u32
    ensures { AnswersPlaces ⟦<PolicyQualifierInfo<'a> as Form>⟧ ⟦<PolicyQualifierInfo<'a> as Placed>⟧.layout ⟦<PolicyQualifierInfo<'a> as Placed>⟧.listed
        octets.now out.old out.new fault.old fault.new result }
{
    read_message::<PolicyQualifierInfoPlaces, PolicyQualifierInfo<'a>>(alloc, octets, out, fault)
}

/// Reads all octets as a PolicyMapping (RFC 5280 4.2.1.5), and writes the byte ranges of its
/// fields.
///
/// Returns 0, or the number of the first error; `out` is then unchanged.
#[unsafe(no_mangle)]
pub extern "C" fn der_policy_mapping<'a>(
    alloc: Global,
    octets: &'a [u8],
    out: &mut PolicyMappingPlaces,
    fault: &mut Fault,
) -> u32
    ensures { AnswersPlaces ⟦<PolicyMapping<'a> as Form>⟧ ⟦<PolicyMapping<'a> as Placed>⟧.layout ⟦<PolicyMapping<'a> as Placed>⟧.listed
        octets.now out.old out.new fault.old fault.new result }
{
    read_message::<PolicyMappingPlaces, PolicyMapping<'a>>(alloc, octets, out, fault)
}

/// Reads all octets as a BasicConstraints (RFC 5280 4.2.1.9), and writes the byte ranges of its
/// fields.
///
/// Returns 0, or the number of the first error; `out` is then unchanged.
#[unsafe(no_mangle)]
pub extern "C" fn der_basic_constraints<'a>(
    alloc: Global,
    octets: &'a [u8],
    out: &mut BasicConstraintsPlaces,
    fault: &mut Fault,
) -> u32
    ensures { AnswersPlaces ⟦<BasicConstraints<'a> as Form>⟧ ⟦<BasicConstraints<'a> as Placed>⟧.layout ⟦<BasicConstraints<'a> as Placed>⟧.listed
        octets.now out.old out.new fault.old fault.new result }
{
    read_message::<BasicConstraintsPlaces, BasicConstraints<'a>>(alloc, octets, out, fault)
}

/// Reads all octets as a NameConstraints (RFC 5280 4.2.1.10), and writes the byte ranges of its
/// fields.
///
/// Returns 0, or the number of the first error; `out` is then unchanged.
#[unsafe(no_mangle)]
pub extern "C" fn der_name_constraints<'a>(
    alloc: Global,
    octets: &'a [u8],
    out: &mut NameConstraintsPlaces,
    fault: &mut Fault,
) -> u32
    ensures { AnswersPlaces ⟦<NameConstraints<'a> as Form>⟧ ⟦<NameConstraints<'a> as Placed>⟧.layout ⟦<NameConstraints<'a> as Placed>⟧.listed
        octets.now out.old out.new fault.old fault.new result }
{
    read_message::<NameConstraintsPlaces, NameConstraints<'a>>(alloc, octets, out, fault)
}

/// Reads all octets as a GeneralSubtree (RFC 5280 4.2.1.10), and writes the byte ranges of its
/// fields.
///
/// Returns 0, or the number of the first error; `out` is then unchanged.
#[unsafe(no_mangle)]
pub extern "C" fn der_general_subtree<'a>(
    alloc: Global,
    octets: &'a [u8],
    out: &mut GeneralSubtreePlaces,
    fault: &mut Fault,
) -> u32
    ensures { AnswersPlaces ⟦<GeneralSubtree<'a> as Form>⟧ ⟦<GeneralSubtree<'a> as Placed>⟧.layout ⟦<GeneralSubtree<'a> as Placed>⟧.listed
        octets.now out.old out.new fault.old fault.new result }
{
    read_message::<GeneralSubtreePlaces, GeneralSubtree<'a>>(alloc, octets, out, fault)
}

/// Reads all octets as a PolicyConstraints (RFC 5280 4.2.1.11), and writes the byte ranges of its
/// fields.
///
/// Returns 0, or the number of the first error; `out` is then unchanged.
#[unsafe(no_mangle)]
pub extern "C" fn der_policy_constraints<'a>(
    alloc: Global,
    octets: &'a [u8],
    out: &mut PolicyConstraintsPlaces,
    fault: &mut Fault,
) -> u32
    ensures { AnswersPlaces ⟦<PolicyConstraints<'a> as Form>⟧ ⟦<PolicyConstraints<'a> as Placed>⟧.layout ⟦<PolicyConstraints<'a> as Placed>⟧.listed
        octets.now out.old out.new fault.old fault.new result }
{
    read_message::<PolicyConstraintsPlaces, PolicyConstraints<'a>>(alloc, octets, out, fault)
}

/// Reads all octets as a DistributionPoint (RFC 5280 4.2.1.13), and writes the byte ranges of its
/// fields.
///
/// Returns 0, or the number of the first error; `out` is then unchanged.
#[unsafe(no_mangle)]
pub extern "C" fn der_distribution_point<'a>(
    alloc: Global,
    octets: &'a [u8],
    out: &mut DistributionPointPlaces,
    fault: &mut Fault,
) -> u32
    ensures { AnswersPlaces ⟦<DistributionPoint<'a> as Form>⟧ ⟦<DistributionPoint<'a> as Placed>⟧.layout ⟦<DistributionPoint<'a> as Placed>⟧.listed
        octets.now out.old out.new fault.old fault.new result }
{
    read_message::<DistributionPointPlaces, DistributionPoint<'a>>(alloc, octets, out, fault)
}

/// Reads all octets as an AccessDescription (RFC 5280 4.2.2.1), and writes the byte ranges of its
/// fields.
///
/// Returns 0, or the number of the first error; `out` is then unchanged.
#[unsafe(no_mangle)]
pub extern "C" fn der_access_description<'a>(
    alloc: Global,
    octets: &'a [u8],
    out: &mut AccessDescriptionPlaces,
    fault: &mut Fault,
) -> u32
    ensures { AnswersPlaces ⟦<AccessDescription<'a> as Form>⟧ ⟦<AccessDescription<'a> as Placed>⟧.layout ⟦<AccessDescription<'a> as Placed>⟧.listed
        octets.now out.old out.new fault.old fault.new result }
{
    read_message::<AccessDescriptionPlaces, AccessDescription<'a>>(alloc, octets, out, fault)
}

/// Reads all octets as an IssuingDistributionPoint (RFC 5280 5.2.5), and writes the byte ranges
/// of its fields.
///
/// Returns 0, or the number of the first error; `out` is then unchanged.
#[unsafe(no_mangle)]
pub extern "C" fn der_issuing_distribution_point<'a>(
    alloc: Global,
    octets: &'a [u8],
    out: &mut IssuingDistributionPointPlaces,
    fault: &mut Fault,
) -> u32
    ensures { AnswersPlaces ⟦<IssuingDistributionPoint<'a> as Form>⟧ ⟦<IssuingDistributionPoint<'a> as Placed>⟧.layout ⟦<IssuingDistributionPoint<'a> as Placed>⟧.listed
        octets.now out.old out.new fault.old fault.new result }
{
    read_message::<IssuingDistributionPointPlaces, IssuingDistributionPoint<'a>>(
        alloc, octets, out, fault,
    )
}
