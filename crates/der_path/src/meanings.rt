//! The meanings of the types that are read, by names that `specs` can cite.

use der_bits::NamedBitsRef;
use der_elem::Form;
use der_extensions::extension::{
    BasicConstraints, CertificatePolicies, CrlDistributionPoints, CrlReason, DistributionPoint,
    ExtKeyUsageSyntax, GeneralName, GeneralNames, GeneralSubtree, IssuingDistributionPoint,
    KeyPurposeId, NameConstraints, PolicyConstraints, PolicyInformation, PolicyMapping,
    PolicyMappings,
};
use der_nest::SequenceRef;
use der_numbers::{Enumerated, UintRef};
use der_ocsp::ocsp::SingleResponse;
use der_pkix::certificate::{Certificate, Extension, Extensions, TbsCertificate};
use der_pkix::crl::RevokedCertificate;
use der_pkix::name::{AttributeTypeAndValue, RelativeDistinguishedName};

/// The meaning of a type.
pub(crate) trait Meant<T> {
    ghost use Rattle.der_elem.specs.declared.form.Form as form;

    ghost FORM: { form.Ghosts T };
}

/// The meanings.
struct Meanings;

impl<'a> Meant<Certificate<'a>> for Meanings {
    ghost FORM = { ⟦<Certificate<'a> as Form>⟧ };
}

impl<'a> Meant<TbsCertificate<'a>> for Meanings {
    ghost FORM = { ⟦<TbsCertificate<'a> as Form>⟧ };
}

impl<'a> Meant<Extension<'a>> for Meanings {
    ghost FORM = { ⟦<Extension<'a> as Form>⟧ };
}

impl<'a> Meant<Extensions<'a>> for Meanings {
    ghost FORM = { ⟦<Extensions<'a> as Form>⟧ };
}

impl<'a> Meant<AttributeTypeAndValue<'a>> for Meanings {
    ghost FORM = { ⟦<AttributeTypeAndValue<'a> as Form>⟧ };
}

impl<'a> Meant<RelativeDistinguishedName<'a>> for Meanings {
    ghost FORM = { ⟦<RelativeDistinguishedName<'a> as Form>⟧ };
}

impl<'a> Meant<BasicConstraints<'a>> for Meanings {
    ghost FORM = { ⟦<BasicConstraints<'a> as Form>⟧ };
}

impl<'a> Meant<CertificatePolicies<'a>> for Meanings {
    ghost FORM = { ⟦<CertificatePolicies<'a> as Form>⟧ };
}

impl<'a> Meant<GeneralName<'a>> for Meanings {
    ghost FORM = { ⟦<GeneralName<'a> as Form>⟧ };
}

impl<'a> Meant<GeneralNames<'a>> for Meanings {
    ghost FORM = { ⟦<GeneralNames<'a> as Form>⟧ };
}

impl<'a> Meant<GeneralSubtree<'a>> for Meanings {
    ghost FORM = { ⟦<GeneralSubtree<'a> as Form>⟧ };
}

impl<'a> Meant<NameConstraints<'a>> for Meanings {
    ghost FORM = { ⟦<NameConstraints<'a> as Form>⟧ };
}

impl<'a> Meant<PolicyConstraints<'a>> for Meanings {
    ghost FORM = { ⟦<PolicyConstraints<'a> as Form>⟧ };
}

impl<'a> Meant<PolicyInformation<'a>> for Meanings {
    ghost FORM = { ⟦<PolicyInformation<'a> as Form>⟧ };
}

impl<'a> Meant<PolicyMapping<'a>> for Meanings {
    ghost FORM = { ⟦<PolicyMapping<'a> as Form>⟧ };
}

impl<'a> Meant<PolicyMappings<'a>> for Meanings {
    ghost FORM = { ⟦<PolicyMappings<'a> as Form>⟧ };
}

impl<'a> Meant<NamedBitsRef<'a>> for Meanings {
    ghost FORM = { ⟦<NamedBitsRef<'a> as Form>⟧ };
}

impl<'a> Meant<UintRef<'a>> for Meanings {
    ghost FORM = { ⟦<UintRef<'a> as Form>⟧ };
}

impl Meant<Enumerated<CrlReason>> for Meanings {
    ghost FORM = { ⟦<Enumerated<CrlReason> as Form>⟧ };
}

impl<'a> Meant<IssuingDistributionPoint<'a>> for Meanings {
    ghost FORM = { ⟦<IssuingDistributionPoint<'a> as Form>⟧ };
}

impl<'a> Meant<CrlDistributionPoints<'a>> for Meanings {
    ghost FORM = { ⟦<CrlDistributionPoints<'a> as Form>⟧ };
}

impl<'a> Meant<DistributionPoint<'a>> for Meanings {
    ghost FORM = { ⟦<DistributionPoint<'a> as Form>⟧ };
}

impl<'a> Meant<SequenceRef<'a>> for Meanings {
    ghost FORM = { ⟦<SequenceRef<'a> as Form>⟧ };
}

impl<'a> Meant<RevokedCertificate<'a>> for Meanings {
    ghost FORM = { ⟦<RevokedCertificate<'a> as Form>⟧ };
}

impl<'a> Meant<ExtKeyUsageSyntax<'a>> for Meanings {
    ghost FORM = { ⟦<ExtKeyUsageSyntax<'a> as Form>⟧ };
}

impl<'a> Meant<KeyPurposeId<'a>> for Meanings {
    ghost FORM = { ⟦<KeyPurposeId<'a> as Form>⟧ };
}

impl<'a> Meant<SingleResponse<'a>> for Meanings {
    ghost FORM = { ⟦<SingleResponse<'a> as Form>⟧ };
}
