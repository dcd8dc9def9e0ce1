//! The meanings of the types that are read, by names that `specs` can cite.

use der_bits::BitStringRef;
use der_elem::Form;
use der_extensions::extension::{CertPolicyId, NameConstraints};
use der_ocsp::ocsp::BasicOcspResponse;
use der_opaque::AnyRef;
use der_pkix::AlgorithmIdentifier;
use der_pkix::certificate::{Certificate, Extension, SubjectPublicKeyInfo, TbsCertificate};
use der_pkix::crl::CertificateList;
use der_pkix::name::Name;

/// The meaning of a type.
pub(crate) trait Meant<T> {
    ghost use Rattle.der_elem.specs.declared.form.Form as form;

    ghost FORM: { form.Ghosts T };
}

/// Constraints of names, if there are any.
pub(crate) type InitialConstraints<'a> = Option<NameConstraints<'a>>;

/// The meanings.
struct Meanings;

impl<'a> Meant<Name<'a>> for Meanings {
    ghost FORM = { ⟦<Name<'a> as Form>⟧ };
}

impl<'a> Meant<SubjectPublicKeyInfo<'a>> for Meanings {
    ghost FORM = { ⟦<SubjectPublicKeyInfo<'a> as Form>⟧ };
}

impl<'a> Meant<InitialConstraints<'a>> for Meanings {
    ghost FORM = { ⟦<InitialConstraints<'a> as Form>⟧ };
}

impl<'a> Meant<CertPolicyId<'a>> for Meanings {
    ghost FORM = { ⟦<CertPolicyId<'a> as Form>⟧ };
}

impl<'a> Meant<Certificate<'a>> for Meanings {
    ghost FORM = { ⟦<Certificate<'a> as Form>⟧ };
}

impl<'a> Meant<TbsCertificate<'a>> for Meanings {
    ghost FORM = { ⟦<TbsCertificate<'a> as Form>⟧ };
}

impl<'a> Meant<AlgorithmIdentifier<'a>> for Meanings {
    ghost FORM = { ⟦<AlgorithmIdentifier<'a> as Form>⟧ };
}

impl<'a> Meant<BitStringRef<'a>> for Meanings {
    ghost FORM = { ⟦<BitStringRef<'a> as Form>⟧ };
}

impl<'a> Meant<AnyRef<'a>> for Meanings {
    ghost FORM = { ⟦<AnyRef<'a> as Form>⟧ };
}

impl<'a> Meant<CertificateList<'a>> for Meanings {
    ghost FORM = { ⟦<CertificateList<'a> as Form>⟧ };
}

impl<'a> Meant<BasicOcspResponse<'a>> for Meanings {
    ghost FORM = { ⟦<BasicOcspResponse<'a> as Form>⟧ };
}

impl<'a> Meant<Extension<'a>> for Meanings {
    ghost FORM = { ⟦<Extension<'a> as Form>⟧ };
}
