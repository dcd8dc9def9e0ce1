//! The keys of a chain (RFC 5280 section 6.1.2 (g) to (i), and 6.1.4 (d) to (f)), and what has to
//! verify with each.

ghost use Rattle.std.specs.Prelude.{◌≡◌, IfOk};
ghost use Rattle.der_elem.specs.Decoding.{AllRead};
ghost use Rattle.der_path.specs.Chains.{EachRead};
ghost use Rattle.der_path.specs.Keys.{first_key, next_key, non_null, parameters_after, HasToVerify, HaveToVerify};

use der_bits::BitStringRef;
use der_elem::Form;
use der_modules::copy_of;
use der_opaque::AnyRef;
use der_pkix::AlgorithmIdentifier;
use der_pkix::certificate::{Certificate, SubjectPublicKeyInfo};
use der_pkix::name::Name;
use der_verify::octets_of_tbs_certificate;
use std::alloc::{AllocError, Global};

/// A trust anchor (RFC 5280 section 6.1.1 (d)).
#[derive(Clone, Copy)]
pub struct Anchor<'a> {
    /// The trusted issuer name ((d)(1)).
    pub name: Name<'a>,
    /// The trusted public key, with its algorithm and its parameters ((d)(2) to (4)).
    pub key: SubjectPublicKeyInfo<'a>,
}

/// What has to verify of a certificate (RFC 5280 section 6.1.3 (a)(1)).
#[derive(Clone, Copy)]
pub struct Verification<'a> {
    /// The octets that are signed: the encoding of tbsCertificate, as it was read.
    pub signed: &'a [u8],
    /// signatureAlgorithm.
    pub algorithm: AlgorithmIdentifier<'a>,
    /// signatureValue.
    pub signature: BitStringRef<'a>,
    /// working_public_key, with its algorithm: the key of the certificate before, or of the anchor.
    pub key: SubjectPublicKeyInfo<'a>,
    /// working_public_key_parameters: those of the key, or those that it inherits. NULL are none.
    pub parameters: Option<AnyRef<'a>>,
}

/// The variables (g), (h) and (i) of the state.
#[derive(Clone, Copy)]
pub struct WorkingKey<'a> {
    /// working_public_key (h), with working_public_key_algorithm (g).
    pub key: SubjectPublicKeyInfo<'a>,
    /// working_public_key_parameters (i).
    pub parameters: Option<AnyRef<'a>>,
}

/// Returns what has to verify of each certificate, in their order.
pub(crate) fn verifications_of<'a>(
    alloc: Global,
    anchor: &Anchor<'a>,
    chain: &[&'a [u8]],
    certificates: &[Certificate<'a>],
) -> Result<Vec<Verification<'a>>, AllocError>
    ensures { EachRead chain.now certificates.now
        → IfOk result (λ found. HaveToVerify (first_key anchor.now) chain.now certificates.now found.items) }
{
    let mut found = Vec::new(alloc);
    let mut working = first_key(anchor);
    let mut left = chain;
    let mut behind = certificates;
    'each: while let [octets, others @ ..] = left {
        let [certificate, more @ ..] = behind else {
            return Err(AllocError);
        };
        found.push(to_verify(octets, certificate, &working)?)?;
        working = next_key(certificate, &working);
        left = others;
        behind = more;
    }
    Ok(found)
}

/// Returns what has to verify of a certificate with the working key.
fn to_verify<'a>(
    octets: &'a [u8],
    certificate: &Certificate<'a>,
    working: &WorkingKey<'a>,
) -> Result<Verification<'a>, AllocError>
    ensures { AllRead ⟦<Certificate<'a> as Form>⟧ octets.now certificate.now
        → IfOk result (HasToVerify working.now octets.now certificate.now) }
{
    match octets_of_tbs_certificate(octets) {
        Ok(signed) => Ok(Verification {
            signed,
            algorithm: copy_of(certificate.signature_algorithm()),
            signature: copy_of(certificate.signature_value()),
            key: working.key,
            parameters: working.parameters,
        }),
        Err(_error) => Err(AllocError),
    }
}

/// Returns the working key before the first certificate (6.1.2 (g) to (i)).
fn first_key<'a>(anchor: &Anchor<'a>) -> WorkingKey<'a>
    ensures { result ≡ first_key anchor.now }
{
    WorkingKey {
        key: anchor.key,
        parameters: own_parameters(anchor.key.algorithm()),
    }
}

/// Returns the working key after a certificate (6.1.4 (d) to (f)).
fn next_key<'a>(certificate: &Certificate<'a>, working: &WorkingKey<'a>) -> WorkingKey<'a>
    ensures { result ≡ next_key certificate.now working.now }
{
    let key = certificate.tbs_certificate().subject_public_key_info();
    WorkingKey {
        key: copy_of(key),
        parameters: parameters_after(key.algorithm(), working),
    }
}

/// Returns the parameters of a key after the working key.
fn parameters_after<'a>(
    algorithm: &AlgorithmIdentifier<'a>,
    working: &WorkingKey<'a>,
) -> Option<AnyRef<'a>>
    ensures { result ≡ parameters_after algorithm.now working.now }
{
    match own_parameters(algorithm) {
        Some(parameters) => Some(parameters),
        None => if algorithm.oid.as_bytes() == working.key.algorithm().oid.as_bytes() {
            working.parameters
        } else {
            None
        },
    }
}

/// Returns the parameters of an algorithm, if they are there and not NULL.
fn own_parameters<'a>(algorithm: &AlgorithmIdentifier<'a>) -> Option<AnyRef<'a>>
    ensures { result ≡ non_null algorithm.now.parameters }
{
    match algorithm.parameters {
        Some(parameters) => if parameters.is_null() {
            None
        } else {
            Some(parameters)
        },
        None => None,
    }
}
