//! The byte ranges of what has to verify of each certificate of a chain (RFC 5280 6.1.3 (a)(1)).

ghost use Rattle.std.specs.Prelude.{◌≡◌, ℕ, IfOk, List, Option};
ghost use Rattle.der_elem.specs.Accepting.{Fits};
ghost use Rattle.der_opaque.specs.declared.any_ref.AnyRef.{AnyRef};
ghost use Rattle.der_pkix.specs.Certificate.SubjectPublicKeyInfo as key_fields;
ghost use Rattle.der_path.specs.declared.keys.Anchor.{Anchor};
ghost use Rattle.der_path.specs.declared.keys.WorkingKey.{WorkingKey};
ghost use Rattle.der_path.specs.Keys.{first_key, key_of, next_key, non_null, or_else, parameters_after};
ghost use Rattle.der_c.specs.Building.{IsAt};
ghost use Rattle.der_c.specs.ChainPlaces.{EachAt, EachPlaced, Holds, HoldsIfThere, HoldsKey, IsPlaced};

use der_elem::Form;
use der_opaque::AnyRef;
use der_pkix::AlgorithmIdentifier;
use der_pkix::certificate::{Certificate, SubjectPublicKeyInfo};
use der_places::{Place, places_of};
use std::alloc::{AllocError, Global};

/// The byte ranges of what has to verify of a certificate.
#[repr(C)]
#[derive(Clone, Copy, Debug, PartialEq, Eq)]
pub struct VerificationAt {
    /// What the signature covers: tbsCertificate.
    pub signed_octets: Place,
    /// signatureAlgorithm.
    pub algorithm: Place,
    /// signatureValue.
    pub signature: Place,
    /// working_public_key with its algorithm, a SubjectPublicKeyInfo.
    pub key: Place,
    /// working_public_key_parameters; empty if there are none.
    pub parameters: Place,
}

/// The variables (g) to (i) of the state, by their byte ranges.
#[derive(Clone, Copy)]
pub struct KeyAt<'a> {
    /// The SubjectPublicKeyInfo.
    pub key: Place,
    /// The contents octets of the identifier of its algorithm.
    pub algorithm: &'a [u8],
    /// The parameters; empty if there are none.
    pub parameters: Place,
}

/// An empty byte range.
const NOWHERE: Place = Place {
    offset: 0,
    length: 0,
};

/// Returns what has to verify of each of the certificates at these byte ranges, where the first
/// has to verify with this key.
pub(crate) fn verifications_at<'a>(
    alloc: Global,
    octets: &[u8],
    first: KeyAt<'a>,
    chain: &[Place],
    certificates: &[Certificate<'a>],
) -> Result<Vec<VerificationAt>, AllocError>
    ensures { (w : WorkingKey) → Fits octets.now → HoldsKey octets.now w first.entry → EachAt octets.now chain.now certificates.now
        → IfOk result (λ found. EachPlaced octets.now w certificates.now found.items) }
{
    let mut found = Vec::new(alloc);
    let mut working = first;
    let mut left = chain;
    let mut behind = certificates;
    'each: while let [place, others @ ..] = left {
        let [certificate, more @ ..] = behind else {
            return Err(AllocError);
        };
        found.push(verification_at(certificate, octets, *place, &working))?;
        working = key_after(certificate, octets, *place, &working);
        left = others;
        behind = more;
    }
    Ok(found)
}

/// Returns what has to verify of a certificate at a byte range, with the working key.
fn verification_at<'a>(
    certificate: &Certificate<'a>,
    octets: &[u8],
    place: Place,
    working: &KeyAt<'a>,
) -> VerificationAt
    ensures { (w : WorkingKey) → Fits octets.now → HoldsKey octets.now w working.now → IsAt ⟦<Certificate<'a> as Form>⟧ octets.now place certificate.now
        → IsPlaced octets.now w certificate.now result }
{
    let parts = places_of(certificate, octets, place.offset);
    VerificationAt {
        signed_octets: parts.tbs_certificate,
        algorithm: parts.signature_algorithm,
        signature: parts.signature_value,
        key: working.key,
        parameters: working.parameters,
    }
}

/// Returns the working key after a certificate at a byte range (6.1.4 (d) to (f)).
fn key_after<'a>(
    certificate: &Certificate<'a>,
    octets: &[u8],
    place: Place,
    working: &KeyAt<'a>,
) -> KeyAt<'a>
    ensures { (w : WorkingKey) → Fits octets.now → HoldsKey octets.now w working.now → IsAt ⟦<Certificate<'a> as Form>⟧ octets.now place certificate.now
        → HoldsKey octets.now (next_key certificate.now w) result }
{
    let key = certificate.tbs_certificate().subject_public_key_info();
    let algorithm = key.algorithm();
    let at = key_place(certificate, octets, place);
    let own = own_parameters(key, octets, at);
    KeyAt {
        key: at,
        algorithm: algorithm.oid.as_bytes(),
        parameters: parameters_after(algorithm, own, working),
    }
}

/// Returns the working key before the first certificate, of the key of the anchor at a byte range
/// (6.1.2 (g) to (i)).
pub(crate) fn first_key<'a>(
    key: &SubjectPublicKeyInfo<'a>,
    octets: &[u8],
    place: Place,
) -> KeyAt<'a>
    ensures { (a : Anchor) → a.key ≡ key.now → Fits octets.now → Holds ⟦<SubjectPublicKeyInfo<'a> as Form>⟧ octets.now place key.now
        → HoldsKey octets.now (first_key a) result }
{
    let algorithm = key.algorithm();
    let own = own_parameters(key, octets, place);
    KeyAt {
        key: place,
        algorithm: algorithm.oid.as_bytes(),
        parameters: own_or(algorithm, own, NOWHERE),
    }
}

/// Returns the byte range of the key of a certificate at a byte range.
fn key_place<'a>(certificate: &Certificate<'a>, octets: &[u8], place: Place) -> Place
    ensures { Fits octets.now → IsAt ⟦<Certificate<'a> as Form>⟧ octets.now place certificate.now
        → Holds ⟦<SubjectPublicKeyInfo<'a> as Form>⟧ octets.now result (key_of certificate.now) }
{
    let parts = places_of(certificate, octets, place.offset);
    let signed = certificate.tbs_certificate();
    let fields = places_of(signed, octets, parts.tbs_certificate.offset);
    fields.subject_public_key_info
}

/// Returns the byte range of the parameters of a key at a byte range.
fn own_parameters<'a>(key: &SubjectPublicKeyInfo<'a>, octets: &[u8], place: Place) -> Place
    ensures { Fits octets.now → Holds ⟦<SubjectPublicKeyInfo<'a> as Form>⟧ octets.now place key.now
        → HoldsIfThere ⟦<AnyRef<'a> as Form>⟧ octets.now result (key_fields.algorithm key.now).parameters }
{
    let fields = places_of(key, octets, place.offset);
    let algorithm = key.algorithm();
    let parts = places_of(algorithm, octets, fields.algorithm.offset);
    parts.parameters
}

/// Returns the byte range of the parameters of a key after the working key: its own, or those that
/// it inherits.
fn parameters_after<'a>(
    algorithm: &AlgorithmIdentifier<'a>,
    own: Place,
    working: &KeyAt<'a>,
) -> Place
    ensures { (octets : List ℕ) (w : WorkingKey) → HoldsKey octets w working.now → HoldsIfThere ⟦<AnyRef<'a> as Form>⟧ octets own algorithm.now.parameters
        → HoldsIfThere ⟦<AnyRef<'a> as Form>⟧ octets result (parameters_after algorithm.now w) }
{
    if algorithm.oid.as_bytes() == working.algorithm {
        own_or(algorithm, own, working.parameters)
    } else {
        own_or(algorithm, own, NOWHERE)
    }
}

/// Returns the byte range of an algorithm's parameters if they are there and not NULL, else the
/// other byte range.
fn own_or<'a>(algorithm: &AlgorithmIdentifier<'a>, own: Place, other: Place) -> Place
    ensures { (octets : List ℕ) (o : Option AnyRef) → HoldsIfThere ⟦<AnyRef<'a> as Form>⟧ octets own algorithm.now.parameters → HoldsIfThere ⟦<AnyRef<'a> as Form>⟧ octets other o
        → HoldsIfThere ⟦<AnyRef<'a> as Form>⟧ octets result (or_else (non_null algorithm.now.parameters) o) }
{
    match algorithm.parameters {
        Some(parameters) => if parameters.is_null() { other } else { own },
        None => other,
    }
}
