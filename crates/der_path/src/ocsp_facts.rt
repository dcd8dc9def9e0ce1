//! What RFC 6960 takes from an answer about the status of certificates, read into memory.

ghost use Rattle.std.specs.Prelude.{◌≡◌, IfOk, List, option_copied};
ghost use Rattle.std.specs.List.{list_any};
ghost use Rattle.der_pkix.specs.declared.certificate.extension.Extension.{Extension};
ghost use Rattle.der_pkix.specs.Certificate.TbsCertificate as tbs_fields;
ghost use Rattle.der_ocsp.specs.Ocsp.ResponseData as data_fields;
ghost use Rattle.der_verify.specs.Rfc5280.{AreListed};
ghost use Rattle.der_path.specs.Facts.{Reads};
ghost use Rattle.der_path.specs.OcspFacts.{is_critical, signs, KeepsDelegate, ShowsAnswer, ShowsDelegateFacts, ShowsEachDelegate, ShowsEachPurpose, ShowsEachSingle, ShowsResponder};

use crate::extension_values::value_in;
use crate::facts::{NoFacts, has_unknown_critical_in};
use crate::keep::{Keeper, keep_items};
use crate::names::Part;
use crate::read_names::parts_of;
use der_elem::Form;
use der_extensions::extension::constants::{ID_CE_EXT_KEY_USAGE, ID_CE_KEY_USAGE};
use der_extensions::extension::{
    ExtKeyUsageSyntax, KEY_USAGE_DIGITAL_SIGNATURE, KeyPurposeId, KeyUsage,
};
use der_lists::ItemTest;
use der_ocsp::ocsp::{
    BasicOcspResponse, CertStatus, Certificates, ResponderId, ResponseData, SingleResponse,
};
use der_pkix::certificate::{Certificate, Extension, Extensions, TbsCertificate, Validity};
use der_time::GeneralizedTime;
use std::alloc::{AllocError, Global};

/// What RFC 6960 takes from an answer.
#[derive(Drop)]
pub struct AnswerFacts<'a> {
    /// responderID.
    pub responder: ResponderFacts<'a>,
    /// responses.
    pub singles: Vec<Single<'a>>,
    /// certs.
    pub delegates: Vec<Delegate<'a>>,
    /// Whether one of responseExtensions is critical.
    pub has_critical: bool,
}

/// A ResponderID, in memory.
#[derive(Drop)]
pub enum ResponderFacts<'a> {
    /// byName, by the parts of the name.
    Name(Vec<Part<'a>>),
    /// byKey, the SHA-1 hash of the responder's public key.
    Key(&'a [u8]),
}

/// A SingleResponse.
#[derive(Clone, Copy)]
pub struct Single<'a> {
    /// The contents octets of the identifier of hashAlgorithm.
    pub algorithm: &'a [u8],
    /// issuerNameHash.
    pub name_hash: &'a [u8],
    /// issuerKeyHash.
    pub key_hash: &'a [u8],
    /// The contents octets of serialNumber.
    pub serial: &'a [u8],
    /// certStatus.
    pub status: CertStatus,
    /// thisUpdate.
    pub this_update: GeneralizedTime,
    /// nextUpdate.
    pub next_update: Option<GeneralizedTime>,
    /// Whether one of singleExtensions is critical.
    pub has_critical: bool,
}

/// A certificate of the answer.
#[derive(Drop)]
pub enum Delegate<'a> {
    /// The certificate was read.
    Read(DelegateFacts<'a>),
    /// keyUsage or extKeyUsage stands twice, or its value cannot be read.
    Unread,
}

/// What RFC 6960 section 4.2.2.2 takes from a certificate.
#[derive(Drop)]
pub struct DelegateFacts<'a> {
    /// The issuer.
    pub issuer: Vec<Part<'a>>,
    /// The subject.
    pub subject: Vec<Part<'a>>,
    /// The validity.
    pub validity: Validity,
    /// Whether keyUsage is absent or has digitalSignature (RFC 5280 4.2.1.3).
    pub signs: bool,
    /// extKeyUsage (RFC 5280 4.2.1.12).
    pub purposes: Option<Vec<Purpose<'a>>>,
    /// Whether an extension is critical that RFC 5280 section 6.1 does not process.
    pub has_unknown_critical: bool,
}

/// A KeyPurposeId, by the contents octets.
#[derive(Clone, Copy)]
pub struct Purpose<'a> {
    /// The contents octets of the identifier.
    pub octets: &'a [u8],
}

/// Reads what RFC 6960 takes from an answer.
pub(crate) fn answer_facts_of<'a>(
    alloc: Global,
    answer: &BasicOcspResponse<'a>,
) -> Result<AnswerFacts<'a>, AllocError>
    ensures { IfOk result (ShowsAnswer answer.now) }
{
    let response = answer.tbs_response_data();
    let responder = responder_of(alloc, response.responder_id())?;
    let singles = singles_of(alloc, response)?;
    let delegates = delegates_in(alloc, answer.certs())?;
    Ok(AnswerFacts {
        responder,
        singles,
        delegates,
        has_critical: has_critical(alloc, response.response_extensions()),
    })
}

/// Reads a ResponderID.
fn responder_of<'a>(
    alloc: Global,
    responder: &ResponderId<'a>,
) -> Result<ResponderFacts<'a>, AllocError>
    ensures { IfOk result (ShowsResponder responder.now) }
{
    match responder {
        ResponderId::ByName(name) => Ok(ResponderFacts::Name(parts_of(alloc, &name.fields.first)?)),
        ResponderId::ByKey(key) => Ok(ResponderFacts::Key(key.fields.first.as_bytes())),
    }
}

/// Reads the parts of the answer, each about one certificate.
fn singles_of<'a>(alloc: Global, response: &ResponseData<'a>) -> Result<Vec<Single<'a>>, AllocError>
    ensures { IfOk result (λ kept. ShowsEachSingle (data_fields.responses response.now) kept.items) }
{
    keep_items::<SingleResponse<'a>, KeepSingle>(alloc, response.responses().items().as_bytes())
}

/// Keeps a SingleResponse.
struct KeepSingle;

impl<'a> Keeper<SingleResponse<'a>> for KeepSingle {
    ghost use Rattle.der_path.specs.OcspFacts.{ShowsSingle};

    type Kept = Single<'a>;

    ghost shows = { ShowsSingle };

    fn keep(alloc: Global, item: &SingleResponse<'a>) -> Result<Single<'a>, AllocError> {
        let id = item.cert_id();
        Ok(Single {
            algorithm: id.hash_algorithm().oid.as_bytes(),
            name_hash: id.issuer_name_hash().as_bytes(),
            key_hash: id.issuer_key_hash().as_bytes(),
            serial: id.serial_number().as_bytes(),
            status: item.cert_status(),
            this_update: item.this_update(),
            next_update: item.next_update(),
            has_critical: has_critical(alloc, item.single_extensions()),
        })
    }
}

/// Reads the certificates of the answer, if there are any.
fn delegates_in<'a>(
    alloc: Global,
    certificates: Option<&Certificates<'a>>,
) -> Result<Vec<Delegate<'a>>, AllocError>
    ensures { IfOk result (λ kept. ShowsEachDelegate (option_copied certificates.entry) kept.items) }
{
    match certificates {
        Some(certificates) => keep_items::<Certificate<'a>, KeepDelegate>(
            alloc,
            certificates.items().as_bytes(),
        ),
        None => Ok(Vec::new(alloc)),
    }
}

/// Keeps a certificate of the answer.
struct KeepDelegate;

impl<'a> Keeper<Certificate<'a>> for KeepDelegate {
    ghost use Rattle.der_path.specs.OcspFacts.{ShowsDelegate};

    type Kept = Delegate<'a>;

    ghost shows = { ShowsDelegate };

    fn keep(alloc: Global, item: &Certificate<'a>) -> Result<Delegate<'a>, AllocError> {
        match delegate_facts_of(alloc, item.tbs_certificate()) {
            Ok(facts) => Ok(Delegate::Read(facts)),
            Err(NoFacts::Unread) => Ok(Delegate::Unread),
            Err(NoFacts::Memory) => Err(AllocError),
        }
    }
}

/// Reads what RFC 6960 section 4.2.2.2 takes from a certificate.
fn delegate_facts_of<'a>(
    alloc: Global,
    certificate: &TbsCertificate<'a>,
) -> Result<DelegateFacts<'a>, NoFacts>
    ensures { (listed : List Extension) → AreListed ⟦<Extension<'a> as Form>⟧ (tbs_fields.extensions certificate.now) listed
        → Reads (ShowsDelegateFacts certificate.now listed) result }
{
    let usage = value_in::<KeyUsage<'a>>(alloc, certificate.extensions(), &ID_CE_KEY_USAGE)?;
    let purposes = value_in::<ExtKeyUsageSyntax<'a>>(
        alloc,
        certificate.extensions(),
        &ID_CE_EXT_KEY_USAGE,
    )?;
    let Ok(is_unknown) = has_unknown_critical_in(alloc, certificate) else {
        return Err(NoFacts::Memory);
    };
    match kept_delegate(alloc, certificate, usage, purposes, is_unknown) {
        Ok(facts) => Ok(facts),
        Err(_error) => Err(NoFacts::Memory),
    }
}

/// Reads the names and the purposes of a certificate.
fn kept_delegate<'a>(
    alloc: Global,
    certificate: &TbsCertificate<'a>,
    usage: Option<KeyUsage<'a>>,
    purposes: Option<ExtKeyUsageSyntax<'a>>,
    has_unknown_critical: bool,
) -> Result<DelegateFacts<'a>, AllocError>
    ensures { IfOk result (KeepsDelegate certificate.now usage.entry purposes.entry has_unknown_critical) }
{
    let issuer = parts_of(alloc, certificate.issuer())?;
    let subject = parts_of(alloc, certificate.subject())?;
    let purposes = purposes_in(alloc, purposes)?;
    Ok(DelegateFacts {
        issuer,
        subject,
        validity: certificate.validity(),
        signs: signs(usage),
        purposes,
        has_unknown_critical,
    })
}

/// Returns whether keyUsage is absent or has digitalSignature.
fn signs(usage: Option<KeyUsage<'_>>) -> bool
    ensures { result ≡ signs usage.entry }
{
    match usage {
        Some(usage) => usage.has(KEY_USAGE_DIGITAL_SIGNATURE),
        None => true,
    }
}

/// Reads purposes, if they are there.
fn purposes_in<'a>(
    alloc: Global,
    purposes: Option<ExtKeyUsageSyntax<'a>>,
) -> Result<Option<Vec<Purpose<'a>>>, AllocError>
    ensures { IfOk result (ShowsEachPurpose purposes.entry) }
{
    match purposes {
        Some(purposes) => Ok(Some(keep_items::<KeyPurposeId<'a>, KeepPurpose>(
            alloc,
            purposes.items().as_bytes(),
        )?)),
        None => Ok(None),
    }
}

/// Keeps the identifier of a purpose.
struct KeepPurpose;

impl<'a> Keeper<KeyPurposeId<'a>> for KeepPurpose {
    ghost use Rattle.der_path.specs.OcspFacts.{ShowsPurpose};

    type Kept = Purpose<'a>;

    ghost shows = { ShowsPurpose };

    fn keep(_alloc: Global, item: &KeyPurposeId<'a>) -> Result<Purpose<'a>, AllocError> {
        Ok(Purpose {
            octets: item.as_bytes(),
        })
    }
}

/// Returns whether an extension is critical.
fn has_critical<'a>(alloc: Global, extensions: Option<&Extensions<'a>>) -> bool
    ensures { (listed : List Extension) → AreListed ⟦<Extension<'a> as Form>⟧ (option_copied extensions.entry) listed
        → result ≡ list_any is_critical listed }
{
    match extensions {
        Some(extensions) => extensions.items().any(alloc, &IsCritical),
        None => false,
    }
}

/// The test that an extension is critical.
struct IsCritical;

impl<'a> ItemTest<Extension<'a>> for IsCritical {
    ghost use Rattle.der_path.specs.OcspFacts.{is_critical};
    ghost use Rattle.der_path.specs.OcspFactsLaws.{alike_critical};

    ghost passes = { λ p. is_critical };

    fn passes(&self, item: &Extension<'a>) -> bool {
        item.critical()
    }

    ghost respects = { λ p. alike_critical };
}
