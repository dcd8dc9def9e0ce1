//! Type aliases of PKCS-10.
//!
//! Made by tools/asn1 from request.asn1.

ghost use Rattle.std.specs.Prelude.{◌≡◌};
ghost use Rattle.der_modules.specs.Asn1.{parse_of};
ghost use Rattle.der_pkcs.specs.Request.Grammar.{certification_request_info_version, challenge_password, extension_request};

use der_elem::Form;
use der_opaque::AnyRef;
use der_pkix::certificate::Extensions;

/// A type that is written out within another, as `CertificationRequestInfoVersion`.
///
/// A number outside 0..255 is refused: the names alone say how wide the type is.
pub type CertificationRequestInfoVersion = u8;

/// What is read as `CertificationRequestInfoVersion` is what the grammar page says.
pub fn grammar_of_certification_request_info_version()
    ensures { ⟦<CertificationRequestInfoVersion as Form>⟧.parse ≡ parse_of certification_request_info_version }
{}

/// `v1` of `CertificationRequestInfoVersion`.
pub const CERTIFICATION_REQUEST_INFO_VERSION_V1: u8 = 0;

/// ```text
/// ExtensionRequest ::= Extensions
/// ```
pub type ExtensionRequest<'a> = Extensions<'a>;

/// What is read as `ExtensionRequest` is what the grammar page says.
pub fn grammar_of_extension_request<'a>()
    ensures { ⟦<ExtensionRequest<'a> as Form>⟧.parse ≡ parse_of extension_request }
{}

/// ```text
/// ChallengePassword ::= ANY
/// ```
pub type ChallengePassword<'a> = AnyRef<'a>;

/// What is read as `ChallengePassword` is what the grammar page says.
pub fn grammar_of_challenge_password<'a>()
    ensures { ⟦<ChallengePassword<'a> as Form>⟧.parse ≡ parse_of challenge_password }
{}
