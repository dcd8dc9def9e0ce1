//! Type aliases of PkixCertificates.
//!
//! Made by tools/asn1 from certificate.asn1.

ghost use Rattle.std.specs.Prelude.{◌≡◌};
ghost use Rattle.der_modules.specs.Asn1.{parse_of};
ghost use Rattle.der_pkix.specs.Certificate.Grammar.{algorithm_identifier, certificate_serial_number, unique_identifier, version};

use der_bits::BitStringRef;
use der_elem::Form;
use der_numbers::IntRef;

/// ```text
/// Version ::= INTEGER { v1(0), v2(1), v3(2) }
/// ```
///
/// A number outside 0..255 is refused: the names alone say how wide the type is.
pub type Version = u8;

/// What is read as `Version` is what the grammar page says.
pub fn grammar_of_version()
    ensures { ⟦<Version as Form>⟧.parse ≡ parse_of version }
{}

/// `v1` of `Version`.
pub const VERSION_V1: u8 = 0;

/// `v2` of `Version`.
pub const VERSION_V2: u8 = 1;

/// `v3` of `Version`.
pub const VERSION_V3: u8 = 2;

/// ```text
/// CertificateSerialNumber ::= INTEGER
/// ```
pub type CertificateSerialNumber<'a> = IntRef<'a>;

/// What is read as `CertificateSerialNumber` is what the grammar page says.
pub fn grammar_of_certificate_serial_number<'a>()
    ensures { ⟦<CertificateSerialNumber<'a> as Form>⟧.parse ≡ parse_of certificate_serial_number }
{}

/// ```text
/// UniqueIdentifier ::= BIT STRING
/// ```
pub type UniqueIdentifier<'a> = BitStringRef<'a>;

/// What is read as `UniqueIdentifier` is what the grammar page says.
pub fn grammar_of_unique_identifier<'a>()
    ensures { ⟦<UniqueIdentifier<'a> as Form>⟧.parse ≡ parse_of unique_identifier }
{}

pub use crate::AlgorithmIdentifier;

/// What is read as `AlgorithmIdentifier` is what the grammar page says.
pub fn grammar_of_algorithm_identifier<'a>()
    ensures { ⟦<AlgorithmIdentifier<'a> as Form>⟧.parse ≡ parse_of algorithm_identifier }
{}
