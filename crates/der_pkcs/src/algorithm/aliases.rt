//! Type aliases of PkixAlgorithms.
//!
//! Made by tools/asn1 from algorithm.asn1.

ghost use Rattle.std.specs.Prelude.{◌≡◌};
ghost use Rattle.der_modules.specs.Asn1.{parse_of};
ghost use Rattle.der_pkcs.specs.Algorithm.Grammar.{dh_public_key, dsa_public_key, dss_sig_value, signed_certificate_timestamp_list};

use crate::algorithm::ecdsa_sig_value::EcdsaSigValue;
use der_elem::Form;
use der_numbers::UintRef;
use der_opaque::OctetStringRef;

/// ```text
/// Dss-Sig-Value ::= ECDSA-Sig-Value
/// ```
pub type DssSigValue<'a> = EcdsaSigValue<'a>;

/// What is read as `Dss-Sig-Value` is what the grammar page says.
pub fn grammar_of_dss_sig_value<'a>()
    ensures { ⟦<DssSigValue<'a> as Form>⟧.parse ≡ parse_of dss_sig_value }
{}

/// ```text
/// DSAPublicKey ::= INTEGER (0..MAX)
/// ```
pub type DsaPublicKey<'a> = UintRef<'a>;

/// What is read as `DSAPublicKey` is what the grammar page says.
pub fn grammar_of_dsa_public_key<'a>()
    ensures { ⟦<DsaPublicKey<'a> as Form>⟧.parse ≡ parse_of dsa_public_key }
{}

/// ```text
/// DHPublicKey ::= INTEGER (0..MAX)
/// ```
pub type DhPublicKey<'a> = UintRef<'a>;

/// What is read as `DHPublicKey` is what the grammar page says.
pub fn grammar_of_dh_public_key<'a>()
    ensures { ⟦<DhPublicKey<'a> as Form>⟧.parse ≡ parse_of dh_public_key }
{}

/// ```text
/// SignedCertificateTimestampList ::= OCTET STRING
/// ```
pub type SignedCertificateTimestampList<'a> = OctetStringRef<'a>;

/// What is read as `SignedCertificateTimestampList` is what the grammar page says.
pub fn grammar_of_signed_certificate_timestamp_list<'a>()
    ensures { ⟦<SignedCertificateTimestampList<'a> as Form>⟧.parse ≡ parse_of signed_certificate_timestamp_list }
{}
