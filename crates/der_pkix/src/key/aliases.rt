//! Type aliases of PkixKeys.
//!
//! Made by tools/asn1 from key.asn1.

ghost use Rattle.std.specs.Prelude.{◌≡◌};
ghost use Rattle.der_modules.specs.Asn1.{parse_of};
ghost use Rattle.der_pkix.specs.Key.Grammar.{ec_private_key_version, one_asymmetric_key_version, private_key_info, rsa_private_key_version, specified_ec_domain_version};

use crate::key::one_asymmetric_key::OneAsymmetricKey;
use der_elem::Form;

/// A type that is written out within another, as `OneAsymmetricKeyVersion`.
///
/// A number outside 0..255 is refused: the names alone say how wide the type is.
pub type OneAsymmetricKeyVersion = u8;

/// What is read as `OneAsymmetricKeyVersion` is what the grammar page says.
pub fn grammar_of_one_asymmetric_key_version()
    ensures { ⟦<OneAsymmetricKeyVersion as Form>⟧.parse ≡ parse_of one_asymmetric_key_version }
{}

/// `v1` of `OneAsymmetricKeyVersion`.
pub const ONE_ASYMMETRIC_KEY_VERSION_V1: u8 = 0;

/// `v2` of `OneAsymmetricKeyVersion`.
pub const ONE_ASYMMETRIC_KEY_VERSION_V2: u8 = 1;

/// ```text
/// PrivateKeyInfo ::= OneAsymmetricKey
/// ```
pub type PrivateKeyInfo<'a> = OneAsymmetricKey<'a>;

/// What is read as `PrivateKeyInfo` is what the grammar page says.
pub fn grammar_of_private_key_info<'a>()
    ensures { ⟦<PrivateKeyInfo<'a> as Form>⟧.parse ≡ parse_of private_key_info }
{}

/// A type that is written out within another, as `RsaPrivateKeyVersion`.
///
/// A number outside 0..255 is refused: the names alone say how wide the type is.
pub type RsaPrivateKeyVersion = u8;

/// What is read as `RsaPrivateKeyVersion` is what the grammar page says.
pub fn grammar_of_rsa_private_key_version()
    ensures { ⟦<RsaPrivateKeyVersion as Form>⟧.parse ≡ parse_of rsa_private_key_version }
{}

/// `two-prime` of `RsaPrivateKeyVersion`.
pub const RSA_PRIVATE_KEY_VERSION_TWO_PRIME: u8 = 0;

/// `multi` of `RsaPrivateKeyVersion`.
pub const RSA_PRIVATE_KEY_VERSION_MULTI: u8 = 1;

/// A type that is written out within another, as `EcPrivateKeyVersion`.
///
/// A number outside 0..255 is refused: the names alone say how wide the type is.
pub type EcPrivateKeyVersion = u8;

/// What is read as `EcPrivateKeyVersion` is what the grammar page says.
pub fn grammar_of_ec_private_key_version()
    ensures { ⟦<EcPrivateKeyVersion as Form>⟧.parse ≡ parse_of ec_private_key_version }
{}

/// `ecPrivkeyVer1` of `EcPrivateKeyVersion`.
pub const EC_PRIVATE_KEY_VERSION_EC_PRIVKEY_VER1: u8 = 1;

/// A type that is written out within another, as `SpecifiedEcDomainVersion`.
///
/// A number outside 0..255 is refused: the names alone say how wide the type is.
pub type SpecifiedEcDomainVersion = u8;

/// What is read as `SpecifiedEcDomainVersion` is what the grammar page says.
pub fn grammar_of_specified_ec_domain_version()
    ensures { ⟦<SpecifiedEcDomainVersion as Form>⟧.parse ≡ parse_of specified_ec_domain_version }
{}

/// `ecdpVer1` of `SpecifiedEcDomainVersion`.
pub const SPECIFIED_EC_DOMAIN_VERSION_ECDP_VER1: u8 = 1;

/// `ecdpVer2` of `SpecifiedEcDomainVersion`.
pub const SPECIFIED_EC_DOMAIN_VERSION_ECDP_VER2: u8 = 2;

/// `ecdpVer3` of `SpecifiedEcDomainVersion`.
pub const SPECIFIED_EC_DOMAIN_VERSION_ECDP_VER3: u8 = 3;
