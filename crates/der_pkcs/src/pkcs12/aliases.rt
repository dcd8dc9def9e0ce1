//! Type aliases of PKCS-12.
//!
//! Made by tools/asn1 from pkcs12.asn1.

ghost use Rattle.std.specs.Prelude.{◌≡◌};
ghost use Rattle.der_modules.specs.Asn1.{parse_of};
ghost use Rattle.der_pkcs.specs.Pkcs12.Grammar.{key_bag, pfx_version, pkcs12_pbe_params, pkcs8_shrouded_key_bag};

use crate::encryption::{EncryptedPrivateKeyInfo, PbeParameter};
use der_elem::Form;
use der_pkix::key::PrivateKeyInfo;

/// A type that is written out within another, as `PfxVersion`.
///
/// A number outside 0..255 is refused: the names alone say how wide the type is.
pub type PfxVersion = u8;

/// What is read as `PfxVersion` is what the grammar page says.
pub fn grammar_of_pfx_version()
    ensures { ⟦<PfxVersion as Form>⟧.parse ≡ parse_of pfx_version }
{}

/// `v3` of `PfxVersion`.
pub const PFX_VERSION_V3: u8 = 3;

/// ```text
/// KeyBag ::= PrivateKeyInfo
/// ```
pub type KeyBag<'a> = PrivateKeyInfo<'a>;

/// What is read as `KeyBag` is what the grammar page says.
pub fn grammar_of_key_bag<'a>()
    ensures { ⟦<KeyBag<'a> as Form>⟧.parse ≡ parse_of key_bag }
{}

/// ```text
/// PKCS8ShroudedKeyBag ::= EncryptedPrivateKeyInfo
/// ```
pub type Pkcs8ShroudedKeyBag<'a> = EncryptedPrivateKeyInfo<'a>;

/// What is read as `PKCS8ShroudedKeyBag` is what the grammar page says.
pub fn grammar_of_pkcs8_shrouded_key_bag<'a>()
    ensures { ⟦<Pkcs8ShroudedKeyBag<'a> as Form>⟧.parse ≡ parse_of pkcs8_shrouded_key_bag }
{}

/// ```text
/// Pkcs-12PbeParams ::= PBEParameter
/// ```
pub type Pkcs12PbeParams<'a> = PbeParameter<'a>;

/// What is read as `Pkcs-12PbeParams` is what the grammar page says.
pub fn grammar_of_pkcs12_pbe_params<'a>()
    ensures { ⟦<Pkcs12PbeParams<'a> as Form>⟧.parse ≡ parse_of pkcs12_pbe_params }
{}
