//! Type aliases of PkcsEncryption.
//!
//! Made by tools/asn1 from encryption.asn1.

ghost use Rattle.std.specs.Prelude.{◌≡◌};
ghost use Rattle.der_modules.specs.Asn1.{parse_of};
ghost use Rattle.der_pkcs.specs.Encryption.Grammar.{iv, pbmac1_params};

use crate::encryption::pbes2_params::Pbes2Params;
use der_elem::Form;
use der_opaque::OctetStringRef;

/// ```text
/// PBMAC1-params ::= PBES2-params
/// ```
pub type Pbmac1Params<'a> = Pbes2Params<'a>;

/// What is read as `PBMAC1-params` is what the grammar page says.
pub fn grammar_of_pbmac1_params<'a>()
    ensures { ⟦<Pbmac1Params<'a> as Form>⟧.parse ≡ parse_of pbmac1_params }
{}

/// ```text
/// IV ::= OCTET STRING
/// ```
pub type Iv<'a> = OctetStringRef<'a>;

/// What is read as `IV` is what the grammar page says.
pub fn grammar_of_iv<'a>()
    ensures { ⟦<Iv<'a> as Form>⟧.parse ≡ parse_of iv }
{}
