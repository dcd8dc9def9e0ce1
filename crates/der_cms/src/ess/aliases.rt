//! Type aliases of ExtendedSecurityServices-2006.
//!
//! Made by tools/asn1 from ess.asn1.

ghost use Rattle.std.specs.Prelude.{◌≡◌};
ghost use Rattle.der_cms.specs.Ess.Grammar.{hash};
ghost use Rattle.der_modules.specs.Asn1.{parse_of};

use der_elem::Form;
use der_opaque::OctetStringRef;

/// ```text
/// Hash ::= OCTET STRING
/// ```
pub type Hash<'a> = OctetStringRef<'a>;

/// What is read as `Hash` is what the grammar page says.
pub fn grammar_of_hash<'a>()
    ensures { ⟦<Hash<'a> as Form>⟧.parse ≡ parse_of hash }
{}
