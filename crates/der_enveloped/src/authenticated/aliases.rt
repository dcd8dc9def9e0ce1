//! Type aliases of CmsAuthenticated.
//!
//! Made by tools/asn1 from authenticated.asn1.

ghost use Rattle.std.specs.Prelude.{◌≡◌};
ghost use Rattle.der_enveloped.specs.Authenticated.Grammar.{auth_attributes, unauth_attributes};
ghost use Rattle.der_modules.specs.Asn1.{parse_of};

use der_cms::cms::{SignedAttributes, UnsignedAttributes};
use der_elem::Form;

/// ```text
/// AuthAttributes ::= SignedAttributes
/// ```
pub type AuthAttributes<'a> = SignedAttributes<'a>;

/// What is read as `AuthAttributes` is what the grammar page says.
pub fn grammar_of_auth_attributes<'a>()
    ensures { ⟦<AuthAttributes<'a> as Form>⟧.parse ≡ parse_of auth_attributes }
{}

/// ```text
/// UnauthAttributes ::= UnsignedAttributes
/// ```
pub type UnauthAttributes<'a> = UnsignedAttributes<'a>;

/// What is read as `UnauthAttributes` is what the grammar page says.
pub fn grammar_of_unauth_attributes<'a>()
    ensures { ⟦<UnauthAttributes<'a> as Form>⟧.parse ≡ parse_of unauth_attributes }
{}
