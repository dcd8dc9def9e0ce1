//! Type aliases of PkixNames.
//!
//! Made by tools/asn1 from name.asn1.

ghost use Rattle.std.specs.Prelude.{◌≡◌};
ghost use Rattle.der_modules.specs.Asn1.{parse_of};
ghost use Rattle.der_pkix.specs.Name.Grammar.{attribute_type, attribute_value, distinguished_name, name};

use crate::name::rdn_sequence::RdnSequence;
use der_elem::Form;
use der_opaque::{AnyRef, ObjectIdentifierRef};

/// ```text
/// AttributeType ::= OBJECT IDENTIFIER
/// ```
pub type AttributeType<'a> = ObjectIdentifierRef<'a, 39>;

/// What is read as `AttributeType` is what the grammar page says.
pub fn grammar_of_attribute_type<'a>()
    ensures { ⟦<AttributeType<'a> as Form>⟧.parse ≡ parse_of attribute_type }
{}

/// ```text
/// AttributeValue ::= ANY
/// ```
pub type AttributeValue<'a> = AnyRef<'a>;

/// What is read as `AttributeValue` is what the grammar page says.
pub fn grammar_of_attribute_value<'a>()
    ensures { ⟦<AttributeValue<'a> as Form>⟧.parse ≡ parse_of attribute_value }
{}

/// ```text
/// Name ::= CHOICE { -- only one possibility for now --
///      rdnSequence  RDNSequence }
/// ```
pub type Name<'a> = RdnSequence<'a>;

/// What is read as `Name` is what the grammar page says.
pub fn grammar_of_name<'a>()
    ensures { ⟦<Name<'a> as Form>⟧.parse ≡ parse_of name }
{}

/// ```text
/// DistinguishedName ::= RDNSequence
/// ```
pub type DistinguishedName<'a> = RdnSequence<'a>;

/// What is read as `DistinguishedName` is what the grammar page says.
pub fn grammar_of_distinguished_name<'a>()
    ensures { ⟦<DistinguishedName<'a> as Form>⟧.parse ≡ parse_of distinguished_name }
{}
