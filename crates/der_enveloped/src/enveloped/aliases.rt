//! Type aliases of CmsEnveloped.
//!
//! Made by tools/asn1 from enveloped.asn1.

ghost use Rattle.std.specs.Prelude.{◌≡◌};
ghost use Rattle.der_enveloped.specs.Enveloped.Grammar.{kek_identifier, originator_public_key, other_key_attribute, other_recipient_info, recipient_identifier, user_keying_material};
ghost use Rattle.der_modules.specs.Asn1.{parse_of};

use crate::enveloped::recipient_key_identifier::RecipientKeyIdentifier;
use der_cms::cms::SignerIdentifier;
use der_elem::Form;
use der_opaque::OctetStringRef;
use der_pkix::AlgorithmIdentifier;
use der_pkix::certificate::SubjectPublicKeyInfo;
use der_pkix::name::AttributeTypeAndValue;

/// ```text
/// RecipientIdentifier ::= SignerIdentifier
/// ```
pub type RecipientIdentifier<'a> = SignerIdentifier<'a>;

/// What is read as `RecipientIdentifier` is what the grammar page says.
pub fn grammar_of_recipient_identifier<'a>()
    ensures { ⟦<RecipientIdentifier<'a> as Form>⟧.parse ≡ parse_of recipient_identifier }
{}

/// ```text
/// OriginatorPublicKey ::= SubjectPublicKeyInfo
/// ```
pub type OriginatorPublicKey<'a> = SubjectPublicKeyInfo<'a>;

/// What is read as `OriginatorPublicKey` is what the grammar page says.
pub fn grammar_of_originator_public_key<'a>()
    ensures { ⟦<OriginatorPublicKey<'a> as Form>⟧.parse ≡ parse_of originator_public_key }
{}

/// ```text
/// KEKIdentifier ::= RecipientKeyIdentifier
/// ```
pub type KekIdentifier<'a> = RecipientKeyIdentifier<'a>;

/// What is read as `KEKIdentifier` is what the grammar page says.
pub fn grammar_of_kek_identifier<'a>()
    ensures { ⟦<KekIdentifier<'a> as Form>⟧.parse ≡ parse_of kek_identifier }
{}

/// ```text
/// OtherRecipientInfo ::= AttributeTypeAndValue
/// ```
pub type OtherRecipientInfo<'a> = AttributeTypeAndValue<'a>;

/// What is read as `OtherRecipientInfo` is what the grammar page says.
pub fn grammar_of_other_recipient_info<'a>()
    ensures { ⟦<OtherRecipientInfo<'a> as Form>⟧.parse ≡ parse_of other_recipient_info }
{}

/// ```text
/// UserKeyingMaterial ::= OCTET STRING
/// ```
pub type UserKeyingMaterial<'a> = OctetStringRef<'a>;

/// What is read as `UserKeyingMaterial` is what the grammar page says.
pub fn grammar_of_user_keying_material<'a>()
    ensures { ⟦<UserKeyingMaterial<'a> as Form>⟧.parse ≡ parse_of user_keying_material }
{}

/// ```text
/// OtherKeyAttribute ::= AlgorithmIdentifier
/// ```
pub type OtherKeyAttribute<'a> = AlgorithmIdentifier<'a>;

/// What is read as `OtherKeyAttribute` is what the grammar page says.
pub fn grammar_of_other_key_attribute<'a>()
    ensures { ⟦<OtherKeyAttribute<'a> as Form>⟧.parse ≡ parse_of other_key_attribute }
{}
