//! Type aliases of CmsSigned.
//!
//! Made by tools/asn1 from cms.asn1.

ghost use Rattle.std.specs.Prelude.{◌≡◌};
ghost use Rattle.der_cms.specs.Cms.Grammar.{cms_version, content_type, countersignature, message_digest, other_certificate_format, other_revocation_info_format, signing_time, unprotected_attributes};
ghost use Rattle.der_modules.specs.Asn1.{parse_of};

use crate::cms::signer_info::SignerInfo;
use crate::cms::unsigned_attributes::UnsignedAttributes;
use der_elem::Form;
use der_opaque::{ObjectIdentifierRef, OctetStringRef};
use der_pkix::certificate::Time;
use der_pkix::name::AttributeTypeAndValue;

/// ```text
/// ContentType ::= OBJECT IDENTIFIER
/// ```
pub type ContentType<'a> = ObjectIdentifierRef<'a, 39>;

/// What is read as `ContentType` is what the grammar page says.
pub fn grammar_of_content_type<'a>()
    ensures { ⟦<ContentType<'a> as Form>⟧.parse ≡ parse_of content_type }
{}

/// ```text
/// UnprotectedAttributes ::= UnsignedAttributes
/// ```
pub type UnprotectedAttributes<'a> = UnsignedAttributes<'a>;

/// What is read as `UnprotectedAttributes` is what the grammar page says.
pub fn grammar_of_unprotected_attributes<'a>()
    ensures { ⟦<UnprotectedAttributes<'a> as Form>⟧.parse ≡ parse_of unprotected_attributes }
{}

/// ```text
/// OtherRevocationInfoFormat ::= AttributeTypeAndValue
/// ```
pub type OtherRevocationInfoFormat<'a> = AttributeTypeAndValue<'a>;

/// What is read as `OtherRevocationInfoFormat` is what the grammar page says.
pub fn grammar_of_other_revocation_info_format<'a>()
    ensures { ⟦<OtherRevocationInfoFormat<'a> as Form>⟧.parse ≡ parse_of other_revocation_info_format }
{}

/// ```text
/// OtherCertificateFormat ::= AttributeTypeAndValue
/// ```
pub type OtherCertificateFormat<'a> = AttributeTypeAndValue<'a>;

/// What is read as `OtherCertificateFormat` is what the grammar page says.
pub fn grammar_of_other_certificate_format<'a>()
    ensures { ⟦<OtherCertificateFormat<'a> as Form>⟧.parse ≡ parse_of other_certificate_format }
{}

/// ```text
/// CMSVersion ::= INTEGER { v0(0), v1(1), v2(2), v3(3), v4(4), v5(5) }
/// ```
///
/// A number outside 0..255 is refused: the names alone say how wide the type is.
pub type CmsVersion = u8;

/// What is read as `CMSVersion` is what the grammar page says.
pub fn grammar_of_cms_version()
    ensures { ⟦<CmsVersion as Form>⟧.parse ≡ parse_of cms_version }
{}

/// `v0` of `CMSVersion`.
pub const CMS_VERSION_V0: u8 = 0;

/// `v1` of `CMSVersion`.
pub const CMS_VERSION_V1: u8 = 1;

/// `v2` of `CMSVersion`.
pub const CMS_VERSION_V2: u8 = 2;

/// `v3` of `CMSVersion`.
pub const CMS_VERSION_V3: u8 = 3;

/// `v4` of `CMSVersion`.
pub const CMS_VERSION_V4: u8 = 4;

/// `v5` of `CMSVersion`.
pub const CMS_VERSION_V5: u8 = 5;

/// ```text
/// MessageDigest ::= OCTET STRING
/// ```
pub type MessageDigest<'a> = OctetStringRef<'a>;

/// What is read as `MessageDigest` is what the grammar page says.
pub fn grammar_of_message_digest<'a>()
    ensures { ⟦<MessageDigest<'a> as Form>⟧.parse ≡ parse_of message_digest }
{}

/// ```text
/// SigningTime ::= Time
/// ```
pub type SigningTime = Time;

/// What is read as `SigningTime` is what the grammar page says.
pub fn grammar_of_signing_time()
    ensures { ⟦<SigningTime as Form>⟧.parse ≡ parse_of signing_time }
{}

/// ```text
/// Countersignature ::= SignerInfo
/// ```
pub type Countersignature<'a> = SignerInfo<'a>;

/// What is read as `Countersignature` is what the grammar page says.
pub fn grammar_of_countersignature<'a>()
    ensures { ⟦<Countersignature<'a> as Form>⟧.parse ≡ parse_of countersignature }
{}
