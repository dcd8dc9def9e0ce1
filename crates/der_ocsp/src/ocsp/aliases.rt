//! Type aliases of OCSP-2013-88.
//!
//! Made by tools/asn1 from ocsp.asn1.

ghost use Rattle.std.specs.Prelude.{◌≡◌};
ghost use Rattle.der_modules.specs.Asn1.{parse_of};
ghost use Rattle.der_ocsp.specs.Ocsp.Grammar.{archive_cutoff, extended_revoke, key_hash, nonce, unknown_info, version};

use der_elem::Form;
use der_opaque::{Null, OctetStringRef};
use der_time::GeneralizedTime;

/// ```text
/// Version ::= INTEGER { v1(0) }
/// ```
///
/// A number outside 0..255 is refused: the names alone say how wide the type is.
pub type Version = u8;

/// What is read as `Version` is what the grammar page says.
pub fn grammar_of_version()
    ensures { ⟦<Version as Form>⟧.parse ≡ parse_of version }
{}

/// `v1` of `Version`.
pub const VERSION_V1: u8 = 0;

/// ```text
/// KeyHash ::= OCTET STRING
/// ```
pub type KeyHash<'a> = OctetStringRef<'a>;

/// What is read as `KeyHash` is what the grammar page says.
pub fn grammar_of_key_hash<'a>()
    ensures { ⟦<KeyHash<'a> as Form>⟧.parse ≡ parse_of key_hash }
{}

/// ```text
/// UnknownInfo ::= NULL
/// ```
pub type UnknownInfo = Null;

/// What is read as `UnknownInfo` is what the grammar page says.
pub fn grammar_of_unknown_info()
    ensures { ⟦<UnknownInfo as Form>⟧.parse ≡ parse_of unknown_info }
{}

/// ```text
/// Nonce ::= OCTET STRING (SIZE (1..32))
/// ```
///
/// Not checked: SIZE (1..32) is not checked.
pub type Nonce<'a> = OctetStringRef<'a>;

/// What is read as `Nonce` is what the grammar page says.
pub fn grammar_of_nonce<'a>()
    ensures { ⟦<Nonce<'a> as Form>⟧.parse ≡ parse_of nonce }
{}

/// ```text
/// ArchiveCutoff ::= GeneralizedTime
/// ```
pub type ArchiveCutoff = GeneralizedTime;

/// What is read as `ArchiveCutoff` is what the grammar page says.
pub fn grammar_of_archive_cutoff()
    ensures { ⟦<ArchiveCutoff as Form>⟧.parse ≡ parse_of archive_cutoff }
{}

/// ```text
/// ExtendedRevoke ::= NULL
/// ```
pub type ExtendedRevoke = Null;

/// What is read as `ExtendedRevoke` is what the grammar page says.
pub fn grammar_of_extended_revoke()
    ensures { ⟦<ExtendedRevoke as Form>⟧.parse ≡ parse_of extended_revoke }
{}
