//! The fields of a PBKDF2-params.
//!
//! Made by tools/asn1 from encryption.asn1.

ghost use Rattle.std.proofs.Common.{lit<};
ghost use Rattle.std.specs.Prelude.{◌∷◌, List, [], ℕ};
ghost use Rattle.der_pkcs.specs.Encryption.Pbkdf2Params as fields_of;
ghost use Rattle.der_pkcs.specs.declared.encryption.pbkdf2_salt.Pbkdf2Salt.{Pbkdf2Salt};
ghost use Rattle.der_pkcs.specs.declared.encryption.pbkdf2_salt.Pbkdf2Salt.TheVariants as pbkdf2_salt_of;
ghost use Rattle.der_places.specs.Layout.{field, no_more, optional};
ghost use Rattle.der_places.specs.LayoutLaws.{first_of, is_encoding, perhaps};
ghost use Rattle.der_places.specs.Walking.{IsEncoding};
ghost use Rattle.der_tlv.specs.declared.encoding_rules.EncodingRules.TheVariants.{Der};
ghost use Rattle.der_tlv.specs.declared.tag.Tag.TheVariants as tags;

use crate::place::Place;
use crate::placed::Placed;
use crate::presence::{is_some, is_there};
use crate::walk::next_place;
use der_elem::Form;
use der_pkcs::encryption::{Pbkdf2Params, Pbkdf2Salt};
use der_pkix::AlgorithmIdentifier;

/// Byte ranges of the fields of a `PBKDF2-params`.
#[repr(C)]
#[derive(Clone, Copy, Debug, PartialEq, Eq)]
pub struct Pbkdf2ParamsPlaces {
    /// `salt`, `CHOICE { specified OCTET STRING, otherSource AlgorithmIdentifier }`.
    pub salt: Place,
    /// `iterationCount`, `INTEGER (1..MAX)`.
    pub iteration_count: Place,
    /// `keyLength`, `INTEGER (1..MAX) OPTIONAL`; empty if it is absent.
    pub key_length: Place,
    /// `prf`, `AlgorithmIdentifier OPTIONAL`; empty if it is absent.
    pub prf: Place,
}

impl<'a> Placed for Pbkdf2Params<'a> {
    type Places = Pbkdf2ParamsPlaces;

    ghost listed = { λ p. p.salt ∷ p.iteration_count ∷ p.key_length ∷ p.prf ∷ [] };

    ghost layout = { λ v.
        field (⟦<Pbkdf2Salt<'a> as Form>⟧.accepts Der (fields_of.salt v))
        (field (⟦<u32 as Form>⟧.accepts Der (fields_of.iteration_count v))
        (optional (⟦<u32 as Form>⟧.accepts Der) (fields_of.key_length v)
        (optional (⟦<AlgorithmIdentifier<'a> as Form>⟧.accepts Der) (fields_of.prf v)
        no_more))) };

    fn walk(&self, octets: &[u8], start: Place) -> Pbkdf2ParamsPlaces {
        let salt = next_place(octets, start, true);
        let iteration_count = next_place(octets, salt, true);
        let key_length = next_place(octets, iteration_count, is_some(self.key_length()));
        let prf = next_place(octets, key_length, is_there(self.prf()));
        Pbkdf2ParamsPlaces {
            salt,
            iteration_count,
            key_length,
            prf,
        }
    }

    ghost are_fields = { λ v c a.
        let is_pbkdf2_salt : (t : Pbkdf2Salt) (o : List ℕ) → ⟦<Pbkdf2Salt<'a> as Form>⟧.accepts Der t o → IsEncoding o = λ t. elim t as (λ k. (o : List ℕ) → ⟦<Pbkdf2Salt<'a> as Form>⟧.accepts Der k o → IsEncoding o) [ pbkdf2_salt_of.Specified x ↦ λ o b. is_encoding tags.OctetString (lit< tt) o b.0.0 b.0.1 | pbkdf2_salt_of.OtherSource x ↦ λ o b. is_encoding tags.Sequence (lit< tt) o b.0.0 b.0.1 ] in
        let field1 = a in
        let field2 = field1.rest in
        let field3 = field2.rest in
        let field4 = field3.rest in
        (first_of field1 (is_pbkdf2_salt _ field1.front field1.first, field1.first)
        (first_of field2 (is_encoding tags.Integer (lit< tt) field2.front field2.first.0 field2.first.1, field2.first)
        (first_of field3 (perhaps (⟦<u32 as Form>⟧.accepts Der) (λ x o b. is_encoding tags.Integer (lit< tt) o b.0 b.1) v.fields.list.rest.rest.first field3.front field3.first)
        (first_of field4 (perhaps (⟦<AlgorithmIdentifier<'a> as Form>⟧.accepts Der) (λ x o b. is_encoding tags.Sequence (lit< tt) o b.0 b.1) v.fields.list.rest.rest.rest.first field4.front field4.first)
        field4.rest)))) };
}
