//! The fields of a RSAPrivateKey.
//!
//! Made by tools/asn1 from key.asn1.

ghost use Rattle.std.proofs.Common.{lit<};
ghost use Rattle.std.specs.Prelude.{◌∷◌, []};
ghost use Rattle.der_pkix.specs.Key.RsaPrivateKey as fields_of;
ghost use Rattle.der_places.specs.Layout.{field, no_more, optional};
ghost use Rattle.der_places.specs.LayoutLaws.{first_of, is_encoding, perhaps};
ghost use Rattle.der_tlv.specs.declared.encoding_rules.EncodingRules.TheVariants.{Der};
ghost use Rattle.der_tlv.specs.declared.tag.Tag.TheVariants as tags;

use crate::place::Place;
use crate::placed::Placed;
use crate::presence::is_there;
use crate::walk::next_place;
use der_elem::Form;
use der_numbers::UintRef;
use der_pkix::key::{OtherPrimeInfos, RsaPrivateKey, RsaPrivateKeyVersion};

/// Byte ranges of the fields of a `RSAPrivateKey`.
#[repr(C)]
#[derive(Clone, Copy, Debug, PartialEq, Eq)]
pub struct RsaPrivateKeyPlaces {
    /// `version`, `INTEGER { two-prime (0), multi (1) }`.
    pub version: Place,
    /// `modulus`, `INTEGER (0..MAX)`.
    pub modulus: Place,
    /// `publicExponent`, `INTEGER (0..MAX)`.
    pub public_exponent: Place,
    /// `privateExponent`, `INTEGER (0..MAX)`.
    pub private_exponent: Place,
    /// `prime1`, `INTEGER (0..MAX)`.
    pub prime1: Place,
    /// `prime2`, `INTEGER (0..MAX)`.
    pub prime2: Place,
    /// `exponent1`, `INTEGER (0..MAX)`.
    pub exponent1: Place,
    /// `exponent2`, `INTEGER (0..MAX)`.
    pub exponent2: Place,
    /// `coefficient`, `INTEGER (0..MAX)`.
    pub coefficient: Place,
    /// `otherPrimeInfos`, `OtherPrimeInfos OPTIONAL`; empty if it is absent.
    pub other_prime_infos: Place,
}

impl<'a> Placed for RsaPrivateKey<'a> {
    type Places = RsaPrivateKeyPlaces;

    ghost listed = { λ p. p.version ∷ p.modulus ∷ p.public_exponent ∷ p.private_exponent ∷ p.prime1 ∷ p.prime2 ∷ p.exponent1 ∷ p.exponent2 ∷ p.coefficient ∷ p.other_prime_infos ∷ [] };

    ghost layout = { λ v.
        field (⟦<RsaPrivateKeyVersion as Form>⟧.accepts Der (fields_of.version v))
        (field (⟦<UintRef<'a> as Form>⟧.accepts Der (fields_of.modulus v))
        (field (⟦<UintRef<'a> as Form>⟧.accepts Der (fields_of.public_exponent v))
        (field (⟦<UintRef<'a> as Form>⟧.accepts Der (fields_of.private_exponent v))
        (field (⟦<UintRef<'a> as Form>⟧.accepts Der (fields_of.prime1 v))
        (field (⟦<UintRef<'a> as Form>⟧.accepts Der (fields_of.prime2 v))
        (field (⟦<UintRef<'a> as Form>⟧.accepts Der (fields_of.exponent1 v))
        (field (⟦<UintRef<'a> as Form>⟧.accepts Der (fields_of.exponent2 v))
        (field (⟦<UintRef<'a> as Form>⟧.accepts Der (fields_of.coefficient v))
        (optional (⟦<OtherPrimeInfos<'a> as Form>⟧.accepts Der) (fields_of.other_prime_infos v)
        no_more))))))))) };

    fn walk(&self, octets: &[u8], start: Place) -> RsaPrivateKeyPlaces {
        let version = next_place(octets, start, true);
        let modulus = next_place(octets, version, true);
        let public_exponent = next_place(octets, modulus, true);
        let private_exponent = next_place(octets, public_exponent, true);
        let prime1 = next_place(octets, private_exponent, true);
        let prime2 = next_place(octets, prime1, true);
        let exponent1 = next_place(octets, prime2, true);
        let exponent2 = next_place(octets, exponent1, true);
        let coefficient = next_place(octets, exponent2, true);
        let other_prime_infos = next_place(octets, coefficient, is_there(self.other_prime_infos()));
        RsaPrivateKeyPlaces {
            version,
            modulus,
            public_exponent,
            private_exponent,
            prime1,
            prime2,
            exponent1,
            exponent2,
            coefficient,
            other_prime_infos,
        }
    }

    ghost are_fields = { λ v c a.
        let field1 = a in
        let field2 = field1.rest in
        let field3 = field2.rest in
        let field4 = field3.rest in
        let field5 = field4.rest in
        let field6 = field5.rest in
        let field7 = field6.rest in
        let field8 = field7.rest in
        let field9 = field8.rest in
        let field10 = field9.rest in
        (first_of field1 (is_encoding tags.Integer (lit< tt) field1.front field1.first.0 field1.first.1, field1.first)
        (first_of field2 (is_encoding tags.Integer (lit< tt) field2.front field2.first.0 field2.first.1, field2.first)
        (first_of field3 (is_encoding tags.Integer (lit< tt) field3.front field3.first.0 field3.first.1, field3.first)
        (first_of field4 (is_encoding tags.Integer (lit< tt) field4.front field4.first.0 field4.first.1, field4.first)
        (first_of field5 (is_encoding tags.Integer (lit< tt) field5.front field5.first.0 field5.first.1, field5.first)
        (first_of field6 (is_encoding tags.Integer (lit< tt) field6.front field6.first.0 field6.first.1, field6.first)
        (first_of field7 (is_encoding tags.Integer (lit< tt) field7.front field7.first.0 field7.first.1, field7.first)
        (first_of field8 (is_encoding tags.Integer (lit< tt) field8.front field8.first.0 field8.first.1, field8.first)
        (first_of field9 (is_encoding tags.Integer (lit< tt) field9.front field9.first.0 field9.first.1, field9.first)
        (first_of field10 (perhaps (⟦<OtherPrimeInfos<'a> as Form>⟧.accepts Der) (λ x o b. is_encoding tags.Sequence (lit< tt) o b.0 b.1) v.fields.list.rest.rest.rest.rest.rest.rest.rest.rest.list.rest.first field10.front field10.first)
        field10.rest)))))))))) };
}
