//! The fields of an OneAsymmetricKey.
//!
//! Made by tools/asn1 from key.asn1.

ghost use Rattle.std.proofs.Common.{false, lit<, true};
ghost use Rattle.std.specs.Prelude.{◌∷◌, []};
ghost use Rattle.der_fields.specs.MarkerTags.{marker_tag, marker_tag-in_range};
ghost use Rattle.der_pkix.specs.Key.OneAsymmetricKey as fields_of;
ghost use Rattle.der_places.specs.Layout.{field, implicit, no_more, optional};
ghost use Rattle.der_places.specs.LayoutLaws.{first_of, is_encoding, maybe};
ghost use Rattle.der_tlv.specs.declared.encoding_rules.EncodingRules.TheVariants.{Der};
ghost use Rattle.der_tlv.specs.declared.tag.Tag.TheVariants as tags;

use crate::place::Place;
use crate::placed::Placed;
use crate::presence::is_there;
use crate::walk::next_place;
use der_bits::BitStringRef;
use der_elem::Form;
use der_fields::Implicit;
use der_opaque::OctetStringRef;
use der_pkix::AlgorithmIdentifier;
use der_pkix::key::{Attributes, OneAsymmetricKey, OneAsymmetricKeyVersion};

/// Byte ranges of the fields of an `OneAsymmetricKey`.
#[repr(C)]
#[derive(Clone, Copy, Debug, PartialEq, Eq)]
pub struct OneAsymmetricKeyPlaces {
    /// `version`, `INTEGER { v1 (0), v2 (1) }`.
    pub version: Place,
    /// `privateKeyAlgorithm`, `AlgorithmIdentifier`.
    pub private_key_algorithm: Place,
    /// `privateKey`, `OCTET STRING`.
    pub private_key: Place,
    /// `attributes`, `[0] IMPLICIT Attributes OPTIONAL`; empty if it is absent.
    pub attributes: Place,
    /// `publicKey`, `[1] IMPLICIT BIT STRING OPTIONAL`; empty if it is absent.
    pub public_key: Place,
}

impl<'a> Placed for OneAsymmetricKey<'a> {
    type Places = OneAsymmetricKeyPlaces;

    ghost listed = { λ p. p.version ∷ p.private_key_algorithm ∷ p.private_key ∷ p.attributes ∷ p.public_key ∷ [] };

    ghost layout = { λ v.
        field (⟦<OneAsymmetricKeyVersion as Form>⟧.accepts Der (fields_of.version v))
        (field (⟦<AlgorithmIdentifier<'a> as Form>⟧.accepts Der (fields_of.private_key_algorithm v))
        (field (⟦<OctetStringRef<'a> as Form>⟧.accepts Der (fields_of.private_key v))
        (optional (λ x. ⟦<Implicit<Attributes<'a>, 0> as Form>⟧.accepts Der (implicit x)) (fields_of.attributes v)
        (optional (λ x. ⟦<Implicit<BitStringRef<'a>, 1> as Form>⟧.accepts Der (implicit x)) (fields_of.public_key v)
        no_more)))) };

    fn walk(&self, octets: &[u8], start: Place) -> OneAsymmetricKeyPlaces {
        let version = next_place(octets, start, true);
        let private_key_algorithm = next_place(octets, version, true);
        let private_key = next_place(octets, private_key_algorithm, true);
        let attributes = next_place(octets, private_key, is_there(self.attributes()));
        let public_key = next_place(octets, attributes, is_there(self.public_key()));
        OneAsymmetricKeyPlaces {
            version,
            private_key_algorithm,
            private_key,
            attributes,
            public_key,
        }
    }

    ghost are_fields = { λ v c a.
        let field1 = a in
        let field2 = field1.rest in
        let field3 = field2.rest in
        let field4 = field3.rest in
        let field5 = field4.rest in
        (first_of field1 (is_encoding tags.Integer (lit< tt) field1.front field1.first.0 field1.first.1, field1.first)
        (first_of field2 (is_encoding tags.Sequence (lit< tt) field2.front field2.first.0 field2.first.1, field2.first)
        (first_of field3 (is_encoding tags.OctetString (lit< tt) field3.front field3.first.0 field3.first.1, field3.first)
        (first_of field4 (maybe (λ x. x.value) (⟦<Implicit<Attributes<'a>, 0> as Form>⟧.accepts Der) (λ x. ⟦<Implicit<Attributes<'a>, 0> as Form>⟧.accepts Der (implicit x)) (λ x o b. (is_encoding (marker_tag 2 true 0) (marker_tag-in_range 2 true 0) o b.0 b.1, b)) v.fields.list.rest.rest.rest.first field4.front field4.first)
        (first_of field5 (maybe (λ x. x.value) (⟦<Implicit<BitStringRef<'a>, 1> as Form>⟧.accepts Der) (λ x. ⟦<Implicit<BitStringRef<'a>, 1> as Form>⟧.accepts Der (implicit x)) (λ x o b. (is_encoding (marker_tag 2 false 1) (marker_tag-in_range 2 false 1) o b.0 b.1, b)) v.fields.list.rest.rest.rest.rest.first field5.front field5.first)
        field5.rest))))) };
}
