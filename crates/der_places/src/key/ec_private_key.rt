//! The fields of an ECPrivateKey.
//!
//! Made by tools/asn1 from key.asn1.

ghost use Rattle.std.proofs.Common.{lit<, true};
ghost use Rattle.std.specs.Prelude.{◌∷◌, []};
ghost use Rattle.der_fields.specs.MarkerTags.{marker_tag, marker_tag-in_range};
ghost use Rattle.der_pkix.specs.Key.EcPrivateKey as fields_of;
ghost use Rattle.der_places.specs.Layout.{explicit, field, no_more, optional};
ghost use Rattle.der_places.specs.LayoutLaws.{first_of, is_encoding, maybe};
ghost use Rattle.der_tlv.specs.declared.encoding_rules.EncodingRules.TheVariants.{Der};
ghost use Rattle.der_tlv.specs.declared.tag.Tag.TheVariants as tags;

use crate::place::Place;
use crate::placed::Placed;
use crate::presence::is_there;
use crate::walk::next_place;
use der_bits::BitStringRef;
use der_elem::Form;
use der_fields::Explicit;
use der_opaque::OctetStringRef;
use der_pkix::key::{EcParameters, EcPrivateKey, EcPrivateKeyVersion};

/// Byte ranges of the fields of an `ECPrivateKey`.
#[repr(C)]
#[derive(Clone, Copy, Debug, PartialEq, Eq)]
pub struct EcPrivateKeyPlaces {
    /// `version`, `INTEGER { ecPrivkeyVer1 (1) }`.
    pub version: Place,
    /// `privateKey`, `OCTET STRING`.
    pub private_key: Place,
    /// `parameters`, `[0] ECParameters OPTIONAL`; empty if it is absent.
    pub parameters: Place,
    /// `publicKey`, `[1] BIT STRING OPTIONAL`; empty if it is absent.
    pub public_key: Place,
}

impl<'a> Placed for EcPrivateKey<'a> {
    type Places = EcPrivateKeyPlaces;

    ghost listed = { λ p. p.version ∷ p.private_key ∷ p.parameters ∷ p.public_key ∷ [] };

    ghost layout = { λ v.
        field (⟦<EcPrivateKeyVersion as Form>⟧.accepts Der (fields_of.version v))
        (field (⟦<OctetStringRef<'a> as Form>⟧.accepts Der (fields_of.private_key v))
        (optional (λ x. ⟦<Explicit<EcParameters<'a>, 0> as Form>⟧.accepts Der (explicit x)) (fields_of.parameters v)
        (optional (λ x. ⟦<Explicit<BitStringRef<'a>, 1> as Form>⟧.accepts Der (explicit x)) (fields_of.public_key v)
        no_more))) };

    fn walk(&self, octets: &[u8], start: Place) -> EcPrivateKeyPlaces {
        let version = next_place(octets, start, true);
        let private_key = next_place(octets, version, true);
        let parameters = next_place(octets, private_key, is_there(self.parameters()));
        let public_key = next_place(octets, parameters, is_there(self.public_key()));
        EcPrivateKeyPlaces {
            version,
            private_key,
            parameters,
            public_key,
        }
    }

    ghost are_fields = { λ v c a.
        let field1 = a in
        let field2 = field1.rest in
        let field3 = field2.rest in
        let field4 = field3.rest in
        (first_of field1 (is_encoding tags.Integer (lit< tt) field1.front field1.first.0 field1.first.1, field1.first)
        (first_of field2 (is_encoding tags.OctetString (lit< tt) field2.front field2.first.0 field2.first.1, field2.first)
        (first_of field3 (maybe (λ x. x.fields.first) (⟦<Explicit<EcParameters<'a>, 0> as Form>⟧.accepts Der) (λ x. ⟦<Explicit<EcParameters<'a>, 0> as Form>⟧.accepts Der (explicit x)) (λ x o b. (is_encoding (marker_tag 2 true 0) (marker_tag-in_range 2 true 0) o b.0 b.1, b)) v.fields.list.rest.rest.first field3.front field3.first)
        (first_of field4 (maybe (λ x. x.fields.first) (⟦<Explicit<BitStringRef<'a>, 1> as Form>⟧.accepts Der) (λ x. ⟦<Explicit<BitStringRef<'a>, 1> as Form>⟧.accepts Der (explicit x)) (λ x o b. (is_encoding (marker_tag 2 true 1) (marker_tag-in_range 2 true 1) o b.0 b.1, b)) v.fields.list.rest.rest.rest.first field4.front field4.first)
        field4.rest)))) };
}
