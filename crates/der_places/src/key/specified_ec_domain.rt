//! The fields of a SpecifiedECDomain.
//!
//! Made by tools/asn1 from key.asn1.

ghost use Rattle.std.proofs.Common.{lit<};
ghost use Rattle.std.specs.Prelude.{◌∷◌, []};
ghost use Rattle.der_pkix.specs.Key.SpecifiedEcDomain as fields_of;
ghost use Rattle.der_places.specs.Layout.{field, no_more, optional};
ghost use Rattle.der_places.specs.LayoutLaws.{first_of, is_encoding, perhaps};
ghost use Rattle.der_tlv.specs.declared.encoding_rules.EncodingRules.TheVariants.{Der};
ghost use Rattle.der_tlv.specs.declared.tag.Tag.TheVariants as tags;

use crate::place::Place;
use crate::placed::Placed;
use crate::presence::is_there;
use crate::walk::next_place;
use der_elem::Form;
use der_numbers::IntRef;
use der_opaque::OctetStringRef;
use der_pkix::AlgorithmIdentifier;
use der_pkix::key::{Curve, FieldId, SpecifiedEcDomain, SpecifiedEcDomainVersion};

/// Byte ranges of the fields of a `SpecifiedECDomain`.
#[repr(C)]
#[derive(Clone, Copy, Debug, PartialEq, Eq)]
pub struct SpecifiedEcDomainPlaces {
    /// `version`, `INTEGER { ecdpVer1 (1), ecdpVer2 (2), ecdpVer3 (3) }`.
    pub version: Place,
    /// `fieldID`, `FieldID`.
    pub field_id: Place,
    /// `curve`, `Curve`.
    pub curve: Place,
    /// `base`, `OCTET STRING`.
    pub base: Place,
    /// `order`, `INTEGER`.
    pub order: Place,
    /// `cofactor`, `INTEGER OPTIONAL`; empty if it is absent.
    pub cofactor: Place,
    /// `hash`, `AlgorithmIdentifier OPTIONAL`; empty if it is absent.
    pub hash: Place,
}

impl<'a> Placed for SpecifiedEcDomain<'a> {
    type Places = SpecifiedEcDomainPlaces;

    ghost listed = { λ p. p.version ∷ p.field_id ∷ p.curve ∷ p.base ∷ p.order ∷ p.cofactor ∷ p.hash ∷ [] };

    ghost layout = { λ v.
        field (⟦<SpecifiedEcDomainVersion as Form>⟧.accepts Der (fields_of.version v))
        (field (⟦<FieldId<'a> as Form>⟧.accepts Der (fields_of.field_id v))
        (field (⟦<Curve<'a> as Form>⟧.accepts Der (fields_of.curve v))
        (field (⟦<OctetStringRef<'a> as Form>⟧.accepts Der (fields_of.base v))
        (field (⟦<IntRef<'a> as Form>⟧.accepts Der (fields_of.order v))
        (optional (⟦<IntRef<'a> as Form>⟧.accepts Der) (fields_of.cofactor v)
        (optional (⟦<AlgorithmIdentifier<'a> as Form>⟧.accepts Der) (fields_of.hash v)
        no_more)))))) };

    fn walk(&self, octets: &[u8], start: Place) -> SpecifiedEcDomainPlaces {
        let version = next_place(octets, start, true);
        let field_id = next_place(octets, version, true);
        let curve = next_place(octets, field_id, true);
        let base = next_place(octets, curve, true);
        let order = next_place(octets, base, true);
        let cofactor = next_place(octets, order, is_there(self.cofactor()));
        let hash = next_place(octets, cofactor, is_there(self.hash()));
        SpecifiedEcDomainPlaces {
            version,
            field_id,
            curve,
            base,
            order,
            cofactor,
            hash,
        }
    }

    ghost are_fields = { λ v c a.
        let field1 = a in
        let field2 = field1.rest in
        let field3 = field2.rest in
        let field4 = field3.rest in
        let field5 = field4.rest in
        let field6 = field5.rest in
        let field7 = field6.rest in
        (first_of field1 (is_encoding tags.Integer (lit< tt) field1.front field1.first.0 field1.first.1, field1.first)
        (first_of field2 (is_encoding tags.Sequence (lit< tt) field2.front field2.first.0 field2.first.1, field2.first)
        (first_of field3 (is_encoding tags.Sequence (lit< tt) field3.front field3.first.0 field3.first.1, field3.first)
        (first_of field4 (is_encoding tags.OctetString (lit< tt) field4.front field4.first.0 field4.first.1, field4.first)
        (first_of field5 (is_encoding tags.Integer (lit< tt) field5.front field5.first.0 field5.first.1, field5.first)
        (first_of field6 (perhaps (⟦<IntRef<'a> as Form>⟧.accepts Der) (λ x o b. is_encoding tags.Integer (lit< tt) o b.0 b.1) v.fields.list.rest.rest.rest.rest.rest.first field6.front field6.first)
        (first_of field7 (perhaps (⟦<AlgorithmIdentifier<'a> as Form>⟧.accepts Der) (λ x o b. is_encoding tags.Sequence (lit< tt) o b.0 b.1) v.fields.list.rest.rest.rest.rest.rest.rest.first field7.front field7.first)
        field7.rest))))))) };
}
