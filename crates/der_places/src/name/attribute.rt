//! The fields of an Attribute.
//!
//! Made by tools/asn1 from name.asn1.

ghost use Rattle.std.proofs.Common.{lit<};
ghost use Rattle.std.specs.Prelude.{◌∷◌, []};
ghost use Rattle.der_pkix.specs.Name.Attribute as fields_of;
ghost use Rattle.der_places.specs.Layout.{field, no_more};
ghost use Rattle.der_places.specs.LayoutLaws.{first_of, is_encoding};
ghost use Rattle.der_tlv.specs.declared.encoding_rules.EncodingRules.TheVariants.{Der};
ghost use Rattle.der_tlv.specs.declared.tag.Tag.TheVariants as tags;

use crate::place::Place;
use crate::placed::Placed;
use crate::walk::next_place;
use der_elem::Form;
use der_lists::UnorderedSetRef;
use der_pkix::name::{Attribute, AttributeType, AttributeValue};

/// Byte ranges of the fields of an `Attribute`.
#[repr(C)]
#[derive(Clone, Copy, Debug, PartialEq, Eq)]
pub struct AttributePlaces {
    /// `type`, `AttributeType`.
    pub type_: Place,
    /// `values`, `SET OF AttributeValue`.
    pub values: Place,
}

impl<'a> Placed for Attribute<'a> {
    type Places = AttributePlaces;

    ghost listed = { λ p. p.type_ ∷ p.values ∷ [] };

    ghost layout = { λ v.
        field (⟦<AttributeType<'a> as Form>⟧.accepts Der (fields_of.type_ v))
        (field (⟦<UnorderedSetRef<'a, AttributeValue<'a>> as Form>⟧.accepts Der (fields_of.values v))
        no_more) };

    fn walk(&self, octets: &[u8], start: Place) -> AttributePlaces {
        let type_ = next_place(octets, start, true);
        let values = next_place(octets, type_, true);
        AttributePlaces { type_, values }
    }

    ghost are_fields = { λ v c a.
        let field1 = a in
        let field2 = field1.rest in
        (first_of field1 (is_encoding tags.ObjectIdentifier (lit< tt) field1.front field1.first.0 field1.first.1, field1.first)
        (first_of field2 (is_encoding tags.Set (lit< tt) field2.front field2.first.0 field2.first.1, field2.first)
        field2.rest)) };
}
