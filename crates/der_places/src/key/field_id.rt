//! The fields of a FieldID.
//!
//! Made by tools/asn1 from key.asn1.

ghost use Rattle.std.proofs.Common.{lit<};
ghost use Rattle.std.specs.Prelude.{◌∷◌, []};
ghost use Rattle.der_pkix.specs.Key.FieldId as fields_of;
ghost use Rattle.der_places.specs.Layout.{field, no_more};
ghost use Rattle.der_places.specs.LayoutLaws.{first_of, is_encoding};
ghost use Rattle.der_tlv.specs.declared.encoding_rules.EncodingRules.TheVariants.{Der};
ghost use Rattle.der_tlv.specs.declared.tag.Tag.TheVariants as tags;

use crate::place::Place;
use crate::placed::Placed;
use crate::walk::next_place;
use der_elem::Form;
use der_opaque::{AnyRef, ObjectIdentifierRef};
use der_pkix::key::FieldId;

/// Byte ranges of the fields of a `FieldID`.
#[repr(C)]
#[derive(Clone, Copy, Debug, PartialEq, Eq)]
pub struct FieldIdPlaces {
    /// `fieldType`, `OBJECT IDENTIFIER`.
    pub field_type: Place,
    /// `parameters`, `ANY DEFINED BY fieldType`.
    pub parameters: Place,
}

impl<'a> Placed for FieldId<'a> {
    type Places = FieldIdPlaces;

    ghost listed = { λ p. p.field_type ∷ p.parameters ∷ [] };

    ghost layout = { λ v.
        field (⟦<ObjectIdentifierRef<'a, 39> as Form>⟧.accepts Der (fields_of.field_type v))
        (field (⟦<AnyRef<'a> as Form>⟧.accepts Der (fields_of.parameters v))
        no_more) };

    fn walk(&self, octets: &[u8], start: Place) -> FieldIdPlaces {
        let field_type = next_place(octets, start, true);
        let parameters = next_place(octets, field_type, true);
        FieldIdPlaces {
            field_type,
            parameters,
        }
    }

    ghost are_fields = { λ v c a.
        let field1 = a in
        let field2 = field1.rest in
        (first_of field1 (is_encoding tags.ObjectIdentifier (lit< tt) field1.front field1.first.0 field1.first.1, field1.first)
        (first_of field2 (is_encoding _ field2.first.0 field2.front _ field2.first.1, field2.first)
        field2.rest)) };
}
