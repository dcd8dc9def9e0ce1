//! The fields of a SafeBag.
//!
//! Made by tools/asn1 from pkcs12.asn1.

ghost use Rattle.std.proofs.Common.{lit<, true};
ghost use Rattle.std.specs.Prelude.{◌∷◌, []};
ghost use Rattle.der_fields.specs.MarkerTags.{marker_tag, marker_tag-in_range};
ghost use Rattle.der_pkcs.specs.Pkcs12.SafeBag as fields_of;
ghost use Rattle.der_places.specs.Layout.{explicit, field, no_more, optional};
ghost use Rattle.der_places.specs.LayoutLaws.{first_of, is_encoding, perhaps};
ghost use Rattle.der_tlv.specs.declared.encoding_rules.EncodingRules.TheVariants.{Der};
ghost use Rattle.der_tlv.specs.declared.tag.Tag.TheVariants as tags;

use crate::place::Place;
use crate::placed::Placed;
use crate::presence::is_there;
use crate::walk::next_place;
use der_elem::Form;
use der_fields::Explicit;
use der_opaque::{AnyRef, ObjectIdentifierRef};
use der_pkcs::pkcs12::SafeBag;
use der_pkix::key::Attributes;

/// Byte ranges of the fields of a `SafeBag`.
#[repr(C)]
#[derive(Clone, Copy, Debug, PartialEq, Eq)]
pub struct SafeBagPlaces {
    /// `bagId`, `OBJECT IDENTIFIER`.
    pub bag_id: Place,
    /// `bagValue`, `[0] EXPLICIT ANY DEFINED BY bagId`.
    pub bag_value: Place,
    /// `bagAttributes`, `Attributes OPTIONAL`; empty if it is absent.
    pub bag_attributes: Place,
}

impl<'a> Placed for SafeBag<'a> {
    type Places = SafeBagPlaces;

    ghost listed = { λ p. p.bag_id ∷ p.bag_value ∷ p.bag_attributes ∷ [] };

    ghost layout = { λ v.
        field (⟦<ObjectIdentifierRef<'a, 39> as Form>⟧.accepts Der (fields_of.bag_id v))
        (field (⟦<Explicit<AnyRef<'a>, 0> as Form>⟧.accepts Der (explicit (fields_of.bag_value v)))
        (optional (⟦<Attributes<'a> as Form>⟧.accepts Der) (fields_of.bag_attributes v)
        no_more)) };

    fn walk(&self, octets: &[u8], start: Place) -> SafeBagPlaces {
        let bag_id = next_place(octets, start, true);
        let bag_value = next_place(octets, bag_id, true);
        let bag_attributes = next_place(octets, bag_value, is_there(self.bag_attributes()));
        SafeBagPlaces {
            bag_id,
            bag_value,
            bag_attributes,
        }
    }

    ghost are_fields = { λ v c a.
        let field1 = a in
        let field2 = field1.rest in
        let field3 = field2.rest in
        (first_of field1 (is_encoding tags.ObjectIdentifier (lit< tt) field1.front field1.first.0 field1.first.1, field1.first)
        (first_of field2 (is_encoding (marker_tag 2 true 0) (marker_tag-in_range 2 true 0) field2.front field2.first.0 field2.first.1, field2.first)
        (first_of field3 (perhaps (⟦<Attributes<'a> as Form>⟧.accepts Der) (λ x o b. is_encoding tags.Set (lit< tt) o b.0 b.1) v.fields.list.rest.rest.first field3.front field3.first)
        field3.rest))) };
}
