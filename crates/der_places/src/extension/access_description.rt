//! The fields of an AccessDescription.
//!
//! Made by tools/asn1 from extension.asn1.

ghost use Rattle.std.proofs.Common.{false, lit<, true};
ghost use Rattle.std.specs.Prelude.{◌∷◌, List, [], ℕ};
ghost use Rattle.der_extensions.specs.Extension.AccessDescription as fields_of;
ghost use Rattle.der_extensions.specs.declared.extension.general_name.GeneralName.{GeneralName};
ghost use Rattle.der_extensions.specs.declared.extension.general_name.GeneralName.TheVariants as general_name_of;
ghost use Rattle.der_fields.specs.MarkerTags.{marker_tag, marker_tag-in_range};
ghost use Rattle.der_places.specs.Layout.{field, no_more};
ghost use Rattle.der_places.specs.LayoutLaws.{first_of, is_encoding};
ghost use Rattle.der_places.specs.Walking.{IsEncoding};
ghost use Rattle.der_tlv.specs.declared.encoding_rules.EncodingRules.TheVariants.{Der};
ghost use Rattle.der_tlv.specs.declared.tag.Tag.TheVariants as tags;

use crate::place::Place;
use crate::placed::Placed;
use crate::walk::next_place;
use der_elem::Form;
use der_extensions::extension::{AccessDescription, GeneralName};
use der_opaque::ObjectIdentifierRef;

/// Byte ranges of the fields of an `AccessDescription`.
#[repr(C)]
#[derive(Clone, Copy, Debug, PartialEq, Eq)]
pub struct AccessDescriptionPlaces {
    /// `accessMethod`, `OBJECT IDENTIFIER`.
    pub access_method: Place,
    /// `accessLocation`, `GeneralName`.
    pub access_location: Place,
}

impl<'a> Placed for AccessDescription<'a> {
    type Places = AccessDescriptionPlaces;

    ghost listed = { λ p. p.access_method ∷ p.access_location ∷ [] };

    ghost layout = { λ v.
        field (⟦<ObjectIdentifierRef<'a, 39> as Form>⟧.accepts Der (fields_of.access_method v))
        (field (⟦<GeneralName<'a> as Form>⟧.accepts Der (fields_of.access_location v))
        no_more) };

    fn walk(&self, octets: &[u8], start: Place) -> AccessDescriptionPlaces {
        let access_method = next_place(octets, start, true);
        let access_location = next_place(octets, access_method, true);
        AccessDescriptionPlaces {
            access_method,
            access_location,
        }
    }

    ghost are_fields = { λ v c a.
        let is_general_name : (t : GeneralName) (o : List ℕ) → ⟦<GeneralName<'a> as Form>⟧.accepts Der t o → IsEncoding o = λ t. elim t as (λ k. (o : List ℕ) → ⟦<GeneralName<'a> as Form>⟧.accepts Der k o → IsEncoding o) [ general_name_of.OtherName x ↦ λ o b. is_encoding (marker_tag 2 true 0) (marker_tag-in_range 2 true 0) o b.0.0.0.0.0 b.0.0.0.0.1 | general_name_of.Rfc822Name x ↦ λ o b. is_encoding (marker_tag 2 false 1) (marker_tag-in_range 2 false 1) o b.0.0.0.0.0 b.0.0.0.0.1 | general_name_of.DnsName x ↦ λ o b. is_encoding (marker_tag 2 false 2) (marker_tag-in_range 2 false 2) o b.0.0.0.0 b.0.0.0.1 | general_name_of.X400Address x ↦ λ o b. is_encoding (marker_tag 2 true 3) (marker_tag-in_range 2 true 3) o b.0.0.0.0 b.0.0.0.1 | general_name_of.DirectoryName x ↦ λ o b. is_encoding (marker_tag 2 true 4) (marker_tag-in_range 2 true 4) o b.0.0.0.0 b.0.0.0.1 | general_name_of.EdiPartyName x ↦ λ o b. is_encoding (marker_tag 2 true 5) (marker_tag-in_range 2 true 5) o b.0.0.0.0 b.0.0.0.1 | general_name_of.UniformResourceIdentifier x ↦ λ o b. is_encoding (marker_tag 2 false 6) (marker_tag-in_range 2 false 6) o b.0.0.0.0 b.0.0.0.1 | general_name_of.IpAddress x ↦ λ o b. is_encoding (marker_tag 2 false 7) (marker_tag-in_range 2 false 7) o b.0.0.0.0 b.0.0.0.1 | general_name_of.RegisteredId x ↦ λ o b. is_encoding (marker_tag 2 false 8) (marker_tag-in_range 2 false 8) o b.0.0.0.0 b.0.0.0.1 ] in
        let field1 = a in
        let field2 = field1.rest in
        (first_of field1 (is_encoding tags.ObjectIdentifier (lit< tt) field1.front field1.first.0 field1.first.1, field1.first)
        (first_of field2 (is_general_name _ field2.front field2.first, field2.first)
        field2.rest)) };
}
