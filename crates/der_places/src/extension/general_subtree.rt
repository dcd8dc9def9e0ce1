//! The fields of a GeneralSubtree.
//!
//! Made by tools/asn1 from extension.asn1.

ghost use Rattle.std.proofs.Common.{false, true};
ghost use Rattle.std.specs.Prelude.{◌∷◌, List, [], ℕ};
ghost use Rattle.der_extensions.specs.Extension.GeneralSubtree as fields_of;
ghost use Rattle.der_extensions.specs.declared.extension.general_name.GeneralName.{GeneralName};
ghost use Rattle.der_extensions.specs.declared.extension.general_name.GeneralName.TheVariants as general_name_of;
ghost use Rattle.der_fields.specs.Defaults.{is_default};
ghost use Rattle.der_fields.specs.MarkerTags.{marker_tag, marker_tag-in_range};
ghost use Rattle.der_places.specs.Layout.{field, implicit, no_more, optional, unless};
ghost use Rattle.der_places.specs.LayoutLaws.{besides, first_of, is_encoding, maybe};
ghost use Rattle.der_places.specs.Walking.{IsEncoding};
ghost use Rattle.der_tlv.specs.declared.encoding_rules.EncodingRules.TheVariants.{Der};

use crate::place::Place;
use crate::placed::Placed;
use crate::presence::is_some;
use crate::walk::next_place;
use der_elem::Form;
use der_extensions::extension::{BaseDistance, GeneralName, GeneralSubtree};
use der_fields::{DefaultNumber, DefaultOf, Implicit};

/// Byte ranges of the fields of a `GeneralSubtree`.
#[repr(C)]
#[derive(Clone, Copy, Debug, PartialEq, Eq)]
pub struct GeneralSubtreePlaces {
    /// `base`, `GeneralName`.
    pub base: Place,
    /// `minimum`, `[0] BaseDistance DEFAULT 0`; empty if it has its default.
    pub minimum: Place,
    /// `maximum`, `[1] BaseDistance OPTIONAL`; empty if it is absent.
    pub maximum: Place,
}

impl<'a> Placed for GeneralSubtree<'a> {
    type Places = GeneralSubtreePlaces;

    ghost listed = { λ p. p.base ∷ p.minimum ∷ p.maximum ∷ [] };

    ghost layout = { λ v.
        field (⟦<GeneralName<'a> as Form>⟧.accepts Der (fields_of.base v))
        (unless (is_default ⟦<DefaultNumber<0> as DefaultOf<Implicit<BaseDistance, 0>>>⟧.octets (⟦<Implicit<BaseDistance, 0> as Form>⟧.encoding (implicit (fields_of.minimum v)))) (⟦<Implicit<BaseDistance, 0> as Form>⟧.accepts Der (implicit (fields_of.minimum v)))
        (optional (λ x. ⟦<Implicit<BaseDistance, 1> as Form>⟧.accepts Der (implicit x)) (fields_of.maximum v)
        no_more)) };

    fn walk(&self, octets: &[u8], start: Place) -> GeneralSubtreePlaces {
        let base = next_place(octets, start, true);
        let value = self.minimum();
        let tagged: Implicit<BaseDistance, 0> = Implicit { value };
        let is_default = <DefaultNumber<0> as DefaultOf<Implicit<BaseDistance, 0>>>::is_default(
            &tagged,
        );
        let minimum = next_place(octets, base, !is_default);
        let maximum = next_place(octets, minimum, is_some(self.maximum()));
        GeneralSubtreePlaces {
            base,
            minimum,
            maximum,
        }
    }

    ghost are_fields = { λ v c a.
        let is_general_name : (t : GeneralName) (o : List ℕ) → ⟦<GeneralName<'a> as Form>⟧.accepts Der t o → IsEncoding o = λ t. elim t as (λ k. (o : List ℕ) → ⟦<GeneralName<'a> as Form>⟧.accepts Der k o → IsEncoding o) [ general_name_of.OtherName x ↦ λ o b. is_encoding (marker_tag 2 true 0) (marker_tag-in_range 2 true 0) o b.0.0.0.0.0 b.0.0.0.0.1 | general_name_of.Rfc822Name x ↦ λ o b. is_encoding (marker_tag 2 false 1) (marker_tag-in_range 2 false 1) o b.0.0.0.0.0 b.0.0.0.0.1 | general_name_of.DnsName x ↦ λ o b. is_encoding (marker_tag 2 false 2) (marker_tag-in_range 2 false 2) o b.0.0.0.0 b.0.0.0.1 | general_name_of.X400Address x ↦ λ o b. is_encoding (marker_tag 2 true 3) (marker_tag-in_range 2 true 3) o b.0.0.0.0 b.0.0.0.1 | general_name_of.DirectoryName x ↦ λ o b. is_encoding (marker_tag 2 true 4) (marker_tag-in_range 2 true 4) o b.0.0.0.0 b.0.0.0.1 | general_name_of.EdiPartyName x ↦ λ o b. is_encoding (marker_tag 2 true 5) (marker_tag-in_range 2 true 5) o b.0.0.0.0 b.0.0.0.1 | general_name_of.UniformResourceIdentifier x ↦ λ o b. is_encoding (marker_tag 2 false 6) (marker_tag-in_range 2 false 6) o b.0.0.0.0 b.0.0.0.1 | general_name_of.IpAddress x ↦ λ o b. is_encoding (marker_tag 2 false 7) (marker_tag-in_range 2 false 7) o b.0.0.0.0 b.0.0.0.1 | general_name_of.RegisteredId x ↦ λ o b. is_encoding (marker_tag 2 false 8) (marker_tag-in_range 2 false 8) o b.0.0.0.0 b.0.0.0.1 ] in
        let field1 = a in
        let field2 = field1.rest in
        let field3 = field2.rest in
        (first_of field1 (is_general_name _ field1.front field1.first, field1.first)
        (first_of field2 (besides (is_default ⟦<DefaultNumber<0> as DefaultOf<Implicit<BaseDistance, 0>>>⟧.octets (⟦<Implicit<BaseDistance, 0> as Form>⟧.encoding (implicit (fields_of.minimum v)))) (⟦<Implicit<BaseDistance, 0> as Form>⟧.readable (implicit (fields_of.minimum v))) (⟦<Implicit<BaseDistance, 0> as Form>⟧.accepts Der (implicit (fields_of.minimum v))) (λ o b. is_encoding (marker_tag 2 false 0) (marker_tag-in_range 2 false 0) o b.0 b.1) field2.front field2.first)
        (first_of field3 (maybe (λ x. x.value) (⟦<Implicit<BaseDistance, 1> as Form>⟧.accepts Der) (λ x. ⟦<Implicit<BaseDistance, 1> as Form>⟧.accepts Der (implicit x)) (λ x o b. (is_encoding (marker_tag 2 false 1) (marker_tag-in_range 2 false 1) o b.0 b.1, b)) v.fields.list.rest.rest.first field3.front field3.first)
        field3.rest))) };
}
