//! The fields of an Accuracy.
//!
//! Made by tools/asn1 from time_stamp.asn1.

ghost use Rattle.std.proofs.Common.{false, lit<};
ghost use Rattle.std.specs.Prelude.{◌∷◌, []};
ghost use Rattle.der_fields.specs.MarkerTags.{marker_tag, marker_tag-in_range};
ghost use Rattle.der_places.specs.Layout.{implicit, no_more, optional};
ghost use Rattle.der_places.specs.LayoutLaws.{first_of, is_encoding, maybe, perhaps};
ghost use Rattle.der_time_stamp.specs.TimeStamp.Accuracy as fields_of;
ghost use Rattle.der_tlv.specs.declared.encoding_rules.EncodingRules.TheVariants.{Der};
ghost use Rattle.der_tlv.specs.declared.tag.Tag.TheVariants as tags;

use crate::place::Place;
use crate::placed::Placed;
use crate::presence::is_some;
use crate::walk::next_place;
use der_elem::Form;
use der_fields::Implicit;
use der_time_stamp::time_stamp::Accuracy;

/// Byte ranges of the fields of an `Accuracy`.
#[repr(C)]
#[derive(Clone, Copy, Debug, PartialEq, Eq)]
pub struct AccuracyPlaces {
    /// `seconds`, `INTEGER OPTIONAL`; empty if it is absent.
    pub seconds: Place,
    /// `millis`, `[0] INTEGER (1..999) OPTIONAL`; empty if it is absent.
    pub millis: Place,
    /// `micros`, `[1] INTEGER (1..999) OPTIONAL`; empty if it is absent.
    pub micros: Place,
}

impl Placed for Accuracy {
    type Places = AccuracyPlaces;

    ghost listed = { λ p. p.seconds ∷ p.millis ∷ p.micros ∷ [] };

    ghost layout = { λ v.
        optional (⟦<u32 as Form>⟧.accepts Der) (fields_of.seconds v)
        (optional (λ x. ⟦<Implicit<u16, 0> as Form>⟧.accepts Der (implicit x)) (fields_of.millis v)
        (optional (λ x. ⟦<Implicit<u16, 1> as Form>⟧.accepts Der (implicit x)) (fields_of.micros v)
        no_more)) };

    fn walk(&self, octets: &[u8], start: Place) -> AccuracyPlaces {
        let seconds = next_place(octets, start, is_some(self.seconds()));
        let millis = next_place(octets, seconds, is_some(self.millis()));
        let micros = next_place(octets, millis, is_some(self.micros()));
        AccuracyPlaces {
            seconds,
            millis,
            micros,
        }
    }

    ghost are_fields = { λ v c a.
        let field1 = a in
        let field2 = field1.rest in
        let field3 = field2.rest in
        (first_of field1 (perhaps (⟦<u32 as Form>⟧.accepts Der) (λ x o b. is_encoding tags.Integer (lit< tt) o b.0 b.1) v.fields.list.first field1.front field1.first)
        (first_of field2 (maybe (λ x. x.value) (⟦<Implicit<u16, 0> as Form>⟧.accepts Der) (λ x. ⟦<Implicit<u16, 0> as Form>⟧.accepts Der (implicit x)) (λ x o b. (is_encoding (marker_tag 2 false 0) (marker_tag-in_range 2 false 0) o b.0 b.1, b)) v.fields.list.rest.first field2.front field2.first)
        (first_of field3 (maybe (λ x. x.value) (⟦<Implicit<u16, 1> as Form>⟧.accepts Der) (λ x. ⟦<Implicit<u16, 1> as Form>⟧.accepts Der (implicit x)) (λ x o b. (is_encoding (marker_tag 2 false 1) (marker_tag-in_range 2 false 1) o b.0 b.1, b)) v.fields.list.rest.rest.first field3.front field3.first)
        field3.rest))) };
}
