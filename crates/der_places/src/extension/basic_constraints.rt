//! The fields of a BasicConstraints.
//!
//! Made by tools/asn1 from extension.asn1.

ghost use Rattle.std.proofs.Common.{lit<};
ghost use Rattle.std.specs.Prelude.{◌∷◌, []};
ghost use Rattle.der_extensions.specs.Extension.BasicConstraints as fields_of;
ghost use Rattle.der_fields.specs.Defaults.{is_default};
ghost use Rattle.der_places.specs.Layout.{no_more, optional, unless};
ghost use Rattle.der_places.specs.LayoutLaws.{besides, first_of, is_encoding, perhaps};
ghost use Rattle.der_tlv.specs.declared.encoding_rules.EncodingRules.TheVariants.{Der};
ghost use Rattle.der_tlv.specs.declared.tag.Tag.TheVariants as tags;

use crate::place::Place;
use crate::placed::Placed;
use crate::presence::is_there;
use crate::walk::next_place;
use der_elem::Form;
use der_extensions::extension::BasicConstraints;
use der_fields::{DefaultFalse, DefaultOf};
use der_numbers::UintRef;

/// Byte ranges of the fields of a `BasicConstraints`.
#[repr(C)]
#[derive(Clone, Copy, Debug, PartialEq, Eq)]
pub struct BasicConstraintsPlaces {
    /// `cA`, `BOOLEAN DEFAULT FALSE`; empty if it has its default.
    pub ca: Place,
    /// `pathLenConstraint`, `INTEGER (0..MAX) OPTIONAL`; empty if it is absent.
    pub path_len_constraint: Place,
}

impl<'a> Placed for BasicConstraints<'a> {
    type Places = BasicConstraintsPlaces;

    ghost listed = { λ p. p.ca ∷ p.path_len_constraint ∷ [] };

    ghost layout = { λ v.
        unless (is_default ⟦<DefaultFalse as DefaultOf<bool>>⟧.octets (⟦<bool as Form>⟧.encoding (fields_of.ca v))) (⟦<bool as Form>⟧.accepts Der (fields_of.ca v))
        (optional (⟦<UintRef<'a> as Form>⟧.accepts Der) (fields_of.path_len_constraint v)
        no_more) };

    fn walk(&self, octets: &[u8], start: Place) -> BasicConstraintsPlaces {
        let value = self.ca();
        let is_default = <DefaultFalse as DefaultOf<bool>>::is_default(&value);
        let ca = next_place(octets, start, !is_default);
        let path_len_constraint = next_place(octets, ca, is_there(self.path_len_constraint()));
        BasicConstraintsPlaces {
            ca,
            path_len_constraint,
        }
    }

    ghost are_fields = { λ v c a.
        let field1 = a in
        let field2 = field1.rest in
        (first_of field1 (besides (is_default ⟦<DefaultFalse as DefaultOf<bool>>⟧.octets (⟦<bool as Form>⟧.encoding (fields_of.ca v))) (⟦<bool as Form>⟧.readable (fields_of.ca v)) (⟦<bool as Form>⟧.accepts Der (fields_of.ca v)) (λ o b. is_encoding tags.Boolean (lit< tt) o b.0 b.1) field1.front field1.first)
        (first_of field2 (perhaps (⟦<UintRef<'a> as Form>⟧.accepts Der) (λ x o b. is_encoding tags.Integer (lit< tt) o b.0 b.1) v.fields.list.rest.first field2.front field2.first)
        field2.rest)) };
}
