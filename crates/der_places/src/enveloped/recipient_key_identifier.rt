//! The fields of a RecipientKeyIdentifier.
//!
//! Made by tools/asn1 from enveloped.asn1.

ghost use Rattle.std.proofs.Common.{lit<};
ghost use Rattle.std.specs.Prelude.{◌∷◌, []};
ghost use Rattle.der_enveloped.specs.Enveloped.RecipientKeyIdentifier as fields_of;
ghost use Rattle.der_places.specs.Layout.{field, no_more, optional};
ghost use Rattle.der_places.specs.LayoutLaws.{first_of, is_encoding, perhaps};
ghost use Rattle.der_tlv.specs.declared.encoding_rules.EncodingRules.TheVariants.{Der};
ghost use Rattle.der_tlv.specs.declared.tag.Tag.TheVariants as tags;

use crate::place::Place;
use crate::placed::Placed;
use crate::presence::{is_some, is_there};
use crate::walk::next_place;
use der_elem::Form;
use der_enveloped::enveloped::{OtherKeyAttribute, RecipientKeyIdentifier};
use der_extensions::extension::SubjectKeyIdentifier;
use der_time::GeneralizedTime;

/// Byte ranges of the fields of a `RecipientKeyIdentifier`.
#[repr(C)]
#[derive(Clone, Copy, Debug, PartialEq, Eq)]
pub struct RecipientKeyIdentifierPlaces {
    /// `subjectKeyIdentifier`, `SubjectKeyIdentifier`.
    pub subject_key_identifier: Place,
    /// `date`, `GeneralizedTime OPTIONAL`; empty if it is absent.
    pub date: Place,
    /// `other`, `OtherKeyAttribute OPTIONAL`; empty if it is absent.
    pub other: Place,
}

impl<'a> Placed for RecipientKeyIdentifier<'a> {
    type Places = RecipientKeyIdentifierPlaces;

    ghost listed = { λ p. p.subject_key_identifier ∷ p.date ∷ p.other ∷ [] };

    ghost layout = { λ v.
        field (⟦<SubjectKeyIdentifier<'a> as Form>⟧.accepts Der (fields_of.subject_key_identifier v))
        (optional (⟦<GeneralizedTime as Form>⟧.accepts Der) (fields_of.date v)
        (optional (⟦<OtherKeyAttribute<'a> as Form>⟧.accepts Der) (fields_of.other v)
        no_more)) };

    fn walk(&self, octets: &[u8], start: Place) -> RecipientKeyIdentifierPlaces {
        let subject_key_identifier = next_place(octets, start, true);
        let date = next_place(octets, subject_key_identifier, is_some(self.date()));
        let other = next_place(octets, date, is_there(self.other()));
        RecipientKeyIdentifierPlaces {
            subject_key_identifier,
            date,
            other,
        }
    }

    ghost are_fields = { λ v c a.
        let field1 = a in
        let field2 = field1.rest in
        let field3 = field2.rest in
        (first_of field1 (is_encoding tags.OctetString (lit< tt) field1.front field1.first.0 field1.first.1, field1.first)
        (first_of field2 (perhaps (⟦<GeneralizedTime as Form>⟧.accepts Der) (λ x o b. is_encoding tags.GeneralizedTime (lit< tt) o b.0 b.1) v.fields.list.rest.first field2.front field2.first)
        (first_of field3 (perhaps (⟦<OtherKeyAttribute<'a> as Form>⟧.accepts Der) (λ x o b. is_encoding tags.Sequence (lit< tt) o b.0 b.1) v.fields.list.rest.rest.first field3.front field3.first)
        field3.rest))) };
}
