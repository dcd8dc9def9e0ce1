//! The fields of a TSTInfo.
//!
//! Made by tools/asn1 from time_stamp.asn1.

ghost use Rattle.std.proofs.Common.{lit<, true};
ghost use Rattle.std.specs.Prelude.{◌∷◌, []};
ghost use Rattle.der_fields.specs.Defaults.{is_default};
ghost use Rattle.der_fields.specs.MarkerTags.{marker_tag, marker_tag-in_range};
ghost use Rattle.der_places.specs.Layout.{explicit, field, implicit, no_more, optional, unless};
ghost use Rattle.der_places.specs.LayoutLaws.{besides, first_of, is_encoding, maybe, perhaps};
ghost use Rattle.der_time_stamp.specs.TimeStamp.TstInfo as fields_of;
ghost use Rattle.der_tlv.specs.declared.encoding_rules.EncodingRules.TheVariants.{Der};
ghost use Rattle.der_tlv.specs.declared.tag.Tag.TheVariants as tags;

use crate::place::Place;
use crate::placed::Placed;
use crate::presence::{is_some, is_there};
use crate::walk::next_place;
use der_elem::Form;
use der_extensions::extension::GeneralName;
use der_fields::{DefaultFalse, DefaultOf, Explicit, Implicit};
use der_numbers::IntRef;
use der_pkix::certificate::Extensions;
use der_simple::FractionalTimeRef;
use der_time_stamp::time_stamp::{Accuracy, MessageImprint, TsaPolicyId, TstInfo, TstInfoVersion};

/// Byte ranges of the fields of a `TSTInfo`.
#[repr(C)]
#[derive(Clone, Copy, Debug, PartialEq, Eq)]
pub struct TstInfoPlaces {
    /// `version`, `INTEGER { v1 (1) }`.
    pub version: Place,
    /// `policy`, `TSAPolicyId`.
    pub policy: Place,
    /// `messageImprint`, `MessageImprint`.
    pub message_imprint: Place,
    /// `serialNumber`, `INTEGER`.
    pub serial_number: Place,
    /// `genTime`, `GeneralizedTime`.
    pub gen_time: Place,
    /// `accuracy`, `Accuracy OPTIONAL`; empty if it is absent.
    pub accuracy: Place,
    /// `ordering`, `BOOLEAN DEFAULT FALSE`; empty if it has its default.
    pub ordering: Place,
    /// `nonce`, `INTEGER OPTIONAL`; empty if it is absent.
    pub nonce: Place,
    /// `tsa`, `[0] GeneralName OPTIONAL`; empty if it is absent.
    pub tsa: Place,
    /// `extensions`, `[1] IMPLICIT Extensions OPTIONAL`; empty if it is absent.
    pub extensions: Place,
}

impl<'a> Placed for TstInfo<'a> {
    type Places = TstInfoPlaces;

    ghost listed = { λ p. p.version ∷ p.policy ∷ p.message_imprint ∷ p.serial_number ∷ p.gen_time ∷ p.accuracy ∷ p.ordering ∷ p.nonce ∷ p.tsa ∷ p.extensions ∷ [] };

    ghost layout = { λ v.
        field (⟦<TstInfoVersion as Form>⟧.accepts Der (fields_of.version v))
        (field (⟦<TsaPolicyId<'a> as Form>⟧.accepts Der (fields_of.policy v))
        (field (⟦<MessageImprint<'a> as Form>⟧.accepts Der (fields_of.message_imprint v))
        (field (⟦<IntRef<'a> as Form>⟧.accepts Der (fields_of.serial_number v))
        (field (⟦<FractionalTimeRef<'a> as Form>⟧.accepts Der (fields_of.gen_time v))
        (optional (⟦<Accuracy as Form>⟧.accepts Der) (fields_of.accuracy v)
        (unless (is_default ⟦<DefaultFalse as DefaultOf<bool>>⟧.octets (⟦<bool as Form>⟧.encoding (fields_of.ordering v))) (⟦<bool as Form>⟧.accepts Der (fields_of.ordering v))
        (optional (⟦<IntRef<'a> as Form>⟧.accepts Der) (fields_of.nonce v)
        (optional (λ x. ⟦<Explicit<GeneralName<'a>, 0> as Form>⟧.accepts Der (explicit x)) (fields_of.tsa v)
        (optional (λ x. ⟦<Implicit<Extensions<'a>, 1> as Form>⟧.accepts Der (implicit x)) (fields_of.extensions v)
        no_more))))))))) };

    fn walk(&self, octets: &[u8], start: Place) -> TstInfoPlaces {
        let version = next_place(octets, start, true);
        let policy = next_place(octets, version, true);
        let message_imprint = next_place(octets, policy, true);
        let serial_number = next_place(octets, message_imprint, true);
        let gen_time = next_place(octets, serial_number, true);
        let accuracy = next_place(octets, gen_time, is_some(self.accuracy()));
        let value = self.ordering();
        let is_default = <DefaultFalse as DefaultOf<bool>>::is_default(&value);
        let ordering = next_place(octets, accuracy, !is_default);
        let nonce = next_place(octets, ordering, is_there(self.nonce()));
        let tsa = next_place(octets, nonce, is_there(self.tsa()));
        let extensions = next_place(octets, tsa, is_there(self.extensions()));
        TstInfoPlaces {
            version,
            policy,
            message_imprint,
            serial_number,
            gen_time,
            accuracy,
            ordering,
            nonce,
            tsa,
            extensions,
        }
    }

    ghost are_fields = { λ v c a.
        let field1 = a in
        let field2 = field1.rest in
        let field3 = field2.rest in
        let field4 = field3.rest in
        let field5 = field4.rest in
        let field6 = field5.rest in
        let field7 = field6.rest in
        let field8 = field7.rest in
        let field9 = field8.rest in
        let field10 = field9.rest in
        (first_of field1 (is_encoding tags.Integer (lit< tt) field1.front field1.first.0 field1.first.1, field1.first)
        (first_of field2 (is_encoding tags.ObjectIdentifier (lit< tt) field2.front field2.first.0 field2.first.1, field2.first)
        (first_of field3 (is_encoding tags.Sequence (lit< tt) field3.front field3.first.0 field3.first.1, field3.first)
        (first_of field4 (is_encoding tags.Integer (lit< tt) field4.front field4.first.0 field4.first.1, field4.first)
        (first_of field5 (is_encoding tags.GeneralizedTime (lit< tt) field5.front field5.first.0 field5.first.1, field5.first)
        (first_of field6 (perhaps (⟦<Accuracy as Form>⟧.accepts Der) (λ x o b. is_encoding tags.Sequence (lit< tt) o b.0 b.1) v.fields.list.rest.rest.rest.rest.rest.first field6.front field6.first)
        (first_of field7 (besides (is_default ⟦<DefaultFalse as DefaultOf<bool>>⟧.octets (⟦<bool as Form>⟧.encoding (fields_of.ordering v))) (⟦<bool as Form>⟧.readable (fields_of.ordering v)) (⟦<bool as Form>⟧.accepts Der (fields_of.ordering v)) (λ o b. is_encoding tags.Boolean (lit< tt) o b.0 b.1) field7.front field7.first)
        (first_of field8 (perhaps (⟦<IntRef<'a> as Form>⟧.accepts Der) (λ x o b. is_encoding tags.Integer (lit< tt) o b.0 b.1) v.fields.list.rest.rest.rest.rest.rest.rest.rest.first field8.front field8.first)
        (first_of field9 (maybe (λ x. x.fields.first) (⟦<Explicit<GeneralName<'a>, 0> as Form>⟧.accepts Der) (λ x. ⟦<Explicit<GeneralName<'a>, 0> as Form>⟧.accepts Der (explicit x)) (λ x o b. (is_encoding (marker_tag 2 true 0) (marker_tag-in_range 2 true 0) o b.0 b.1, b)) v.fields.list.rest.rest.rest.rest.rest.rest.rest.rest.list.first field9.front field9.first)
        (first_of field10 (maybe (λ x. x.value) (⟦<Implicit<Extensions<'a>, 1> as Form>⟧.accepts Der) (λ x. ⟦<Implicit<Extensions<'a>, 1> as Form>⟧.accepts Der (implicit x)) (λ x o b. (is_encoding (marker_tag 2 true 1) (marker_tag-in_range 2 true 1) o b.0 b.1, b)) v.fields.list.rest.rest.rest.rest.rest.rest.rest.rest.list.rest.first field10.front field10.first)
        field10.rest)))))))))) };
}
