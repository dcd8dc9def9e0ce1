//! The fields of a TimeStampResp.
//!
//! Made by tools/asn1 from time_stamp.asn1.

ghost use Rattle.std.proofs.Common.{lit<};
ghost use Rattle.std.specs.Prelude.{◌∷◌, []};
ghost use Rattle.der_places.specs.Layout.{field, no_more, optional};
ghost use Rattle.der_places.specs.LayoutLaws.{first_of, is_encoding, perhaps};
ghost use Rattle.der_time_stamp.specs.TimeStamp.TimeStampResp as fields_of;
ghost use Rattle.der_tlv.specs.declared.encoding_rules.EncodingRules.TheVariants.{Der};
ghost use Rattle.der_tlv.specs.declared.tag.Tag.TheVariants as tags;

use crate::place::Place;
use crate::placed::Placed;
use crate::presence::is_there;
use crate::walk::next_place;
use der_elem::Form;
use der_time_stamp::time_stamp::{PkiStatusInfo, TimeStampResp, TimeStampToken};

/// Byte ranges of the fields of a `TimeStampResp`.
#[repr(C)]
#[derive(Clone, Copy, Debug, PartialEq, Eq)]
pub struct TimeStampRespPlaces {
    /// `status`, `PKIStatusInfo`.
    pub status: Place,
    /// `timeStampToken`, `TimeStampToken OPTIONAL`; empty if it is absent.
    pub time_stamp_token: Place,
}

impl<'a> Placed for TimeStampResp<'a> {
    type Places = TimeStampRespPlaces;

    ghost listed = { λ p. p.status ∷ p.time_stamp_token ∷ [] };

    ghost layout = { λ v.
        field (⟦<PkiStatusInfo<'a> as Form>⟧.accepts Der (fields_of.status v))
        (optional (⟦<TimeStampToken<'a> as Form>⟧.accepts Der) (fields_of.time_stamp_token v)
        no_more) };

    fn walk(&self, octets: &[u8], start: Place) -> TimeStampRespPlaces {
        let status = next_place(octets, start, true);
        let time_stamp_token = next_place(octets, status, is_there(self.time_stamp_token()));
        TimeStampRespPlaces {
            status,
            time_stamp_token,
        }
    }

    ghost are_fields = { λ v c a.
        let field1 = a in
        let field2 = field1.rest in
        (first_of field1 (is_encoding tags.Sequence (lit< tt) field1.front field1.first.0 field1.first.1, field1.first)
        (first_of field2 (perhaps (⟦<TimeStampToken<'a> as Form>⟧.accepts Der) (λ x o b. is_encoding tags.Sequence (lit< tt) o b.0 b.1) v.fields.list.rest.first field2.front field2.first)
        field2.rest)) };
}
