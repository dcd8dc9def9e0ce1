//! The fields of a PKIStatusInfo.
//!
//! Made by tools/asn1 from time_stamp.asn1.

ghost use Rattle.std.proofs.Common.{lit<};
ghost use Rattle.std.specs.Prelude.{◌∷◌, []};
ghost use Rattle.der_places.specs.Layout.{field, no_more, optional};
ghost use Rattle.der_places.specs.LayoutLaws.{first_of, is_encoding, perhaps};
ghost use Rattle.der_time_stamp.specs.TimeStamp.PkiStatusInfo as fields_of;
ghost use Rattle.der_tlv.specs.declared.encoding_rules.EncodingRules.TheVariants.{Der};
ghost use Rattle.der_tlv.specs.declared.tag.Tag.TheVariants as tags;

use crate::place::Place;
use crate::placed::Placed;
use crate::presence::is_there;
use crate::walk::next_place;
use der_elem::Form;
use der_time_stamp::time_stamp::{PkiFailureInfo, PkiFreeText, PkiStatus, PkiStatusInfo};

/// Byte ranges of the fields of a `PKIStatusInfo`.
#[repr(C)]
#[derive(Clone, Copy, Debug, PartialEq, Eq)]
pub struct PkiStatusInfoPlaces {
    /// `status`, `PKIStatus`.
    pub status: Place,
    /// `statusString`, `PKIFreeText OPTIONAL`; empty if it is absent.
    pub status_string: Place,
    /// `failInfo`, `PKIFailureInfo OPTIONAL`; empty if it is absent.
    pub fail_info: Place,
}

impl<'a> Placed for PkiStatusInfo<'a> {
    type Places = PkiStatusInfoPlaces;

    ghost listed = { λ p. p.status ∷ p.status_string ∷ p.fail_info ∷ [] };

    ghost layout = { λ v.
        field (⟦<PkiStatus as Form>⟧.accepts Der (fields_of.status v))
        (optional (⟦<PkiFreeText<'a> as Form>⟧.accepts Der) (fields_of.status_string v)
        (optional (⟦<PkiFailureInfo<'a> as Form>⟧.accepts Der) (fields_of.fail_info v)
        no_more)) };

    fn walk(&self, octets: &[u8], start: Place) -> PkiStatusInfoPlaces {
        let status = next_place(octets, start, true);
        let status_string = next_place(octets, status, is_there(self.status_string()));
        let fail_info = next_place(octets, status_string, is_there(self.fail_info()));
        PkiStatusInfoPlaces {
            status,
            status_string,
            fail_info,
        }
    }

    ghost are_fields = { λ v c a.
        let field1 = a in
        let field2 = field1.rest in
        let field3 = field2.rest in
        (first_of field1 (is_encoding tags.Integer (lit< tt) field1.front field1.first.0 field1.first.1, field1.first)
        (first_of field2 (perhaps (⟦<PkiFreeText<'a> as Form>⟧.accepts Der) (λ x o b. is_encoding tags.Sequence (lit< tt) o b.0 b.1) v.fields.list.rest.first field2.front field2.first)
        (first_of field3 (perhaps (⟦<PkiFailureInfo<'a> as Form>⟧.accepts Der) (λ x o b. is_encoding tags.BitString (lit< tt) o b.0 b.1) v.fields.list.rest.rest.first field3.front field3.first)
        field3.rest))) };
}
