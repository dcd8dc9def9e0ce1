//! The fields of a CrlID.
//!
//! Made by tools/asn1 from ocsp.asn1.

ghost use Rattle.std.proofs.Common.{true};
ghost use Rattle.std.specs.Prelude.{◌∷◌, []};
ghost use Rattle.der_fields.specs.MarkerTags.{marker_tag, marker_tag-in_range};
ghost use Rattle.der_ocsp.specs.Ocsp.CrlId as fields_of;
ghost use Rattle.der_places.specs.Layout.{explicit, no_more, optional};
ghost use Rattle.der_places.specs.LayoutLaws.{first_of, is_encoding, maybe};
ghost use Rattle.der_tlv.specs.declared.encoding_rules.EncodingRules.TheVariants.{Der};

use crate::place::Place;
use crate::placed::Placed;
use crate::presence::{is_some, is_there};
use crate::walk::next_place;
use der_ascii::Ia5StringRef;
use der_elem::Form;
use der_fields::Explicit;
use der_numbers::IntRef;
use der_ocsp::ocsp::CrlId;
use der_time::GeneralizedTime;

/// Byte ranges of the fields of a `CrlID`.
#[repr(C)]
#[derive(Clone, Copy, Debug, PartialEq, Eq)]
pub struct CrlIdPlaces {
    /// `crlUrl`, `[0] EXPLICIT IA5String OPTIONAL`; empty if it is absent.
    pub crl_url: Place,
    /// `crlNum`, `[1] EXPLICIT INTEGER OPTIONAL`; empty if it is absent.
    pub crl_num: Place,
    /// `crlTime`, `[2] EXPLICIT GeneralizedTime OPTIONAL`; empty if it is absent.
    pub crl_time: Place,
}

impl<'a> Placed for CrlId<'a> {
    type Places = CrlIdPlaces;

    ghost listed = { λ p. p.crl_url ∷ p.crl_num ∷ p.crl_time ∷ [] };

    ghost layout = { λ v.
        optional (λ x. ⟦<Explicit<Ia5StringRef<'a>, 0> as Form>⟧.accepts Der (explicit x)) (fields_of.crl_url v)
        (optional (λ x. ⟦<Explicit<IntRef<'a>, 1> as Form>⟧.accepts Der (explicit x)) (fields_of.crl_num v)
        (optional (λ x. ⟦<Explicit<GeneralizedTime, 2> as Form>⟧.accepts Der (explicit x)) (fields_of.crl_time v)
        no_more)) };

    fn walk(&self, octets: &[u8], start: Place) -> CrlIdPlaces {
        let crl_url = next_place(octets, start, is_there(self.crl_url()));
        let crl_num = next_place(octets, crl_url, is_there(self.crl_num()));
        let crl_time = next_place(octets, crl_num, is_some(self.crl_time()));
        CrlIdPlaces {
            crl_url,
            crl_num,
            crl_time,
        }
    }

    ghost are_fields = { λ v c a.
        let field1 = a in
        let field2 = field1.rest in
        let field3 = field2.rest in
        (first_of field1 (maybe (λ x. x.fields.first) (⟦<Explicit<Ia5StringRef<'a>, 0> as Form>⟧.accepts Der) (λ x. ⟦<Explicit<Ia5StringRef<'a>, 0> as Form>⟧.accepts Der (explicit x)) (λ x o b. (is_encoding (marker_tag 2 true 0) (marker_tag-in_range 2 true 0) o b.0 b.1, b)) v.fields.list.first field1.front field1.first)
        (first_of field2 (maybe (λ x. x.fields.first) (⟦<Explicit<IntRef<'a>, 1> as Form>⟧.accepts Der) (λ x. ⟦<Explicit<IntRef<'a>, 1> as Form>⟧.accepts Der (explicit x)) (λ x o b. (is_encoding (marker_tag 2 true 1) (marker_tag-in_range 2 true 1) o b.0 b.1, b)) v.fields.list.rest.first field2.front field2.first)
        (first_of field3 (maybe (λ x. x.fields.first) (⟦<Explicit<GeneralizedTime, 2> as Form>⟧.accepts Der) (λ x. ⟦<Explicit<GeneralizedTime, 2> as Form>⟧.accepts Der (explicit x)) (λ x o b. (is_encoding (marker_tag 2 true 2) (marker_tag-in_range 2 true 2) o b.0 b.1, b)) v.fields.list.rest.rest.first field3.front field3.first)
        field3.rest))) };
}
