//! The fields of a TBSRequest.
//!
//! Made by tools/asn1 from ocsp.asn1.

ghost use Rattle.std.proofs.Common.{lit<, true};
ghost use Rattle.std.specs.Prelude.{◌∷◌, []};
ghost use Rattle.der_fields.specs.Defaults.{is_default};
ghost use Rattle.der_fields.specs.MarkerTags.{marker_tag, marker_tag-in_range};
ghost use Rattle.der_ocsp.specs.Ocsp.TbsRequest as fields_of;
ghost use Rattle.der_places.specs.Layout.{explicit, field, no_more, optional, unless};
ghost use Rattle.der_places.specs.LayoutLaws.{besides, first_of, is_encoding, maybe};
ghost use Rattle.der_tlv.specs.declared.encoding_rules.EncodingRules.TheVariants.{Der};
ghost use Rattle.der_tlv.specs.declared.tag.Tag.TheVariants as tags;

use crate::place::Place;
use crate::placed::Placed;
use crate::presence::is_there;
use crate::walk::next_place;
use der_elem::Form;
use der_extensions::extension::GeneralName;
use der_fields::{DefaultNumber, DefaultOf, Explicit};
use der_modules::tagged;
use der_ocsp::ocsp::{Requests, TbsRequest, Version};
use der_pkix::certificate::Extensions;

/// Byte ranges of the fields of a `TBSRequest`.
#[repr(C)]
#[derive(Clone, Copy, Debug, PartialEq, Eq)]
pub struct TbsRequestPlaces {
    /// `version`, `[0] EXPLICIT Version DEFAULT v1`; empty if it has its default.
    pub version: Place,
    /// `requestorName`, `[1] EXPLICIT GeneralName OPTIONAL`; empty if it is absent.
    pub requestor_name: Place,
    /// `requestList`, `Requests`.
    pub request_list: Place,
    /// `requestExtensions`, `[2] EXPLICIT Extensions OPTIONAL`; empty if it is absent.
    pub request_extensions: Place,
}

impl<'a> Placed for TbsRequest<'a> {
    type Places = TbsRequestPlaces;

    ghost listed = { λ p. p.version ∷ p.requestor_name ∷ p.request_list ∷ p.request_extensions ∷ [] };

    ghost layout = { λ v.
        unless (is_default ⟦<DefaultNumber<0> as DefaultOf<Explicit<Version, 0>>>⟧.octets (⟦<Explicit<Version, 0> as Form>⟧.encoding (explicit (fields_of.version v)))) (⟦<Explicit<Version, 0> as Form>⟧.accepts Der (explicit (fields_of.version v)))
        (optional (λ x. ⟦<Explicit<GeneralName<'a>, 1> as Form>⟧.accepts Der (explicit x)) (fields_of.requestor_name v)
        (field (⟦<Requests<'a> as Form>⟧.accepts Der (fields_of.request_list v))
        (optional (λ x. ⟦<Explicit<Extensions<'a>, 2> as Form>⟧.accepts Der (explicit x)) (fields_of.request_extensions v)
        no_more))) };

    fn walk(&self, octets: &[u8], start: Place) -> TbsRequestPlaces {
        let value = self.version();
        let tagged: Explicit<Version, 0> = tagged!(Explicit, value);
        let is_default = <DefaultNumber<0> as DefaultOf<Explicit<Version, 0>>>::is_default(&tagged);
        let version = next_place(octets, start, !is_default);
        let requestor_name = next_place(octets, version, is_there(self.requestor_name()));
        let request_list = next_place(octets, requestor_name, true);
        let request_extensions = next_place(
            octets,
            request_list,
            is_there(self.request_extensions()),
        );
        TbsRequestPlaces {
            version,
            requestor_name,
            request_list,
            request_extensions,
        }
    }

    ghost are_fields = { λ v c a.
        let field1 = a in
        let field2 = field1.rest in
        let field3 = field2.rest in
        let field4 = field3.rest in
        (first_of field1 (besides (is_default ⟦<DefaultNumber<0> as DefaultOf<Explicit<Version, 0>>>⟧.octets (⟦<Explicit<Version, 0> as Form>⟧.encoding (explicit (fields_of.version v)))) (⟦<Explicit<Version, 0> as Form>⟧.readable (explicit (fields_of.version v))) (⟦<Explicit<Version, 0> as Form>⟧.accepts Der (explicit (fields_of.version v))) (λ o b. is_encoding (marker_tag 2 true 0) (marker_tag-in_range 2 true 0) o b.0 b.1) field1.front field1.first)
        (first_of field2 (maybe (λ x. x.fields.first) (⟦<Explicit<GeneralName<'a>, 1> as Form>⟧.accepts Der) (λ x. ⟦<Explicit<GeneralName<'a>, 1> as Form>⟧.accepts Der (explicit x)) (λ x o b. (is_encoding (marker_tag 2 true 1) (marker_tag-in_range 2 true 1) o b.0 b.1, b)) v.fields.list.rest.first field2.front field2.first)
        (first_of field3 (is_encoding tags.Sequence (lit< tt) field3.front field3.first.0 field3.first.1, field3.first)
        (first_of field4 (maybe (λ x. x.fields.first) (⟦<Explicit<Extensions<'a>, 2> as Form>⟧.accepts Der) (λ x. ⟦<Explicit<Extensions<'a>, 2> as Form>⟧.accepts Der (explicit x)) (λ x o b. (is_encoding (marker_tag 2 true 2) (marker_tag-in_range 2 true 2) o b.0 b.1, b)) v.fields.list.rest.rest.rest.first field4.front field4.first)
        field4.rest)))) };
}
