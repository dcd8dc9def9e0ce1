//! The fields of a Request.
//!
//! Made by tools/asn1 from ocsp.asn1.

ghost use Rattle.std.proofs.Common.{lit<, true};
ghost use Rattle.std.specs.Prelude.{◌∷◌, []};
ghost use Rattle.der_fields.specs.MarkerTags.{marker_tag, marker_tag-in_range};
ghost use Rattle.der_ocsp.specs.Ocsp.Request as fields_of;
ghost use Rattle.der_places.specs.Layout.{explicit, field, no_more, optional};
ghost use Rattle.der_places.specs.LayoutLaws.{first_of, is_encoding, maybe};
ghost use Rattle.der_tlv.specs.declared.encoding_rules.EncodingRules.TheVariants.{Der};
ghost use Rattle.der_tlv.specs.declared.tag.Tag.TheVariants as tags;

use crate::place::Place;
use crate::placed::Placed;
use crate::presence::is_there;
use crate::walk::next_place;
use der_elem::Form;
use der_fields::Explicit;
use der_ocsp::ocsp::{CertId, Request};
use der_pkix::certificate::Extensions;

/// Byte ranges of the fields of a `Request`.
#[repr(C)]
#[derive(Clone, Copy, Debug, PartialEq, Eq)]
pub struct RequestPlaces {
    /// `reqCert`, `CertID`.
    pub req_cert: Place,
    /// `singleRequestExtensions`, `[0] EXPLICIT Extensions OPTIONAL`; empty if it is absent.
    pub single_request_extensions: Place,
}

impl<'a> Placed for Request<'a> {
    type Places = RequestPlaces;

    ghost listed = { λ p. p.req_cert ∷ p.single_request_extensions ∷ [] };

    ghost layout = { λ v.
        field (⟦<CertId<'a> as Form>⟧.accepts Der (fields_of.req_cert v))
        (optional (λ x. ⟦<Explicit<Extensions<'a>, 0> as Form>⟧.accepts Der (explicit x)) (fields_of.single_request_extensions v)
        no_more) };

    fn walk(&self, octets: &[u8], start: Place) -> RequestPlaces {
        let req_cert = next_place(octets, start, true);
        let single_request_extensions = next_place(
            octets,
            req_cert,
            is_there(self.single_request_extensions()),
        );
        RequestPlaces {
            req_cert,
            single_request_extensions,
        }
    }

    ghost are_fields = { λ v c a.
        let field1 = a in
        let field2 = field1.rest in
        (first_of field1 (is_encoding tags.Sequence (lit< tt) field1.front field1.first.0 field1.first.1, field1.first)
        (first_of field2 (maybe (λ x. x.fields.first) (⟦<Explicit<Extensions<'a>, 0> as Form>⟧.accepts Der) (λ x. ⟦<Explicit<Extensions<'a>, 0> as Form>⟧.accepts Der (explicit x)) (λ x o b. (is_encoding (marker_tag 2 true 0) (marker_tag-in_range 2 true 0) o b.0 b.1, b)) v.fields.list.rest.first field2.front field2.first)
        field2.rest)) };
}
