//! The fields of a TimeStampReq.
//!
//! Made by tools/asn1 from time_stamp.asn1.

ghost use Rattle.std.proofs.Common.{lit<, true};
ghost use Rattle.std.specs.Prelude.{◌∷◌, []};
ghost use Rattle.der_fields.specs.Defaults.{is_default};
ghost use Rattle.der_fields.specs.MarkerTags.{marker_tag, marker_tag-in_range};
ghost use Rattle.der_places.specs.Layout.{field, implicit, no_more, optional, unless};
ghost use Rattle.der_places.specs.LayoutLaws.{besides, first_of, is_encoding, maybe, perhaps};
ghost use Rattle.der_time_stamp.specs.TimeStamp.TimeStampReq as fields_of;
ghost use Rattle.der_tlv.specs.declared.encoding_rules.EncodingRules.TheVariants.{Der};
ghost use Rattle.der_tlv.specs.declared.tag.Tag.TheVariants as tags;

use crate::place::Place;
use crate::placed::Placed;
use crate::presence::is_there;
use crate::walk::next_place;
use der_elem::Form;
use der_fields::{DefaultFalse, DefaultOf, Implicit};
use der_numbers::IntRef;
use der_pkix::certificate::Extensions;
use der_time_stamp::time_stamp::{MessageImprint, TimeStampReq, TimeStampReqVersion, TsaPolicyId};

/// Byte ranges of the fields of a `TimeStampReq`.
#[repr(C)]
#[derive(Clone, Copy, Debug, PartialEq, Eq)]
pub struct TimeStampReqPlaces {
    /// `version`, `INTEGER { v1 (1) }`.
    pub version: Place,
    /// `messageImprint`, `MessageImprint`.
    pub message_imprint: Place,
    /// `reqPolicy`, `TSAPolicyId OPTIONAL`; empty if it is absent.
    pub req_policy: Place,
    /// `nonce`, `INTEGER OPTIONAL`; empty if it is absent.
    pub nonce: Place,
    /// `certReq`, `BOOLEAN DEFAULT FALSE`; empty if it has its default.
    pub cert_req: Place,
    /// `extensions`, `[0] IMPLICIT Extensions OPTIONAL`; empty if it is absent.
    pub extensions: Place,
}

impl<'a> Placed for TimeStampReq<'a> {
    type Places = TimeStampReqPlaces;

    ghost listed = { λ p. p.version ∷ p.message_imprint ∷ p.req_policy ∷ p.nonce ∷ p.cert_req ∷ p.extensions ∷ [] };

    ghost layout = { λ v.
        field (⟦<TimeStampReqVersion as Form>⟧.accepts Der (fields_of.version v))
        (field (⟦<MessageImprint<'a> as Form>⟧.accepts Der (fields_of.message_imprint v))
        (optional (⟦<TsaPolicyId<'a> as Form>⟧.accepts Der) (fields_of.req_policy v)
        (optional (⟦<IntRef<'a> as Form>⟧.accepts Der) (fields_of.nonce v)
        (unless (is_default ⟦<DefaultFalse as DefaultOf<bool>>⟧.octets (⟦<bool as Form>⟧.encoding (fields_of.cert_req v))) (⟦<bool as Form>⟧.accepts Der (fields_of.cert_req v))
        (optional (λ x. ⟦<Implicit<Extensions<'a>, 0> as Form>⟧.accepts Der (implicit x)) (fields_of.extensions v)
        no_more))))) };

    fn walk(&self, octets: &[u8], start: Place) -> TimeStampReqPlaces {
        let version = next_place(octets, start, true);
        let message_imprint = next_place(octets, version, true);
        let req_policy = next_place(octets, message_imprint, is_there(self.req_policy()));
        let nonce = next_place(octets, req_policy, is_there(self.nonce()));
        let value = self.cert_req();
        let is_default = <DefaultFalse as DefaultOf<bool>>::is_default(&value);
        let cert_req = next_place(octets, nonce, !is_default);
        let extensions = next_place(octets, cert_req, is_there(self.extensions()));
        TimeStampReqPlaces {
            version,
            message_imprint,
            req_policy,
            nonce,
            cert_req,
            extensions,
        }
    }

    ghost are_fields = { λ v c a.
        let field1 = a in
        let field2 = field1.rest in
        let field3 = field2.rest in
        let field4 = field3.rest in
        let field5 = field4.rest in
        let field6 = field5.rest in
        (first_of field1 (is_encoding tags.Integer (lit< tt) field1.front field1.first.0 field1.first.1, field1.first)
        (first_of field2 (is_encoding tags.Sequence (lit< tt) field2.front field2.first.0 field2.first.1, field2.first)
        (first_of field3 (perhaps (⟦<TsaPolicyId<'a> as Form>⟧.accepts Der) (λ x o b. is_encoding tags.ObjectIdentifier (lit< tt) o b.0 b.1) v.fields.list.rest.rest.first field3.front field3.first)
        (first_of field4 (perhaps (⟦<IntRef<'a> as Form>⟧.accepts Der) (λ x o b. is_encoding tags.Integer (lit< tt) o b.0 b.1) v.fields.list.rest.rest.rest.first field4.front field4.first)
        (first_of field5 (besides (is_default ⟦<DefaultFalse as DefaultOf<bool>>⟧.octets (⟦<bool as Form>⟧.encoding (fields_of.cert_req v))) (⟦<bool as Form>⟧.readable (fields_of.cert_req v)) (⟦<bool as Form>⟧.accepts Der (fields_of.cert_req v)) (λ o b. is_encoding tags.Boolean (lit< tt) o b.0 b.1) field5.front field5.first)
        (first_of field6 (maybe (λ x. x.value) (⟦<Implicit<Extensions<'a>, 0> as Form>⟧.accepts Der) (λ x. ⟦<Implicit<Extensions<'a>, 0> as Form>⟧.accepts Der (implicit x)) (λ x o b. (is_encoding (marker_tag 2 true 0) (marker_tag-in_range 2 true 0) o b.0 b.1, b)) v.fields.list.rest.rest.rest.rest.rest.first field6.front field6.first)
        field6.rest)))))) };
}
