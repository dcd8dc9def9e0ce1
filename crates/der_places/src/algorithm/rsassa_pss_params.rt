//! The fields of a RSASSA-PSS-params.
//!
//! Made by tools/asn1 from algorithm.asn1.

ghost use Rattle.std.proofs.Common.{true};
ghost use Rattle.std.specs.Prelude.{◌∷◌, []};
ghost use Rattle.der_fields.specs.Defaults.{is_default};
ghost use Rattle.der_fields.specs.MarkerTags.{marker_tag, marker_tag-in_range};
ghost use Rattle.der_pkcs.specs.Algorithm.RsassaPssParams as fields_of;
ghost use Rattle.der_places.specs.Layout.{explicit, no_more, optional, unless};
ghost use Rattle.der_places.specs.LayoutLaws.{besides, first_of, is_encoding, maybe};
ghost use Rattle.der_tlv.specs.declared.encoding_rules.EncodingRules.TheVariants.{Der};

use crate::place::Place;
use crate::placed::Placed;
use crate::presence::{is_some, is_there};
use crate::walk::next_place;
use der_elem::Form;
use der_fields::{DefaultNumber, DefaultOf, Explicit};
use der_modules::tagged;
use der_pkcs::algorithm::RsassaPssParams;
use der_pkix::AlgorithmIdentifier;

/// Byte ranges of the fields of a `RSASSA-PSS-params`.
#[repr(C)]
#[derive(Clone, Copy, Debug, PartialEq, Eq)]
pub struct RsassaPssParamsPlaces {
    /// `hashAlgorithm`, `[0] AlgorithmIdentifier OPTIONAL`; empty if it is absent.
    pub hash_algorithm: Place,
    /// `maskGenAlgorithm`, `[1] AlgorithmIdentifier OPTIONAL`; empty if it is absent.
    pub mask_gen_algorithm: Place,
    /// `saltLength`, `[2] INTEGER OPTIONAL`; empty if it is absent.
    pub salt_length: Place,
    /// `trailerField`, `[3] INTEGER DEFAULT 1`; empty if it has its default.
    pub trailer_field: Place,
}

impl<'a> Placed for RsassaPssParams<'a> {
    type Places = RsassaPssParamsPlaces;

    ghost listed = { λ p. p.hash_algorithm ∷ p.mask_gen_algorithm ∷ p.salt_length ∷ p.trailer_field ∷ [] };

    ghost layout = { λ v.
        optional (λ x. ⟦<Explicit<AlgorithmIdentifier<'a>, 0> as Form>⟧.accepts Der (explicit x)) (fields_of.hash_algorithm v)
        (optional (λ x. ⟦<Explicit<AlgorithmIdentifier<'a>, 1> as Form>⟧.accepts Der (explicit x)) (fields_of.mask_gen_algorithm v)
        (optional (λ x. ⟦<Explicit<u32, 2> as Form>⟧.accepts Der (explicit x)) (fields_of.salt_length v)
        (unless (is_default ⟦<DefaultNumber<1> as DefaultOf<Explicit<u8, 3>>>⟧.octets (⟦<Explicit<u8, 3> as Form>⟧.encoding (explicit (fields_of.trailer_field v)))) (⟦<Explicit<u8, 3> as Form>⟧.accepts Der (explicit (fields_of.trailer_field v)))
        no_more))) };

    fn walk(&self, octets: &[u8], start: Place) -> RsassaPssParamsPlaces {
        let hash_algorithm = next_place(octets, start, is_there(self.hash_algorithm()));
        let mask_gen_algorithm = next_place(
            octets,
            hash_algorithm,
            is_there(self.mask_gen_algorithm()),
        );
        let salt_length = next_place(octets, mask_gen_algorithm, is_some(self.salt_length()));
        let value = self.trailer_field();
        let tagged: Explicit<u8, 3> = tagged!(Explicit, value);
        let is_default = <DefaultNumber<1> as DefaultOf<Explicit<u8, 3>>>::is_default(&tagged);
        let trailer_field = next_place(octets, salt_length, !is_default);
        RsassaPssParamsPlaces {
            hash_algorithm,
            mask_gen_algorithm,
            salt_length,
            trailer_field,
        }
    }

    ghost are_fields = { λ v c a.
        let field1 = a in
        let field2 = field1.rest in
        let field3 = field2.rest in
        let field4 = field3.rest in
        (first_of field1 (maybe (λ x. x.fields.first) (⟦<Explicit<AlgorithmIdentifier<'a>, 0> as Form>⟧.accepts Der) (λ x. ⟦<Explicit<AlgorithmIdentifier<'a>, 0> as Form>⟧.accepts Der (explicit x)) (λ x o b. (is_encoding (marker_tag 2 true 0) (marker_tag-in_range 2 true 0) o b.0 b.1, b)) v.fields.list.first field1.front field1.first)
        (first_of field2 (maybe (λ x. x.fields.first) (⟦<Explicit<AlgorithmIdentifier<'a>, 1> as Form>⟧.accepts Der) (λ x. ⟦<Explicit<AlgorithmIdentifier<'a>, 1> as Form>⟧.accepts Der (explicit x)) (λ x o b. (is_encoding (marker_tag 2 true 1) (marker_tag-in_range 2 true 1) o b.0 b.1, b)) v.fields.list.rest.first field2.front field2.first)
        (first_of field3 (maybe (λ x. x.fields.first) (⟦<Explicit<u32, 2> as Form>⟧.accepts Der) (λ x. ⟦<Explicit<u32, 2> as Form>⟧.accepts Der (explicit x)) (λ x o b. (is_encoding (marker_tag 2 true 2) (marker_tag-in_range 2 true 2) o b.0 b.1, b)) v.fields.list.rest.rest.first field3.front field3.first)
        (first_of field4 (besides (is_default ⟦<DefaultNumber<1> as DefaultOf<Explicit<u8, 3>>>⟧.octets (⟦<Explicit<u8, 3> as Form>⟧.encoding (explicit (fields_of.trailer_field v)))) (⟦<Explicit<u8, 3> as Form>⟧.readable (explicit (fields_of.trailer_field v))) (⟦<Explicit<u8, 3> as Form>⟧.accepts Der (explicit (fields_of.trailer_field v))) (λ o b. is_encoding (marker_tag 2 true 3) (marker_tag-in_range 2 true 3) o b.0 b.1) field4.front field4.first)
        field4.rest)))) };
}
