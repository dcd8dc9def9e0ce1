//! The fields of a RSAES-OAEP-params.
//!
//! Made by tools/asn1 from algorithm.asn1.

ghost use Rattle.std.proofs.Common.{true};
ghost use Rattle.std.specs.Prelude.{◌∷◌, []};
ghost use Rattle.der_fields.specs.MarkerTags.{marker_tag, marker_tag-in_range};
ghost use Rattle.der_pkcs.specs.Algorithm.RsaesOaepParams as fields_of;
ghost use Rattle.der_places.specs.Layout.{explicit, no_more, optional};
ghost use Rattle.der_places.specs.LayoutLaws.{first_of, is_encoding, maybe};
ghost use Rattle.der_tlv.specs.declared.encoding_rules.EncodingRules.TheVariants.{Der};

use crate::place::Place;
use crate::placed::Placed;
use crate::presence::is_there;
use crate::walk::next_place;
use der_elem::Form;
use der_fields::Explicit;
use der_pkcs::algorithm::RsaesOaepParams;
use der_pkix::AlgorithmIdentifier;

/// Byte ranges of the fields of a `RSAES-OAEP-params`.
#[repr(C)]
#[derive(Clone, Copy, Debug, PartialEq, Eq)]
pub struct RsaesOaepParamsPlaces {
    /// `hashFunc`, `[0] AlgorithmIdentifier OPTIONAL`; empty if it is absent.
    pub hash_func: Place,
    /// `maskGenFunc`, `[1] AlgorithmIdentifier OPTIONAL`; empty if it is absent.
    pub mask_gen_func: Place,
    /// `pSourceFunc`, `[2] AlgorithmIdentifier OPTIONAL`; empty if it is absent.
    pub p_source_func: Place,
}

impl<'a> Placed for RsaesOaepParams<'a> {
    type Places = RsaesOaepParamsPlaces;

    ghost listed = { λ p. p.hash_func ∷ p.mask_gen_func ∷ p.p_source_func ∷ [] };

    ghost layout = { λ v.
        optional (λ x. ⟦<Explicit<AlgorithmIdentifier<'a>, 0> as Form>⟧.accepts Der (explicit x)) (fields_of.hash_func v)
        (optional (λ x. ⟦<Explicit<AlgorithmIdentifier<'a>, 1> as Form>⟧.accepts Der (explicit x)) (fields_of.mask_gen_func v)
        (optional (λ x. ⟦<Explicit<AlgorithmIdentifier<'a>, 2> as Form>⟧.accepts Der (explicit x)) (fields_of.p_source_func v)
        no_more)) };

    fn walk(&self, octets: &[u8], start: Place) -> RsaesOaepParamsPlaces {
        let hash_func = next_place(octets, start, is_there(self.hash_func()));
        let mask_gen_func = next_place(octets, hash_func, is_there(self.mask_gen_func()));
        let p_source_func = next_place(octets, mask_gen_func, is_there(self.p_source_func()));
        RsaesOaepParamsPlaces {
            hash_func,
            mask_gen_func,
            p_source_func,
        }
    }

    ghost are_fields = { λ v c a.
        let field1 = a in
        let field2 = field1.rest in
        let field3 = field2.rest in
        (first_of field1 (maybe (λ x. x.fields.first) (⟦<Explicit<AlgorithmIdentifier<'a>, 0> as Form>⟧.accepts Der) (λ x. ⟦<Explicit<AlgorithmIdentifier<'a>, 0> as Form>⟧.accepts Der (explicit x)) (λ x o b. (is_encoding (marker_tag 2 true 0) (marker_tag-in_range 2 true 0) o b.0 b.1, b)) v.fields.list.first field1.front field1.first)
        (first_of field2 (maybe (λ x. x.fields.first) (⟦<Explicit<AlgorithmIdentifier<'a>, 1> as Form>⟧.accepts Der) (λ x. ⟦<Explicit<AlgorithmIdentifier<'a>, 1> as Form>⟧.accepts Der (explicit x)) (λ x o b. (is_encoding (marker_tag 2 true 1) (marker_tag-in_range 2 true 1) o b.0 b.1, b)) v.fields.list.rest.first field2.front field2.first)
        (first_of field3 (maybe (λ x. x.fields.first) (⟦<Explicit<AlgorithmIdentifier<'a>, 2> as Form>⟧.accepts Der) (λ x. ⟦<Explicit<AlgorithmIdentifier<'a>, 2> as Form>⟧.accepts Der (explicit x)) (λ x o b. (is_encoding (marker_tag 2 true 2) (marker_tag-in_range 2 true 2) o b.0 b.1, b)) v.fields.list.rest.rest.first field3.front field3.first)
        field3.rest))) };
}
