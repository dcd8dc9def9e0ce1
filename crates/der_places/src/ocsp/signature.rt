//! The fields of a Signature.
//!
//! Made by tools/asn1 from ocsp.asn1.

ghost use Rattle.std.proofs.Common.{lit<, true};
ghost use Rattle.std.specs.Prelude.{◌∷◌, []};
ghost use Rattle.der_fields.specs.MarkerTags.{marker_tag, marker_tag-in_range};
ghost use Rattle.der_ocsp.specs.Ocsp.Signature as fields_of;
ghost use Rattle.der_places.specs.Layout.{explicit, field, no_more, optional};
ghost use Rattle.der_places.specs.LayoutLaws.{first_of, is_encoding, maybe};
ghost use Rattle.der_tlv.specs.declared.encoding_rules.EncodingRules.TheVariants.{Der};
ghost use Rattle.der_tlv.specs.declared.tag.Tag.TheVariants as tags;

use crate::place::Place;
use crate::placed::Placed;
use crate::presence::is_there;
use crate::walk::next_place;
use der_bits::BitStringRef;
use der_elem::Form;
use der_fields::Explicit;
use der_ocsp::ocsp::{Certificates, Signature};
use der_pkix::AlgorithmIdentifier;

/// Byte ranges of the fields of a `Signature`.
#[repr(C)]
#[derive(Clone, Copy, Debug, PartialEq, Eq)]
pub struct SignaturePlaces {
    /// `signatureAlgorithm`, `AlgorithmIdentifier`.
    pub signature_algorithm: Place,
    /// `signature`, `BIT STRING`.
    pub signature: Place,
    /// `certs`, `[0] EXPLICIT Certificates OPTIONAL`; empty if it is absent.
    pub certs: Place,
}

impl<'a> Placed for Signature<'a> {
    type Places = SignaturePlaces;

    ghost listed = { λ p. p.signature_algorithm ∷ p.signature ∷ p.certs ∷ [] };

    ghost layout = { λ v.
        field (⟦<AlgorithmIdentifier<'a> as Form>⟧.accepts Der (fields_of.signature_algorithm v))
        (field (⟦<BitStringRef<'a> as Form>⟧.accepts Der (fields_of.signature v))
        (optional (λ x. ⟦<Explicit<Certificates<'a>, 0> as Form>⟧.accepts Der (explicit x)) (fields_of.certs v)
        no_more)) };

    fn walk(&self, octets: &[u8], start: Place) -> SignaturePlaces {
        let signature_algorithm = next_place(octets, start, true);
        let signature = next_place(octets, signature_algorithm, true);
        let certs = next_place(octets, signature, is_there(self.certs()));
        SignaturePlaces {
            signature_algorithm,
            signature,
            certs,
        }
    }

    ghost are_fields = { λ v c a.
        let field1 = a in
        let field2 = field1.rest in
        let field3 = field2.rest in
        (first_of field1 (is_encoding tags.Sequence (lit< tt) field1.front field1.first.0 field1.first.1, field1.first)
        (first_of field2 (is_encoding tags.BitString (lit< tt) field2.front field2.first.0 field2.first.1, field2.first)
        (first_of field3 (maybe (λ x. x.fields.first) (⟦<Explicit<Certificates<'a>, 0> as Form>⟧.accepts Der) (λ x. ⟦<Explicit<Certificates<'a>, 0> as Form>⟧.accepts Der (explicit x)) (λ x o b. (is_encoding (marker_tag 2 true 0) (marker_tag-in_range 2 true 0) o b.0 b.1, b)) v.fields.list.rest.rest.first field3.front field3.first)
        field3.rest))) };
}
