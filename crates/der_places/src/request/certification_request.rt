//! The fields of a CertificationRequest.
//!
//! Made by tools/asn1 from request.asn1.

ghost use Rattle.std.proofs.Common.{lit<};
ghost use Rattle.std.specs.Prelude.{◌∷◌, []};
ghost use Rattle.der_pkcs.specs.Request.CertificationRequest as fields_of;
ghost use Rattle.der_places.specs.Layout.{field, no_more};
ghost use Rattle.der_places.specs.LayoutLaws.{first_of, is_encoding};
ghost use Rattle.der_tlv.specs.declared.encoding_rules.EncodingRules.TheVariants.{Der};
ghost use Rattle.der_tlv.specs.declared.tag.Tag.TheVariants as tags;

use crate::place::Place;
use crate::placed::Placed;
use crate::walk::next_place;
use der_bits::BitStringRef;
use der_elem::Form;
use der_pkcs::request::{CertificationRequest, CertificationRequestInfo};
use der_pkix::AlgorithmIdentifier;

/// Byte ranges of the fields of a `CertificationRequest`.
#[repr(C)]
#[derive(Clone, Copy, Debug, PartialEq, Eq)]
pub struct CertificationRequestPlaces {
    /// `certificationRequestInfo`, `CertificationRequestInfo`.
    pub certification_request_info: Place,
    /// `signatureAlgorithm`, `AlgorithmIdentifier`.
    pub signature_algorithm: Place,
    /// `signature`, `BIT STRING`.
    pub signature: Place,
}

impl<'a> Placed for CertificationRequest<'a> {
    type Places = CertificationRequestPlaces;

    ghost listed = { λ p. p.certification_request_info ∷ p.signature_algorithm ∷ p.signature ∷ [] };

    ghost layout = { λ v.
        field (⟦<CertificationRequestInfo<'a> as Form>⟧.accepts Der (fields_of.certification_request_info v))
        (field (⟦<AlgorithmIdentifier<'a> as Form>⟧.accepts Der (fields_of.signature_algorithm v))
        (field (⟦<BitStringRef<'a> as Form>⟧.accepts Der (fields_of.signature v))
        no_more)) };

    fn walk(&self, octets: &[u8], start: Place) -> CertificationRequestPlaces {
        let certification_request_info = next_place(octets, start, true);
        let signature_algorithm = next_place(octets, certification_request_info, true);
        let signature = next_place(octets, signature_algorithm, true);
        CertificationRequestPlaces {
            certification_request_info,
            signature_algorithm,
            signature,
        }
    }

    ghost are_fields = { λ v c a.
        let field1 = a in
        let field2 = field1.rest in
        let field3 = field2.rest in
        (first_of field1 (is_encoding tags.Sequence (lit< tt) field1.front field1.first.0 field1.first.1, field1.first)
        (first_of field2 (is_encoding tags.Sequence (lit< tt) field2.front field2.first.0 field2.first.1, field2.first)
        (first_of field3 (is_encoding tags.BitString (lit< tt) field3.front field3.first.0 field3.first.1, field3.first)
        field3.rest))) };
}
