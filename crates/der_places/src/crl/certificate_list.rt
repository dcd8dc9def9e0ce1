//! The fields of a CertificateList.
//!
//! Made by tools/asn1 from crl.asn1.

ghost use Rattle.std.proofs.Common.{lit<};
ghost use Rattle.std.specs.Prelude.{◌∷◌, []};
ghost use Rattle.der_pkix.specs.Crl.CertificateList as fields_of;
ghost use Rattle.der_places.specs.Layout.{field, no_more};
ghost use Rattle.der_places.specs.LayoutLaws.{first_of, is_encoding};
ghost use Rattle.der_tlv.specs.declared.encoding_rules.EncodingRules.TheVariants.{Der};
ghost use Rattle.der_tlv.specs.declared.tag.Tag.TheVariants as tags;

use crate::place::Place;
use crate::placed::Placed;
use crate::walk::next_place;
use der_bits::BitStringRef;
use der_elem::Form;
use der_pkix::AlgorithmIdentifier;
use der_pkix::crl::{CertificateList, TbsCertList};

/// Byte ranges of the fields of a `CertificateList`.
#[repr(C)]
#[derive(Clone, Copy, Debug, PartialEq, Eq)]
pub struct CertificateListPlaces {
    /// `tbsCertList`, `TBSCertList`.
    pub tbs_cert_list: Place,
    /// `signatureAlgorithm`, `AlgorithmIdentifier`.
    pub signature_algorithm: Place,
    /// `signatureValue`, `BIT STRING`.
    pub signature_value: Place,
}

impl<'a> Placed for CertificateList<'a> {
    type Places = CertificateListPlaces;

    ghost listed = { λ p. p.tbs_cert_list ∷ p.signature_algorithm ∷ p.signature_value ∷ [] };

    ghost layout = { λ v.
        field (⟦<TbsCertList<'a> as Form>⟧.accepts Der (fields_of.tbs_cert_list v))
        (field (⟦<AlgorithmIdentifier<'a> as Form>⟧.accepts Der (fields_of.signature_algorithm v))
        (field (⟦<BitStringRef<'a> as Form>⟧.accepts Der (fields_of.signature_value v))
        no_more)) };

    fn walk(&self, octets: &[u8], start: Place) -> CertificateListPlaces {
        let tbs_cert_list = next_place(octets, start, true);
        let signature_algorithm = next_place(octets, tbs_cert_list, true);
        let signature_value = next_place(octets, signature_algorithm, true);
        CertificateListPlaces {
            tbs_cert_list,
            signature_algorithm,
            signature_value,
        }
    }

    ghost are_fields = { λ v c a.
        let field1 = a in
        let field2 = field1.rest in
        let field3 = field2.rest in
        (first_of field1 (is_encoding tags.Sequence (lit< tt) field1.front field1.first.0 field1.first.1, field1.first)
        (first_of field2 (is_encoding tags.Sequence (lit< tt) field2.front field2.first.0 field2.first.1, field2.first)
        (first_of field3 (is_encoding tags.BitString (lit< tt) field3.front field3.first.0 field3.first.1, field3.first)
        field3.rest))) };
}
