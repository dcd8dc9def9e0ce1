//! The fields of a CertID.
//!
//! Made by tools/asn1 from ocsp.asn1.

ghost use Rattle.std.proofs.Common.{lit<};
ghost use Rattle.std.specs.Prelude.{◌∷◌, []};
ghost use Rattle.der_ocsp.specs.Ocsp.CertId as fields_of;
ghost use Rattle.der_places.specs.Layout.{field, no_more};
ghost use Rattle.der_places.specs.LayoutLaws.{first_of, is_encoding};
ghost use Rattle.der_tlv.specs.declared.encoding_rules.EncodingRules.TheVariants.{Der};
ghost use Rattle.der_tlv.specs.declared.tag.Tag.TheVariants as tags;

use crate::place::Place;
use crate::placed::Placed;
use crate::walk::next_place;
use der_elem::Form;
use der_ocsp::ocsp::CertId;
use der_opaque::OctetStringRef;
use der_pkix::AlgorithmIdentifier;
use der_pkix::certificate::CertificateSerialNumber;

/// Byte ranges of the fields of a `CertID`.
#[repr(C)]
#[derive(Clone, Copy, Debug, PartialEq, Eq)]
pub struct CertIdPlaces {
    /// `hashAlgorithm`, `AlgorithmIdentifier`.
    pub hash_algorithm: Place,
    /// `issuerNameHash`, `OCTET STRING`.
    pub issuer_name_hash: Place,
    /// `issuerKeyHash`, `OCTET STRING`.
    pub issuer_key_hash: Place,
    /// `serialNumber`, `CertificateSerialNumber`.
    pub serial_number: Place,
}

impl<'a> Placed for CertId<'a> {
    type Places = CertIdPlaces;

    ghost listed = { λ p. p.hash_algorithm ∷ p.issuer_name_hash ∷ p.issuer_key_hash ∷ p.serial_number ∷ [] };

    ghost layout = { λ v.
        field (⟦<AlgorithmIdentifier<'a> as Form>⟧.accepts Der (fields_of.hash_algorithm v))
        (field (⟦<OctetStringRef<'a> as Form>⟧.accepts Der (fields_of.issuer_name_hash v))
        (field (⟦<OctetStringRef<'a> as Form>⟧.accepts Der (fields_of.issuer_key_hash v))
        (field (⟦<CertificateSerialNumber<'a> as Form>⟧.accepts Der (fields_of.serial_number v))
        no_more))) };

    fn walk(&self, octets: &[u8], start: Place) -> CertIdPlaces {
        let hash_algorithm = next_place(octets, start, true);
        let issuer_name_hash = next_place(octets, hash_algorithm, true);
        let issuer_key_hash = next_place(octets, issuer_name_hash, true);
        let serial_number = next_place(octets, issuer_key_hash, true);
        CertIdPlaces {
            hash_algorithm,
            issuer_name_hash,
            issuer_key_hash,
            serial_number,
        }
    }

    ghost are_fields = { λ v c a.
        let field1 = a in
        let field2 = field1.rest in
        let field3 = field2.rest in
        let field4 = field3.rest in
        (first_of field1 (is_encoding tags.Sequence (lit< tt) field1.front field1.first.0 field1.first.1, field1.first)
        (first_of field2 (is_encoding tags.OctetString (lit< tt) field2.front field2.first.0 field2.first.1, field2.first)
        (first_of field3 (is_encoding tags.OctetString (lit< tt) field3.front field3.first.0 field3.first.1, field3.first)
        (first_of field4 (is_encoding tags.Integer (lit< tt) field4.front field4.first.0 field4.first.1, field4.first)
        field4.rest)))) };
}
