//! The fields of a SubjectPublicKeyInfo.
//!
//! Made by tools/asn1 from certificate.asn1.

ghost use Rattle.std.proofs.Common.{lit<};
ghost use Rattle.std.specs.Prelude.{◌∷◌, []};
ghost use Rattle.der_pkix.specs.Certificate.SubjectPublicKeyInfo as fields_of;
ghost use Rattle.der_places.specs.Layout.{field, no_more};
ghost use Rattle.der_places.specs.LayoutLaws.{first_of, is_encoding};
ghost use Rattle.der_tlv.specs.declared.encoding_rules.EncodingRules.TheVariants.{Der};
ghost use Rattle.der_tlv.specs.declared.tag.Tag.TheVariants as tags;

use crate::place::Place;
use crate::placed::Placed;
use crate::walk::next_place;
use der_bits::BitStringRef;
use der_elem::Form;
use der_pkix::AlgorithmIdentifier;
use der_pkix::certificate::SubjectPublicKeyInfo;

/// Byte ranges of the fields of a `SubjectPublicKeyInfo`.
#[repr(C)]
#[derive(Clone, Copy, Debug, PartialEq, Eq)]
pub struct SubjectPublicKeyInfoPlaces {
    /// `algorithm`, `AlgorithmIdentifier`.
    pub algorithm: Place,
    /// `subjectPublicKey`, `BIT STRING`.
    pub subject_public_key: Place,
}

impl<'a> Placed for SubjectPublicKeyInfo<'a> {
    type Places = SubjectPublicKeyInfoPlaces;

    ghost listed = { λ p. p.algorithm ∷ p.subject_public_key ∷ [] };

    ghost layout = { λ v.
        field (⟦<AlgorithmIdentifier<'a> as Form>⟧.accepts Der (fields_of.algorithm v))
        (field (⟦<BitStringRef<'a> as Form>⟧.accepts Der (fields_of.subject_public_key v))
        no_more) };

    fn walk(&self, octets: &[u8], start: Place) -> SubjectPublicKeyInfoPlaces {
        let algorithm = next_place(octets, start, true);
        let subject_public_key = next_place(octets, algorithm, true);
        SubjectPublicKeyInfoPlaces {
            algorithm,
            subject_public_key,
        }
    }

    ghost are_fields = { λ v c a.
        let field1 = a in
        let field2 = field1.rest in
        (first_of field1 (is_encoding tags.Sequence (lit< tt) field1.front field1.first.0 field1.first.1, field1.first)
        (first_of field2 (is_encoding tags.BitString (lit< tt) field2.front field2.first.0 field2.first.1, field2.first)
        field2.rest)) };
}
