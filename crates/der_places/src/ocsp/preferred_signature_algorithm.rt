//! The fields of a PreferredSignatureAlgorithm.
//!
//! Made by tools/asn1 from ocsp.asn1.

ghost use Rattle.std.proofs.Common.{lit<};
ghost use Rattle.std.specs.Prelude.{◌∷◌, []};
ghost use Rattle.der_ocsp.specs.Ocsp.PreferredSignatureAlgorithm as fields_of;
ghost use Rattle.der_places.specs.Layout.{field, no_more, optional};
ghost use Rattle.der_places.specs.LayoutLaws.{first_of, is_encoding, perhaps};
ghost use Rattle.der_tlv.specs.declared.encoding_rules.EncodingRules.TheVariants.{Der};
ghost use Rattle.der_tlv.specs.declared.tag.Tag.TheVariants as tags;

use crate::place::Place;
use crate::placed::Placed;
use crate::presence::is_there;
use crate::walk::next_place;
use der_elem::Form;
use der_ocsp::ocsp::PreferredSignatureAlgorithm;
use der_pkix::AlgorithmIdentifier;

/// Byte ranges of the fields of a `PreferredSignatureAlgorithm`.
#[repr(C)]
#[derive(Clone, Copy, Debug, PartialEq, Eq)]
pub struct PreferredSignatureAlgorithmPlaces {
    /// `sigIdentifier`, `AlgorithmIdentifier`.
    pub sig_identifier: Place,
    /// `certIdentifier`, `AlgorithmIdentifier OPTIONAL`; empty if it is absent.
    pub cert_identifier: Place,
}

impl<'a> Placed for PreferredSignatureAlgorithm<'a> {
    type Places = PreferredSignatureAlgorithmPlaces;

    ghost listed = { λ p. p.sig_identifier ∷ p.cert_identifier ∷ [] };

    ghost layout = { λ v.
        field (⟦<AlgorithmIdentifier<'a> as Form>⟧.accepts Der (fields_of.sig_identifier v))
        (optional (⟦<AlgorithmIdentifier<'a> as Form>⟧.accepts Der) (fields_of.cert_identifier v)
        no_more) };

    fn walk(&self, octets: &[u8], start: Place) -> PreferredSignatureAlgorithmPlaces {
        let sig_identifier = next_place(octets, start, true);
        let cert_identifier = next_place(octets, sig_identifier, is_there(self.cert_identifier()));
        PreferredSignatureAlgorithmPlaces {
            sig_identifier,
            cert_identifier,
        }
    }

    ghost are_fields = { λ v c a.
        let field1 = a in
        let field2 = field1.rest in
        (first_of field1 (is_encoding tags.Sequence (lit< tt) field1.front field1.first.0 field1.first.1, field1.first)
        (first_of field2 (perhaps (⟦<AlgorithmIdentifier<'a> as Form>⟧.accepts Der) (λ x o b. is_encoding tags.Sequence (lit< tt) o b.0 b.1) v.fields.list.rest.first field2.front field2.first)
        field2.rest)) };
}
