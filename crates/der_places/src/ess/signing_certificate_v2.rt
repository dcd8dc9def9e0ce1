//! The fields of a SigningCertificateV2.
//!
//! Made by tools/asn1 from ess.asn1.

ghost use Rattle.std.proofs.Common.{lit<};
ghost use Rattle.std.specs.Prelude.{◌∷◌, []};
ghost use Rattle.der_cms.specs.Ess.SigningCertificateV2 as fields_of;
ghost use Rattle.der_places.specs.Layout.{field, no_more, optional};
ghost use Rattle.der_places.specs.LayoutLaws.{first_of, is_encoding, perhaps};
ghost use Rattle.der_tlv.specs.declared.encoding_rules.EncodingRules.TheVariants.{Der};
ghost use Rattle.der_tlv.specs.declared.tag.Tag.TheVariants as tags;

use crate::place::Place;
use crate::placed::Placed;
use crate::presence::is_there;
use crate::walk::next_place;
use der_cms::ess::{EssCertIdv2, SigningCertificateV2};
use der_elem::Form;
use der_extensions::extension::PolicyInformation;
use der_lists::ListRef;

/// Byte ranges of the fields of a `SigningCertificateV2`.
#[repr(C)]
#[derive(Clone, Copy, Debug, PartialEq, Eq)]
pub struct SigningCertificateV2Places {
    /// `certs`, `SEQUENCE OF ESSCertIDv2`.
    pub certs: Place,
    /// `policies`, `SEQUENCE OF PolicyInformation OPTIONAL`; empty if it is absent.
    pub policies: Place,
}

impl<'a> Placed for SigningCertificateV2<'a> {
    type Places = SigningCertificateV2Places;

    ghost listed = { λ p. p.certs ∷ p.policies ∷ [] };

    ghost layout = { λ v.
        field (⟦<ListRef<'a, EssCertIdv2<'a>> as Form>⟧.accepts Der (fields_of.certs v))
        (optional (⟦<ListRef<'a, PolicyInformation<'a>> as Form>⟧.accepts Der) (fields_of.policies v)
        no_more) };

    fn walk(&self, octets: &[u8], start: Place) -> SigningCertificateV2Places {
        let certs = next_place(octets, start, true);
        let policies = next_place(octets, certs, is_there(self.policies()));
        SigningCertificateV2Places { certs, policies }
    }

    ghost are_fields = { λ v c a.
        let field1 = a in
        let field2 = field1.rest in
        (first_of field1 (is_encoding tags.Sequence (lit< tt) field1.front field1.first.0 field1.first.1, field1.first)
        (first_of field2 (perhaps (⟦<ListRef<'a, PolicyInformation<'a>> as Form>⟧.accepts Der) (λ x o b. is_encoding tags.Sequence (lit< tt) o b.0 b.1) v.fields.list.rest.first field2.front field2.first)
        field2.rest)) };
}
