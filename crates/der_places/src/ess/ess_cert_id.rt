//! The fields of an ESSCertID.
//!
//! Made by tools/asn1 from ess.asn1.

ghost use Rattle.std.proofs.Common.{lit<};
ghost use Rattle.std.specs.Prelude.{◌∷◌, []};
ghost use Rattle.der_cms.specs.Ess.EssCertId as fields_of;
ghost use Rattle.der_places.specs.Layout.{field, no_more, optional};
ghost use Rattle.der_places.specs.LayoutLaws.{first_of, is_encoding, perhaps};
ghost use Rattle.der_tlv.specs.declared.encoding_rules.EncodingRules.TheVariants.{Der};
ghost use Rattle.der_tlv.specs.declared.tag.Tag.TheVariants as tags;

use crate::place::Place;
use crate::placed::Placed;
use crate::presence::is_there;
use crate::walk::next_place;
use der_cms::ess::{EssCertId, Hash, IssuerSerial};
use der_elem::Form;

/// Byte ranges of the fields of an `ESSCertID`.
#[repr(C)]
#[derive(Clone, Copy, Debug, PartialEq, Eq)]
pub struct EssCertIdPlaces {
    /// `certHash`, `Hash`.
    pub cert_hash: Place,
    /// `issuerSerial`, `IssuerSerial OPTIONAL`; empty if it is absent.
    pub issuer_serial: Place,
}

impl<'a> Placed for EssCertId<'a> {
    type Places = EssCertIdPlaces;

    ghost listed = { λ p. p.cert_hash ∷ p.issuer_serial ∷ [] };

    ghost layout = { λ v.
        field (⟦<Hash<'a> as Form>⟧.accepts Der (fields_of.cert_hash v))
        (optional (⟦<IssuerSerial<'a> as Form>⟧.accepts Der) (fields_of.issuer_serial v)
        no_more) };

    fn walk(&self, octets: &[u8], start: Place) -> EssCertIdPlaces {
        let cert_hash = next_place(octets, start, true);
        let issuer_serial = next_place(octets, cert_hash, is_there(self.issuer_serial()));
        EssCertIdPlaces {
            cert_hash,
            issuer_serial,
        }
    }

    ghost are_fields = { λ v c a.
        let field1 = a in
        let field2 = field1.rest in
        (first_of field1 (is_encoding tags.OctetString (lit< tt) field1.front field1.first.0 field1.first.1, field1.first)
        (first_of field2 (perhaps (⟦<IssuerSerial<'a> as Form>⟧.accepts Der) (λ x o b. is_encoding tags.Sequence (lit< tt) o b.0 b.1) v.fields.list.rest.first field2.front field2.first)
        field2.rest)) };
}
