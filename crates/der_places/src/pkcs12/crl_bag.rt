//! The fields of a CRLBag.
//!
//! Made by tools/asn1 from pkcs12.asn1.

ghost use Rattle.std.proofs.Common.{lit<, true};
ghost use Rattle.std.specs.Prelude.{◌∷◌, []};
ghost use Rattle.der_fields.specs.MarkerTags.{marker_tag, marker_tag-in_range};
ghost use Rattle.der_pkcs.specs.Pkcs12.CrlBag as fields_of;
ghost use Rattle.der_places.specs.Layout.{explicit, field, no_more};
ghost use Rattle.der_places.specs.LayoutLaws.{first_of, is_encoding};
ghost use Rattle.der_tlv.specs.declared.encoding_rules.EncodingRules.TheVariants.{Der};
ghost use Rattle.der_tlv.specs.declared.tag.Tag.TheVariants as tags;

use crate::place::Place;
use crate::placed::Placed;
use crate::walk::next_place;
use der_elem::Form;
use der_fields::Explicit;
use der_opaque::{AnyRef, ObjectIdentifierRef};
use der_pkcs::pkcs12::CrlBag;

/// Byte ranges of the fields of a `CRLBag`.
#[repr(C)]
#[derive(Clone, Copy, Debug, PartialEq, Eq)]
pub struct CrlBagPlaces {
    /// `crlId`, `OBJECT IDENTIFIER`.
    pub crl_id: Place,
    /// `crlValue`, `[0] EXPLICIT ANY DEFINED BY crlId`.
    pub crl_value: Place,
}

impl<'a> Placed for CrlBag<'a> {
    type Places = CrlBagPlaces;

    ghost listed = { λ p. p.crl_id ∷ p.crl_value ∷ [] };

    ghost layout = { λ v.
        field (⟦<ObjectIdentifierRef<'a, 39> as Form>⟧.accepts Der (fields_of.crl_id v))
        (field (⟦<Explicit<AnyRef<'a>, 0> as Form>⟧.accepts Der (explicit (fields_of.crl_value v)))
        no_more) };

    fn walk(&self, octets: &[u8], start: Place) -> CrlBagPlaces {
        let crl_id = next_place(octets, start, true);
        let crl_value = next_place(octets, crl_id, true);
        CrlBagPlaces { crl_id, crl_value }
    }

    ghost are_fields = { λ v c a.
        let field1 = a in
        let field2 = field1.rest in
        (first_of field1 (is_encoding tags.ObjectIdentifier (lit< tt) field1.front field1.first.0 field1.first.1, field1.first)
        (first_of field2 (is_encoding (marker_tag 2 true 0) (marker_tag-in_range 2 true 0) field2.front field2.first.0 field2.first.1, field2.first)
        field2.rest)) };
}
