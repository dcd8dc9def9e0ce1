//! The fields of an Extension.
//!
//! Made by tools/asn1 from certificate.asn1.

ghost use Rattle.std.proofs.Common.{lit<};
ghost use Rattle.std.specs.Prelude.{◌∷◌, []};
ghost use Rattle.der_fields.specs.Defaults.{is_default};
ghost use Rattle.der_pkix.specs.Certificate.Extension as fields_of;
ghost use Rattle.der_places.specs.Layout.{field, no_more, unless};
ghost use Rattle.der_places.specs.LayoutLaws.{besides, first_of, is_encoding};
ghost use Rattle.der_tlv.specs.declared.encoding_rules.EncodingRules.TheVariants.{Der};
ghost use Rattle.der_tlv.specs.declared.tag.Tag.TheVariants as tags;

use crate::place::Place;
use crate::placed::Placed;
use crate::walk::next_place;
use der_elem::Form;
use der_fields::{DefaultFalse, DefaultOf};
use der_opaque::{ObjectIdentifierRef, OctetStringRef};
use der_pkix::certificate::Extension;

/// Byte ranges of the fields of an `Extension`.
#[repr(C)]
#[derive(Clone, Copy, Debug, PartialEq, Eq)]
pub struct ExtensionPlaces {
    /// `extnID`, `OBJECT IDENTIFIER`.
    pub extn_id: Place,
    /// `critical`, `BOOLEAN DEFAULT FALSE`; empty if it has its default.
    pub critical: Place,
    /// `extnValue`, `OCTET STRING`.
    pub extn_value: Place,
}

impl<'a> Placed for Extension<'a> {
    type Places = ExtensionPlaces;

    ghost listed = { λ p. p.extn_id ∷ p.critical ∷ p.extn_value ∷ [] };

    ghost layout = { λ v.
        field (⟦<ObjectIdentifierRef<'a, 39> as Form>⟧.accepts Der (fields_of.extn_id v))
        (unless (is_default ⟦<DefaultFalse as DefaultOf<bool>>⟧.octets (⟦<bool as Form>⟧.encoding (fields_of.critical v))) (⟦<bool as Form>⟧.accepts Der (fields_of.critical v))
        (field (⟦<OctetStringRef<'a> as Form>⟧.accepts Der (fields_of.extn_value v))
        no_more)) };

    fn walk(&self, octets: &[u8], start: Place) -> ExtensionPlaces {
        let extn_id = next_place(octets, start, true);
        let value = self.critical();
        let is_default = <DefaultFalse as DefaultOf<bool>>::is_default(&value);
        let critical = next_place(octets, extn_id, !is_default);
        let extn_value = next_place(octets, critical, true);
        ExtensionPlaces {
            extn_id,
            critical,
            extn_value,
        }
    }

    ghost are_fields = { λ v c a.
        let field1 = a in
        let field2 = field1.rest in
        let field3 = field2.rest in
        (first_of field1 (is_encoding tags.ObjectIdentifier (lit< tt) field1.front field1.first.0 field1.first.1, field1.first)
        (first_of field2 (besides (is_default ⟦<DefaultFalse as DefaultOf<bool>>⟧.octets (⟦<bool as Form>⟧.encoding (fields_of.critical v))) (⟦<bool as Form>⟧.readable (fields_of.critical v)) (⟦<bool as Form>⟧.accepts Der (fields_of.critical v)) (λ o b. is_encoding tags.Boolean (lit< tt) o b.0 b.1) field2.front field2.first)
        (first_of field3 (is_encoding tags.OctetString (lit< tt) field3.front field3.first.0 field3.first.1, field3.first)
        field3.rest))) };
}
