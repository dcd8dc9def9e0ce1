//! The fields of an IssuerAndSerialNumber.
//!
//! Made by tools/asn1 from cms.asn1.

ghost use Rattle.std.proofs.Common.{lit<};
ghost use Rattle.std.specs.Prelude.{◌∷◌, []};
ghost use Rattle.der_cms.specs.Cms.IssuerAndSerialNumber as fields_of;
ghost use Rattle.der_places.specs.Layout.{field, no_more};
ghost use Rattle.der_places.specs.LayoutLaws.{first_of, is_encoding};
ghost use Rattle.der_tlv.specs.declared.encoding_rules.EncodingRules.TheVariants.{Der};
ghost use Rattle.der_tlv.specs.declared.tag.Tag.TheVariants as tags;

use crate::place::Place;
use crate::placed::Placed;
use crate::walk::next_place;
use der_cms::cms::IssuerAndSerialNumber;
use der_elem::Form;
use der_pkix::certificate::CertificateSerialNumber;
use der_pkix::name::Name;

/// Byte ranges of the fields of an `IssuerAndSerialNumber`.
#[repr(C)]
#[derive(Clone, Copy, Debug, PartialEq, Eq)]
pub struct IssuerAndSerialNumberPlaces {
    /// `issuer`, `Name`.
    pub issuer: Place,
    /// `serialNumber`, `CertificateSerialNumber`.
    pub serial_number: Place,
}

impl<'a> Placed for IssuerAndSerialNumber<'a> {
    type Places = IssuerAndSerialNumberPlaces;

    ghost listed = { λ p. p.issuer ∷ p.serial_number ∷ [] };

    ghost layout = { λ v.
        field (⟦<Name<'a> as Form>⟧.accepts Der (fields_of.issuer v))
        (field (⟦<CertificateSerialNumber<'a> as Form>⟧.accepts Der (fields_of.serial_number v))
        no_more) };

    fn walk(&self, octets: &[u8], start: Place) -> IssuerAndSerialNumberPlaces {
        let issuer = next_place(octets, start, true);
        let serial_number = next_place(octets, issuer, true);
        IssuerAndSerialNumberPlaces {
            issuer,
            serial_number,
        }
    }

    ghost are_fields = { λ v c a.
        let field1 = a in
        let field2 = field1.rest in
        (first_of field1 (is_encoding tags.Sequence (lit< tt) field1.front field1.first.0 field1.first.1, field1.first)
        (first_of field2 (is_encoding tags.Integer (lit< tt) field2.front field2.first.0 field2.first.1, field2.first)
        field2.rest)) };
}
