//! The fields of a ServiceLocator.
//!
//! Made by tools/asn1 from ocsp.asn1.

ghost use Rattle.std.proofs.Common.{lit<};
ghost use Rattle.std.specs.Prelude.{◌∷◌, []};
ghost use Rattle.der_ocsp.specs.Ocsp.ServiceLocator as fields_of;
ghost use Rattle.der_places.specs.Layout.{field, no_more};
ghost use Rattle.der_places.specs.LayoutLaws.{first_of, is_encoding};
ghost use Rattle.der_tlv.specs.declared.encoding_rules.EncodingRules.TheVariants.{Der};
ghost use Rattle.der_tlv.specs.declared.tag.Tag.TheVariants as tags;

use crate::place::Place;
use crate::placed::Placed;
use crate::walk::next_place;
use der_elem::Form;
use der_extensions::extension::AuthorityInfoAccessSyntax;
use der_ocsp::ocsp::ServiceLocator;
use der_pkix::name::Name;

/// Byte ranges of the fields of a `ServiceLocator`.
#[repr(C)]
#[derive(Clone, Copy, Debug, PartialEq, Eq)]
pub struct ServiceLocatorPlaces {
    /// `issuer`, `Name`.
    pub issuer: Place,
    /// `locator`, `AuthorityInfoAccessSyntax`.
    pub locator: Place,
}

impl<'a> Placed for ServiceLocator<'a> {
    type Places = ServiceLocatorPlaces;

    ghost listed = { λ p. p.issuer ∷ p.locator ∷ [] };

    ghost layout = { λ v.
        field (⟦<Name<'a> as Form>⟧.accepts Der (fields_of.issuer v))
        (field (⟦<AuthorityInfoAccessSyntax<'a> as Form>⟧.accepts Der (fields_of.locator v))
        no_more) };

    fn walk(&self, octets: &[u8], start: Place) -> ServiceLocatorPlaces {
        let issuer = next_place(octets, start, true);
        let locator = next_place(octets, issuer, true);
        ServiceLocatorPlaces { issuer, locator }
    }

    ghost are_fields = { λ v c a.
        let field1 = a in
        let field2 = field1.rest in
        (first_of field1 (is_encoding tags.Sequence (lit< tt) field1.front field1.first.0 field1.first.1, field1.first)
        (first_of field2 (is_encoding tags.Sequence (lit< tt) field2.front field2.first.0 field2.first.1, field2.first)
        field2.rest)) };
}
