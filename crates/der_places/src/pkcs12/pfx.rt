//! The fields of a PFX.
//!
//! Made by tools/asn1 from pkcs12.asn1.

ghost use Rattle.std.proofs.Common.{lit<};
ghost use Rattle.std.specs.Prelude.{◌∷◌, []};
ghost use Rattle.der_pkcs.specs.Pkcs12.Pfx as fields_of;
ghost use Rattle.der_places.specs.Layout.{field, no_more, optional};
ghost use Rattle.der_places.specs.LayoutLaws.{first_of, is_encoding, perhaps};
ghost use Rattle.der_tlv.specs.declared.encoding_rules.EncodingRules.TheVariants.{Der};
ghost use Rattle.der_tlv.specs.declared.tag.Tag.TheVariants as tags;

use crate::place::Place;
use crate::placed::Placed;
use crate::presence::is_there;
use crate::walk::next_place;
use der_elem::Form;
use der_pkcs::pkcs12::{ContentInfo, MacData, Pfx, PfxVersion};

/// Byte ranges of the fields of a `PFX`.
#[repr(C)]
#[derive(Clone, Copy, Debug, PartialEq, Eq)]
pub struct PfxPlaces {
    /// `version`, `INTEGER { v3 (3) }`.
    pub version: Place,
    /// `authSafe`, `ContentInfo`.
    pub auth_safe: Place,
    /// `macData`, `MacData OPTIONAL`; empty if it is absent.
    pub mac_data: Place,
}

impl<'a> Placed for Pfx<'a> {
    type Places = PfxPlaces;

    ghost listed = { λ p. p.version ∷ p.auth_safe ∷ p.mac_data ∷ [] };

    ghost layout = { λ v.
        field (⟦<PfxVersion as Form>⟧.accepts Der (fields_of.version v))
        (field (⟦<ContentInfo<'a> as Form>⟧.accepts Der (fields_of.auth_safe v))
        (optional (⟦<MacData<'a> as Form>⟧.accepts Der) (fields_of.mac_data v)
        no_more)) };

    fn walk(&self, octets: &[u8], start: Place) -> PfxPlaces {
        let version = next_place(octets, start, true);
        let auth_safe = next_place(octets, version, true);
        let mac_data = next_place(octets, auth_safe, is_there(self.mac_data()));
        PfxPlaces {
            version,
            auth_safe,
            mac_data,
        }
    }

    ghost are_fields = { λ v c a.
        let field1 = a in
        let field2 = field1.rest in
        let field3 = field2.rest in
        (first_of field1 (is_encoding tags.Integer (lit< tt) field1.front field1.first.0 field1.first.1, field1.first)
        (first_of field2 (is_encoding tags.Sequence (lit< tt) field2.front field2.first.0 field2.first.1, field2.first)
        (first_of field3 (perhaps (⟦<MacData<'a> as Form>⟧.accepts Der) (λ x o b. is_encoding tags.Sequence (lit< tt) o b.0 b.1) v.fields.list.rest.rest.first field3.front field3.first)
        field3.rest))) };
}
