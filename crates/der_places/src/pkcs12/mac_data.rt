//! The fields of a MacData.
//!
//! Made by tools/asn1 from pkcs12.asn1.

ghost use Rattle.std.proofs.Common.{lit<};
ghost use Rattle.std.specs.Prelude.{◌∷◌, []};
ghost use Rattle.der_pkcs.specs.Pkcs12.MacData as fields_of;
ghost use Rattle.der_places.specs.Layout.{field, no_more, optional};
ghost use Rattle.der_places.specs.LayoutLaws.{first_of, is_encoding, perhaps};
ghost use Rattle.der_tlv.specs.declared.encoding_rules.EncodingRules.TheVariants.{Der};
ghost use Rattle.der_tlv.specs.declared.tag.Tag.TheVariants as tags;

use crate::place::Place;
use crate::placed::Placed;
use crate::presence::is_some;
use crate::walk::next_place;
use der_elem::Form;
use der_opaque::OctetStringRef;
use der_pkcs::pkcs12::{DigestInfo, MacData};

/// Byte ranges of the fields of a `MacData`.
#[repr(C)]
#[derive(Clone, Copy, Debug, PartialEq, Eq)]
pub struct MacDataPlaces {
    /// `mac`, `DigestInfo`.
    pub mac: Place,
    /// `macSalt`, `OCTET STRING`.
    pub mac_salt: Place,
    /// `iterations`, `INTEGER OPTIONAL`; empty if it is absent.
    pub iterations: Place,
}

impl<'a> Placed for MacData<'a> {
    type Places = MacDataPlaces;

    ghost listed = { λ p. p.mac ∷ p.mac_salt ∷ p.iterations ∷ [] };

    ghost layout = { λ v.
        field (⟦<DigestInfo<'a> as Form>⟧.accepts Der (fields_of.mac v))
        (field (⟦<OctetStringRef<'a> as Form>⟧.accepts Der (fields_of.mac_salt v))
        (optional (⟦<u32 as Form>⟧.accepts Der) (fields_of.iterations v)
        no_more)) };

    fn walk(&self, octets: &[u8], start: Place) -> MacDataPlaces {
        let mac = next_place(octets, start, true);
        let mac_salt = next_place(octets, mac, true);
        let iterations = next_place(octets, mac_salt, is_some(self.iterations()));
        MacDataPlaces {
            mac,
            mac_salt,
            iterations,
        }
    }

    ghost are_fields = { λ v c a.
        let field1 = a in
        let field2 = field1.rest in
        let field3 = field2.rest in
        (first_of field1 (is_encoding tags.Sequence (lit< tt) field1.front field1.first.0 field1.first.1, field1.first)
        (first_of field2 (is_encoding tags.OctetString (lit< tt) field2.front field2.first.0 field2.first.1, field2.first)
        (first_of field3 (perhaps (⟦<u32 as Form>⟧.accepts Der) (λ x o b. is_encoding tags.Integer (lit< tt) o b.0 b.1) v.fields.list.rest.rest.first field3.front field3.first)
        field3.rest))) };
}
