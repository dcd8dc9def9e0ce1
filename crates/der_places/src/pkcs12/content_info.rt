//! The fields of a ContentInfo.
//!
//! Made by tools/asn1 from pkcs12.asn1.

ghost use Rattle.std.proofs.Common.{lit<, true};
ghost use Rattle.std.specs.Prelude.{◌∷◌, []};
ghost use Rattle.der_fields.specs.MarkerTags.{marker_tag, marker_tag-in_range};
ghost use Rattle.der_pkcs.specs.Pkcs12.ContentInfo as fields_of;
ghost use Rattle.der_places.specs.Layout.{explicit, field, no_more, optional};
ghost use Rattle.der_places.specs.LayoutLaws.{first_of, is_encoding, maybe};
ghost use Rattle.der_tlv.specs.declared.encoding_rules.EncodingRules.TheVariants.{Der};
ghost use Rattle.der_tlv.specs.declared.tag.Tag.TheVariants as tags;

use crate::place::Place;
use crate::placed::Placed;
use crate::presence::is_there;
use crate::walk::next_place;
use der_elem::Form;
use der_fields::Explicit;
use der_opaque::{AnyRef, ObjectIdentifierRef};
use der_pkcs::pkcs12::ContentInfo;

/// Byte ranges of the fields of a `ContentInfo`.
#[repr(C)]
#[derive(Clone, Copy, Debug, PartialEq, Eq)]
pub struct ContentInfoPlaces {
    /// `contentType`, `OBJECT IDENTIFIER`.
    pub content_type: Place,
    /// `content`, `[0] EXPLICIT ANY DEFINED BY contentType OPTIONAL`; empty if it is absent.
    pub content: Place,
}

impl<'a> Placed for ContentInfo<'a> {
    type Places = ContentInfoPlaces;

    ghost listed = { λ p. p.content_type ∷ p.content ∷ [] };

    ghost layout = { λ v.
        field (⟦<ObjectIdentifierRef<'a, 39> as Form>⟧.accepts Der (fields_of.content_type v))
        (optional (λ x. ⟦<Explicit<AnyRef<'a>, 0> as Form>⟧.accepts Der (explicit x)) (fields_of.content v)
        no_more) };

    fn walk(&self, octets: &[u8], start: Place) -> ContentInfoPlaces {
        let content_type = next_place(octets, start, true);
        let content = next_place(octets, content_type, is_there(self.content()));
        ContentInfoPlaces {
            content_type,
            content,
        }
    }

    ghost are_fields = { λ v c a.
        let field1 = a in
        let field2 = field1.rest in
        (first_of field1 (is_encoding tags.ObjectIdentifier (lit< tt) field1.front field1.first.0 field1.first.1, field1.first)
        (first_of field2 (maybe (λ x. x.fields.first) (⟦<Explicit<AnyRef<'a>, 0> as Form>⟧.accepts Der) (λ x. ⟦<Explicit<AnyRef<'a>, 0> as Form>⟧.accepts Der (explicit x)) (λ x o b. (is_encoding (marker_tag 2 true 0) (marker_tag-in_range 2 true 0) o b.0 b.1, b)) v.fields.list.rest.first field2.front field2.first)
        field2.rest)) };
}
