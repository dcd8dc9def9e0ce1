//! The fields of a MessageImprint.
//!
//! Made by tools/asn1 from time_stamp.asn1.

ghost use Rattle.std.proofs.Common.{lit<};
ghost use Rattle.std.specs.Prelude.{◌∷◌, []};
ghost use Rattle.der_places.specs.Layout.{field, no_more};
ghost use Rattle.der_places.specs.LayoutLaws.{first_of, is_encoding};
ghost use Rattle.der_time_stamp.specs.TimeStamp.MessageImprint as fields_of;
ghost use Rattle.der_tlv.specs.declared.encoding_rules.EncodingRules.TheVariants.{Der};
ghost use Rattle.der_tlv.specs.declared.tag.Tag.TheVariants as tags;

use crate::place::Place;
use crate::placed::Placed;
use crate::walk::next_place;
use der_elem::Form;
use der_opaque::OctetStringRef;
use der_pkix::AlgorithmIdentifier;
use der_time_stamp::time_stamp::MessageImprint;

/// Byte ranges of the fields of a `MessageImprint`.
#[repr(C)]
#[derive(Clone, Copy, Debug, PartialEq, Eq)]
pub struct MessageImprintPlaces {
    /// `hashAlgorithm`, `AlgorithmIdentifier`.
    pub hash_algorithm: Place,
    /// `hashedMessage`, `OCTET STRING`.
    pub hashed_message: Place,
}

impl<'a> Placed for MessageImprint<'a> {
    type Places = MessageImprintPlaces;

    ghost listed = { λ p. p.hash_algorithm ∷ p.hashed_message ∷ [] };

    ghost layout = { λ v.
        field (⟦<AlgorithmIdentifier<'a> as Form>⟧.accepts Der (fields_of.hash_algorithm v))
        (field (⟦<OctetStringRef<'a> as Form>⟧.accepts Der (fields_of.hashed_message v))
        no_more) };

    fn walk(&self, octets: &[u8], start: Place) -> MessageImprintPlaces {
        let hash_algorithm = next_place(octets, start, true);
        let hashed_message = next_place(octets, hash_algorithm, true);
        MessageImprintPlaces {
            hash_algorithm,
            hashed_message,
        }
    }

    ghost are_fields = { λ v c a.
        let field1 = a in
        let field2 = field1.rest in
        (first_of field1 (is_encoding tags.Sequence (lit< tt) field1.front field1.first.0 field1.first.1, field1.first)
        (first_of field2 (is_encoding tags.OctetString (lit< tt) field2.front field2.first.0 field2.first.1, field2.first)
        field2.rest)) };
}
