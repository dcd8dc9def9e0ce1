//! The fields of an AlgorithmIdentifier.

ghost use Rattle.std.proofs.Common.{lit<};
ghost use Rattle.std.specs.Prelude.{◌∷◌, []};
ghost use Rattle.der_places.specs.Layout.{field, no_more, optional};
ghost use Rattle.der_places.specs.LayoutLaws.{first_of, is_encoding, perhaps};
ghost use Rattle.der_tlv.specs.declared.encoding_rules.EncodingRules.TheVariants.{Der};
ghost use Rattle.der_tlv.specs.declared.tag.Tag.TheVariants as tags;

use crate::place::Place;
use crate::placed::Placed;
use crate::presence::is_some;
use crate::walk::next_place;
use der_elem::Form;
use der_opaque::{AnyRef, ObjectIdentifierRef};
use der_pkix::AlgorithmIdentifier;

/// The byte ranges of the fields of an `AlgorithmIdentifier` (RFC 5280 4.1.1.2).
#[repr(C)]
#[derive(Clone, Copy, Debug, PartialEq, Eq)]
pub struct AlgorithmIdentifierPlaces {
    /// `algorithm`, `OBJECT IDENTIFIER`.
    pub oid: Place,
    /// `parameters`, `ANY DEFINED BY algorithm OPTIONAL`; empty if it is absent.
    pub parameters: Place,
}

impl<'a> Placed for AlgorithmIdentifier<'a> {
    type Places = AlgorithmIdentifierPlaces;

    ghost listed = { λ p. p.oid ∷ p.parameters ∷ [] };

    ghost layout = { λ v.
        field (⟦<ObjectIdentifierRef<'a, 39> as Form>⟧.accepts Der v.oid)
        (optional (⟦<AnyRef<'a> as Form>⟧.accepts Der) v.parameters
        no_more) };

    fn walk(&self, octets: &[u8], start: Place) -> AlgorithmIdentifierPlaces {
        let oid = next_place(octets, start, true);
        let parameters = next_place(octets, oid, is_some(self.parameters));
        AlgorithmIdentifierPlaces { oid, parameters }
    }

    ghost are_fields = { λ v c a.
        let one = a in
        let two = one.rest in
        (first_of one (is_encoding tags.ObjectIdentifier (lit< tt) one.front one.first.0 one.first.1, one.first)
        (first_of two (perhaps (⟦<AnyRef<'a> as Form>⟧.accepts Der) (λ x o b. is_encoding _ b.0 o _ b.1) v.parameters two.front two.first)
        two.rest)) };
}
