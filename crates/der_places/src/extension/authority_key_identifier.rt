//! The fields of an AuthorityKeyIdentifier.
//!
//! Made by tools/asn1 from extension.asn1.

ghost use Rattle.std.proofs.Common.{false, true};
ghost use Rattle.std.specs.Prelude.{◌∷◌, []};
ghost use Rattle.der_extensions.specs.Extension.AuthorityKeyIdentifier as fields_of;
ghost use Rattle.der_fields.specs.MarkerTags.{marker_tag, marker_tag-in_range};
ghost use Rattle.der_places.specs.Layout.{implicit, no_more, optional};
ghost use Rattle.der_places.specs.LayoutLaws.{first_of, is_encoding, maybe};
ghost use Rattle.der_tlv.specs.declared.encoding_rules.EncodingRules.TheVariants.{Der};

use crate::place::Place;
use crate::placed::Placed;
use crate::presence::is_there;
use crate::walk::next_place;
use der_elem::Form;
use der_extensions::extension::{AuthorityKeyIdentifier, GeneralNames, KeyIdentifier};
use der_fields::Implicit;
use der_pkix::certificate::CertificateSerialNumber;

/// Byte ranges of the fields of an `AuthorityKeyIdentifier`.
#[repr(C)]
#[derive(Clone, Copy, Debug, PartialEq, Eq)]
pub struct AuthorityKeyIdentifierPlaces {
    /// `keyIdentifier`, `[0] KeyIdentifier OPTIONAL`; empty if it is absent.
    pub key_identifier: Place,
    /// `authorityCertIssuer`, `[1] GeneralNames OPTIONAL`; empty if it is absent.
    pub authority_cert_issuer: Place,
    /// `authorityCertSerialNumber`, `[2] CertificateSerialNumber OPTIONAL`; empty if it is absent.
    pub authority_cert_serial_number: Place,
}

impl<'a> Placed for AuthorityKeyIdentifier<'a> {
    type Places = AuthorityKeyIdentifierPlaces;

    ghost listed = { λ p. p.key_identifier ∷ p.authority_cert_issuer ∷ p.authority_cert_serial_number ∷ [] };

    ghost layout = { λ v.
        optional (λ x. ⟦<Implicit<KeyIdentifier<'a>, 0> as Form>⟧.accepts Der (implicit x)) (fields_of.key_identifier v)
        (optional (λ x. ⟦<Implicit<GeneralNames<'a>, 1> as Form>⟧.accepts Der (implicit x)) (fields_of.authority_cert_issuer v)
        (optional (λ x. ⟦<Implicit<CertificateSerialNumber<'a>, 2> as Form>⟧.accepts Der (implicit x)) (fields_of.authority_cert_serial_number v)
        no_more)) };

    fn walk(&self, octets: &[u8], start: Place) -> AuthorityKeyIdentifierPlaces {
        let key_identifier = next_place(octets, start, is_there(self.key_identifier()));
        let authority_cert_issuer = next_place(
            octets,
            key_identifier,
            is_there(self.authority_cert_issuer()),
        );
        let authority_cert_serial_number = next_place(
            octets,
            authority_cert_issuer,
            is_there(self.authority_cert_serial_number()),
        );
        AuthorityKeyIdentifierPlaces {
            key_identifier,
            authority_cert_issuer,
            authority_cert_serial_number,
        }
    }

    ghost are_fields = { λ v c a.
        let field1 = a in
        let field2 = field1.rest in
        let field3 = field2.rest in
        (first_of field1 (maybe (λ x. x.value) (⟦<Implicit<KeyIdentifier<'a>, 0> as Form>⟧.accepts Der) (λ x. ⟦<Implicit<KeyIdentifier<'a>, 0> as Form>⟧.accepts Der (implicit x)) (λ x o b. (is_encoding (marker_tag 2 false 0) (marker_tag-in_range 2 false 0) o b.0 b.1, b)) v.fields.list.first field1.front field1.first)
        (first_of field2 (maybe (λ x. x.value) (⟦<Implicit<GeneralNames<'a>, 1> as Form>⟧.accepts Der) (λ x. ⟦<Implicit<GeneralNames<'a>, 1> as Form>⟧.accepts Der (implicit x)) (λ x o b. (is_encoding (marker_tag 2 true 1) (marker_tag-in_range 2 true 1) o b.0 b.1, b)) v.fields.list.rest.first field2.front field2.first)
        (first_of field3 (maybe (λ x. x.value) (⟦<Implicit<CertificateSerialNumber<'a>, 2> as Form>⟧.accepts Der) (λ x. ⟦<Implicit<CertificateSerialNumber<'a>, 2> as Form>⟧.accepts Der (implicit x)) (λ x o b. (is_encoding (marker_tag 2 false 2) (marker_tag-in_range 2 false 2) o b.0 b.1, b)) v.fields.list.rest.rest.first field3.front field3.first)
        field3.rest))) };
}
