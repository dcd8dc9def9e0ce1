//! ServiceLocator, a SEQUENCE of 2 fields.
//!
//! Made by tools/asn1 from ocsp.asn1.

ghost use Rattle.std.specs.Prelude.{◌∷◌, ◌≡◌, [], false, refl};
ghost use Rattle.der_elem.specs.FormatMakers.{mapped_format};
ghost use Rattle.der_modules.specs.Asn1.{joined, parse_of};
ghost use Rattle.der_modules.specs.Members.{field, no_fields, struct_member};
ghost use Rattle.der_ocsp.specs.Ocsp.Grammar.{service_locator};
ghost use Rattle.der_ocsp.specs.Ocsp.ServiceLocator as service_locator_fields;
ghost use Rattle.der_ocsp.specs.declared.ocsp.service_locator.ServiceLocator.{ServiceLocator};

use der_elem::{
    ContentsEq, CopyIsDuplicate, DecodeValue, EncodeValue, Form, FormValue, OneTag, Sequence,
    SequenceTag, TagMarker, ValueOrd,
};
use der_extensions::extension::AuthorityInfoAccessSyntax;
use der_fields::{DecodeFields, EncodeFields, FieldList, Fields2, FieldsOrd};
use der_modules::{Member, copy_of, field_list};
use der_pkix::name::Name;
use der_tlv::{BackWriter, Error, Header, Length, Source, Writer};
use std::alloc::Global;
use std::cmp::Ordering;
use std::fmt;

/// The list of the fields.
type Fields<'a> = Fields2<Name<'a>, AuthorityInfoAccessSyntax<'a>>;

/// ```text
/// ServiceLocator ::= SEQUENCE {
///      issuer   Name,
///      locator  AuthorityInfoAccessSyntax }
/// ```
///
/// Reading refuses the first fault of the octets, in their order.
#[derive(Clone, Copy, PartialEq, Eq)]
pub struct ServiceLocator<'a> {
    fields: Fields<'a>,
}

impl<'a> ServiceLocator<'a> {
    ghost use Rattle.der_ocsp.specs.Ocsp.ServiceLocator as service_locator_fields;

    /// A value of these fields.
    pub fn new(issuer: &Name<'a>, locator: &AuthorityInfoAccessSyntax<'a>) -> ServiceLocator<'a>
        ensures issuer { service_locator_fields.issuer result ≡ issuer.now }
        ensures locator { service_locator_fields.locator result ≡ locator.now }
    {
        let list = field_list![copy_of(issuer), copy_of(locator)];
        let fields = Fields2 { list };
        ServiceLocator { fields }
    }

    /// `issuer`, `Name`.
    pub fn issuer(&self) -> &Name<'a>
        ensures { result.now ≡ service_locator_fields.issuer self.now }
    {
        &self.fields.list.first
    }

    /// `locator`, `AuthorityInfoAccessSyntax`.
    pub fn locator(&self) -> &AuthorityInfoAccessSyntax<'a>
        ensures { result.now ≡ service_locator_fields.locator self.now }
    {
        &self.fields.list.rest.first
    }
}

impl<'a> fmt::Debug for ServiceLocator<'a> {
    fn fmt<W: fmt::Write>(&self, f: &mut fmt::Formatter<W>) -> fmt::Result {
        f.debug_struct("ServiceLocator")
            .field("issuer", self.issuer())
            .field("locator", self.locator())
            .finish()
    }
}

impl<'a> OneTag for ServiceLocator<'a> {
    type Marker = SequenceTag;
}

impl<'a> Sequence<'a> for ServiceLocator<'a> {
    ghost is_sequence = { refl };
}

impl<'a> FormValue for ServiceLocator<'a> {
    ghost value = { mapped_format (λ v. v.fields) ⟦<Fields<'a> as FieldList>⟧.list.octets };
}

impl<'a, R: Source<'a>> DecodeValue<'a, R> for ServiceLocator<'a> {
    ghost TAKES_MEMORY = { false };

    const TAKES_MEMORY: bool = false;

    fn decode_value(
        alloc: Global,
        reader: &mut R,
        _header: Header,
    ) -> Result<ServiceLocator<'a>, Error> {
        match Fields::<'a>::decode_fields(alloc, reader) {
            Ok(fields) => Ok(ServiceLocator { fields }),
            Err(e) => Err(e),
        }
    }

    ghost takes_memory_is = { refl };
}

impl<'a> EncodeValue for ServiceLocator<'a> {
    fn value_len(&self) -> Result<Length, Error> {
        self.fields.fields_len()
    }

    fn encode_value<W: Writer>(&self, writer: &mut W) -> Result<(), Error> {
        self.fields.encode_fields(writer)
    }

    fn encode_value_back<W: BackWriter>(&self, writer: &mut W) -> Result<(), Error> {
        self.fields.encode_fields_back(writer)
    }
}

impl<'a> ValueOrd for ServiceLocator<'a> {
    fn value_cmp(&self, other: &ServiceLocator<'a>) -> Result<Ordering, Error> {
        self.fields.cmp_fields(&other.fields)
    }
}

impl<'a> Member for ServiceLocator<'a> {
    ghost member = { struct_member ⟦<SequenceTag as TagMarker>⟧.TAG (λ v. v.fields.list)
        (field ⟦<Name<'a> as Member>⟧.member
        (field ⟦<AuthorityInfoAccessSyntax<'a> as Member>⟧.member
        no_fields)) };
}

impl<'a> ContentsEq for ServiceLocator<'a> {
    ghost contents_eq = { ⟦<ServiceLocator<'a> as Member>⟧.member.equal };
}

impl<'a> CopyIsDuplicate for ServiceLocator<'a> {}

/// What is read as `ServiceLocator` is what the grammar page says.
pub fn grammar_of_service_locator<'a>()
    ensures { ⟦<ServiceLocator<'a> as Form>⟧.parse ≡ parse_of service_locator }
{}

/// The contents octets of `ServiceLocator` are the encodings of its fields, one after another.
pub fn octets_of_service_locator<'a>()
    ensures { (v : ServiceLocator) → ⟦<ServiceLocator<'a> as FormValue>⟧.value.contents v ≡ joined (
        (⟦<Name<'a> as Form>⟧.encoding (service_locator_fields.issuer v))
        ∷ (⟦<AuthorityInfoAccessSyntax<'a> as Form>⟧.encoding (service_locator_fields.locator v))
        ∷ []) }
{}
