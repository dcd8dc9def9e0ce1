//! SecretBag, a SEQUENCE of 2 fields.
//!
//! Made by tools/asn1 from pkcs12.asn1.

ghost use Rattle.std.specs.Prelude.{◌∷◌, ◌≡◌, [], false, refl};
ghost use Rattle.der_elem.specs.FormatMakers.{mapped_format};
ghost use Rattle.der_modules.specs.Asn1.{context, explicit_encoding, joined, parse_of};
ghost use Rattle.der_modules.specs.Members.{field, no_fields, struct_member};
ghost use Rattle.der_pkcs.specs.Pkcs12.Grammar.{secret_bag};
ghost use Rattle.der_pkcs.specs.Pkcs12.SecretBag as secret_bag_fields;
ghost use Rattle.der_pkcs.specs.declared.pkcs12.secret_bag.SecretBag.{SecretBag};

use der_elem::{
    ContentsEq, CopyIsDuplicate, DecodeValue, EncodeValue, Form, FormValue, OneTag, Sequence,
    SequenceTag, TagMarker, ValueOrd,
};
use der_fields::{DecodeFields, EncodeFields, Explicit, FieldList, Fields2, FieldsOrd};
use der_modules::{Member, field_list, tagged};
use der_opaque::{AnyRef, ObjectIdentifierRef};
use der_tlv::{BackWriter, Error, Header, Length, Source, Writer};
use std::alloc::Global;
use std::cmp::Ordering;
use std::fmt;

/// The list of the fields.
type Fields<'a> = Fields2<ObjectIdentifierRef<'a, 39>, Explicit<AnyRef<'a>, 0>>;

/// ```text
/// SecretBag ::= SEQUENCE {
///      secretTypeId  OBJECT IDENTIFIER,
///      secretValue   [0] EXPLICIT ANY DEFINED BY secretTypeId }
/// ```
///
/// Reading refuses the first fault of the octets, in their order.
#[derive(Clone, Copy, PartialEq, Eq)]
pub struct SecretBag<'a> {
    fields: Fields<'a>,
}

impl<'a> SecretBag<'a> {
    ghost use Rattle.der_pkcs.specs.Pkcs12.SecretBag as secret_bag_fields;

    /// A value of these fields.
    pub fn new(
        secret_type_id: ObjectIdentifierRef<'a, 39>,
        secret_value: AnyRef<'a>,
    ) -> SecretBag<'a>
        ensures secret_type_id { secret_bag_fields.secret_type_id result ≡ secret_type_id.entry }
        ensures secret_value { secret_bag_fields.secret_value result ≡ secret_value.entry }
    {
        let list = field_list![secret_type_id, tagged!(Explicit, secret_value)];
        let fields = Fields2 { list };
        SecretBag { fields }
    }

    /// `secretTypeId`, `OBJECT IDENTIFIER`.
    pub fn secret_type_id(&self) -> &ObjectIdentifierRef<'a, 39>
        ensures { result.now ≡ secret_bag_fields.secret_type_id self.now }
    {
        &self.fields.list.first
    }

    /// `secretValue`, `[0] EXPLICIT ANY DEFINED BY secretTypeId`.
    pub fn secret_value(&self) -> &AnyRef<'a>
        ensures { result.now ≡ secret_bag_fields.secret_value self.now }
    {
        &self.fields.list.rest.first.fields.first
    }
}

impl<'a> fmt::Debug for SecretBag<'a> {
    fn fmt<W: fmt::Write>(&self, f: &mut fmt::Formatter<W>) -> fmt::Result {
        f.debug_struct("SecretBag")
            .field("secret_type_id", self.secret_type_id())
            .field("secret_value", self.secret_value())
            .finish()
    }
}

impl<'a> OneTag for SecretBag<'a> {
    type Marker = SequenceTag;
}

impl<'a> Sequence<'a> for SecretBag<'a> {
    ghost is_sequence = { refl };
}

impl<'a> FormValue for SecretBag<'a> {
    ghost value = { mapped_format (λ v. v.fields) ⟦<Fields<'a> as FieldList>⟧.list.octets };
}

impl<'a, R: Source<'a>> DecodeValue<'a, R> for SecretBag<'a> {
    ghost TAKES_MEMORY = { false };

    const TAKES_MEMORY: bool = false;

    fn decode_value(
        alloc: Global,
        reader: &mut R,
        _header: Header,
    ) -> Result<SecretBag<'a>, Error> {
        match Fields::<'a>::decode_fields(alloc, reader) {
            Ok(fields) => Ok(SecretBag { fields }),
            Err(e) => Err(e),
        }
    }

    ghost takes_memory_is = { refl };
}

impl<'a> EncodeValue for SecretBag<'a> {
    fn value_len(&self) -> Result<Length, Error> {
        self.fields.fields_len()
    }

    fn encode_value<W: Writer>(&self, writer: &mut W) -> Result<(), Error> {
        self.fields.encode_fields(writer)
    }

    fn encode_value_back<W: BackWriter>(&self, writer: &mut W) -> Result<(), Error> {
        self.fields.encode_fields_back(writer)
    }
}

impl<'a> ValueOrd for SecretBag<'a> {
    fn value_cmp(&self, other: &SecretBag<'a>) -> Result<Ordering, Error> {
        self.fields.cmp_fields(&other.fields)
    }
}

impl<'a> Member for SecretBag<'a> {
    ghost member = { struct_member ⟦<SequenceTag as TagMarker>⟧.TAG (λ v. v.fields.list)
        (field ⟦<ObjectIdentifierRef<'a, 39> as Member>⟧.member
        (field ⟦<Explicit<AnyRef<'a>, 0> as Member>⟧.member
        no_fields)) };
}

impl<'a> ContentsEq for SecretBag<'a> {
    ghost contents_eq = { ⟦<SecretBag<'a> as Member>⟧.member.equal };
}

impl<'a> CopyIsDuplicate for SecretBag<'a> {}

/// What is read as `SecretBag` is what the grammar page says.
pub fn grammar_of_secret_bag<'a>()
    ensures { ⟦<SecretBag<'a> as Form>⟧.parse ≡ parse_of secret_bag }
{}

/// The contents octets of `SecretBag` are the encodings of its fields, one after another.
pub fn octets_of_secret_bag<'a>()
    ensures { (v : SecretBag) → ⟦<SecretBag<'a> as FormValue>⟧.value.contents v ≡ joined (
        (⟦<ObjectIdentifierRef<'a, 39> as Form>⟧.encoding (secret_bag_fields.secret_type_id v))
        ∷ (explicit_encoding context 0 (⟦<AnyRef<'a> as Form>⟧.encoding (secret_bag_fields.secret_value v)))
        ∷ []) }
{}
