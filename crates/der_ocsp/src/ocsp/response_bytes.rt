//! ResponseBytes, a SEQUENCE of 2 fields.
//!
//! Made by tools/asn1 from ocsp.asn1.

ghost use Rattle.std.specs.Prelude.{◌∷◌, ◌≡◌, [], false, refl};
ghost use Rattle.der_elem.specs.FormatMakers.{mapped_format};
ghost use Rattle.der_modules.specs.Asn1.{joined, parse_of};
ghost use Rattle.der_modules.specs.Members.{field, no_fields, struct_member};
ghost use Rattle.der_ocsp.specs.Ocsp.Grammar.{response_bytes};
ghost use Rattle.der_ocsp.specs.Ocsp.ResponseBytes as response_bytes_fields;
ghost use Rattle.der_ocsp.specs.declared.ocsp.response_bytes.ResponseBytes.{ResponseBytes};

use der_elem::{
    ContentsEq, CopyIsDuplicate, DecodeValue, EncodeValue, Form, FormValue, OneTag, Sequence,
    SequenceTag, TagMarker, ValueOrd,
};
use der_fields::{DecodeFields, EncodeFields, FieldList, Fields2, FieldsOrd};
use der_modules::{Member, field_list};
use der_opaque::{ObjectIdentifierRef, OctetStringRef};
use der_tlv::{BackWriter, Error, Header, Length, Source, Writer};
use std::alloc::Global;
use std::cmp::Ordering;
use std::fmt;

/// The list of the fields.
type Fields<'a> = Fields2<ObjectIdentifierRef<'a, 39>, OctetStringRef<'a>>;

/// ```text
/// ResponseBytes ::= SEQUENCE {
///      responseType  OBJECT IDENTIFIER,
///      response      OCTET STRING }
/// ```
///
/// Reading refuses the first fault of the octets, in their order.
#[derive(Clone, Copy, PartialEq, Eq)]
pub struct ResponseBytes<'a> {
    fields: Fields<'a>,
}

impl<'a> ResponseBytes<'a> {
    ghost use Rattle.der_ocsp.specs.Ocsp.ResponseBytes as response_bytes_fields;

    /// A value of these fields.
    pub fn new(
        response_type: ObjectIdentifierRef<'a, 39>,
        response: OctetStringRef<'a>,
    ) -> ResponseBytes<'a>
        ensures response_type { response_bytes_fields.response_type result ≡ response_type.entry }
        ensures response { response_bytes_fields.response result ≡ response.entry }
    {
        let list = field_list![response_type, response];
        let fields = Fields2 { list };
        ResponseBytes { fields }
    }

    /// `responseType`, `OBJECT IDENTIFIER`.
    pub fn response_type(&self) -> &ObjectIdentifierRef<'a, 39>
        ensures { result.now ≡ response_bytes_fields.response_type self.now }
    {
        &self.fields.list.first
    }

    /// `response`, `OCTET STRING`.
    pub fn response(&self) -> &OctetStringRef<'a>
        ensures { result.now ≡ response_bytes_fields.response self.now }
    {
        &self.fields.list.rest.first
    }
}

impl<'a> fmt::Debug for ResponseBytes<'a> {
    fn fmt<W: fmt::Write>(&self, f: &mut fmt::Formatter<W>) -> fmt::Result {
        f.debug_struct("ResponseBytes")
            .field("response_type", self.response_type())
            .field("response", self.response())
            .finish()
    }
}

impl<'a> OneTag for ResponseBytes<'a> {
    type Marker = SequenceTag;
}

impl<'a> Sequence<'a> for ResponseBytes<'a> {
    ghost is_sequence = { refl };
}

impl<'a> FormValue for ResponseBytes<'a> {
    ghost value = { mapped_format (λ v. v.fields) ⟦<Fields<'a> as FieldList>⟧.list.octets };
}

impl<'a, R: Source<'a>> DecodeValue<'a, R> for ResponseBytes<'a> {
    ghost TAKES_MEMORY = { false };

    const TAKES_MEMORY: bool = false;

    fn decode_value(
        alloc: Global,
        reader: &mut R,
        _header: Header,
    ) -> Result<ResponseBytes<'a>, Error> {
        match Fields::<'a>::decode_fields(alloc, reader) {
            Ok(fields) => Ok(ResponseBytes { fields }),
            Err(e) => Err(e),
        }
    }

    ghost takes_memory_is = { refl };
}

impl<'a> EncodeValue for ResponseBytes<'a> {
    fn value_len(&self) -> Result<Length, Error> {
        self.fields.fields_len()
    }

    fn encode_value<W: Writer>(&self, writer: &mut W) -> Result<(), Error> {
        self.fields.encode_fields(writer)
    }

    fn encode_value_back<W: BackWriter>(&self, writer: &mut W) -> Result<(), Error> {
        self.fields.encode_fields_back(writer)
    }
}

impl<'a> ValueOrd for ResponseBytes<'a> {
    fn value_cmp(&self, other: &ResponseBytes<'a>) -> Result<Ordering, Error> {
        self.fields.cmp_fields(&other.fields)
    }
}

impl<'a> Member for ResponseBytes<'a> {
    ghost member = { struct_member ⟦<SequenceTag as TagMarker>⟧.TAG (λ v. v.fields.list)
        (field ⟦<ObjectIdentifierRef<'a, 39> as Member>⟧.member
        (field ⟦<OctetStringRef<'a> as Member>⟧.member
        no_fields)) };
}

impl<'a> ContentsEq for ResponseBytes<'a> {
    ghost contents_eq = { ⟦<ResponseBytes<'a> as Member>⟧.member.equal };
}

impl<'a> CopyIsDuplicate for ResponseBytes<'a> {}

/// What is read as `ResponseBytes` is what the grammar page says.
pub fn grammar_of_response_bytes<'a>()
    ensures { ⟦<ResponseBytes<'a> as Form>⟧.parse ≡ parse_of response_bytes }
{}

/// The contents octets of `ResponseBytes` are the encodings of its fields, one after another.
pub fn octets_of_response_bytes<'a>()
    ensures { (v : ResponseBytes) → ⟦<ResponseBytes<'a> as FormValue>⟧.value.contents v ≡ joined (
        (⟦<ObjectIdentifierRef<'a, 39> as Form>⟧.encoding (response_bytes_fields.response_type v))
        ∷ (⟦<OctetStringRef<'a> as Form>⟧.encoding (response_bytes_fields.response v))
        ∷ []) }
{}
