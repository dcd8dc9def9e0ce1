//! MessageImprint, a SEQUENCE of 2 fields.
//!
//! Made by tools/asn1 from time_stamp.asn1.

ghost use Rattle.std.specs.Prelude.{◌∷◌, ◌≡◌, [], false, refl};
ghost use Rattle.der_elem.specs.FormatMakers.{mapped_format};
ghost use Rattle.der_modules.specs.Asn1.{joined, parse_of};
ghost use Rattle.der_modules.specs.Members.{field, no_fields, struct_member};
ghost use Rattle.der_time_stamp.specs.TimeStamp.Grammar.{message_imprint};
ghost use Rattle.der_time_stamp.specs.TimeStamp.MessageImprint as message_imprint_fields;
ghost use Rattle.der_time_stamp.specs.declared.time_stamp.message_imprint.MessageImprint.{MessageImprint};

use der_elem::{
    ContentsEq, CopyIsDuplicate, DecodeValue, EncodeValue, Form, FormValue, OneTag, Sequence,
    SequenceTag, TagMarker, ValueOrd,
};
use der_fields::{DecodeFields, EncodeFields, FieldList, Fields2, FieldsOrd};
use der_modules::{Member, copy_of, field_list};
use der_opaque::OctetStringRef;
use der_pkix::AlgorithmIdentifier;
use der_tlv::{BackWriter, Error, Header, Length, Source, Writer};
use std::alloc::Global;
use std::cmp::Ordering;
use std::fmt;

/// The list of the fields.
type Fields<'a> = Fields2<AlgorithmIdentifier<'a>, OctetStringRef<'a>>;

/// ```text
/// MessageImprint ::= SEQUENCE {
///      hashAlgorithm  AlgorithmIdentifier,
///      hashedMessage  OCTET STRING }
/// ```
///
/// Reading refuses the first fault of the octets, in their order.
#[derive(Clone, Copy, PartialEq, Eq)]
pub struct MessageImprint<'a> {
    fields: Fields<'a>,
}

impl<'a> MessageImprint<'a> {
    ghost use Rattle.der_time_stamp.specs.TimeStamp.MessageImprint as message_imprint_fields;

    /// A value of these fields.
    pub fn new(
        hash_algorithm: &AlgorithmIdentifier<'a>,
        hashed_message: OctetStringRef<'a>,
    ) -> MessageImprint<'a>
        ensures hash_algorithm { message_imprint_fields.hash_algorithm result ≡ hash_algorithm.now }
        ensures hashed_message { message_imprint_fields.hashed_message result ≡ hashed_message.entry }
    {
        let list = field_list![copy_of(hash_algorithm), hashed_message];
        let fields = Fields2 { list };
        MessageImprint { fields }
    }

    /// `hashAlgorithm`, `AlgorithmIdentifier`.
    pub fn hash_algorithm(&self) -> &AlgorithmIdentifier<'a>
        ensures { result.now ≡ message_imprint_fields.hash_algorithm self.now }
    {
        &self.fields.list.first
    }

    /// `hashedMessage`, `OCTET STRING`.
    pub fn hashed_message(&self) -> &OctetStringRef<'a>
        ensures { result.now ≡ message_imprint_fields.hashed_message self.now }
    {
        &self.fields.list.rest.first
    }
}

impl<'a> fmt::Debug for MessageImprint<'a> {
    fn fmt<W: fmt::Write>(&self, f: &mut fmt::Formatter<W>) -> fmt::Result {
        f.debug_struct("MessageImprint")
            .field("hash_algorithm", self.hash_algorithm())
            .field("hashed_message", self.hashed_message())
            .finish()
    }
}

impl<'a> OneTag for MessageImprint<'a> {
    type Marker = SequenceTag;
}

impl<'a> Sequence<'a> for MessageImprint<'a> {
    ghost is_sequence = { refl };
}

impl<'a> FormValue for MessageImprint<'a> {
    ghost value = { mapped_format (λ v. v.fields) ⟦<Fields<'a> as FieldList>⟧.list.octets };
}

impl<'a, R: Source<'a>> DecodeValue<'a, R> for MessageImprint<'a> {
    ghost TAKES_MEMORY = { false };

    const TAKES_MEMORY: bool = false;

    fn decode_value(
        alloc: Global,
        reader: &mut R,
        _header: Header,
    ) -> Result<MessageImprint<'a>, Error> {
        match Fields::<'a>::decode_fields(alloc, reader) {
            Ok(fields) => Ok(MessageImprint { fields }),
            Err(e) => Err(e),
        }
    }

    ghost takes_memory_is = { refl };
}

impl<'a> EncodeValue for MessageImprint<'a> {
    fn value_len(&self) -> Result<Length, Error> {
        self.fields.fields_len()
    }

    fn encode_value<W: Writer>(&self, writer: &mut W) -> Result<(), Error> {
        self.fields.encode_fields(writer)
    }

    fn encode_value_back<W: BackWriter>(&self, writer: &mut W) -> Result<(), Error> {
        self.fields.encode_fields_back(writer)
    }
}

impl<'a> ValueOrd for MessageImprint<'a> {
    fn value_cmp(&self, other: &MessageImprint<'a>) -> Result<Ordering, Error> {
        self.fields.cmp_fields(&other.fields)
    }
}

impl<'a> Member for MessageImprint<'a> {
    ghost member = { struct_member ⟦<SequenceTag as TagMarker>⟧.TAG (λ v. v.fields.list)
        (field ⟦<AlgorithmIdentifier<'a> as Member>⟧.member
        (field ⟦<OctetStringRef<'a> as Member>⟧.member
        no_fields)) };
}

impl<'a> ContentsEq for MessageImprint<'a> {
    ghost contents_eq = { ⟦<MessageImprint<'a> as Member>⟧.member.equal };
}

impl<'a> CopyIsDuplicate for MessageImprint<'a> {}

/// What is read as `MessageImprint` is what the grammar page says.
pub fn grammar_of_message_imprint<'a>()
    ensures { ⟦<MessageImprint<'a> as Form>⟧.parse ≡ parse_of message_imprint }
{}

/// The contents octets of `MessageImprint` are the encodings of its fields, one after another.
pub fn octets_of_message_imprint<'a>()
    ensures { (v : MessageImprint) → ⟦<MessageImprint<'a> as FormValue>⟧.value.contents v ≡ joined (
        (⟦<AlgorithmIdentifier<'a> as Form>⟧.encoding (message_imprint_fields.hash_algorithm v))
        ∷ (⟦<OctetStringRef<'a> as Form>⟧.encoding (message_imprint_fields.hashed_message v))
        ∷ []) }
{}
