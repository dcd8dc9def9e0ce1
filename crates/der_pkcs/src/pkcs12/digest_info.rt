//! DigestInfo, a SEQUENCE of 2 fields.
//!
//! Made by tools/asn1 from pkcs12.asn1.

ghost use Rattle.std.specs.Prelude.{◌∷◌, ◌≡◌, [], false, refl};
ghost use Rattle.der_elem.specs.FormatMakers.{mapped_format};
ghost use Rattle.der_modules.specs.Asn1.{joined, parse_of};
ghost use Rattle.der_modules.specs.Members.{field, no_fields, struct_member};
ghost use Rattle.der_pkcs.specs.Pkcs12.DigestInfo as digest_info_fields;
ghost use Rattle.der_pkcs.specs.Pkcs12.Grammar.{digest_info};
ghost use Rattle.der_pkcs.specs.declared.pkcs12.digest_info.DigestInfo.{DigestInfo};

use der_elem::{
    ContentsEq, CopyIsDuplicate, DecodeValue, EncodeValue, Form, FormValue, OneTag, Sequence,
    SequenceTag, TagMarker, ValueOrd,
};
use der_fields::{DecodeFields, EncodeFields, FieldList, Fields2, FieldsOrd};
use der_modules::{Member, copy_of, field_list};
use der_opaque::OctetStringRef;
use der_pkix::AlgorithmIdentifier;
use der_tlv::{BackWriter, Error, Header, Length, Source, Writer};
use std::alloc::Global;
use std::cmp::Ordering;
use std::fmt;

/// The list of the fields.
type Fields<'a> = Fields2<AlgorithmIdentifier<'a>, OctetStringRef<'a>>;

/// ```text
/// DigestInfo ::= SEQUENCE {
///      digestAlgorithm  AlgorithmIdentifier,
///      digest           OCTET STRING }
/// ```
///
/// Reading refuses the first fault of the octets, in their order.
#[derive(Clone, Copy, PartialEq, Eq)]
pub struct DigestInfo<'a> {
    fields: Fields<'a>,
}

impl<'a> DigestInfo<'a> {
    ghost use Rattle.der_pkcs.specs.Pkcs12.DigestInfo as digest_info_fields;

    /// A value of these fields.
    pub fn new(
        digest_algorithm: &AlgorithmIdentifier<'a>,
        digest: OctetStringRef<'a>,
    ) -> DigestInfo<'a>
        ensures digest_algorithm { digest_info_fields.digest_algorithm result ≡ digest_algorithm.now }
        ensures digest { digest_info_fields.digest result ≡ digest.entry }
    {
        let list = field_list![copy_of(digest_algorithm), digest];
        let fields = Fields2 { list };
        DigestInfo { fields }
    }

    /// `digestAlgorithm`, `AlgorithmIdentifier`.
    pub fn digest_algorithm(&self) -> &AlgorithmIdentifier<'a>
        ensures { result.now ≡ digest_info_fields.digest_algorithm self.now }
    {
        &self.fields.list.first
    }

    /// `digest`, `OCTET STRING`.
    pub fn digest(&self) -> &OctetStringRef<'a>
        ensures { result.now ≡ digest_info_fields.digest self.now }
    {
        &self.fields.list.rest.first
    }
}

impl<'a> fmt::Debug for DigestInfo<'a> {
    fn fmt<W: fmt::Write>(&self, f: &mut fmt::Formatter<W>) -> fmt::Result {
        f.debug_struct("DigestInfo")
            .field("digest_algorithm", self.digest_algorithm())
            .field("digest", self.digest())
            .finish()
    }
}

impl<'a> OneTag for DigestInfo<'a> {
    type Marker = SequenceTag;
}

impl<'a> Sequence<'a> for DigestInfo<'a> {
    ghost is_sequence = { refl };
}

impl<'a> FormValue for DigestInfo<'a> {
    ghost value = { mapped_format (λ v. v.fields) ⟦<Fields<'a> as FieldList>⟧.list.octets };
}

impl<'a, R: Source<'a>> DecodeValue<'a, R> for DigestInfo<'a> {
    ghost TAKES_MEMORY = { false };

    const TAKES_MEMORY: bool = false;

    fn decode_value(
        alloc: Global,
        reader: &mut R,
        _header: Header,
    ) -> Result<DigestInfo<'a>, Error> {
        match Fields::<'a>::decode_fields(alloc, reader) {
            Ok(fields) => Ok(DigestInfo { fields }),
            Err(e) => Err(e),
        }
    }

    ghost takes_memory_is = { refl };
}

impl<'a> EncodeValue for DigestInfo<'a> {
    fn value_len(&self) -> Result<Length, Error> {
        self.fields.fields_len()
    }

    fn encode_value<W: Writer>(&self, writer: &mut W) -> Result<(), Error> {
        self.fields.encode_fields(writer)
    }

    fn encode_value_back<W: BackWriter>(&self, writer: &mut W) -> Result<(), Error> {
        self.fields.encode_fields_back(writer)
    }
}

impl<'a> ValueOrd for DigestInfo<'a> {
    fn value_cmp(&self, other: &DigestInfo<'a>) -> Result<Ordering, Error> {
        self.fields.cmp_fields(&other.fields)
    }
}

impl<'a> Member for DigestInfo<'a> {
    ghost member = { struct_member ⟦<SequenceTag as TagMarker>⟧.TAG (λ v. v.fields.list)
        (field ⟦<AlgorithmIdentifier<'a> as Member>⟧.member
        (field ⟦<OctetStringRef<'a> as Member>⟧.member
        no_fields)) };
}

impl<'a> ContentsEq for DigestInfo<'a> {
    ghost contents_eq = { ⟦<DigestInfo<'a> as Member>⟧.member.equal };
}

impl<'a> CopyIsDuplicate for DigestInfo<'a> {}

/// What is read as `DigestInfo` is what the grammar page says.
pub fn grammar_of_digest_info<'a>()
    ensures { ⟦<DigestInfo<'a> as Form>⟧.parse ≡ parse_of digest_info }
{}

/// The contents octets of `DigestInfo` are the encodings of its fields, one after another.
pub fn octets_of_digest_info<'a>()
    ensures { (v : DigestInfo) → ⟦<DigestInfo<'a> as FormValue>⟧.value.contents v ≡ joined (
        (⟦<AlgorithmIdentifier<'a> as Form>⟧.encoding (digest_info_fields.digest_algorithm v))
        ∷ (⟦<OctetStringRef<'a> as Form>⟧.encoding (digest_info_fields.digest v))
        ∷ []) }
{}
