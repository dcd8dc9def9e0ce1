//! AlgorithmIdentifier (RFC 5280 section 4.1.1.2), whose fields are public.
//!
//! `SEQUENCE { algorithm OBJECT IDENTIFIER, parameters ANY DEFINED BY algorithm OPTIONAL }`: reading
//! refuses with the faults of the fields in their order, and then octets that are left over
//! (`ErrorKind::TrailingData`, 3).

ghost use Rattle.std.proofs.Common.{lit<};
ghost use Rattle.std.specs.Prelude.{◌≡◌, false, refl};
ghost use Rattle.der_elem.specs.FormatMakers.{mapped_format};
ghost use Rattle.der_elem.specs.OptionLaws.{encoding_eq_option};
ghost use Rattle.der_elem.specs.TaggedLaws.{encoding_eq_tagged};
ghost use Rattle.der_fields.specs.DistinguishingLaws.{eq_both, eq_last, tlv_distinguished};
ghost use Rattle.der_fields.specs.Listing.{field, end};
ghost use Rattle.der_modules.specs.Members.{value_member};
ghost use Rattle.der_opaque.specs.contracts.any_ref.AnyRefEncodingEq.TheImpl.Laws as anyref_encoding_eq;
ghost use Rattle.der_opaque.specs.contracts.object_identifier_ref.ObjectIdentifierRefContentsEq.TheImpl.Laws as objectidentifierref_contents_eq;

use der_elem::{
    ContentsEq, CopyIsDuplicate, DecodeValue, EncodeValue, FormValue, OneTag, Sequence,
    SequenceTag, TagMarker, ValueOrd,
};
use der_fields::{End, Field, FieldList, FieldSequence};
use der_modules::Member;
use der_opaque::{AnyRef, ObjectIdentifierRef};
use der_tlv::{BackWriter, Error, Header, Length, Source, Writer};
use std::alloc::Global;
use std::cmp::Ordering;

/// The list of the fields.
type List<'a> = Field<ObjectIdentifierRef<'a, 39>, Field<Option<AnyRef<'a>>, End>>;

type Fields<'a> = FieldSequence<List<'a>>;

/// An algorithm, and its parameters: 30 05 06 03 2B 65 70 is 1.3.101.112 with none.
#[derive(Clone, Copy, Debug, PartialEq, Eq)]
pub struct AlgorithmIdentifier<'a> {
    /// The algorithm.
    pub oid: ObjectIdentifierRef<'a, 39>,
    /// What the algorithm takes.
    pub parameters: Option<AnyRef<'a>>,
}

impl<'a> AlgorithmIdentifier<'a> {
    fn sequence(&self) -> Fields<'a>
        ensures { result.fields ≡ field self.now.oid (field self.now.parameters end) }
    {
        let (oid, first, rest) = (self.oid, self.parameters, End);
        let (first, rest) = (oid, Field { first, rest });
        let fields = Field { first, rest };
        FieldSequence { fields }
    }
}

impl<'a> OneTag for AlgorithmIdentifier<'a> {
    type Marker = SequenceTag;
}

impl<'a> Sequence<'a> for AlgorithmIdentifier<'a> {
    ghost is_sequence = { refl };
}

impl<'a> FormValue for AlgorithmIdentifier<'a> {
    ghost value = { mapped_format (λ v. field v.oid (field v.parameters end)) ⟦<List<'a> as FieldList>⟧.list.octets };
}

impl<'a, R: Source<'a>> DecodeValue<'a, R> for AlgorithmIdentifier<'a> {
    ghost TAKES_MEMORY = { false };

    const TAKES_MEMORY: bool = false;

    fn decode_value(
        alloc: Global,
        reader: &mut R,
        header: Header,
    ) -> Result<AlgorithmIdentifier<'a>, Error> {
        let fields = match Fields::<'a>::decode_value(alloc, reader, header) {
            Ok(sequence) => sequence.fields,
            Err(e) => return Err(e),
        };
        let (oid, parameters) = (fields.first, fields.rest.first);
        Ok(AlgorithmIdentifier { oid, parameters })
    }

    ghost takes_memory_is = { refl };
}

impl<'a> EncodeValue for AlgorithmIdentifier<'a> {
    fn value_len(&self) -> Result<Length, Error> {
        self.sequence().value_len()
    }

    fn encode_value<W: Writer>(&self, writer: &mut W) -> Result<(), Error> {
        self.sequence().encode_value(writer)
    }

    fn encode_value_back<W: BackWriter>(&self, writer: &mut W) -> Result<(), Error> {
        self.sequence().encode_value_back(writer)
    }
}

impl<'a> ValueOrd for AlgorithmIdentifier<'a> {
    fn value_cmp(&self, other: &AlgorithmIdentifier<'a>) -> Result<Ordering, Error> {
        self.sequence().value_cmp(&other.sequence())
    }
}

impl<'a> Member for AlgorithmIdentifier<'a> {
    ghost member = { value_member ⟦<SequenceTag as TagMarker>⟧.TAG ⟦<AlgorithmIdentifier<'a> as FormValue>⟧.value ⟦<AlgorithmIdentifier<'a> as PartialEq>⟧.eq (λ v w one.
        let oid = encoding_eq_tagged _ _ _ _ (objectidentifierref_contents_eq.contents_eq-law 39 (record { fits = lit< tt })) v.oid w.oid one.0 in
        let parameters = encoding_eq_option _ _ _ (λ _. refl) _ _ anyref_encoding_eq.encoding_eq-law v.parameters w.parameters one.1.0 in
        eq_both _ _ _ _ _ _ oid (eq_last _ _ _ parameters) (tlv_distinguished _ _ _ _ _ _)) };
}

impl<'a> ContentsEq for AlgorithmIdentifier<'a> {
    ghost contents_eq = { ⟦<AlgorithmIdentifier<'a> as Member>⟧.member.equal };
}

impl<'a> CopyIsDuplicate for AlgorithmIdentifier<'a> {}
