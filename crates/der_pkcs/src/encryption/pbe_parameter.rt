//! PBEParameter, a SEQUENCE of 2 fields.
//!
//! Made by tools/asn1 from encryption.asn1.

ghost use Rattle.std.specs.Prelude.{◌∷◌, ◌≡◌, [], false, refl};
ghost use Rattle.der_elem.specs.FormatMakers.{mapped_format};
ghost use Rattle.der_modules.specs.Asn1.{joined, parse_of};
ghost use Rattle.der_modules.specs.Members.{field, no_fields, struct_member};
ghost use Rattle.der_pkcs.specs.Encryption.Grammar.{pbe_parameter};
ghost use Rattle.der_pkcs.specs.Encryption.PbeParameter as pbe_parameter_fields;
ghost use Rattle.der_pkcs.specs.declared.encryption.pbe_parameter.PbeParameter.{PbeParameter};

use der_elem::{
    ContentsEq, CopyIsDuplicate, DecodeValue, EncodeValue, Form, FormValue, OneTag, Sequence,
    SequenceTag, TagMarker, ValueOrd,
};
use der_fields::{DecodeFields, EncodeFields, FieldList, Fields2, FieldsOrd};
use der_modules::{Member, field_list};
use der_opaque::OctetStringRef;
use der_tlv::{BackWriter, Error, Header, Length, Source, Writer};
use std::alloc::Global;
use std::cmp::Ordering;
use std::fmt;

/// The list of the fields.
type Fields<'a> = Fields2<OctetStringRef<'a>, u32>;

/// ```text
/// PBEParameter ::= SEQUENCE {
///      salt            OCTET STRING (SIZE (8)),
///      iterationCount  INTEGER
///      }
/// ```
///
/// Reading refuses the first fault of the octets, in their order.
///
/// Not checked: SIZE (8..8) is not checked.
///
/// Not checked: INTEGER as u32: other numbers are refused.
#[derive(Clone, Copy, PartialEq, Eq)]
pub struct PbeParameter<'a> {
    fields: Fields<'a>,
}

impl<'a> PbeParameter<'a> {
    ghost use Rattle.der_pkcs.specs.Encryption.PbeParameter as pbe_parameter_fields;

    /// A value of these fields.
    pub fn new(salt: OctetStringRef<'a>, iteration_count: u32) -> PbeParameter<'a>
        ensures salt { pbe_parameter_fields.salt result ≡ salt.entry }
        ensures iteration_count { pbe_parameter_fields.iteration_count result ≡ iteration_count }
    {
        let list = field_list![salt, iteration_count];
        let fields = Fields2 { list };
        PbeParameter { fields }
    }

    /// `salt`, `OCTET STRING (SIZE (8))`.
    pub fn salt(&self) -> &OctetStringRef<'a>
        ensures { result.now ≡ pbe_parameter_fields.salt self.now }
    {
        &self.fields.list.first
    }

    /// `iterationCount`, `INTEGER`.
    pub fn iteration_count(&self) -> u32
        ensures { result ≡ pbe_parameter_fields.iteration_count self.now }
    {
        self.fields.list.rest.first
    }
}

impl<'a> fmt::Debug for PbeParameter<'a> {
    fn fmt<W: fmt::Write>(&self, f: &mut fmt::Formatter<W>) -> fmt::Result {
        f.debug_struct("PbeParameter")
            .field("salt", self.salt())
            .field("iteration_count", &self.iteration_count())
            .finish()
    }
}

impl<'a> OneTag for PbeParameter<'a> {
    type Marker = SequenceTag;
}

impl<'a> Sequence<'a> for PbeParameter<'a> {
    ghost is_sequence = { refl };
}

impl<'a> FormValue for PbeParameter<'a> {
    ghost value = { mapped_format (λ v. v.fields) ⟦<Fields<'a> as FieldList>⟧.list.octets };
}

impl<'a, R: Source<'a>> DecodeValue<'a, R> for PbeParameter<'a> {
    ghost TAKES_MEMORY = { false };

    const TAKES_MEMORY: bool = false;

    fn decode_value(
        alloc: Global,
        reader: &mut R,
        _header: Header,
    ) -> Result<PbeParameter<'a>, Error> {
        match Fields::<'a>::decode_fields(alloc, reader) {
            Ok(fields) => Ok(PbeParameter { fields }),
            Err(e) => Err(e),
        }
    }

    ghost takes_memory_is = { refl };
}

impl<'a> EncodeValue for PbeParameter<'a> {
    fn value_len(&self) -> Result<Length, Error> {
        self.fields.fields_len()
    }

    fn encode_value<W: Writer>(&self, writer: &mut W) -> Result<(), Error> {
        self.fields.encode_fields(writer)
    }

    fn encode_value_back<W: BackWriter>(&self, writer: &mut W) -> Result<(), Error> {
        self.fields.encode_fields_back(writer)
    }
}

impl<'a> ValueOrd for PbeParameter<'a> {
    fn value_cmp(&self, other: &PbeParameter<'a>) -> Result<Ordering, Error> {
        self.fields.cmp_fields(&other.fields)
    }
}

impl<'a> Member for PbeParameter<'a> {
    ghost member = { struct_member ⟦<SequenceTag as TagMarker>⟧.TAG (λ v. v.fields.list)
        (field ⟦<OctetStringRef<'a> as Member>⟧.member
        (field ⟦<u32 as Member>⟧.member
        no_fields)) };
}

impl<'a> ContentsEq for PbeParameter<'a> {
    ghost contents_eq = { ⟦<PbeParameter<'a> as Member>⟧.member.equal };
}

impl<'a> CopyIsDuplicate for PbeParameter<'a> {}

/// What is read as `PBEParameter` is what the grammar page says.
pub fn grammar_of_pbe_parameter<'a>()
    ensures { ⟦<PbeParameter<'a> as Form>⟧.parse ≡ parse_of pbe_parameter }
{}

/// The contents octets of `PBEParameter` are the encodings of its fields, one after another.
pub fn octets_of_pbe_parameter<'a>()
    ensures { (v : PbeParameter) → ⟦<PbeParameter<'a> as FormValue>⟧.value.contents v ≡ joined (
        (⟦<OctetStringRef<'a> as Form>⟧.encoding (pbe_parameter_fields.salt v))
        ∷ (⟦<u32 as Form>⟧.encoding (pbe_parameter_fields.iteration_count v))
        ∷ []) }
{}
