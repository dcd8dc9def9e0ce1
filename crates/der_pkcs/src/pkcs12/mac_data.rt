//! MacData, a SEQUENCE of 3 fields.
//!
//! Made by tools/asn1 from pkcs12.asn1.

ghost use Rattle.std.specs.Prelude.{◌∷◌, ◌≡◌, [], false, refl};
ghost use Rattle.der_elem.specs.FormatMakers.{mapped_format};
ghost use Rattle.der_modules.specs.Asn1.{joined, optional, parse_of};
ghost use Rattle.der_modules.specs.Members.{field, no_fields, optional_field, struct_member};
ghost use Rattle.der_pkcs.specs.Pkcs12.Grammar.{mac_data};
ghost use Rattle.der_pkcs.specs.Pkcs12.MacData as mac_data_fields;
ghost use Rattle.der_pkcs.specs.declared.pkcs12.mac_data.MacData.{MacData};

use crate::pkcs12::digest_info::DigestInfo;
use der_elem::{
    ContentsEq, CopyIsDuplicate, DecodeValue, EncodeValue, Form, FormValue, OneTag, Sequence,
    SequenceTag, TagMarker, ValueOrd,
};
use der_fields::{DecodeFields, EncodeFields, FieldList, Fields3, FieldsOrd};
use der_modules::{Member, copy_of, field_list};
use der_opaque::OctetStringRef;
use der_tlv::{BackWriter, Error, Header, Length, Source, Writer};
use std::alloc::Global;
use std::cmp::Ordering;
use std::fmt;

/// The list of the fields.
type Fields<'a> = Fields3<DigestInfo<'a>, OctetStringRef<'a>, Option<u32>>;

/// ```text
/// MacData ::= SEQUENCE {
///      mac         DigestInfo,
///      macSalt     OCTET STRING,
///      iterations  INTEGER OPTIONAL
///                  -- RFC 7292 has DEFAULT 1: absent it says 1, and the default is taken where it is
///                  -- encoded
///      }
/// ```
///
/// Reading refuses the first fault of the octets, in their order.
///
/// Not checked: INTEGER as u32: other numbers are refused.
#[derive(Clone, Copy, PartialEq, Eq)]
pub struct MacData<'a> {
    fields: Fields<'a>,
}

impl<'a> MacData<'a> {
    ghost use Rattle.der_pkcs.specs.Pkcs12.MacData as mac_data_fields;

    /// A value of these fields.
    pub fn new(
        mac: &DigestInfo<'a>,
        mac_salt: OctetStringRef<'a>,
        iterations: Option<u32>,
    ) -> MacData<'a>
        ensures mac { mac_data_fields.mac result ≡ mac.now }
        ensures mac_salt { mac_data_fields.mac_salt result ≡ mac_salt.entry }
        ensures iterations { mac_data_fields.iterations result ≡ iterations }
    {
        let list = field_list![copy_of(mac), mac_salt, iterations];
        let fields = Fields3 { list };
        MacData { fields }
    }

    /// `mac`, `DigestInfo`.
    pub fn mac(&self) -> &DigestInfo<'a>
        ensures { result.now ≡ mac_data_fields.mac self.now }
    {
        &self.fields.list.first
    }

    /// `macSalt`, `OCTET STRING`.
    pub fn mac_salt(&self) -> &OctetStringRef<'a>
        ensures { result.now ≡ mac_data_fields.mac_salt self.now }
    {
        &self.fields.list.rest.first
    }

    /// `iterations`, `INTEGER OPTIONAL`.
    pub fn iterations(&self) -> Option<u32>
        ensures { result ≡ mac_data_fields.iterations self.now }
    {
        self.fields.list.rest.rest.first
    }
}

impl<'a> fmt::Debug for MacData<'a> {
    fn fmt<W: fmt::Write>(&self, f: &mut fmt::Formatter<W>) -> fmt::Result {
        f.debug_struct("MacData")
            .field("mac", self.mac())
            .field("mac_salt", self.mac_salt())
            .field("iterations", &self.iterations())
            .finish()
    }
}

impl<'a> OneTag for MacData<'a> {
    type Marker = SequenceTag;
}

impl<'a> Sequence<'a> for MacData<'a> {
    ghost is_sequence = { refl };
}

impl<'a> FormValue for MacData<'a> {
    ghost value = { mapped_format (λ v. v.fields) ⟦<Fields<'a> as FieldList>⟧.list.octets };
}

impl<'a, R: Source<'a>> DecodeValue<'a, R> for MacData<'a> {
    ghost TAKES_MEMORY = { false };

    const TAKES_MEMORY: bool = false;

    fn decode_value(alloc: Global, reader: &mut R, _header: Header) -> Result<MacData<'a>, Error> {
        match Fields::<'a>::decode_fields(alloc, reader) {
            Ok(fields) => Ok(MacData { fields }),
            Err(e) => Err(e),
        }
    }

    ghost takes_memory_is = { refl };
}

impl<'a> EncodeValue for MacData<'a> {
    fn value_len(&self) -> Result<Length, Error> {
        self.fields.fields_len()
    }

    fn encode_value<W: Writer>(&self, writer: &mut W) -> Result<(), Error> {
        self.fields.encode_fields(writer)
    }

    fn encode_value_back<W: BackWriter>(&self, writer: &mut W) -> Result<(), Error> {
        self.fields.encode_fields_back(writer)
    }
}

impl<'a> ValueOrd for MacData<'a> {
    fn value_cmp(&self, other: &MacData<'a>) -> Result<Ordering, Error> {
        self.fields.cmp_fields(&other.fields)
    }
}

impl<'a> Member for MacData<'a> {
    ghost member = { struct_member ⟦<SequenceTag as TagMarker>⟧.TAG (λ v. v.fields.list)
        (field ⟦<DigestInfo<'a> as Member>⟧.member
        (field ⟦<OctetStringRef<'a> as Member>⟧.member
        (optional_field ⟦<u32 as Member>⟧.member
        no_fields))) };
}

impl<'a> ContentsEq for MacData<'a> {
    ghost contents_eq = { ⟦<MacData<'a> as Member>⟧.member.equal };
}

impl<'a> CopyIsDuplicate for MacData<'a> {}

/// What is read as `MacData` is what the grammar page says.
pub fn grammar_of_mac_data<'a>()
    ensures { ⟦<MacData<'a> as Form>⟧.parse ≡ parse_of mac_data }
{}

/// The contents octets of `MacData` are the encodings of its fields, one after another.
pub fn octets_of_mac_data<'a>()
    ensures { (v : MacData) → ⟦<MacData<'a> as FormValue>⟧.value.contents v ≡ joined (
        (⟦<DigestInfo<'a> as Form>⟧.encoding (mac_data_fields.mac v))
        ∷ (⟦<OctetStringRef<'a> as Form>⟧.encoding (mac_data_fields.mac_salt v))
        ∷ optional (λ x. (⟦<u32 as Form>⟧.encoding x)) (mac_data_fields.iterations v)
        ∷ []) }
{}
