//! PFX, a SEQUENCE of 3 fields.
//!
//! Made by tools/asn1 from pkcs12.asn1.

ghost use Rattle.std.specs.Prelude.{◌∷◌, ◌≡◌, [], false, refl};
ghost use Rattle.der_elem.specs.FormatMakers.{mapped_format};
ghost use Rattle.der_modules.specs.Asn1.{joined, optional, parse_of};
ghost use Rattle.der_modules.specs.Members.{field, no_fields, optional_field, struct_member};
ghost use Rattle.der_pkcs.specs.Pkcs12.Grammar.{pfx};
ghost use Rattle.der_pkcs.specs.Pkcs12.Pfx as pfx_fields;
ghost use Rattle.der_pkcs.specs.declared.pkcs12.pfx.Pfx.{Pfx};

use crate::pkcs12::aliases::PfxVersion;
use crate::pkcs12::content_info::ContentInfo;
use crate::pkcs12::mac_data::MacData;
use der_elem::{
    ContentsEq, CopyIsDuplicate, DecodeValue, EncodeValue, Form, FormValue, OneTag, Sequence,
    SequenceTag, TagMarker, ValueOrd,
};
use der_fields::{DecodeFields, EncodeFields, FieldList, Fields3, FieldsOrd};
use der_modules::{Member, copy_of, field_list, if_present};
use der_tlv::{BackWriter, Error, Header, Length, Source, Writer};
use std::alloc::Global;
use std::cmp::Ordering;
use std::fmt;

/// The list of the fields.
type Fields<'a> = Fields3<PfxVersion, ContentInfo<'a>, Option<MacData<'a>>>;

/// ```text
/// PFX ::= SEQUENCE {
///      version   INTEGER { v3(3) },
///      authSafe  ContentInfo,
///      macData   MacData OPTIONAL }
/// ```
///
/// Reading refuses the first fault of the octets, in their order.
#[derive(Clone, Copy, PartialEq, Eq)]
pub struct Pfx<'a> {
    fields: Fields<'a>,
}

impl<'a> Pfx<'a> {
    ghost use Rattle.der_pkcs.specs.Pkcs12.Pfx as pfx_fields;
    ghost use Rattle.std.specs.Prelude.{option_copied};

    /// A value of these fields.
    pub fn new(
        version: PfxVersion,
        auth_safe: &ContentInfo<'a>,
        mac_data: Option<&MacData<'a>>,
    ) -> Pfx<'a>
        ensures version { pfx_fields.version result ≡ version }
        ensures auth_safe { pfx_fields.auth_safe result ≡ auth_safe.now }
        ensures mac_data { pfx_fields.mac_data result ≡ option_copied mac_data.entry }
    {
        let list = field_list![
            version,
            copy_of(auth_safe),
            if_present!(value in mac_data => copy_of(value))
        ];
        let fields = Fields3 { list };
        Pfx { fields }
    }

    /// `version`, `INTEGER { v3 (3) }`.
    pub fn version(&self) -> PfxVersion
        ensures { result ≡ pfx_fields.version self.now }
    {
        self.fields.list.first
    }

    /// `authSafe`, `ContentInfo`.
    pub fn auth_safe(&self) -> &ContentInfo<'a>
        ensures { result.now ≡ pfx_fields.auth_safe self.now }
    {
        &self.fields.list.rest.first
    }

    /// `macData`, `MacData OPTIONAL`.
    pub fn mac_data(&self) -> Option<&MacData<'a>>
        ensures { option_copied result ≡ pfx_fields.mac_data self.now }
    {
        if_present!(value in &self.fields.list.rest.rest.first => value)
    }
}

impl<'a> fmt::Debug for Pfx<'a> {
    fn fmt<W: fmt::Write>(&self, f: &mut fmt::Formatter<W>) -> fmt::Result {
        f.debug_struct("Pfx")
            .field("version", &self.version())
            .field("auth_safe", self.auth_safe())
            .field("mac_data", &self.mac_data())
            .finish()
    }
}

impl<'a> OneTag for Pfx<'a> {
    type Marker = SequenceTag;
}

impl<'a> Sequence<'a> for Pfx<'a> {
    ghost is_sequence = { refl };
}

impl<'a> FormValue for Pfx<'a> {
    ghost value = { mapped_format (λ v. v.fields) ⟦<Fields<'a> as FieldList>⟧.list.octets };
}

impl<'a, R: Source<'a>> DecodeValue<'a, R> for Pfx<'a> {
    ghost TAKES_MEMORY = { false };

    const TAKES_MEMORY: bool = false;

    fn decode_value(alloc: Global, reader: &mut R, _header: Header) -> Result<Pfx<'a>, Error> {
        match Fields::<'a>::decode_fields(alloc, reader) {
            Ok(fields) => Ok(Pfx { fields }),
            Err(e) => Err(e),
        }
    }

    ghost takes_memory_is = { refl };
}

impl<'a> EncodeValue for Pfx<'a> {
    fn value_len(&self) -> Result<Length, Error> {
        self.fields.fields_len()
    }

    fn encode_value<W: Writer>(&self, writer: &mut W) -> Result<(), Error> {
        self.fields.encode_fields(writer)
    }

    fn encode_value_back<W: BackWriter>(&self, writer: &mut W) -> Result<(), Error> {
        self.fields.encode_fields_back(writer)
    }
}

impl<'a> ValueOrd for Pfx<'a> {
    fn value_cmp(&self, other: &Pfx<'a>) -> Result<Ordering, Error> {
        self.fields.cmp_fields(&other.fields)
    }
}

impl<'a> Member for Pfx<'a> {
    ghost member = { struct_member ⟦<SequenceTag as TagMarker>⟧.TAG (λ v. v.fields.list)
        (field ⟦<PfxVersion as Member>⟧.member
        (field ⟦<ContentInfo<'a> as Member>⟧.member
        (optional_field ⟦<MacData<'a> as Member>⟧.member
        no_fields))) };
}

impl<'a> ContentsEq for Pfx<'a> {
    ghost contents_eq = { ⟦<Pfx<'a> as Member>⟧.member.equal };
}

impl<'a> CopyIsDuplicate for Pfx<'a> {}

/// What is read as `PFX` is what the grammar page says.
pub fn grammar_of_pfx<'a>()
    ensures { ⟦<Pfx<'a> as Form>⟧.parse ≡ parse_of pfx }
{}

/// The contents octets of `PFX` are the encodings of its fields, one after another.
pub fn octets_of_pfx<'a>()
    ensures { (v : Pfx) → ⟦<Pfx<'a> as FormValue>⟧.value.contents v ≡ joined (
        (⟦<PfxVersion as Form>⟧.encoding (pfx_fields.version v))
        ∷ (⟦<ContentInfo<'a> as Form>⟧.encoding (pfx_fields.auth_safe v))
        ∷ optional (λ x. (⟦<MacData<'a> as Form>⟧.encoding x)) (pfx_fields.mac_data v)
        ∷ []) }
{}
