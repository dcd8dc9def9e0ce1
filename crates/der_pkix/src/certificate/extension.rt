//! Extension, a SEQUENCE of 3 fields.
//!
//! Made by tools/asn1 from certificate.asn1.

ghost use Rattle.std.specs.Prelude.{◌∷◌, ◌≡◌, [], false, refl};
ghost use Rattle.der_elem.specs.FormatMakers.{mapped_format};
ghost use Rattle.der_modules.specs.Asn1.{joined, parse_of, unless_default};
ghost use Rattle.der_modules.specs.Members.{default_field, field, no_fields, struct_member};
ghost use Rattle.der_pkix.specs.Certificate.Extension as extension_fields;
ghost use Rattle.der_pkix.specs.Certificate.Grammar.{extension};
ghost use Rattle.der_pkix.specs.declared.certificate.extension.Extension.{Extension};

use der_elem::{
    ContentsEq, CopyIsDuplicate, DecodeValue, EncodeValue, Form, FormValue, OneTag, Sequence,
    SequenceTag, TagMarker, ValueOrd,
};
use der_fields::{
    DecodeFields, DefaultFalse, DefaultOf, EncodeFields, FieldList, Fields3, FieldsOrd, WithDefault,
};
use der_modules::{Member, field_list};
use der_opaque::{ObjectIdentifierRef, OctetStringRef};
use der_tlv::{BackWriter, Error, Header, Length, Source, Writer};
use std::alloc::Global;
use std::cmp::Ordering;
use std::fmt;

/// The list of the fields.
type Fields<'a> = Fields3<
    ObjectIdentifierRef<'a, 39>,
    WithDefault<bool, DefaultFalse>,
    OctetStringRef<'a>,
>;

/// ```text
/// Extension ::= SEQUENCE {
///      extnID     OBJECT IDENTIFIER,
///      critical   BOOLEAN DEFAULT FALSE,
///      extnValue  OCTET STRING }
/// ```
///
/// Reading refuses the first fault of the octets, in their order.
#[derive(Clone, Copy, PartialEq, Eq)]
pub struct Extension<'a> {
    fields: Fields<'a>,
}

impl<'a> Extension<'a> {
    ghost use Rattle.der_pkix.specs.Certificate.Extension as extension_fields;

    /// A value of these fields.
    pub fn new(
        extn_id: ObjectIdentifierRef<'a, 39>,
        critical: bool,
        extn_value: OctetStringRef<'a>,
    ) -> Extension<'a>
        ensures extn_id { extension_fields.extn_id result ≡ extn_id.entry }
        ensures critical { extension_fields.critical result ≡ critical }
        ensures extn_value { extension_fields.extn_value result ≡ extn_value.entry }
    {
        let list = field_list![extn_id, WithDefault::new(critical), extn_value];
        let fields = Fields3 { list };
        Extension { fields }
    }

    /// `extnID`, `OBJECT IDENTIFIER`.
    pub fn extn_id(&self) -> &ObjectIdentifierRef<'a, 39>
        ensures { result.now ≡ extension_fields.extn_id self.now }
    {
        &self.fields.list.first
    }

    /// `critical`, `BOOLEAN DEFAULT FALSE`.
    pub fn critical(&self) -> bool
        ensures { result ≡ extension_fields.critical self.now }
    {
        self.fields.list.rest.first.value
    }

    /// `extnValue`, `OCTET STRING`.
    pub fn extn_value(&self) -> &OctetStringRef<'a>
        ensures { result.now ≡ extension_fields.extn_value self.now }
    {
        &self.fields.list.rest.rest.first
    }
}

impl<'a> fmt::Debug for Extension<'a> {
    fn fmt<W: fmt::Write>(&self, f: &mut fmt::Formatter<W>) -> fmt::Result {
        f.debug_struct("Extension")
            .field("extn_id", self.extn_id())
            .field("critical", &self.critical())
            .field("extn_value", self.extn_value())
            .finish()
    }
}

impl<'a> OneTag for Extension<'a> {
    type Marker = SequenceTag;
}

impl<'a> Sequence<'a> for Extension<'a> {
    ghost is_sequence = { refl };
}

impl<'a> FormValue for Extension<'a> {
    ghost value = { mapped_format (λ v. v.fields) ⟦<Fields<'a> as FieldList>⟧.list.octets };
}

impl<'a, R: Source<'a>> DecodeValue<'a, R> for Extension<'a> {
    ghost TAKES_MEMORY = { false };

    const TAKES_MEMORY: bool = false;

    fn decode_value(
        alloc: Global,
        reader: &mut R,
        _header: Header,
    ) -> Result<Extension<'a>, Error> {
        match Fields::<'a>::decode_fields(alloc, reader) {
            Ok(fields) => Ok(Extension { fields }),
            Err(e) => Err(e),
        }
    }

    ghost takes_memory_is = { refl };
}

impl<'a> EncodeValue for Extension<'a> {
    fn value_len(&self) -> Result<Length, Error> {
        self.fields.fields_len()
    }

    fn encode_value<W: Writer>(&self, writer: &mut W) -> Result<(), Error> {
        self.fields.encode_fields(writer)
    }

    fn encode_value_back<W: BackWriter>(&self, writer: &mut W) -> Result<(), Error> {
        self.fields.encode_fields_back(writer)
    }
}

impl<'a> ValueOrd for Extension<'a> {
    fn value_cmp(&self, other: &Extension<'a>) -> Result<Ordering, Error> {
        self.fields.cmp_fields(&other.fields)
    }
}

impl<'a> Member for Extension<'a> {
    ghost member = { struct_member ⟦<SequenceTag as TagMarker>⟧.TAG (λ v. v.fields.list)
        (field ⟦<ObjectIdentifierRef<'a, 39> as Member>⟧.member
        (default_field ⟦<DefaultFalse as DefaultOf<bool>>⟧.octets ⟦<bool as Member>⟧.member
        (field ⟦<OctetStringRef<'a> as Member>⟧.member
        no_fields))) };
}

impl<'a> ContentsEq for Extension<'a> {
    ghost contents_eq = { ⟦<Extension<'a> as Member>⟧.member.equal };
}

impl<'a> CopyIsDuplicate for Extension<'a> {}

/// What is read as `Extension` is what the grammar page says.
pub fn grammar_of_extension<'a>()
    ensures { ⟦<Extension<'a> as Form>⟧.parse ≡ parse_of extension }
{}

/// The contents octets of `Extension` are the encodings of its fields, one after another.
pub fn octets_of_extension<'a>()
    ensures { (v : Extension) → ⟦<Extension<'a> as FormValue>⟧.value.contents v ≡ joined (
        (⟦<ObjectIdentifierRef<'a, 39> as Form>⟧.encoding (extension_fields.extn_id v))
        ∷ unless_default ⟦<DefaultFalse as DefaultOf<bool>>⟧.octets (⟦<bool as Form>⟧.encoding (extension_fields.critical v))
        ∷ (⟦<OctetStringRef<'a> as Form>⟧.encoding (extension_fields.extn_value v))
        ∷ []) }
{}
