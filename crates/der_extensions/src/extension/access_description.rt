//! AccessDescription, a SEQUENCE of 2 fields.
//!
//! Made by tools/asn1 from extension.asn1.

ghost use Rattle.std.specs.Prelude.{◌∷◌, ◌≡◌, [], false, refl};
ghost use Rattle.der_elem.specs.FormatMakers.{mapped_format};
ghost use Rattle.der_extensions.specs.Extension.AccessDescription as access_description_fields;
ghost use Rattle.der_extensions.specs.Extension.Grammar.{access_description};
ghost use Rattle.der_extensions.specs.declared.extension.access_description.AccessDescription.{AccessDescription};
ghost use Rattle.der_modules.specs.Asn1.{joined, parse_of};
ghost use Rattle.der_modules.specs.Members.{choice_field, field, no_fields, struct_member};

use crate::extension::general_name::GeneralName;
use der_elem::{
    ContentsEq, CopyIsDuplicate, DecodeValue, EncodeValue, Form, FormValue, OneTag, Sequence,
    SequenceTag, TagMarker, ValueOrd,
};
use der_fields::{DecodeFields, EncodeFields, FieldList, Fields2, FieldsOrd};
use der_modules::{Choosing, Member, copy_of, field_list};
use der_opaque::ObjectIdentifierRef;
use der_tlv::{BackWriter, Error, Header, Length, Source, Writer};
use std::alloc::Global;
use std::cmp::Ordering;
use std::fmt;

/// The list of the fields.
type Fields<'a> = Fields2<ObjectIdentifierRef<'a, 39>, GeneralName<'a>>;

/// ```text
/// AccessDescription  ::=  SEQUENCE {
///         accessMethod          OBJECT IDENTIFIER,
///         accessLocation        GeneralName  }
/// ```
///
/// Reading refuses the first fault of the octets, in their order.
#[derive(Clone, Copy, PartialEq, Eq)]
pub struct AccessDescription<'a> {
    fields: Fields<'a>,
}

impl<'a> AccessDescription<'a> {
    ghost use Rattle.der_extensions.specs.Extension.AccessDescription as access_description_fields;

    /// A value of these fields.
    pub fn new(
        access_method: ObjectIdentifierRef<'a, 39>,
        access_location: &GeneralName<'a>,
    ) -> AccessDescription<'a>
        ensures access_method { access_description_fields.access_method result ≡ access_method.entry }
        ensures access_location { access_description_fields.access_location result ≡ access_location.now }
    {
        let list = field_list![access_method, copy_of(access_location)];
        let fields = Fields2 { list };
        AccessDescription { fields }
    }

    /// `accessMethod`, `OBJECT IDENTIFIER`.
    pub fn access_method(&self) -> &ObjectIdentifierRef<'a, 39>
        ensures { result.now ≡ access_description_fields.access_method self.now }
    {
        &self.fields.list.first
    }

    /// `accessLocation`, `GeneralName`.
    pub fn access_location(&self) -> &GeneralName<'a>
        ensures { result.now ≡ access_description_fields.access_location self.now }
    {
        &self.fields.list.rest.first
    }
}

impl<'a> fmt::Debug for AccessDescription<'a> {
    fn fmt<W: fmt::Write>(&self, f: &mut fmt::Formatter<W>) -> fmt::Result {
        f.debug_struct("AccessDescription")
            .field("access_method", self.access_method())
            .field("access_location", self.access_location())
            .finish()
    }
}

impl<'a> OneTag for AccessDescription<'a> {
    type Marker = SequenceTag;
}

impl<'a> Sequence<'a> for AccessDescription<'a> {
    ghost is_sequence = { refl };
}

impl<'a> FormValue for AccessDescription<'a> {
    ghost value = { mapped_format (λ v. v.fields) ⟦<Fields<'a> as FieldList>⟧.list.octets };
}

impl<'a, R: Source<'a>> DecodeValue<'a, R> for AccessDescription<'a> {
    ghost TAKES_MEMORY = { false };

    const TAKES_MEMORY: bool = false;

    fn decode_value(
        alloc: Global,
        reader: &mut R,
        _header: Header,
    ) -> Result<AccessDescription<'a>, Error> {
        match Fields::<'a>::decode_fields(alloc, reader) {
            Ok(fields) => Ok(AccessDescription { fields }),
            Err(e) => Err(e),
        }
    }

    ghost takes_memory_is = { refl };
}

impl<'a> EncodeValue for AccessDescription<'a> {
    fn value_len(&self) -> Result<Length, Error> {
        self.fields.fields_len()
    }

    fn encode_value<W: Writer>(&self, writer: &mut W) -> Result<(), Error> {
        self.fields.encode_fields(writer)
    }

    fn encode_value_back<W: BackWriter>(&self, writer: &mut W) -> Result<(), Error> {
        self.fields.encode_fields_back(writer)
    }
}

impl<'a> ValueOrd for AccessDescription<'a> {
    fn value_cmp(&self, other: &AccessDescription<'a>) -> Result<Ordering, Error> {
        self.fields.cmp_fields(&other.fields)
    }
}

impl<'a> Member for AccessDescription<'a> {
    ghost member = { struct_member ⟦<SequenceTag as TagMarker>⟧.TAG (λ v. v.fields.list)
        (field ⟦<ObjectIdentifierRef<'a, 39> as Member>⟧.member
        (choice_field ⟦<GeneralName<'a> as Choosing>⟧.choice
        no_fields)) };
}

impl<'a> ContentsEq for AccessDescription<'a> {
    ghost contents_eq = { ⟦<AccessDescription<'a> as Member>⟧.member.equal };
}

impl<'a> CopyIsDuplicate for AccessDescription<'a> {}

/// What is read as `AccessDescription` is what the grammar page says.
pub fn grammar_of_access_description<'a>()
    ensures { ⟦<AccessDescription<'a> as Form>⟧.parse ≡ parse_of access_description }
{}

/// The contents octets of `AccessDescription` are the encodings of its fields, one after another.
pub fn octets_of_access_description<'a>()
    ensures { (v : AccessDescription) → ⟦<AccessDescription<'a> as FormValue>⟧.value.contents v ≡ joined (
        (⟦<ObjectIdentifierRef<'a, 39> as Form>⟧.encoding (access_description_fields.access_method v))
        ∷ (⟦<GeneralName<'a> as Form>⟧.encoding (access_description_fields.access_location v))
        ∷ []) }
{}
