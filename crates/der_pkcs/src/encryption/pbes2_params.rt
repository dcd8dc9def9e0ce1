//! PBES2-params, a SEQUENCE of 2 fields.
//!
//! Made by tools/asn1 from encryption.asn1.

ghost use Rattle.std.specs.Prelude.{◌∷◌, ◌≡◌, [], false, refl};
ghost use Rattle.der_elem.specs.FormatMakers.{mapped_format};
ghost use Rattle.der_modules.specs.Asn1.{joined, parse_of};
ghost use Rattle.der_modules.specs.Members.{field, no_fields, struct_member};
ghost use Rattle.der_pkcs.specs.Encryption.Grammar.{pbes2_params};
ghost use Rattle.der_pkcs.specs.Encryption.Pbes2Params as pbes2_params_fields;
ghost use Rattle.der_pkcs.specs.declared.encryption.pbes2_params.Pbes2Params.{Pbes2Params};

use der_elem::{
    ContentsEq, CopyIsDuplicate, DecodeValue, EncodeValue, Form, FormValue, OneTag, Sequence,
    SequenceTag, TagMarker, ValueOrd,
};
use der_fields::{DecodeFields, EncodeFields, FieldList, Fields2, FieldsOrd};
use der_modules::{Member, copy_of, field_list};
use der_pkix::AlgorithmIdentifier;
use der_tlv::{BackWriter, Error, Header, Length, Source, Writer};
use std::alloc::Global;
use std::cmp::Ordering;
use std::fmt;

/// The list of the fields.
type Fields<'a> = Fields2<AlgorithmIdentifier<'a>, AlgorithmIdentifier<'a>>;

/// ```text
/// PBES2-params ::= SEQUENCE {
///      keyDerivationFunc  AlgorithmIdentifier,
///      encryptionScheme   AlgorithmIdentifier }
/// ```
///
/// Reading refuses the first fault of the octets, in their order.
#[derive(Clone, Copy, PartialEq, Eq)]
pub struct Pbes2Params<'a> {
    fields: Fields<'a>,
}

impl<'a> Pbes2Params<'a> {
    ghost use Rattle.der_pkcs.specs.Encryption.Pbes2Params as pbes2_params_fields;

    /// A value of these fields.
    pub fn new(
        key_derivation_func: &AlgorithmIdentifier<'a>,
        encryption_scheme: &AlgorithmIdentifier<'a>,
    ) -> Pbes2Params<'a>
        ensures key_derivation_func { pbes2_params_fields.key_derivation_func result ≡ key_derivation_func.now }
        ensures encryption_scheme { pbes2_params_fields.encryption_scheme result ≡ encryption_scheme.now }
    {
        let list = field_list![copy_of(key_derivation_func), copy_of(encryption_scheme)];
        let fields = Fields2 { list };
        Pbes2Params { fields }
    }

    /// `keyDerivationFunc`, `AlgorithmIdentifier`.
    pub fn key_derivation_func(&self) -> &AlgorithmIdentifier<'a>
        ensures { result.now ≡ pbes2_params_fields.key_derivation_func self.now }
    {
        &self.fields.list.first
    }

    /// `encryptionScheme`, `AlgorithmIdentifier`.
    pub fn encryption_scheme(&self) -> &AlgorithmIdentifier<'a>
        ensures { result.now ≡ pbes2_params_fields.encryption_scheme self.now }
    {
        &self.fields.list.rest.first
    }
}

impl<'a> fmt::Debug for Pbes2Params<'a> {
    fn fmt<W: fmt::Write>(&self, f: &mut fmt::Formatter<W>) -> fmt::Result {
        f.debug_struct("Pbes2Params")
            .field("key_derivation_func", self.key_derivation_func())
            .field("encryption_scheme", self.encryption_scheme())
            .finish()
    }
}

impl<'a> OneTag for Pbes2Params<'a> {
    type Marker = SequenceTag;
}

impl<'a> Sequence<'a> for Pbes2Params<'a> {
    ghost is_sequence = { refl };
}

impl<'a> FormValue for Pbes2Params<'a> {
    ghost value = { mapped_format (λ v. v.fields) ⟦<Fields<'a> as FieldList>⟧.list.octets };
}

impl<'a, R: Source<'a>> DecodeValue<'a, R> for Pbes2Params<'a> {
    ghost TAKES_MEMORY = { false };

    const TAKES_MEMORY: bool = false;

    fn decode_value(
        alloc: Global,
        reader: &mut R,
        _header: Header,
    ) -> Result<Pbes2Params<'a>, Error> {
        match Fields::<'a>::decode_fields(alloc, reader) {
            Ok(fields) => Ok(Pbes2Params { fields }),
            Err(e) => Err(e),
        }
    }

    ghost takes_memory_is = { refl };
}

impl<'a> EncodeValue for Pbes2Params<'a> {
    fn value_len(&self) -> Result<Length, Error> {
        self.fields.fields_len()
    }

    fn encode_value<W: Writer>(&self, writer: &mut W) -> Result<(), Error> {
        self.fields.encode_fields(writer)
    }

    fn encode_value_back<W: BackWriter>(&self, writer: &mut W) -> Result<(), Error> {
        self.fields.encode_fields_back(writer)
    }
}

impl<'a> ValueOrd for Pbes2Params<'a> {
    fn value_cmp(&self, other: &Pbes2Params<'a>) -> Result<Ordering, Error> {
        self.fields.cmp_fields(&other.fields)
    }
}

impl<'a> Member for Pbes2Params<'a> {
    ghost member = { struct_member ⟦<SequenceTag as TagMarker>⟧.TAG (λ v. v.fields.list)
        (field ⟦<AlgorithmIdentifier<'a> as Member>⟧.member
        (field ⟦<AlgorithmIdentifier<'a> as Member>⟧.member
        no_fields)) };
}

impl<'a> ContentsEq for Pbes2Params<'a> {
    ghost contents_eq = { ⟦<Pbes2Params<'a> as Member>⟧.member.equal };
}

impl<'a> CopyIsDuplicate for Pbes2Params<'a> {}

/// What is read as `PBES2-params` is what the grammar page says.
pub fn grammar_of_pbes2_params<'a>()
    ensures { ⟦<Pbes2Params<'a> as Form>⟧.parse ≡ parse_of pbes2_params }
{}

/// The contents octets of `PBES2-params` are the encodings of its fields, one after another.
pub fn octets_of_pbes2_params<'a>()
    ensures { (v : Pbes2Params) → ⟦<Pbes2Params<'a> as FormValue>⟧.value.contents v ≡ joined (
        (⟦<AlgorithmIdentifier<'a> as Form>⟧.encoding (pbes2_params_fields.key_derivation_func v))
        ∷ (⟦<AlgorithmIdentifier<'a> as Form>⟧.encoding (pbes2_params_fields.encryption_scheme v))
        ∷ []) }
{}
