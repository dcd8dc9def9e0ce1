//! Node, a SEQUENCE of 4 fields.
//!
//! Made by tools/asn1 from shapes.asn1.

ghost use Rattle.std.specs.Prelude.{◌∷◌, ◌≡◌, [], false, refl, true};
ghost use Rattle.der_elem.specs.FormatMakers.{mapped_format};
ghost use Rattle.der_modules.specs.Asn1.{context, implicit_encoding, joined, optional, parse_of};
ghost use Rattle.der_modules.specs.Members.{field, no_fields, optional_field, struct_member};
ghost use Rattle.der_shapes.specs.Shapes.Grammar.{node};
ghost use Rattle.der_shapes.specs.Shapes.Node as node_fields;
ghost use Rattle.der_shapes.specs.declared.shapes.node.Node.{Node};

use der_elem::{
    ContentsEq, CopyIsDuplicate, DecodeValue, EncodeValue, Form, FormValue, OneTag, Sequence,
    SequenceTag, TagMarker, ValueOrd,
};
use der_fields::{DecodeFields, EncodeFields, FieldList, Fields4, FieldsOrd, Implicit};
use der_modules::{Member, field_list, if_present};
use der_nest::SequenceRef;
use der_tlv::{BackWriter, Error, Header, Length, Source, Writer};
use std::alloc::Global;
use std::cmp::Ordering;
use std::fmt;

/// The list of the fields.
type Fields<'a> = Fields4<
    u8,
    Option<Implicit<SequenceRef<'a>, 0>>,
    Option<Implicit<SequenceRef<'a>, 1>>,
    Option<SequenceRef<'a>>,
>;

/// ```text
/// Node ::= SEQUENCE {
///     value     INTEGER (0..255),
///     left      [0] Node OPTIONAL,
///     right     [1] EXPLICIT Node OPTIONAL,
///     children  SEQUENCE OF Node OPTIONAL }
/// ```
///
/// Reading refuses the first fault of the octets, in their order.
///
/// 'left' leads back to Node: its contents octets are kept, and not read.
///
/// 'right' leads back to Node: its contents octets are kept, and not read.
///
/// 'children' leads back to Node: its contents octets are kept, and not read.
#[derive(Clone, Copy, PartialEq, Eq)]
pub struct Node<'a> {
    fields: Fields<'a>,
}

impl<'a> Node<'a> {
    ghost use Rattle.der_shapes.specs.Shapes.Node as node_fields;
    ghost use Rattle.std.specs.Prelude.{option_copied};

    /// A value of these fields.
    pub fn new(
        value: u8,
        left: Option<SequenceRef<'a>>,
        right: Option<SequenceRef<'a>>,
        children: Option<SequenceRef<'a>>,
    ) -> Node<'a>
        ensures value { node_fields.value result ≡ value }
        ensures left { node_fields.left result ≡ left.entry }
        ensures right { node_fields.right result ≡ right.entry }
        ensures children { node_fields.children result ≡ children.entry }
    {
        let list = field_list![
            value,
            if_present!(value in left => Implicit { value }),
            if_present!(value in right => Implicit { value }),
            children
        ];
        let fields = Fields4 { list };
        Node { fields }
    }

    /// `value`, `INTEGER (0..255)`.
    pub fn value(&self) -> u8
        ensures { result ≡ node_fields.value self.now }
    {
        self.fields.list.first
    }

    /// `left`, `[0] Node OPTIONAL`.
    pub fn left(&self) -> Option<&SequenceRef<'a>>
        ensures { option_copied result ≡ node_fields.left self.now }
    {
        if_present!(value in &self.fields.list.rest.first => &value.value)
    }

    /// `right`, `[1] EXPLICIT Node OPTIONAL`.
    pub fn right(&self) -> Option<&SequenceRef<'a>>
        ensures { option_copied result ≡ node_fields.right self.now }
    {
        if_present!(value in &self.fields.list.rest.rest.first => &value.value)
    }

    /// `children`, `SEQUENCE OF Node OPTIONAL`.
    pub fn children(&self) -> Option<&SequenceRef<'a>>
        ensures { option_copied result ≡ node_fields.children self.now }
    {
        if_present!(value in &self.fields.list.rest.rest.rest.first => value)
    }
}

impl<'a> fmt::Debug for Node<'a> {
    fn fmt<W: fmt::Write>(&self, f: &mut fmt::Formatter<W>) -> fmt::Result {
        f.debug_struct("Node")
            .field("value", &self.value())
            .field("left", &self.left())
            .field("right", &self.right())
            .field("children", &self.children())
            .finish()
    }
}

impl<'a> OneTag for Node<'a> {
    type Marker = SequenceTag;
}

impl<'a> Sequence<'a> for Node<'a> {
    ghost is_sequence = { refl };
}

impl<'a> FormValue for Node<'a> {
    ghost value = { mapped_format (λ v. v.fields) ⟦<Fields<'a> as FieldList>⟧.list.octets };
}

impl<'a, R: Source<'a>> DecodeValue<'a, R> for Node<'a> {
    ghost TAKES_MEMORY = { false };

    const TAKES_MEMORY: bool = false;

    fn decode_value(alloc: Global, reader: &mut R, _header: Header) -> Result<Node<'a>, Error> {
        match Fields::<'a>::decode_fields(alloc, reader) {
            Ok(fields) => Ok(Node { fields }),
            Err(e) => Err(e),
        }
    }

    ghost takes_memory_is = { refl };
}

impl<'a> EncodeValue for Node<'a> {
    fn value_len(&self) -> Result<Length, Error> {
        self.fields.fields_len()
    }

    fn encode_value<W: Writer>(&self, writer: &mut W) -> Result<(), Error> {
        self.fields.encode_fields(writer)
    }

    fn encode_value_back<W: BackWriter>(&self, writer: &mut W) -> Result<(), Error> {
        self.fields.encode_fields_back(writer)
    }
}

impl<'a> ValueOrd for Node<'a> {
    fn value_cmp(&self, other: &Node<'a>) -> Result<Ordering, Error> {
        self.fields.cmp_fields(&other.fields)
    }
}

impl<'a> Member for Node<'a> {
    ghost member = { struct_member ⟦<SequenceTag as TagMarker>⟧.TAG (λ v. v.fields.list)
        (field ⟦<u8 as Member>⟧.member
        (optional_field ⟦<Implicit<SequenceRef<'a>, 0> as Member>⟧.member
        (optional_field ⟦<Implicit<SequenceRef<'a>, 1> as Member>⟧.member
        (optional_field ⟦<SequenceRef<'a> as Member>⟧.member
        no_fields)))) };
}

impl<'a> ContentsEq for Node<'a> {
    ghost contents_eq = { ⟦<Node<'a> as Member>⟧.member.equal };
}

impl<'a> CopyIsDuplicate for Node<'a> {}

/// What is read as `Node` is what the grammar page says.
pub fn grammar_of_node<'a>()
    ensures { ⟦<Node<'a> as Form>⟧.parse ≡ parse_of node }
{}

/// The contents octets of `Node` are the encodings of its fields, one after another.
#[tactic(auto, using(der_modules::specs::Asn1::optional_of))]
pub fn octets_of_node<'a>()
    ensures { (v : Node) → ⟦<Node<'a> as FormValue>⟧.value.contents v ≡ joined (
        (⟦<u8 as Form>⟧.encoding (node_fields.value v))
        ∷ optional (λ x. (implicit_encoding context true 0 (⟦<SequenceRef<'a> as FormValue>⟧.value.contents x))) (node_fields.left v)
        ∷ optional (λ x. (implicit_encoding context true 1 (⟦<SequenceRef<'a> as FormValue>⟧.value.contents x))) (node_fields.right v)
        ∷ optional (λ x. (⟦<SequenceRef<'a> as Form>⟧.encoding x)) (node_fields.children v)
        ∷ []) }
{}
