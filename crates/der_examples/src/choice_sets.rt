//! Sets of a CHOICE and of values of any type, ordered by a type that names the order.

ghost use Rattle.std.specs.Prelude.{◌≡◌, refl, IfOk, OnOk, OnErr};
ghost use Rattle.der_asn1_types.specs.Decoding.{ReadsAll};
ghost use Rattle.der_asn1_types.specs.Places.{insert_in_order};

use der_asn1_types::asn1::{AnyRef, ItemSet, OctetStringRef, Values};
use der_asn1_types::{Encode, Error, Form, FromDer, Implicit, ItemOrder, OneOf, OrdersByEncoding};
use std::alloc::Global;

/// A key, by its octets or by its number: `CHOICE { OCTET STRING, [1] IMPLICIT OCTET STRING }`.
pub type KeyName<'a> = OneOf<OctetStringRef<'a>, Implicit<OctetStringRef<'a>, 1>>;

/// The order of names of keys.
pub struct ByKeyName;

impl<'a> ItemOrder<KeyName<'a>> for ByKeyName {
    ghost item_encoding = { ⟦<KeyName<'a> as Form>⟧.encoding };
}

impl<'a> OrdersByEncoding<KeyName<'a>> for ByKeyName {
    ghost is_encoding = { refl };
}

/// `SET OF KeyName`
pub type KeyNames<'a> = ItemSet<KeyName<'a>, ByKeyName>;

/// Reads names of keys, in any order.
pub fn read_key_names<'a>(alloc: Global, octets: &'a [u8]) -> Result<KeyNames<'a>, Error>
    ensures { ReadsAll ⟦<KeyNames<'a> as Form>⟧ octets.now result }
{
    KeyNames::<'a>::from_der(alloc, octets)
}

/// Returns the canonical encoding of names of keys.
pub fn write_key_names<'a>(alloc: Global, names: &KeyNames<'a>) -> Result<Vec<u8>, Error>
    ensures { IfOk result (λ octets. octets.items ≡ ⟦<KeyNames<'a> as Form>⟧.encoding names.now) }
{
    names.to_der(alloc)
}

/// `SET OF AttributeValue`, each a value of any type.
pub type AttributeValues<'a> = ItemSet<AnyRef<'a>, Values>;

/// Reads the values of an attribute, in any order.
pub fn read_values<'a>(alloc: Global, octets: &'a [u8]) -> Result<AttributeValues<'a>, Error>
    ensures { ReadsAll ⟦<AttributeValues<'a> as Form>⟧ octets.now result }
{
    AttributeValues::<'a>::from_der(alloc, octets)
}

/// Inserts a value into the set in order. If this fails, the set is unchanged.
pub fn with_value<'a>(set: &mut AttributeValues<'a>, value: AnyRef<'a>) -> Result<(), Error>
    ensures placed { OnOk result
        (set.new ≡ insert_in_order ⟦<AnyRef<'a> as Form>⟧.encoding set.old value.entry) }
    ensures unchanged { OnErr result (set.new ≡ set.old) }
{
    set.insert(value)
}
