//! The types by their names.
ghost use Rattle.std.specs.Prelude.{◌≡◌, false};
ghost use Rattle.der_asn1_types.specs.BorrowedSets.{parse_borrowed};
ghost use Rattle.der_asn1_types.specs.Tag.TheVariants.{Set};
ghost use Rattle.der_lines.specs.Puts.{Puts};
ghost use Rattle.der_lines.specs.Rows.{tagged, taking};
ghost use Rattle.der_lines.specs.Tables.{AnswersAs};
ghost use Rattle.derview_names.specs.Names.{type_of, plain_types, signed_types, unsigned_types, opaque_types, composed_types, tagged_types, number_types, string_types, bit_types, nested_types, set_types, borrowed_set_types, simple_types, time_types};

use der_asn1_types::asn1::{
    Any, AnyRef, Application, BitString, BitStringRef, BmpString, ContextSpecific,
    GeneralStringRef, GeneralizedTime, Ia5String, Ia5StringRef, Int, IntRef, Null,
    ObjectIdentifier, ObjectIdentifierRef, OctetString, OctetStringRef, PrintableString,
    PrintableStringRef, Private, SequenceOf, SequenceOfRef, SequenceRef, SetOf, SetOfRef, SetOfVec,
    TeletexString, TeletexStringRef, Uint, UintRef, UtcTime, Utf8StringRef, VideotexStringRef,
};
use der_asn1_types::{DateTime, Decode, DerOrd, Encode, Error, SliceReader, Tagged};
use der_lines::{KeptWriter, Names, choose, is_name, put_canonical, put_canonical_set};
use der_pkix::AlgorithmIdentifier;
use der_simple::{FractionalTimeRef, NumericStringRef, RelativeOidRef, VisibleStringRef};
use std::alloc::Global;

/// The names of the types of `der_asn1_types` and `der_simple`, and of an AlgorithmIdentifier.
pub struct TypeNames;

impl Names for TypeNames {
    ghost table = { type_of };

    #[tactic(auto, unfolding(crate::specs::Names::type_of))]
    fn put_canonical_of_name(
        alloc: Global,
        name: &[u8],
        octets: &[u8],
        encoding: &mut KeptWriter,
    ) -> Option<Result<(), Error>> {
        if let Some(result) = put_plain(alloc, name, octets, encoding) {
            return Some(result);
        }
        if let Some(result) = put_signed(alloc, name, octets, encoding) {
            return Some(result);
        }
        if let Some(result) = put_unsigned(alloc, name, octets, encoding) {
            return Some(result);
        }
        if let Some(result) = put_opaque(alloc, name, octets, encoding) {
            return Some(result);
        }
        if let Some(result) = put_composed(alloc, name, octets, encoding) {
            return Some(result);
        }
        if let Some(result) = put_tagged(alloc, name, octets, encoding) {
            return Some(result);
        }
        if let Some(result) = put_number(alloc, name, octets, encoding) {
            return Some(result);
        }
        if let Some(result) = put_string(alloc, name, octets, encoding) {
            return Some(result);
        }
        if let Some(result) = put_bits(alloc, name, octets, encoding) {
            return Some(result);
        }
        if let Some(result) = put_nested(alloc, name, octets, encoding) {
            return Some(result);
        }
        if let Some(result) = put_set(alloc, name, octets, encoding) {
            return Some(result);
        }
        if let Some(result) = put_borrowed_set(alloc, name, octets, encoding) {
            return Some(result);
        }
        if let Some(result) = put_simple(alloc, name, octets, encoding) {
            return Some(result);
        }
        put_time(alloc, name, octets, encoding)
    }
}

#[tactic(auto, unfolding(crate::specs::Names::plain_types))]
fn put_plain(
    alloc: Global,
    name: &[u8],
    octets: &[u8],
    encoding: &mut KeptWriter,
) -> Option<Result<(), Error>>
    ensures { AnswersAs (plain_types name.now) octets.now encoding.new.octets.items result }
{
    choose! {
        alloc, name, octets, encoding;
        "bool" => bool,
        "unit" => (),
    }
}

#[tactic(auto, unfolding(crate::specs::Names::signed_types))]
fn put_signed(
    alloc: Global,
    name: &[u8],
    octets: &[u8],
    encoding: &mut KeptWriter,
) -> Option<Result<(), Error>>
    ensures { AnswersAs (signed_types name.now) octets.now encoding.new.octets.items result }
{
    choose! {
        alloc, name, octets, encoding;
        "i8" => i8,
        "i16" => i16,
        "i32" => i32,
        "i64" => i64,
        "i128" => i128,
    }
}

#[tactic(auto, unfolding(crate::specs::Names::unsigned_types))]
fn put_unsigned(
    alloc: Global,
    name: &[u8],
    octets: &[u8],
    encoding: &mut KeptWriter,
) -> Option<Result<(), Error>>
    ensures { AnswersAs (unsigned_types name.now) octets.now encoding.new.octets.items result }
{
    choose! {
        alloc, name, octets, encoding;
        "u8" => u8,
        "u16" => u16,
        "u32" => u32,
        "u64" => u64,
        "u128" => u128,
    }
}

#[tactic(auto, unfolding(crate::specs::Names::opaque_types))]
fn put_opaque(
    alloc: Global,
    name: &[u8],
    octets: &[u8],
    encoding: &mut KeptWriter,
) -> Option<Result<(), Error>>
    ensures { AnswersAs (opaque_types name.now) octets.now encoding.new.octets.items result }
{
    choose! {
        alloc, name, octets, encoding;
        "null" => Null,
        "any" => Any,
        "anyref" => AnyRef,
        "octets" => OctetString,
        "octetsref" => OctetStringRef,
        "oid" => ObjectIdentifier<39>,
        "oidref" => ObjectIdentifierRef<39>,
    }
}

#[tactic(auto, unfolding(crate::specs::Names::composed_types))]
fn put_composed(
    alloc: Global,
    name: &[u8],
    octets: &[u8],
    encoding: &mut KeptWriter,
) -> Option<Result<(), Error>>
    ensures { AnswersAs (composed_types name.now) octets.now encoding.new.octets.items result }
{
    choose! {
        alloc, name, octets, encoding;
        "vec-i64" => Vec<i64>,
        "vec-anyref" => Vec<AnyRef>,
        "array2-u8" => [u8; 2],
        "opt-u8" => Option<u8>,
    }
}

#[tactic(auto, unfolding(crate::specs::Names::tagged_types))]
fn put_tagged(
    alloc: Global,
    name: &[u8],
    octets: &[u8],
    encoding: &mut KeptWriter,
) -> Option<Result<(), Error>>
    ensures { AnswersAs (tagged_types name.now) octets.now encoding.new.octets.items result }
{
    choose! {
        alloc, name, octets, encoding;
        "ctx-u8" => ContextSpecific<u8>,
        "app-u8" => Application<u8>,
        "prv-u8" => Private<u8>,
        "vec-ctx-u8" => Vec<ContextSpecific<u8>>,
    }
}

#[tactic(auto, unfolding(crate::specs::Names::number_types))]
fn put_number(
    alloc: Global,
    name: &[u8],
    octets: &[u8],
    encoding: &mut KeptWriter,
) -> Option<Result<(), Error>>
    ensures { AnswersAs (number_types name.now) octets.now encoding.new.octets.items result }
{
    choose! {
        alloc, name, octets, encoding;
        "int" => Int,
        "intref" => IntRef,
        "uint" => Uint,
        "uintref" => UintRef,
    }
}

#[tactic(auto, unfolding(crate::specs::Names::string_types))]
fn put_string(
    alloc: Global,
    name: &[u8],
    octets: &[u8],
    encoding: &mut KeptWriter,
) -> Option<Result<(), Error>>
    ensures { AnswersAs (string_types name.now) octets.now encoding.new.octets.items result }
{
    choose! {
        alloc, name, octets, encoding;
        "printable" => PrintableString,
        "printableref" => PrintableStringRef,
        "teletex" => TeletexString,
        "teletexref" => TeletexStringRef,
        "videotexref" => VideotexStringRef,
        "ia5" => Ia5String,
        "ia5ref" => Ia5StringRef,
        "utf8ref" => Utf8StringRef,
        "string" => String,
        "generalref" => GeneralStringRef,
        "bmp" => BmpString,
    }
}

#[tactic(auto, unfolding(crate::specs::Names::bit_types))]
fn put_bits(
    alloc: Global,
    name: &[u8],
    octets: &[u8],
    encoding: &mut KeptWriter,
) -> Option<Result<(), Error>>
    ensures { AnswersAs (bit_types name.now) octets.now encoding.new.octets.items result }
{
    choose! {
        alloc, name, octets, encoding;
        "bits" => BitString,
        "bitsref" => BitStringRef,
        "ctx-bitsref" => ContextSpecific<BitStringRef>,
    }
}

#[tactic(auto, unfolding(crate::specs::Names::nested_types))]
fn put_nested(
    alloc: Global,
    name: &[u8],
    octets: &[u8],
    encoding: &mut KeptWriter,
) -> Option<Result<(), Error>>
    ensures { AnswersAs (nested_types name.now) octets.now encoding.new.octets.items result }
{
    choose! {
        alloc, name, octets, encoding;
        "sequenceref" => SequenceRef,
        "seqof5-u16" => SequenceOf<u16, 5>,
        "seqref-u16" => SequenceOfRef<u16>,
        "algid" => AlgorithmIdentifier,
    }
}

#[tactic(auto, unfolding(crate::specs::Names::set_types))]
fn put_set(
    alloc: Global,
    name: &[u8],
    octets: &[u8],
    encoding: &mut KeptWriter,
) -> Option<Result<(), Error>>
    ensures { AnswersAs (set_types name.now) octets.now encoding.new.octets.items result }
{
    if is_name(name, "setvec-anyref") {
        return Some(put_canonical_set::<AnyRef>(alloc, octets, encoding));
    }
    if is_name(name, "setvec-u16") {
        return Some(put_canonical_set::<u16>(alloc, octets, encoding));
    }
    if is_name(name, "setvec-algid") {
        return Some(put_canonical_set::<AlgorithmIdentifier>(alloc, octets, encoding));
    }
    choose! {
        alloc, name, octets, encoding;
        "setof2-u16" => SetOf<u16, 2>,
        "ctx-setof2-u16" => ContextSpecific<SetOf<u16, 2>>,
    }
}

#[tactic(auto, unfolding(crate::specs::Names::borrowed_set_types))]
fn put_borrowed_set(
    alloc: Global,
    name: &[u8],
    octets: &[u8],
    encoding: &mut KeptWriter,
) -> Option<Result<(), Error>>
    ensures { AnswersAs (borrowed_set_types name.now) octets.now encoding.new.octets.items result }
{
    if is_name(name, "setref-u16") {
        return Some(put_canonical_borrowed::<u16>(alloc, octets, encoding));
    }
    if is_name(name, "setref-octetsref") {
        return Some(put_canonical_borrowed::<OctetStringRef>(alloc, octets, encoding));
    }
    if is_name(name, "setref-setvec-u16") {
        return Some(put_canonical_borrowed::<SetOfVec<u16>>(alloc, octets, encoding));
    }
    None
}

/// Puts the canonical encoding of a set that borrows its contents octets. The function is proved
/// once for every type of items, so that the check of a call is faster.
fn put_canonical_borrowed<'a, T: Decode<'a, SliceReader<'a>> + Encode + DerOrd + Tagged + 'a>(
    alloc: Global,
    octets: &'a [u8],
    encoding: &mut KeptWriter,
) -> Result<(), Error>
    ensures { Puts (tagged (taking T.Form.TAKES_MEMORY false) Set (parse_borrowed T.parse)) octets.now
        encoding.new.octets.items result }
{
    put_canonical::<SetOfRef<T>>(alloc, octets, encoding)
}

#[tactic(auto, unfolding(crate::specs::Names::simple_types))]
fn put_simple(
    alloc: Global,
    name: &[u8],
    octets: &[u8],
    encoding: &mut KeptWriter,
) -> Option<Result<(), Error>>
    ensures { AnswersAs (simple_types name.now) octets.now encoding.new.octets.items result }
{
    choose! {
        alloc, name, octets, encoding;
        "numericref" => NumericStringRef,
        "visibleref" => VisibleStringRef,
        "relativeoidref" => RelativeOidRef,
        "fractionaltimeref" => FractionalTimeRef,
    }
}

#[tactic(auto, unfolding(crate::specs::Names::time_types))]
fn put_time(
    alloc: Global,
    name: &[u8],
    octets: &[u8],
    encoding: &mut KeptWriter,
) -> Option<Result<(), Error>>
    ensures { AnswersAs (time_types name.now) octets.now encoding.new.octets.items result }
{
    choose! {
        alloc, name, octets, encoding;
        "datetime" => DateTime,
        "gentime" => GeneralizedTime,
        "utctime" => UtcTime,
    }
}
