//! Equality by octets of the types of the library whose values have no parts.

ghost use Rattle.std.specs.Prelude.{string_bytes, take};
ghost use Rattle.std.specs.Cmp.Lexicographic.{bytes_decides};
ghost use Rattle.der_bits.specs.contracts.bit_string.BitStringContentsEq.TheImpl.Laws as bit_string_contents_eq;
ghost use Rattle.der_bits.specs.contracts.bit_string_ref.BitStringRefContentsEq.TheImpl.Laws as bit_string_ref_contents_eq;
ghost use Rattle.der_bits.specs.contracts.named_bits.NamedBitsRefContentsEq.TheImpl.Laws as named_bits_ref_contents_eq;
ghost use Rattle.der_elem.specs.contracts.boolean.BoolContentsEq.TheImpl.Laws as bool_contents_eq;
ghost use Rattle.der_elem.specs.contracts.integer.signed.I128ContentsEq.TheImpl.Laws as i128_contents_eq;
ghost use Rattle.der_elem.specs.contracts.integer.signed.I16ContentsEq.TheImpl.Laws as i16_contents_eq;
ghost use Rattle.der_elem.specs.contracts.integer.signed.I32ContentsEq.TheImpl.Laws as i32_contents_eq;
ghost use Rattle.der_elem.specs.contracts.integer.signed.I64ContentsEq.TheImpl.Laws as i64_contents_eq;
ghost use Rattle.der_elem.specs.contracts.integer.signed.I8ContentsEq.TheImpl.Laws as i8_contents_eq;
ghost use Rattle.der_elem.specs.contracts.integer.unsigned.U128ContentsEq.TheImpl.Laws as u128_contents_eq;
ghost use Rattle.der_elem.specs.contracts.integer.unsigned.U16ContentsEq.TheImpl.Laws as u16_contents_eq;
ghost use Rattle.der_elem.specs.contracts.integer.unsigned.U32ContentsEq.TheImpl.Laws as u32_contents_eq;
ghost use Rattle.der_elem.specs.contracts.integer.unsigned.U64ContentsEq.TheImpl.Laws as u64_contents_eq;
ghost use Rattle.der_elem.specs.contracts.integer.unsigned.U8ContentsEq.TheImpl.Laws as u8_contents_eq;
ghost use Rattle.der_elem.specs.contracts.string.StringContentsEq.TheImpl.Laws as string_contents_eq;
ghost use Rattle.der_modules.specs.MemberLaws.{own_tags};
ghost use Rattle.der_modules.specs.Members.{value_choice, value_member};
ghost use Rattle.der_modules.specs.contracts.general_string.GeneralStringOctetsContentsEq.TheImpl.Laws as general_string_octets_contents_eq;
ghost use Rattle.der_nest.specs.contracts.sequence_ref.SequenceRefContentsEq.TheImpl.Laws as sequence_ref_contents_eq;
ghost use Rattle.der_numbers.specs.contracts.int.IntContentsEq.TheImpl.Laws as int_contents_eq;
ghost use Rattle.der_numbers.specs.contracts.int_ref.IntRefContentsEq.TheImpl.Laws as int_ref_contents_eq;
ghost use Rattle.der_numbers.specs.contracts.uint.UintContentsEq.TheImpl.Laws as uint_contents_eq;
ghost use Rattle.der_numbers.specs.contracts.uint_ref.UintRefContentsEq.TheImpl.Laws as uint_ref_contents_eq;
ghost use Rattle.der_opaque.specs.contracts.any.AnyEncodingEq.TheImpl.Laws as any_encoding_eq;
ghost use Rattle.der_opaque.specs.contracts.any.AnyTagged.TheImpl.Laws as any_tagged;
ghost use Rattle.der_opaque.specs.contracts.any_ref.AnyRefEncodingEq.TheImpl.Laws as any_ref_encoding_eq;
ghost use Rattle.der_opaque.specs.contracts.any_ref.AnyRefTagged.TheImpl.Laws as any_ref_tagged;
ghost use Rattle.der_opaque.specs.contracts.null.NullContentsEq.TheImpl.Laws as null_contents_eq;
ghost use Rattle.der_opaque.specs.contracts.octet_string.OctetStringContentsEq.TheImpl.Laws as octet_string_contents_eq;
ghost use Rattle.der_opaque.specs.contracts.octet_string_ref.OctetStringRefContentsEq.TheImpl.Laws as octet_string_ref_contents_eq;
ghost use Rattle.der_text.specs.contracts.bmp_string.BmpStringContentsEq.TheImpl.Laws as bmp_string_contents_eq;
ghost use Rattle.der_text.specs.contracts.utf8_string.Utf8StringRefContentsEq.TheImpl.Laws as utf8_string_ref_contents_eq;
ghost use Rattle.der_time.specs.contracts.generalized_time.GeneralizedTimeContentsEq.TheImpl.Laws as generalized_time_contents_eq;
ghost use Rattle.der_time.specs.contracts.utc_time.UtcTimeContentsEq.TheImpl.Laws as utc_time_contents_eq;

use crate::general_string::GeneralStringOctets;
use crate::member::{Choosing, Member};
use der_ascii::{CharacterString, CharacterStringRef, CharacterStringTag};
use der_bits::{BitString, BitStringRef, NamedBitsRef};
use der_elem::{
    BitStringTag, BmpStringTag, BooleanTag, Form, FormValue, GeneralStringTag, GeneralizedTimeTag,
    IntegerTag, NullTag, ObjectIdentifierTag, OctetStringTag, SequenceTag, TagMarker, Tagged,
    UtcTimeTag, Utf8StringTag,
};
use der_nest::SequenceRef;
use der_numbers::{Int, IntRef, Uint, UintRef};
use der_opaque::{
    Any, AnyRef, Null, ObjectIdentifier, ObjectIdentifierRef, OctetString, OctetStringRef,
};
use der_text::{BmpString, Utf8StringRef};
use der_time::{GeneralizedTime, UtcTime};

impl Member for bool {
    ghost member = { value_member ⟦<BooleanTag as TagMarker>⟧.TAG ⟦<bool as FormValue>⟧.value ⟦<bool as PartialEq>⟧.eq bool_contents_eq.contents_eq-law };
}

impl Member for u8 {
    ghost member = { value_member ⟦<IntegerTag as TagMarker>⟧.TAG ⟦<u8 as FormValue>⟧.value ⟦<u8 as PartialEq>⟧.eq u8_contents_eq.contents_eq-law };
}

impl Member for u16 {
    ghost member = { value_member ⟦<IntegerTag as TagMarker>⟧.TAG ⟦<u16 as FormValue>⟧.value ⟦<u16 as PartialEq>⟧.eq u16_contents_eq.contents_eq-law };
}

impl Member for u32 {
    ghost member = { value_member ⟦<IntegerTag as TagMarker>⟧.TAG ⟦<u32 as FormValue>⟧.value ⟦<u32 as PartialEq>⟧.eq u32_contents_eq.contents_eq-law };
}

impl Member for u64 {
    ghost member = { value_member ⟦<IntegerTag as TagMarker>⟧.TAG ⟦<u64 as FormValue>⟧.value ⟦<u64 as PartialEq>⟧.eq u64_contents_eq.contents_eq-law };
}

impl Member for u128 {
    ghost member = { value_member ⟦<IntegerTag as TagMarker>⟧.TAG ⟦<u128 as FormValue>⟧.value ⟦<u128 as PartialEq>⟧.eq u128_contents_eq.contents_eq-law };
}

impl Member for i8 {
    ghost member = { value_member ⟦<IntegerTag as TagMarker>⟧.TAG ⟦<i8 as FormValue>⟧.value ⟦<i8 as PartialEq>⟧.eq i8_contents_eq.contents_eq-law };
}

impl Member for i16 {
    ghost member = { value_member ⟦<IntegerTag as TagMarker>⟧.TAG ⟦<i16 as FormValue>⟧.value ⟦<i16 as PartialEq>⟧.eq i16_contents_eq.contents_eq-law };
}

impl Member for i32 {
    ghost member = { value_member ⟦<IntegerTag as TagMarker>⟧.TAG ⟦<i32 as FormValue>⟧.value ⟦<i32 as PartialEq>⟧.eq i32_contents_eq.contents_eq-law };
}

impl Member for i64 {
    ghost member = { value_member ⟦<IntegerTag as TagMarker>⟧.TAG ⟦<i64 as FormValue>⟧.value ⟦<i64 as PartialEq>⟧.eq i64_contents_eq.contents_eq-law };
}

impl Member for i128 {
    ghost member = { value_member ⟦<IntegerTag as TagMarker>⟧.TAG ⟦<i128 as FormValue>⟧.value ⟦<i128 as PartialEq>⟧.eq i128_contents_eq.contents_eq-law };
}

impl Member for String {
    ghost member = { value_member ⟦<Utf8StringTag as TagMarker>⟧.TAG ⟦<String as FormValue>⟧.value ⟦<String as PartialEq>⟧.eq string_contents_eq.contents_eq-law };
}

impl Member for Null {
    ghost member = { value_member ⟦<NullTag as TagMarker>⟧.TAG ⟦<Null as FormValue>⟧.value ⟦<Null as PartialEq>⟧.eq null_contents_eq.contents_eq-law };
}

impl<'a> Member for IntRef<'a> {
    ghost member = { value_member ⟦<IntegerTag as TagMarker>⟧.TAG ⟦<IntRef<'a> as FormValue>⟧.value ⟦<IntRef<'a> as PartialEq>⟧.eq int_ref_contents_eq.contents_eq-law };
}

impl Member for Int {
    ghost member = { value_member ⟦<IntegerTag as TagMarker>⟧.TAG ⟦<Int as FormValue>⟧.value ⟦<Int as PartialEq>⟧.eq int_contents_eq.contents_eq-law };
}

impl<'a> Member for UintRef<'a> {
    ghost member = { value_member ⟦<IntegerTag as TagMarker>⟧.TAG ⟦<UintRef<'a> as FormValue>⟧.value ⟦<UintRef<'a> as PartialEq>⟧.eq uint_ref_contents_eq.contents_eq-law };
}

impl Member for Uint {
    ghost member = { value_member ⟦<IntegerTag as TagMarker>⟧.TAG ⟦<Uint as FormValue>⟧.value ⟦<Uint as PartialEq>⟧.eq uint_contents_eq.contents_eq-law };
}

impl<'a> Member for BitStringRef<'a> {
    ghost member = { value_member ⟦<BitStringTag as TagMarker>⟧.TAG ⟦<BitStringRef<'a> as FormValue>⟧.value ⟦<BitStringRef<'a> as PartialEq>⟧.eq bit_string_ref_contents_eq.contents_eq-law };
}

impl Member for BitString {
    ghost member = { value_member ⟦<BitStringTag as TagMarker>⟧.TAG ⟦<BitString as FormValue>⟧.value ⟦<BitString as PartialEq>⟧.eq bit_string_contents_eq.contents_eq-law };
}

impl<'a> Member for NamedBitsRef<'a> {
    ghost member = { value_member ⟦<BitStringTag as TagMarker>⟧.TAG ⟦<NamedBitsRef<'a> as FormValue>⟧.value ⟦<NamedBitsRef<'a> as PartialEq>⟧.eq named_bits_ref_contents_eq.contents_eq-law };
}

impl<'a> Member for OctetStringRef<'a> {
    ghost member = { value_member ⟦<OctetStringTag as TagMarker>⟧.TAG ⟦<OctetStringRef<'a> as FormValue>⟧.value ⟦<OctetStringRef<'a> as PartialEq>⟧.eq octet_string_ref_contents_eq.contents_eq-law };
}

impl Member for OctetString {
    ghost member = { value_member ⟦<OctetStringTag as TagMarker>⟧.TAG ⟦<OctetString as FormValue>⟧.value ⟦<OctetString as PartialEq>⟧.eq octet_string_contents_eq.contents_eq-law };
}

impl Member for UtcTime {
    ghost member = { value_member ⟦<UtcTimeTag as TagMarker>⟧.TAG ⟦<UtcTime as FormValue>⟧.value ⟦<UtcTime as PartialEq>⟧.eq utc_time_contents_eq.contents_eq-law };
}

impl Member for GeneralizedTime {
    ghost member = { value_member ⟦<GeneralizedTimeTag as TagMarker>⟧.TAG ⟦<GeneralizedTime as FormValue>⟧.value ⟦<GeneralizedTime as PartialEq>⟧.eq generalized_time_contents_eq.contents_eq-law };
}

impl<'a> Member for Utf8StringRef<'a> {
    ghost member = { value_member ⟦<Utf8StringTag as TagMarker>⟧.TAG ⟦<Utf8StringRef<'a> as FormValue>⟧.value ⟦<Utf8StringRef<'a> as PartialEq>⟧.eq utf8_string_ref_contents_eq.contents_eq-law };
}

impl Member for BmpString {
    ghost member = { value_member ⟦<BmpStringTag as TagMarker>⟧.TAG ⟦<BmpString as FormValue>⟧.value ⟦<BmpString as PartialEq>⟧.eq bmp_string_contents_eq.contents_eq-law };
}

impl<'a> Member for GeneralStringOctets<'a> {
    ghost member = { value_member ⟦<GeneralStringTag as TagMarker>⟧.TAG ⟦<GeneralStringOctets<'a> as FormValue>⟧.value ⟦<GeneralStringOctets<'a> as PartialEq>⟧.eq general_string_octets_contents_eq.contents_eq-law };
}

impl<'a> Member for SequenceRef<'a> {
    ghost member = { value_member ⟦<SequenceTag as TagMarker>⟧.TAG ⟦<SequenceRef<'a> as FormValue>⟧.value ⟦<SequenceRef<'a> as PartialEq>⟧.eq sequence_ref_contents_eq.contents_eq-law };
}

impl<'a, const MAX_SIZE: usize> Member for ObjectIdentifierRef<'a, MAX_SIZE> {
    ghost member = { value_member ⟦<ObjectIdentifierTag as TagMarker>⟧.TAG ⟦<ObjectIdentifierRef<'a, MAX_SIZE> as FormValue>⟧.value ⟦<ObjectIdentifierRef<'a, MAX_SIZE> as PartialEq>⟧.eq (λ v w one. bytes_decides v.octets.now w.octets.now) };
}

impl<const MAX_SIZE: usize> Member for ObjectIdentifier<MAX_SIZE> {
    ghost member = { value_member ⟦<ObjectIdentifierTag as TagMarker>⟧.TAG ⟦<ObjectIdentifier<MAX_SIZE> as FormValue>⟧.value ⟦<ObjectIdentifier<MAX_SIZE> as PartialEq>⟧.eq (λ v w one. bytes_decides (take v.count v.octets) (take w.count w.octets)) };
}

impl<'a, const NUMBER: u8> Member for CharacterStringRef<'a, NUMBER> {
    ghost member = { value_member ⟦<CharacterStringTag<NUMBER> as TagMarker>⟧.TAG ⟦<CharacterStringRef<'a, NUMBER> as FormValue>⟧.value ⟦<CharacterStringRef<'a, NUMBER> as PartialEq>⟧.eq (λ v w one. bytes_decides v.text.now w.text.now) };
}

impl<const NUMBER: u8> Member for CharacterString<NUMBER> {
    ghost member = { value_member ⟦<CharacterStringTag<NUMBER> as TagMarker>⟧.TAG ⟦<CharacterString<NUMBER> as FormValue>⟧.value ⟦<CharacterString<NUMBER> as PartialEq>⟧.eq (λ v w one. bytes_decides (string_bytes v.text) (string_bytes w.text)) };
}

impl<'a> Choosing for AnyRef<'a> {
    ghost choice = { value_choice ⟦<AnyRef<'a> as Form>⟧ ⟦<AnyRef<'a> as PartialEq>⟧.eq
        (own_tags ⟦<AnyRef<'a> as Form>⟧.tags ⟦<AnyRef<'a> as Form>⟧.first_tag_of ⟦<AnyRef<'a> as Form>⟧.encoding ⟦<AnyRef<'a> as Tagged>⟧.tag_of ⟦<AnyRef<'a> as FormValue>⟧.value.contents
        any_ref_tagged.encoding_is-law any_ref_tagged.own_tag-law any_ref_tagged.first_tag_is-law)
        any_ref_encoding_eq.encoding_eq-law };
}

impl Choosing for Any {
    ghost choice = { value_choice ⟦<Any as Form>⟧ ⟦<Any as PartialEq>⟧.eq
        (own_tags ⟦<Any as Form>⟧.tags ⟦<Any as Form>⟧.first_tag_of ⟦<Any as Form>⟧.encoding ⟦<Any as Tagged>⟧.tag_of ⟦<Any as FormValue>⟧.value.contents
        any_tagged.encoding_is-law any_tagged.own_tag-law any_tagged.first_tag_is-law)
        any_encoding_eq.encoding_eq-law };
}
