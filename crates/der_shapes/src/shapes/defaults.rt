//! The defaults of Shapes, each named by a type (X.680 25.9, X.690 11.5).
//!
//! Made by tools/asn1 from shapes.asn1.

ghost use Rattle.std.specs.Prelude.{◌<◌, ◌^◌, ◌∷◌, ◌≡◌, ◌≤◌, [], false, length, negsuc, pos, slice_index, true};
ghost use Rattle.der_ascii.specs.CharacterStringRef as character_string_ref;
ghost use Rattle.der_ascii.specs.Characters.{are_characters};
ghost use Rattle.der_bits.specs.BitString.{is_bit_string};
ghost use Rattle.der_bits.specs.BitStringRef as bit_string_ref;
ghost use Rattle.der_elem.specs.Boolean.{boolean_contents};
ghost use Rattle.der_elem.specs.Integer.{big_endian_number, integer_contents, natural_contents, twos_complement};
ghost use Rattle.der_fields.specs.Defaults.{is_default};
ghost use Rattle.der_fields.specs.MarkerTags.{marker_tag};
ghost use Rattle.der_modules.specs.Asn1.{context};
ghost use Rattle.der_numbers.specs.IntRef as int_ref;
ghost use Rattle.der_numbers.specs.UintRef as uint_ref;
ghost use Rattle.der_opaque.specs.ObjectIdentifierRef as identifier_ref;
ghost use Rattle.der_opaque.specs.OctetStringRef as octet_string_ref;
ghost use Rattle.der_text.specs.Utf8StringRef as utf8_string_ref;
ghost use Rattle.der_tlv.specs.HeaderOctets.{tlv};
ghost use Rattle.der_tlv.specs.declared.tag.Tag.TheVariants as tags;

use crate::shapes::color::Color;
use der_ascii::{CharacterStringRef, Ia5StringRef, PrintableStringRef};
use der_bits::BitStringRef;
use der_elem::EncodingEq;
use der_elem::laws::equal_encodings;
use der_fields::{DefaultOf, Implicit};
use der_numbers::{Enumerated, IntRef, UintRef};
use der_opaque::{Null, ObjectIdentifierRef, OctetStringRef};
use der_text::Utf8StringRef;

/// The default TRUE.
pub struct DefaultTrue;

impl DefaultOf<bool> for DefaultTrue {
    ghost octets = { tlv tags.Boolean (boolean_contents true) };

    fn default_value() -> bool {
        true
    }

    fn is_default(value: &bool) -> bool {
        let default = <DefaultTrue as DefaultOf<bool>>::default_value();
        have_one_encoding(value, &default)
    }
}

/// The default 8080.
pub struct Default8080;

impl DefaultOf<u16> for Default8080 {
    ghost octets = { tlv tags.Integer (natural_contents 8080) };

    fn default_value() -> u16 {
        8080
    }

    fn is_default(value: &u16) -> bool {
        let default = <Default8080 as DefaultOf<u16>>::default_value();
        have_one_encoding(value, &default)
    }
}

/// The default -1.
pub struct DefaultMinus1;

impl DefaultOf<Implicit<i8, 0>> for DefaultMinus1 {
    ghost octets = { tlv (marker_tag context false 0) (integer_contents (negsuc 0)) };

    fn default_value() -> Implicit<i8, 0> {
        Implicit { value: -1 }
    }

    fn is_default(value: &Implicit<i8, 0>) -> bool {
        let default = <DefaultMinus1 as DefaultOf<Implicit<i8, 0>>>::default_value();
        have_one_encoding(value, &default)
    }
}

/// The default 300.
pub struct Default300;

impl DefaultOf<i16> for Default300 {
    ghost octets = { tlv tags.Integer (integer_contents (pos 300)) };

    fn default_value() -> i16 {
        300
    }

    fn is_default(value: &i16) -> bool {
        let default = <Default300 as DefaultOf<i16>>::default_value();
        have_one_encoding(value, &default)
    }
}

/// The default -40000.
pub struct DefaultMinus40000;

impl<'a> DefaultOf<Implicit<IntRef<'a>, 2>> for DefaultMinus40000 {
    ghost octets = { tlv (marker_tag context false 2) (integer_contents (negsuc 39999)) };

    fn default_value() -> Implicit<IntRef<'a>, 2> {
        Implicit {
            value: integer(&[0xff, 0x63, 0xc0]),
        }
    }

    fn is_default(value: &Implicit<IntRef<'a>, 2>) -> bool {
        let default = <DefaultMinus40000 as DefaultOf<Implicit<IntRef<'a>, 2>>>::default_value();
        have_one_encoding(value, &default)
    }
}

/// The default 200.
pub struct Default200;

impl<'a> DefaultOf<Implicit<UintRef<'a>, 3>> for Default200 {
    ghost octets = { tlv (marker_tag context false 3) (natural_contents 200) };

    fn default_value() -> Implicit<UintRef<'a>, 3> {
        Implicit {
            value: natural(&[0x00, 0xc8]),
        }
    }

    fn is_default(value: &Implicit<UintRef<'a>, 3>) -> bool {
        let default = <Default200 as DefaultOf<Implicit<UintRef<'a>, 3>>>::default_value();
        have_one_encoding(value, &default)
    }
}

/// The default NULL.
pub struct DefaultNull;

impl DefaultOf<Null> for DefaultNull {
    ghost octets = { tlv tags.Null [] };

    fn default_value() -> Null {
        Null
    }

    fn is_default(value: &Null) -> bool {
        let default = <DefaultNull as DefaultOf<Null>>::default_value();
        have_one_encoding(value, &default)
    }
}

/// The default of `color` of `Counted`, `Color DEFAULT green`.
pub struct DefaultOfCountedColor;

impl DefaultOf<Enumerated<Color>> for DefaultOfCountedColor {
    ghost octets = { tlv tags.Enumerated (integer_contents (pos 1)) };

    fn default_value() -> Enumerated<Color> {
        Enumerated {
            value: Color::Green,
        }
    }

    fn is_default(value: &Enumerated<Color>) -> bool {
        let default = <DefaultOfCountedColor as DefaultOf<Enumerated<Color>>>::default_value();
        have_one_encoding(value, &default)
    }
}

/// The default of `name` of `Described`, `UTF8String DEFAULT "none"`.
pub struct DefaultOfDescribedName;

impl<'a> DefaultOf<Utf8StringRef<'a>> for DefaultOfDescribedName {
    ghost octets = { tlv tags.Utf8String (110 ∷ 111 ∷ 110 ∷ 101 ∷ []) };

    fn default_value() -> Utf8StringRef<'a> {
        utf8_string("none")
    }

    fn is_default(value: &Utf8StringRef<'a>) -> bool {
        let default = <DefaultOfDescribedName as DefaultOf<Utf8StringRef<'a>>>::default_value();
        have_one_encoding(value, &default)
    }
}

/// The default of `place` of `Described`, `PrintableString DEFAULT ""`.
pub struct DefaultOfDescribedPlace;

impl<'a> DefaultOf<PrintableStringRef<'a>> for DefaultOfDescribedPlace {
    ghost octets = { tlv tags.PrintableString [] };

    fn default_value() -> PrintableStringRef<'a> {
        character_string::<19>(&[])
    }

    fn is_default(value: &PrintableStringRef<'a>) -> bool {
        let default = <DefaultOfDescribedPlace as DefaultOf<
            PrintableStringRef<'a>,
        >>::default_value();
        have_one_encoding(value, &default)
    }
}

/// The default of `mail` of `Described`, `[0] IA5String DEFAULT "a@b"`.
pub struct DefaultOfDescribedMail;

impl<'a> DefaultOf<Implicit<Ia5StringRef<'a>, 0>> for DefaultOfDescribedMail {
    ghost octets = { tlv (marker_tag context false 0) (97 ∷ 64 ∷ 98 ∷ []) };

    fn default_value() -> Implicit<Ia5StringRef<'a>, 0> {
        Implicit {
            value: character_string::<22>(&[0x61, 0x40, 0x62]),
        }
    }

    fn is_default(value: &Implicit<Ia5StringRef<'a>, 0>) -> bool {
        let default = <DefaultOfDescribedMail as DefaultOf<
            Implicit<Ia5StringRef<'a>, 0>,
        >>::default_value();
        have_one_encoding(value, &default)
    }
}

/// The default of `key` of `Described`, `OCTET STRING DEFAULT '00FF'H`.
pub struct DefaultOfDescribedKey;

impl<'a> DefaultOf<OctetStringRef<'a>> for DefaultOfDescribedKey {
    ghost octets = { tlv tags.OctetString (0 ∷ 255 ∷ []) };

    fn default_value() -> OctetStringRef<'a> {
        octet_string(&[0x00, 0xff])
    }

    fn is_default(value: &OctetStringRef<'a>) -> bool {
        let default = <DefaultOfDescribedKey as DefaultOf<OctetStringRef<'a>>>::default_value();
        have_one_encoding(value, &default)
    }
}

/// The default of `bits` of `Described`, `BIT STRING DEFAULT '101'B`.
pub struct DefaultOfDescribedBits;

impl<'a> DefaultOf<BitStringRef<'a>> for DefaultOfDescribedBits {
    ghost octets = { tlv tags.BitString (5 ∷ 160 ∷ []) };

    fn default_value() -> BitStringRef<'a> {
        bit_string(5, &[0xa0])
    }

    fn is_default(value: &BitStringRef<'a>) -> bool {
        let default = <DefaultOfDescribedBits as DefaultOf<BitStringRef<'a>>>::default_value();
        have_one_encoding(value, &default)
    }
}

/// The default of `type` of `Described`, `OBJECT IDENTIFIER DEFAULT { iso (1) member-body (2) us
/// (840) }`.
pub struct DefaultOfDescribedType;

impl<'a> DefaultOf<ObjectIdentifierRef<'a, 39>> for DefaultOfDescribedType {
    ghost octets = { tlv tags.ObjectIdentifier (42 ∷ 134 ∷ 72 ∷ []) };

    fn default_value() -> ObjectIdentifierRef<'a, 39> {
        identifier::<39>(&[0x2a, 0x86, 0x48])
    }

    fn is_default(value: &ObjectIdentifierRef<'a, 39>) -> bool {
        let default = <DefaultOfDescribedType as DefaultOf<
            ObjectIdentifierRef<'a, 39>,
        >>::default_value();
        have_one_encoding(value, &default)
    }
}

/// The default of `color` of `Described`, `[4] Color DEFAULT blue`.
pub struct DefaultOfDescribedColor;

impl DefaultOf<Implicit<Enumerated<Color>, 4>> for DefaultOfDescribedColor {
    ghost octets = { tlv (marker_tag context false 4) (integer_contents (pos 2)) };

    fn default_value() -> Implicit<Enumerated<Color>, 4> {
        Implicit {
            value: Enumerated { value: Color::Blue },
        }
    }

    fn is_default(value: &Implicit<Enumerated<Color>, 4>) -> bool {
        let default = <DefaultOfDescribedColor as DefaultOf<
            Implicit<Enumerated<Color>, 4>,
        >>::default_value();
        have_one_encoding(value, &default)
    }
}

/// The INTEGER of any length with these contents octets.
#[tactic(auto, using(crate::specs::Shapes::DefaultLaws::integer_within))]
fn integer(octets: &[u8]) -> IntRef<'_>
    requires some { 0 < length octets.now }
    requires short { length octets.now < 2 ^ 32 }
    ensures { int_ref.contents_of result ≡ integer_contents (twos_complement octets.now) }
{
    match IntRef::new(octets) {
        Ok(value) => value,
        Err(_) => unreachable!(),
    }
}

/// The INTEGER that is not negative with these contents octets.
#[tactic(auto, using(crate::specs::Shapes::DefaultLaws::natural_within))]
fn natural(octets: &[u8]) -> UintRef<'_>
    requires some { 0 < length octets.now }
    requires short { length octets.now < 2 ^ 32 }
    requires positive { slice_index octets.now 0 < 128 }
    ensures { uint_ref.contents_of result ≡ natural_contents (big_endian_number octets.now) }
{
    match UintRef::new(octets) {
        Ok(value) => value,
        Err(_) => unreachable!(),
    }
}

/// The UTF8String of this text.
fn utf8_string(text: &str) -> Utf8StringRef<'_>
    requires short { length text.now < 2 ^ 32 }
    ensures { utf8_string_ref.octets_of result ≡ text.now }
{
    match Utf8StringRef::try_from(text) {
        Ok(value) => value,
        Err(_) => unreachable!(),
    }
}

/// The string of these characters, of the type with this universal number.
fn character_string<const NUMBER: u8>(octets: &[u8]) -> CharacterStringRef<'_, NUMBER>
    requires characters { are_characters NUMBER octets.now ≡ true }
    requires short { length octets.now < 2 ^ 32 }
    ensures { character_string_ref.octets_of result ≡ octets.now }
{
    match CharacterStringRef::new(octets) {
        Ok(value) => value,
        Err(_) => unreachable!(),
    }
}

/// The OCTET STRING of these octets.
fn octet_string(octets: &[u8]) -> OctetStringRef<'_>
    requires short { length octets.now < 2 ^ 32 }
    ensures { octet_string_ref.octets_of result ≡ octets.now }
{
    match OctetStringRef::new(octets) {
        Ok(value) => value,
        Err(_) => unreachable!(),
    }
}

/// The BIT STRING of these octets, of whose last so many bits are unused.
fn bit_string(unused: u8, octets: &[u8]) -> BitStringRef<'_>
    requires bits { is_bit_string unused octets.now ≡ true }
    requires short { length octets.now < 2 ^ 32 }
    ensures { bit_string_ref.contents_of result ≡ unused ∷ octets.now }
{
    match BitStringRef::new(unused, octets) {
        Ok(value) => value,
        Err(_) => unreachable!(),
    }
}

/// The OBJECT IDENTIFIER with these contents octets.
fn identifier<const MAX_SIZE: usize>(octets: &[u8]) -> ObjectIdentifierRef<'_, MAX_SIZE>
    requires some { 0 < length octets.now }
    requires few { length octets.now ≤ MAX_SIZE }
    requires short { length octets.now < 2 ^ 32 }
    ensures { identifier_ref.octets_of result ≡ octets.now }
{
    match ObjectIdentifierRef::from_bytes(octets) {
        Ok(value) => value,
        Err(_) => unreachable!(),
    }
}

/// Whether two values have one encoding: where they can be compared, their equality says so.
#[tactic(auto, using(crate::specs::Shapes::DefaultLaws::told_by_equality))]
fn have_one_encoding<T: EncodingEq>(value: &T, default: &T) -> bool
    requires { T.comparable value.now default.now }
    ensures { result ≡ is_default (T.encoding default.now) (T.encoding value.now) }
{
    equal_encodings::<T>();
    *value == *default
}
