//! Type aliases of Shapes.
//!
//! Made by tools/asn1 from shapes.asn1.

ghost use Rattle.std.specs.Prelude.{◌≡◌};
ghost use Rattle.der_modules.specs.Asn1.{parse_of};
ghost use Rattle.der_shapes.specs.Shapes.Grammar.{code, level, small};

use der_ascii::PrintableStringRef;
use der_constrained::{
    CharacterRange, CharacterUnion, Constrained, HasCharacters, HasSize, InRange, IntersectionOf,
};
use der_elem::Form;

/// ```text
/// Small ::= INTEGER (-5..10)
/// ```
pub type Small = Constrained<i8, InRange<-5, 10>>;

/// What is read as `Small` is what the grammar page says.
pub fn grammar_of_small()
    ensures { ⟦<Small as Form>⟧.parse ≡ parse_of small }
{}

/// ```text
/// Code ::= PrintableString (SIZE (2..3)) (FROM ("A".."Z" | "0".."9"))
/// ```
pub type Code<'a> = Constrained<
    PrintableStringRef<'a>,
    IntersectionOf<
        HasSize<2, 3>,
        HasCharacters<CharacterUnion<CharacterRange<48, 57>, CharacterRange<65, 90>>>,
    >,
>;

/// What is read as `Code` is what the grammar page says.
pub fn grammar_of_code<'a>()
    ensures { ⟦<Code<'a> as Form>⟧.parse ≡ parse_of code }
{}

/// ```text
/// Level ::= INTEGER { low(-1), high(300) }
/// ```
///
/// A number outside -32768..32767 is refused: the names alone say how wide the type is.
pub type Level = i16;

/// What is read as `Level` is what the grammar page says.
pub fn grammar_of_level()
    ensures { ⟦<Level as Form>⟧.parse ≡ parse_of level }
{}

/// `low` of `Level`.
pub const LEVEL_LOW: i16 = -1;

/// `high` of `Level`.
pub const LEVEL_HIGH: i16 = 300;
