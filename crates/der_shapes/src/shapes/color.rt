//! Color, an ENUMERATED of 3 names.
//!
//! Made by tools/asn1 from shapes.asn1.

ghost use Rattle.std.specs.Prelude.{◌≡◌};
ghost use Rattle.der_modules.specs.Asn1.{parse_of};
ghost use Rattle.der_shapes.specs.Shapes.Color.{names_of_color};
ghost use Rattle.der_shapes.specs.Shapes.Grammar.{color};

use der_elem::Form;
use der_numbers::{Enumerated, EnumeratedTag, Enumeration};

/// ```text
/// Color ::= ENUMERATED { red(0), green(1), blue(2) }
/// ```
///
/// In a message it stands as `Enumerated<Color>`. A number without a name is refused
/// (`ErrorKind::Value`, 13).
#[derive(Clone, Copy, Debug, PartialEq, Eq)]
pub enum Color {
    /// `red` (0).
    Red,
    /// `green` (1).
    Green,
    /// `blue` (2).
    Blue,
}

impl Enumeration for Color {
    type Marker = EnumeratedTag;

    ghost names = { names_of_color };

    fn number(self) -> i64 {
        match self {
            Color::Red => 0,
            Color::Green => 1,
            Color::Blue => 2,
        }
    }

    fn of_number(number: i64) -> Option<Color> {
        match number {
            0 => Some(Color::Red),
            1 => Some(Color::Green),
            2 => Some(Color::Blue),
            _ => None,
        }
    }
}

/// What is read as `Color` is what the grammar page says.
pub fn grammar_of_color()
    ensures { ⟦<Enumerated<Color> as Form>⟧.parse ≡ parse_of color }
{}
