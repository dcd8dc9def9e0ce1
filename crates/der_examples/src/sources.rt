//! A source that a user defines, which all readers accept.

ghost use Rattle.std.specs.Prelude.{◌≤◌, ◌<◌, ◌^◌, ◌↔◌, length, IsOk};
ghost use Rattle.der_asn1_types.specs.Decoding.{Decodes};
ghost use Rattle.der_asn1_types.specs.ReaderState.{ReaderState};

use der_asn1_types::{Cursor, Decode, EncodingRules, Error, Length, Source};
use std::alloc::Global;

/// A source that knows the furthest position that was read, even if reading went back since.
#[derive(Drop)]
pub struct Watched<'a> {
    octets: &'a [u8],
    cursor: Cursor,
    furthest: u32,
    ghost short: { length octets.now < 2 ^ 32 },
    ghost ordered: { cursor.position ≤ cursor.end },
    ghost inside: { cursor.end ≤ length octets.now },
    ghost reached: { cursor.position ≤ furthest },
}

impl<'a> Watched<'a> {
    /// Makes a source of all of the octets, under DER.
    ///
    /// # Errors
    /// `ErrorKind::Overflow` (9) for more than 4294967295 octets.
    pub fn new(octets: &'a [u8]) -> Result<Watched<'a>, Error>
        ensures { IsOk result ↔ (length octets.now < 2 ^ 32) }
    {
        match Length::of(octets.len()) {
            Ok(len) => Ok(Watched {
                octets,
                cursor: Cursor {
                    position: 0,
                    end: len.value(),
                    failed: false,
                    rules: EncodingRules::Der,
                },
                furthest: 0,
            }),
            Err(e) => Err(e),
        }
    }

    /// Returns the furthest position so far.
    pub fn furthest(&self) -> u32
        ensures { (⟦<Watched<'a> as Source<'a>>⟧.state self.now).position ≤ result }
    {
        self.furthest
    }
}

impl<'a> Source<'a> for Watched<'a> {
    ghost state = { λ s. record { input = s.octets.now; position = s.cursor.position; end = s.cursor.end; failed = s.cursor.failed; rules = s.cursor.rules } };

    ghost sound = { λ s. record { ordered = s.ordered; inside = s.inside; short = s.short } };

    fn octets(&self) -> &'a [u8] {
        self.octets
    }

    fn cursor(&self) -> Cursor {
        self.cursor
    }

    fn set_cursor(&mut self, cursor: Cursor) {
        self.cursor = cursor;
        self.furthest = self.furthest.max(cursor.position);
    }
}

/// Reads a value of any type from the source.
///
/// # Errors
/// The errors of `Decode::decode` of the type.
pub fn read_watched<'a, T: Decode<'a, Watched<'a>>>(
    alloc: Global,
    source: &mut Watched<'a>,
) -> Result<T, Error>
    ensures { Decodes T.Form (⟦<Watched<'a> as Source<'a>>⟧.state source.old)
        (⟦<Watched<'a> as Source<'a>>⟧.state source.new) result }
{
    T::decode(alloc, source)
}
