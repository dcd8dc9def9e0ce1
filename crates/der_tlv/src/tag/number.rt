//! The number of a tag.

ghost use Rattle.std.specs.Prelude.{◌≡◌};

/// The number of a tag within its class, 0 to 4294967295.
#[derive(Clone, Copy, Debug, PartialEq, Eq, PartialOrd, Ord, Hash)]
pub struct TagNumber(pub u32);

impl TagNumber {
    /// Returns the number.
    pub const fn value(self) -> u32
        ensures { result ≡ self.0 }
    {
        self.0
    }
}
