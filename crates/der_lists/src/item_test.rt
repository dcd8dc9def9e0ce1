//! Tests of items.

ghost use Rattle.std.specs.Prelude.{◌≡◌, Bool};

use der_elem::Form;

/// A test of an item, which depends only on its encoding: items with equal encodings have equal
/// results.
pub trait ItemTest<T: Form> {
    ghost passes: { Self → T → Bool };

    /// Returns whether an item passes.
    fn passes(&self, item: &T) -> bool
        ensures { result ≡ Self.passes self.now item.now };

    ghost respects: { (p : Self) (v w : T) → T.Form.encoding v ≡ T.Form.encoding w → Self.passes p v ≡ Self.passes p w };
}
