//! An item of a borrowed set, lent or read again.

ghost use Rattle.std.specs.Prelude.{◌≡◌};
ghost use Rattle.der_nest.specs.Found.{found_item};

/// An item that was read again, or an item of the slice.
#[derive(Drop)]
pub(crate) enum Found<'a, T> {
    Read(T),
    Lent(&'a T),
}

impl<'a, T> Found<'a, T> {
    /// Returns the item.
    pub(crate) fn item(&self) -> &T
        ensures { result.now ≡ found_item self.now }
    {
        match self {
            Found::Read(item) => item,
            Found::Lent(item) => item,
        }
    }
}
