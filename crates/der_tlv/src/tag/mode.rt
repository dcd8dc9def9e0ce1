//! The ways to add a tag to a type.

/// The way in which a tag is added to a type (X.680 31.2).
#[derive(Clone, Copy, Debug, Default, PartialEq, Eq, PartialOrd, Ord, Hash)]
pub enum TagMode {
    /// Around the whole encoding.
    #[default]
    Explicit,
    /// In place of the type's own tag.
    Implicit,
}
