//! The class of a tag.

/// The class of a tag: bits 8 and 7 of the first identifier octet (X.690 8.1.2.2).
#[derive(Clone, Copy, Debug, PartialEq, Eq, PartialOrd, Ord, Hash)]
pub enum Class {
    /// 00: the types of the standard.
    Universal,
    /// 01: types of one application.
    Application,
    /// 10: fields of one type.
    ContextSpecific,
    /// 11: types of one enterprise.
    Private,
}
