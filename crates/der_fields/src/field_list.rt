//! The meaning of the octets of a list of fields.

ghost use Rattle.der_fields.specs.FieldsFormat.{FieldsFormat};

/// The fields of a SEQUENCE, whose encodings are one after another (X.690 8.9).
///
/// `End` and `Field` are lists. A user's struct whose one member is a list may be one too
/// (`part_of` of `specs/ListMakers.antt`). So a long list is kept in parts.
pub trait FieldList: Sized + Drop {
    // the meaning of the octets of the fields
    ghost list: { FieldsFormat Self };
}
