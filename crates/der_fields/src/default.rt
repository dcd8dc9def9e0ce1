//! DEFAULT: the value of an absent field (X.680 25.9, X.690 11.5).
//!
//! A type names a default: `DefaultFalse` is the default of `BOOLEAN DEFAULT FALSE`, and
//! `DefaultNumber<0>` that of `INTEGER DEFAULT 0`. Both are also defaults of a field with a tag,
//! such as a version `[0] EXPLICIT INTEGER DEFAULT v1`.

ghost use Rattle.std.specs.Prelude.{◌≡◌, List, ℕ, true, false};
ghost use Rattle.der_tlv.specs.HeaderOctets.{tlv};
ghost use Rattle.der_tlv.specs.declared.tag.Tag.TheVariants as tags;
ghost use Rattle.der_elem.specs.Boolean.{boolean_contents};
ghost use Rattle.der_elem.specs.Integer.{natural_contents};
ghost use Rattle.der_fields.specs.MarkerTags.{marker_tag};
ghost use Rattle.der_fields.specs.Defaults.{is_default};

use crate::end::End;
use crate::explicit::ExplicitIn;
use crate::field::Field;
use crate::implicit::ImplicitIn;
use der_elem::Form;

/// The default value of a field, named by a type.
pub trait DefaultOf<T: Form> {
    // the default's own encoding
    ghost octets: { List ℕ };

    /// Returns the default.
    fn default_value() -> T
        ensures encoding { T.encoding result ≡ octets }
        ensures readable { T.readable result };

    /// Returns whether the value is the default.
    fn is_default(value: &T) -> bool
        ensures { result ≡ is_default octets (T.encoding value.now) };
}

/// The default of `BOOLEAN DEFAULT FALSE`.
pub struct DefaultFalse;

impl DefaultOf<bool> for DefaultFalse {
    ghost octets = { tlv tags.Boolean (boolean_contents false) };

    fn default_value() -> bool {
        false
    }

    fn is_default(value: &bool) -> bool {
        !*value
    }
}

impl<const CLASS: u8, const NUMBER: u32> DefaultOf<ImplicitIn<bool, CLASS, NUMBER>>
    for DefaultFalse {
    ghost octets = { tlv (marker_tag CLASS false NUMBER) (boolean_contents false) };

    fn default_value() -> ImplicitIn<bool, CLASS, NUMBER> {
        ImplicitIn { value: false }
    }

    fn is_default(value: &ImplicitIn<bool, CLASS, NUMBER>) -> bool {
        !value.value
    }
}

/// The default of `INTEGER DEFAULT NUMBER`, for numbers up to 255.
pub struct DefaultNumber<const NUMBER: u8>;

impl<const NUMBER: u8> DefaultOf<u8> for DefaultNumber<NUMBER> {
    ghost octets = { tlv tags.Integer (natural_contents NUMBER) };

    fn default_value() -> u8 {
        NUMBER
    }

    fn is_default(value: &u8) -> bool {
        *value == NUMBER
    }
}

impl<const DEFAULT: u8, const CLASS: u8, const NUMBER: u32> DefaultOf<ImplicitIn<u8, CLASS, NUMBER>>
    for DefaultNumber<DEFAULT> {
    ghost octets = { tlv (marker_tag CLASS false NUMBER) (natural_contents DEFAULT) };

    fn default_value() -> ImplicitIn<u8, CLASS, NUMBER> {
        ImplicitIn { value: DEFAULT }
    }

    fn is_default(value: &ImplicitIn<u8, CLASS, NUMBER>) -> bool {
        value.value == DEFAULT
    }
}

impl<T: Form, D: DefaultOf<T>, const CLASS: u8, const NUMBER: u32> DefaultOf<
    ExplicitIn<Field<T, End>, CLASS, NUMBER>,
> for D {
    ghost octets = { tlv (marker_tag CLASS true NUMBER) D.octets };

    fn default_value() -> ExplicitIn<Field<T, End>, CLASS, NUMBER> {
        let first = D::default_value();
        let fields = Field { first, rest: End };
        ExplicitIn { fields }
    }

    fn is_default(value: &ExplicitIn<Field<T, End>, CLASS, NUMBER>) -> bool {
        D::is_default(&value.fields.first)
    }
}
