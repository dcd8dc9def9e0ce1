//! Names of fields.

use certview_text::FieldName;
use std::test::Fail;

/// Each field is found by its name. No two names are equal, and they are in the order of the
/// fields.
#[test]
fn each_field_has_a_name_of_its_own(rt: HostRuntime) -> Result<(), Fail> {
    for (index, name) in FieldName::names(rt.alloc())?.iter().enumerate() {
        let field = FieldName::with_name(*name).ok_or("a name of no field")?;
        assert_eq!(rt; field as usize, index, "{name}");
        assert_eq!(rt; field.name(), *name);
    }
    assert_eq!(rt; FieldName::with_name("signature algorithm"), None);
    Ok(())
}
