//! Values that are shown and are none of their type, NULLs with contents octets, and keys that have no
//! size of a key: what is shown of them, and that it is told.

use crate::tests::certview::{assert_contains, written};
use certview_text::Outcome;
use std::alloc::Global;
use std::process::Abort;
use std::test::Fail;

/// Asserts that a line is shown for octets, and whether a part of them is invalid for its type.
pub fn assert_shown(
    rt: &impl Abort,
    alloc: Global,
    digits: &str,
    line: &str,
    outcome: Outcome,
) -> Result<(), Fail> {
    let octets = hex::decode(alloc, digits)?;
    let (result, text) = written(alloc, octets.as_slice());
    assert_eq!(rt; result, Ok(outcome), "{line}");
    assert_contains(rt, str::from_utf8(text.as_slice())?, line);
    Ok(())
}

#[test]
fn tells_a_null_with_contents(rt: HostRuntime) -> Result<(), Fail> {
    for (digits, line) in [
        (
            "3010300906032b65700502dead0303000102",
            "    2    11  key algorithm: 1.3.101.112 (Ed25519), parameters malformed (7: contents of a length that NULL does not have) at position 11\n",
        ),
        (
            "300d300806032b65700501ff04016b",
            "    2    10  encryption algorithm: 1.3.101.112 (Ed25519), malformed (7: contents of a length that NULL does not have) at position 11\n",
        ),
    ] {
        assert_shown(&rt, rt.alloc(), digits, line, Outcome::Partial)?;
    }
    Ok(())
}

#[test]
fn tells_keys_of_no_size(rt: HostRuntime) -> Result<(), Fail> {
    for (digits, line) in [
        (
            "300f300506032b65700306000102030405",
            "    9     8  key: malformed (13: 5 octets, which are no key of the algorithm) at position 17, 0102030405\n",
        ),
        (
            "3023301306072a8648ce3d020106082a8648ce3d030107030c00040102030405060708090a",
            "   23    14  key: malformed (13: 11 octets, which are no point of the curve) at position 37, 040102030405060708090a\n",
        ),
    ] {
        assert_shown(&rt, rt.alloc(), digits, line, Outcome::Partial)?;
    }
    Ok(())
}

#[test]
fn notes_what_is_no_identifier(rt: HostRuntime) -> Result<(), Fail> {
    for (digits, line, outcome) in [
        (
            "300b300406022b800303000102",
            "    2     6  key algorithm: #2b80\n",
            Outcome::Partial,
        ),
        (
            "300c300506032b80010303000102",
            "    2     7  key algorithm: #2b8001\n",
            Outcome::Partial,
        ),
        (
            "300b300406022b010303000102",
            "    2     6  key algorithm: 1.3.1\n",
            Outcome::Whole,
        ),
    ] {
        assert_shown(&rt, rt.alloc(), digits, line, outcome)?;
    }
    Ok(())
}
