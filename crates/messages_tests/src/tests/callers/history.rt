//! A set after calls of several kinds.

use crate::tests::{holds, numbered};
use der_examples::set_of_three_calls;
use std::test::Fail;

#[test]
fn a_set_after_three_calls(rt: HostRuntime) -> Result<(), Fail> {
    let set = numbered(set_of_three_calls(rt.alloc(), [9u16, 4, 9], 7, 11))?;
    holds(&rt, set.as_slice() == [4, 7, 9, 9, 11].as_slice());
    Ok(())
}
