//! The tests of each program, and the examples that open the sources of its crates.

mod certview;
mod derview;
mod examples;
