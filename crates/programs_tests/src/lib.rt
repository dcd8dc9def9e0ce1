//! Tests of what the programs `derview` and `certview` do.
#![tactic(auto)]

#[cfg(test)]
mod tests;
