//! Tests of the messages, of what is built of them and asked of them, of the shapes of types that no
//! message has, and of the callers in `der_examples`.
#![tactic(auto)]

#[cfg(test)]
mod tests;
