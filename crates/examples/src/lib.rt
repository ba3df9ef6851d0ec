//! Examples: a second comparer beside the counter, and tests at the borders of the rules.
#![tactic(auto)]

pub mod remembering;
#[cfg(test)]
mod tests;
