//! Words: the comparison of two words by asking a lent comparer, and the counter that is lent most often.
#![tactic(auto)]

pub mod comparer;
pub mod comparison;
