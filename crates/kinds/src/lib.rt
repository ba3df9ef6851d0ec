//! Kinds of symbol: what a kind owes, and the two kinds that are delivered, letters and pen elements.
#![tactic(auto)]

pub mod kind;
pub mod letter;
pub mod pen;
