//! What an entry table has at one place, and how a search compares a sought word with the entry there.
#![tactic(auto)]

pub mod search;
pub mod slot;
