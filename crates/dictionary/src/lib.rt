//! What buyers call: the dictionary over lent memory, the slips that its lookups cost, and the tallies that slips are posted to.
#![tactic(auto)]

pub mod dictionary;
pub mod tally;
