//! What bounds a dictionary and what is refused: the ceiling and the capacity in force, and the numbered refusals.
#![tactic(auto)]

pub mod bounds;
pub mod refusal;
