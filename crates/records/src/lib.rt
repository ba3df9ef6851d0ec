//! Records: reading and writing one record of a sheet at a byte place.
//! The sheet and the place come apart, as the rules give them: a struct of the two would be made for one call and taken apart in it.
#![tactic(auto)]

pub mod mark;
pub mod read;
pub mod record;
pub mod write;
