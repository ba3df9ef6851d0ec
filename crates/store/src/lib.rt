//! The tree of a dictionary in lent memory: the entry table and the words of the strip, the lookup over both, adding an entry, and a word's neighbours.
//! A walk needs memory in which a tree of places stands. `Store` keeps that in its type, and its calls ask nothing.
//! A place is widened to an index by `as`: the check reads that as the place itself, where `usize::from` leaves an equation at each index.
#![tactic(auto)]

mod attach;
pub mod entry;
pub mod lookup;
pub mod memory;
mod neighbour;
pub mod store;
mod strip;
mod unzip;
mod writes;
