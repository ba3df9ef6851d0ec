//! The rules of the dictionary as definitions: entries and their ranks, the held list, its tree and lengths, and what a lookup meets and compares.
//! `specs/` has what a reader must believe; `proofs/` shows, for every lawful order of symbols, that these definitions agree.
#![tactic(auto)]
