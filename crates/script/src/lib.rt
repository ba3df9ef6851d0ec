//! The language of the console's scripts: numbers, bytes in hexadecimal, words of symbols, and commands.
//! What allocates takes the allocator beside its text, as the library's own calls do.
#![tactic(auto)]

pub mod command;
pub mod error;
pub mod symbol;
#[cfg(test)]
mod tests;
pub mod text;
