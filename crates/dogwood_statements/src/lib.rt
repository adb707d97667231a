// The layout of a statement, and of a whole file.
// An inner crate: the crates above it have established what its functions ask.
#![tactic(auto)]

mod file;

pub use file::top_level_items;
