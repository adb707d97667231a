// The layout of a run: its groups stay flat, or are broken into items, which are laid out in turn.
// An inner crate: the crates above it have established what its functions ask.
#![tactic(auto)]

mod lay;

pub use lay::lay_out;
