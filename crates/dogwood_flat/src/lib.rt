// A run on one line: how wide it is, and its bytes.
// An inner crate: the crates above it have established what its functions ask.
#![tactic(auto)]

mod shown;
mod span;

pub use shown::{flat, put_closing, put_token};
pub use span::measure;
