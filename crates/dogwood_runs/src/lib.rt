// The shape of a run of a table's tokens: its ends without white space, its groups and its items.
// An inner crate: the crates above it have established what its functions ask.
#![tactic(auto)]

mod entries;
mod parts;
mod run;
mod table;

pub use entries::Entries;
pub use parts::{Run, Separator};
pub use run::{filled, item_end, item_end_by, lead, piece_end, split_items, trimmed};
pub use table::entry_at;
