// What answers 2, 3 and 5 look for in a token table.
#![tactic(auto)]

mod searches;

pub use searches::{deep_opener, first_comment, nothing_there};
