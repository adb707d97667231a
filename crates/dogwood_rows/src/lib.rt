// The rows of a token table. Any words and any places get an answer.
#![tactic(auto)]

mod cursor;
mod kind;
mod parts;
mod writing;

pub use cursor::{Row, back, count, end, next};
pub use kind::Kind;
pub use parts::{between, first_rows, inside};
pub use writing::put_row;

// The words of a row.
pub const WORDS: usize = 3;
