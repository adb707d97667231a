// The words of a token table and of an outline, read in place: rows, brackets, walks over rows, records.
#![tactic(auto)]

mod brackets;
mod records;
mod rows;
mod walks;

pub use brackets::{closes, is_and_or, is_comma, opens};
pub use records::{Record, record_at};
pub use rows::{Row, row_at, skip};
pub use walks::{Walked, gap, part};
