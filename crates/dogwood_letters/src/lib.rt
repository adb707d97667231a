// Classes of characters, and symbols: a test for each.
#![tactic(auto)]

mod classes;
mod symbols;

pub use classes::{is_digit, is_letter, is_line, is_other, is_space, is_word};
pub use symbols::symbol_len;
