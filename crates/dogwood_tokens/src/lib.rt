// One token at a place, by the seven rules, the cursor that walks over the tokens of a text, and its first string without end.
#![tactic(auto)]

mod cursor;
mod open;
mod token;

pub use cursor::{Cursor, Step, Token};
pub use open::first_open;
