// Where a run of characters of a class ends, and where a string does.
#![tactic(auto)]

mod classes;
mod runs;
mod strings;

pub use classes::{Class, Digit, Line, Other, Space, Word};
pub use runs::take_while;
pub use strings::string_end;
