// What the programs share.
#![tactic(auto)]

mod input;
mod output;
mod records;
mod source;
mod words;

pub use input::{ended, next_part, open_arg, read_part, read_whole, within};
pub use output::{put_answer, put_line, put_number, put_pair, put_text};
pub use records::{read_words, replay};
pub use source::{letters, read_source};
pub use words::{take_words, word};
