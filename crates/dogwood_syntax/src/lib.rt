// The token table and tokenising alone: document 000's tokenizer on bytes and offsets.
#![tactic(auto)]

mod table;
mod tokenizing;

pub use tokenizing::{LONGEST, NotTokenized, tokenize};
