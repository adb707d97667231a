// Tokenising alone: document 01's numbers 11, 12, 1 and 13 in that order, else the tokens.
ghost use Rattle.std.specs.Prelude.{◌≡◌, ◌≤◌, length};
ghost use Rattle.dogwood_rules.specs.Promises.{Tokenises};
ghost use Rattle.dogwood_syntax.specs.Numbers.{number, value};
ghost use Rattle.dogwood_syntax.specs.Answers.{answer, table_after};

use crate::table::{fill, shortage};
use dogwood_rows::WORDS;
use dogwood_tokens::first_open;

// How many bytes a source may have.
pub const LONGEST: usize = 1048576;

// Why a table was not filled.
#[derive(Clone, Copy, Debug, PartialEq, Eq)]
pub enum NotTokenized {
    // Where a string without end begins.
    Unended(usize),
    TooLong,
    // Where the first bad character begins.
    NotUtf8(usize),
    // How many tokens the table has no room for.
    Small(usize),
}

// The tokens of a text into a table.
fn tokenize_text(text: &[u8], table: &mut [u32]) -> Result<usize, NotTokenized>
    requires { length text.now ≤ 1048576 }
    ensures value { result ≡ answer text.now (length table.old) }
    ensures table_after { table.new ≡ table_after text.now table.old }
{
    if let Some(place) = first_open(text) {
        return Err(NotTokenized::Unended(place));
    }
    if let Some(tokens) = shortage(text, table.len() / WORDS) {
        return Err(NotTokenized::Small(tokens));
    }
    Ok(fill(text, table))
}

// The tokens of a source into a table, and how many they are; or that it is too long, is not UTF-8 or has a string without end, or that the
// table is too small, and then the table stays as it is.
pub fn tokenize(src: &[u8], table: &mut [u32]) -> Result<usize, NotTokenized>
    ensures { Tokenises src.now table.old (number result) (value result) table.new }
{
    if LONGEST < src.len() {
        return Err(NotTokenized::TooLong);
    }
    let (mark, text) = utf8::split_bom(src);
    if let Some(place) = utf8::first_bad(text) {
        return Err(NotTokenized::NotUtf8(mark.len() + place));
    }
    tokenize_text(text, table)
}
