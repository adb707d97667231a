// A walk over rows goes by places: each row is given with the place of the next. A table ends where a row is not whole.
ghost use Rattle.dogwood_rows.specs.Promises.{StepIs, BackIs, EndIs, CountIs};

use crate::WORDS;

// A token's kind, and its bounds in the text.
#[derive(Clone, Copy)]
pub struct Row {
    pub kind: u32,
    pub start: u32,
    pub end: u32,
}

// The row at a place, with the place behind it.
pub fn next(table: &[u32], at: usize) -> Option<(Row, usize)>
    ensures { StepIs table.now at result }
{
    // in this order only one test a row is left in a loop: the other two do not change there
    if table.len() < WORDS {
        return None;
    }
    if table.len() - WORDS < at {
        return None;
    }
    let row = Row {
        kind: table[at],
        start: table[at + 1],
        end: table[at + 2],
    };
    Some((row, at + WORDS))
}

// The row before a place, with its own place.
pub fn back(table: &[u32], at: usize) -> Option<(Row, usize)>
    ensures { BackIs table.now at result }
{
    let before = at.checked_sub(WORDS)?;
    let (row, _) = next(table, before)?;
    Some((row, before))
}

// The place behind the last row.
pub fn end(table: &[u32]) -> usize
    ensures { EndIs table.now result }
{
    table.len() - table.len() % WORDS
}

// How many rows stand from a place to another.
pub fn count(from: usize, to: usize) -> usize
    ensures { CountIs from to result }
{
    to.saturating_sub(from) / WORDS
}
