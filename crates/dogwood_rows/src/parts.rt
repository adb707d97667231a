// Parts of a table.
ghost use Rattle.dogwood_rows.specs.Promises.{BetweenIs, InsideIs, FirstIs};

use crate::WORDS;
use crate::cursor::end;

// The words from a place to another.
pub fn between(table: &[u32], from: usize, to: usize) -> &[u32]
    ensures { BetweenIs table.now from to result.now }
{
    let e = to.min(table.len());
    let s = from.min(e);
    &table[s..e]
}

// The words behind the first row and before the last.
#[tactic(auto, unfolding(crate::specs::Rows::inside))]
pub fn inside(table: &[u32]) -> &[u32]
    ensures { InsideIs table.now result.now }
{
    between(table, WORDS, end(table).saturating_sub(WORDS))
}

// The words of the first n rows.
pub fn first_rows(table: &[u32], n: usize) -> &[u32]
    ensures { FirstIs table.now n result.now }
{
    between(table, 0, WORDS.saturating_mul(n))
}
