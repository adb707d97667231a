// Walks over the tokens of a table up to a place, which must be a token's start or the text's end.
ghost use Rattle.std.specs.Prelude.{◌≡◌, ◌&&◌, eqb};
ghost use Rattle.dogwood_words.specs.Promises.{GapIs, PartIs};

use crate::brackets::{closes, is_plain, opens};
use crate::rows::row_at;

// Where n stands in a table, if only white space and comments stand between a word and it.
pub fn gap(table: &[u32], from: usize, end: usize, n: usize) -> Option<usize>
    ensures { GapIs table.now from end n result }
{
    let mut i = from;
    while let Some(row) = row_at(table, i) {
        if n <= row.start {
            return (row.start == n).then_some(i);
        }
        if is_plain(row.kind) {
            return None;
        }
        i = row.next;
    }
    (end == n).then_some(i)
}

// Where a part ends in a table, and whether a token stands in it that is neither white space nor comment.
#[derive(Clone, Copy)]
pub struct Walked {
    pub seen: bool,
    pub at: usize,
}

// Whether a part ends at n, which the walk has come to or passed.
fn ends(depth: usize, at: usize, n: usize) -> bool
    ensures { result ≡ (eqb depth 0 && eqb at n) }
{
    depth == 0 && at == n
}

// Where n stands in a table, if brackets balance between a word and it.
pub fn part(text: &[u8], table: &[u32], from: usize, n: usize) -> Option<Walked>
    ensures { PartIs text.now table.now from n result }
{
    let mut i = from;
    let mut depth: usize = 0;
    let mut seen = false;
    while let Some(row) = row_at(table, i) {
        if n <= row.start {
            return ends(depth, row.start, n).then_some(Walked { seen, at: i });
        }
        let first = utf8::byte(text, row.start);
        seen |= is_plain(row.kind);
        i = row.next;
        if opens(row.kind, first) {
            depth += 1;
        } else if closes(row.kind, first) {
            depth = depth.checked_sub(1)?;
        }
    }
    ends(depth, text.len(), n).then_some(Walked { seen, at: i })
}
