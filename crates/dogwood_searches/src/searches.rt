// What answers 2, 3 and 5 look for.
ghost use Rattle.std.specs.Prelude.{◌≡◌, drop};
ghost use Rattle.dogwood_words.specs.Search.{found_of};
ghost use Rattle.dogwood_searches.specs.Searches.{comment_before};
ghost use Rattle.dogwood_searches.specs.Promises.{CommentIs, NothingIs, DeepIs};

use dogwood_rows::{Kind, WORDS};
use dogwood_words::{closes, opens, record_at, row_at, skip};

// The nesting that is allowed.
const DEEPEST: usize = 64;

// The first comment from a word on that starts before n.
fn comment_before(table: &[u32], from: usize, n: usize) -> Option<usize>
    ensures { result ≡ found_of (comment_before n (drop from table.now)) }
{
    let mut i = from;
    while let Some(row) = row_at(table, i) {
        if n <= row.start {
            return None;
        }
        if row.kind == Kind::Comment as u32 {
            return Some(row.start);
        }
        i = row.next;
    }
    None
}

// The first comment inside a statement.
pub fn first_comment(table: &[u32], outline: &[u32]) -> Option<usize>
    ensures { CommentIs table.now outline.now result }
{
    let mut at: usize = 0;
    let mut i: usize = 0;
    while let Some(record) = record_at(outline, i) {
        let start = skip(table, at, record.start);
        if let Some(place) = comment_before(table, start, record.end) {
            return Some(place);
        }
        at = skip(table, start, record.end);
        i = record.next;
    }
    None
}

// Whether an outline has no words and a table no comment.
pub fn nothing_there(text: &[u8], table: &[u32], outline: &[u32]) -> bool
    ensures { NothingIs text.now table.now outline.now result }
{
    outline.is_empty() && comment_before(table, 0, text.len()).is_none()
}

// The first opener that is nested too deep, in the text as a whole.
pub fn deep_opener(text: &[u8], table: &[u32]) -> Option<usize>
    ensures { DeepIs text.now table.now result }
{
    let mut depth: usize = 0;
    for [kind, start, _] in table.as_chunks::<WORDS>().0 {
        let start = *start as usize;
        let first = utf8::byte(text, start);
        if opens(*kind, first) {
            if depth == DEEPEST {
                return Some(start);
            }
            depth += 1;
        } else if closes(*kind, first) {
            depth = depth.saturating_sub(1);
        }
    }
    None
}
