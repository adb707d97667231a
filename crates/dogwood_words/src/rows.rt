// A token table read row by row. Any words get an answer: the table ends where a row is not whole.
ghost use Rattle.dogwood_words.specs.Promises.{RowIs, SkipIs};

use dogwood_rows::next;

// A token's kind, where it starts in the text, and the word behind its row.
#[derive(Clone, Copy)]
pub struct Row {
    pub kind: u32,
    pub start: usize,
    pub next: usize,
}

// The row whose words begin at i.
pub fn row_at(table: &[u32], i: usize) -> Option<Row>
    ensures { RowIs table.now i result }
{
    let (row, behind) = next(table, i)?;
    Some(Row {
        kind: row.kind,
        start: row.start as usize,
        next: behind,
    })
}

// The first word of the first token from a word on that starts at n or behind it.
pub fn skip(table: &[u32], from: usize, n: usize) -> usize
    ensures { SkipIs table.now from n result }
{
    let mut i = from;
    while let Some(row) = row_at(table, i) {
        if n <= row.start {
            return i;
        }
        i = row.next;
    }
    i
}
