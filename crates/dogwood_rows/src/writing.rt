// Rows as they are written.
ghost use Rattle.dogwood_rows.specs.Promises.{Put};

use crate::WORDS;

// Writes row n of a table, where there is room for it.
pub fn put_row(table: &mut [u32], n: usize, kind: u32, start: u32, end: u32)
    ensures { Put table.old n kind start end table.new }
{
    if n < table.len() / WORDS {
        let k = WORDS * n;
        table[k] = kind;
        table[k + 1] = start;
        table[k + 2] = end;
    }
}
