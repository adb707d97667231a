// The token table: a row of words for each token.
ghost use Rattle.std.specs.Prelude.{◌≡◌, ◌<◌, ◌^◌, length};
ghost use Rattle.dogwood_tokens.specs.Cursor.{tokens_at};
ghost use Rattle.dogwood_syntax.specs.Table.{Filled, short_of};

use dogwood_rows::put_row;
use dogwood_tokens::{Cursor, Step};

// Writes the rows that there is room for, and answers how many tokens there are.
pub(crate) fn fill(text: &[u8], table: &mut [u32]) -> usize
    requires { length text.now < 2 ^ 32 }
    ensures { Filled text.now table.old result table.new }
{
    let mut cursor = Cursor::new();
    let mut n = 0;
    while let Step::Token(token, behind) = cursor.next(text) {
        // the bounds are those of the cursors: they stand in registers
        put_row(
            table,
            n,
            u32::from(token.kind),
            cursor.at as u32,
            behind.at as u32,
        );
        cursor = behind;
        n += 1;
    }
    n
}

// How many tokens a text has.
fn count(text: &[u8]) -> usize
    requires { length text.now < 2 ^ 32 }
    ensures { result ≡ length (tokens_at text.now 0) }
{
    fill(text, &mut [])
}

// How many tokens a text has, if they are more than there are rows. It has no more tokens than bytes.
pub(crate) fn shortage(text: &[u8], rows: usize) -> Option<usize>
    requires { length text.now < 2 ^ 32 }
    ensures { result ≡ short_of rows (length (tokens_at text.now 0)) }
{
    let enough = text.len() <= rows;
    if enough {
        return None;
    }
    let n = count(text);
    if rows < n { Some(n) } else { None }
}
