// A token and a run as they stand, each white-space token as one blank.
ghost use Rattle.std.specs.Prelude.{◌∷◌, ◌++◌, replicate};
ghost use Rattle.pen.specs.Over.{Wrote};
ghost use Rattle.dogwood_rules.specs.Utf8.{encode};
ghost use Rattle.dogwood_rules.specs.Tree.{shown, joined};
ghost use Rattle.dogwood_layout.specs.View.{token_of, tokens, Holds};

use dogwood_layout::{Entry, Lexeme};
use dogwood_rows::{Kind, WORDS};
use pen::{add, clip, put, put_all, put_line};

// Writes one token, white space as one blank.
pub fn put_token(out: &mut [u8], token: Lexeme) -> usize
    ensures { Wrote out.old (encode (shown (token_of token.entry.text.now token.entry.row))) result out.new }
{
    if token.row.kind == Kind::Whitespace as u32 {
        return put(out, b' ');
    }
    put_all(out, token.bytes())
}

// Writes an LF, n spaces and a token.
pub fn put_closing(out: &mut [u8], token: Lexeme, n: usize) -> usize
    ensures { Wrote out.old ((10 ∷ replicate n 32) ++ encode (shown (token_of token.entry.text.now token.entry.row))) result out.new }
{
    let a = put_line(out, n);
    let at = clip(a, out.len());
    add(a, put_token(&mut out[at..], token))
}

// Writes a table's tokens, each white-space token as one blank.
pub fn flat(out: &mut [u8], text: &[u8], table: &[u32]) -> usize
    requires { Holds text.now table.now }
    ensures { Wrote out.old (encode (joined (tokens text.now table.now))) result out.new }
{
    let mut n: usize = 0;
    for &[kind, start, end] in table.as_chunks::<WORDS>().0 {
        let row = Entry { kind, start, end };
        let at = clip(n, out.len());
        n = add(n, put_token(&mut out[at..], Lexeme { text, row }));
    }
    n
}
