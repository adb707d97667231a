// An entry of the token table, and the tests on its token.
ghost use Rattle.std.specs.Prelude.{◌≡◌, ◌+◌, ◌<◌, length};
ghost use Rattle.dogwood_rules.specs.Tree.{opener, comma, and_or};
ghost use Rattle.dogwood_layout.specs.View.{token_of};
ghost use Rattle.dogwood_layout.specs.Scan.{depth_after, cut_after_token, cut_before};
ghost use Rattle.dogwood_runs.specs.Separators.{set_number};
ghost use Rattle.dogwood_runs.specs.Promises.{EntryIs};

use crate::parts::Separator;
use dogwood_layout::{Entry, Lexeme};

// The entry at a word of the table.
pub fn entry_at(table: &[u32], i: usize) -> Entry
    requires { i + 2 < length table.now }
    ensures { EntryIs table.now i result }
{
    Entry {
        kind: table[i],
        start: table[i + 1],
        end: table[i + 2],
    }
}

pub(crate) fn opens(token: Lexeme) -> bool
    ensures { result ≡ opener (token_of token.entry.text.now token.entry.row) }
{
    matches!(token.bytes(), [b'(' | b'[' | b'{'])
}

// The depth behind a token.
pub(crate) fn depth_after(token: Lexeme, depth: usize) -> usize
    requires { depth < 4294967296 }
    ensures { result ≡ depth_after depth (token_of token.entry.text.now token.entry.row) }
{
    match token.bytes() {
        [b'(' | b'[' | b'{'] => depth + 1,
        [b')' | b']' | b'}'] => depth.saturating_sub(1),
        _ => depth,
    }
}

fn is_comma(token: Lexeme) -> bool
    ensures { result ≡ comma (token_of token.entry.text.now token.entry.row) }
{
    matches!(token.bytes(), b",")
}

fn is_and_or(token: Lexeme) -> bool
    ensures { result ≡ and_or (token_of token.entry.text.now token.entry.row) }
{
    matches!(token.bytes(), b"&&" | b"||")
}

// Commas cut behind themselves, outside of brackets.
pub(crate) fn cuts_after(token: Lexeme, set: Option<Separator>, depth: usize) -> bool
    ensures { result ≡ cut_after_token (set_number set) depth (token_of token.entry.text.now token.entry.row) }
{
    (set == Some(Separator::Comma)) & (depth == 0) & is_comma(token)
}

// && and || cut before themselves, outside of brackets.
pub(crate) fn cuts_before(token: Lexeme, set: Option<Separator>, depth: usize) -> bool
    ensures { result ≡ cut_before (set_number set) depth (token_of token.entry.text.now token.entry.row) }
{
    (set == Some(Separator::AndOr)) & (depth == 0) & is_and_or(token)
}
