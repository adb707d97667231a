// Comments outside statements, cut of white space at the right.
ghost use Rattle.std.specs.Prelude.{◌≡◌, [], ◌∷◌};
ghost use Rattle.dogwood_rules.specs.Basic.{drop_back};
ghost use Rattle.dogwood_rules.specs.Utf8.{decode, byte_length};
ghost use Rattle.dogwood_rules.specs.Token.{white};
ghost use Rattle.dogwood_layout.specs.View.{token_of, tokens, Holds};
ghost use Rattle.dogwood_layout.specs.Feeds.{due_remarks, remarks_due, Due};

use dogwood_layout::{Lexeme, Written};
use dogwood_letters::is_space;
use dogwood_rows::Kind;
use dogwood_runs::Entries;
use pen::{add, clip, put_all, put_copies};
use utf8::{Char, decode};

// How many bytes of a text are left without the white space at its right.
fn kept(bytes: &[u8]) -> usize
    requires { (decode bytes.now).1 ≡ [] }
    ensures { result ≡ byte_length (drop_back white (decode bytes.now).0) }
{
    let mut keep: usize = 0;
    let mut i: usize = 0;
    while i < bytes.len() {
        let b = bytes[i];
        if b < 0x80 {
            i += 1;
            if !is_space(u32::from(b)) {
                keep = i;
            }
        } else {
            let Some(Char { code, len }) = decode(bytes, i) else {
                return keep;
            };
            i += len;
            if !is_space(code) {
                keep = i;
            }
        }
    }
    keep
}

// Writes the LFs that are due and a token's text if it is a comment, else nothing.
fn put_remark(out: &mut [u8], token: Lexeme, feeds: usize) -> Written
    ensures { Due (due_remarks feeds (token_of token.entry.text.now token.entry.row ∷ [])) (remarks_due feeds (token_of token.entry.text.now token.entry.row ∷ [])) out.old result.count result.feeds out.new }
{
    if token.row.kind != Kind::Comment as u32 {
        return Written {
            count: 0,
            feeds: feeds,
        };
    }
    let bytes = token.bytes();
    let n = put_copies(out, b'\n', feeds);
    let at = clip(n, out.len());
    Written {
        count: add(n, put_all(&mut out[at..], &bytes[..kept(bytes)])),
        feeds: 1,
    }
}

// Writes the comments among a table's tokens.
pub fn put_remarks(out: &mut [u8], text: &[u8], table: &[u32], feeds: usize) -> Written
    requires { Holds text.now table.now }
    ensures { Due (due_remarks feeds (tokens text.now table.now)) (remarks_due feeds (tokens text.now table.now)) out.old result.count result.feeds out.new }
{
    let mut n: usize = 0;
    let mut due = feeds;
    for row in Entries::of(table) {
        let token = Lexeme { text, row };
        let at = clip(n, out.len());
        let remark = put_remark(&mut out[at..], token, due);
        n = add(n, remark.count);
        due = remark.feeds;
    }
    Written {
        count: n,
        feeds: due,
    }
}
