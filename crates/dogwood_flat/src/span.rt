// The width of a run and the column behind it.
ghost use Rattle.std.specs.Prelude.{◌≡◌, ◌<◌};
ghost use Rattle.dogwood_rules.specs.Tree.{shown};
ghost use Rattle.dogwood_layout.specs.View.{token_of};
ghost use Rattle.dogwood_layout.specs.Measure.{span_after, past_byte, past_bytes};
ghost use Rattle.dogwood_flat.specs.Promises.{SpanIs};

use dogwood_layout::{Lexeme, Span};
use dogwood_rows::Kind;
use dogwood_runs::{Run, entry_at};

// A byte 80 to BF belongs to the character before it and takes no column.
fn past_byte(s: Span, b: u8) -> Span
    requires { (s.width < 0xffff_ffff_ffff_ffff) × (s.col < 0xffff_ffff_ffff_ffff) }
    ensures { result ≡ past_byte s b }
{
    if b == b'\n' {
        return Span {
            width: s.width + 1,
            col: 0,
        };
    }
    if (b < 128) | (192 <= b) {
        return Span {
            width: s.width + 1,
            col: s.col + 1,
        };
    }
    s
}

fn past_bytes(bytes: &[u8], start: Span) -> Span
    requires { (start.width < 0x7fff_ffff_ffff_ffff) × (start.col < 0x7fff_ffff_ffff_ffff) }
    ensures { result ≡ past_bytes start bytes.now }
{
    let mut s = start;
    for b in bytes {
        s = past_byte(s, *b);
    }
    s
}

fn past_token(token: Lexeme, s: Span) -> Span
    requires { (s.width < 0x7fff_ffff_ffff_ffff) × (s.col < 0x7fff_ffff_ffff_ffff) }
    ensures { result ≡ span_after s (shown (token_of token.entry.text.now token.entry.row)) }
{
    if token.row.kind == Kind::Whitespace as u32 {
        return Span {
            width: s.width + 1,
            col: s.col + 1,
        };
    }
    past_bytes(token.bytes(), s)
}

// The width of a run's tokens, each white-space token one blank, and the column behind them where they start in column col.
pub fn measure(run: Run, col: usize) -> Span
    requires { col < 0x3fff_ffff_ffff_ffff }
    ensures { SpanIs run.entry.text.now run.entry.table.now col result }
{
    let mut s = Span { width: 0, col: col };
    let mut i: usize = 0;
    while i < run.table.len() {
        let token = Lexeme {
            text: run.text,
            row: entry_at(run.table, i),
        };
        s = past_token(token, s);
        i += 3;
    }
    s
}
