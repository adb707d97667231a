// The layout of a run and of a broken group's items.
ghost use Rattle.std.specs.Prelude.{◌≡◌, ◌+◌, ◌≤◌, length};
ghost use Rattle.pen.specs.Over.{Wrote};
ghost use Rattle.dogwood_rules.specs.Utf8.{encode};
ghost use Rattle.dogwood_rules.specs.Tree.{joined, run_of};
ghost use Rattle.dogwood_layout.specs.View.{tokens};
ghost use Rattle.dogwood_layout.specs.Measure.{span_after};
ghost use Rattle.dogwood_layout.specs.Shape.{Formed};
ghost use Rattle.dogwood_rules.specs.Layout.{walk, layout};
ghost use Rattle.dogwood_layout.specs.Pieces.{settings, Bounded, WroteText, Measured, OnePiece, Broken, PieceLaid, broken_text, items_text, item_text};

use dogwood_flat::{flat, measure, put_closing, put_token};
use dogwood_layout::{Lexeme, Page, Span};
use dogwood_runs::{Run, entry_at, filled, item_end_by, lead, piece_end, split_items, trimmed};
use pen::{add, clip, put_line};

// How many bytes a piece has, and the column behind it.
#[derive(Clone, Copy)]
pub(crate) struct Laid {
    pub(crate) count: usize,
    pub(crate) col: usize,
}

// Lays a run out at a depth.
#[cycle(laying)]
pub fn lay_out(out: &mut [u8], run: Run, page: Page, depth: usize) -> usize
    requires { Formed (tokens run.text.now run.table.now) × Bounded page depth (length run.table.now) }
    ensures { WroteText (layout (settings page) depth (tokens run.entry.text.now run.entry.table.now)) out.old result out.new }
{
    let t = trimmed(run.table);
    let inner = Run {
        text: run.text,
        table: &run.table[t.start..t.end],
    };
    let margin = page.indent * depth;
    let span = measure(inner, margin);
    if margin + span.width <= page.width {
        return flat(out, inner.text, inner.table);
    }
    lay_run(out, inner, page, depth, margin + t.start / 3, span.width)
}

// Walks over a run that ends in no white space, from a column on; width is that of its tokens.
#[cycle(laying)]
fn lay_run(out: &mut [u8], run: Run, page: Page, depth: usize, start: usize, width: usize) -> usize
    requires { Formed (tokens run.text.now run.table.now) × Bounded page depth (length run.table.now) × Measured (tokens run.text.now run.table.now) width × (start ≤ 0x1_0000_0000_0000) }
    ensures { Wrote out.old (encode (walk (settings page) depth start (run_of (tokens run.entry.text.now run.entry.table.now)))) result out.new }
{
    let mut n: usize = 0;
    let mut i: usize = 0;
    let mut col = start;
    let mut rest = width;
    while i < run.table.len() {
        let left = Run {
            text: run.text,
            table: &run.table[i..],
        };
        let m = piece_end(left);
        let piece = Run {
            text: run.text,
            table: &run.table[i..i + m],
        };
        let span = measure(piece, col);
        rest = rest - span.width;
        let follow = rest - lead(&run.table[i + m..]) / 3;
        let at = clip(n, out.len());
        let laid = lay_piece(&mut out[at..], piece, page, depth, col, span, follow);
        n = add(n, laid.count);
        col = laid.col;
        i += m;
    }
    n
}

// Lays a token or a group out from a column on, with so many columns to follow; span is its flat measure.
#[cycle(laying)]
fn lay_piece(
    out: &mut [u8],
    run: Run,
    page: Page,
    depth: usize,
    col: usize,
    span: Span,
    follow: usize,
) -> Laid
    requires { Formed (tokens run.text.now run.table.now) × Bounded page depth (length run.table.now) × OnePiece (run_of (tokens run.text.now run.table.now)) × (span ≡ span_after (record { width = 0; col = col }) (joined (tokens run.text.now run.table.now))) × (col + follow ≤ 0x1000_0000_0000_0000) }
    ensures { PieceLaid (settings page) depth col follow (run_of (tokens run.entry.text.now run.entry.table.now)) out.old result.count result.col out.new }
{
    if run.table.len() == 3 {
        return Laid {
            count: flat(out, run.text, run.table),
            col: span.col,
        };
    }
    let end = run.table.len() - 3;
    if !filled(&run.table[3..end]) | (col + span.width + follow <= page.width) {
        return Laid {
            count: flat(out, run.text, run.table),
            col: span.col,
        };
    }
    Laid {
        count: lay_group(out, run, page, depth),
        col: page.indent * depth + 1,
    }
}

// Writes a group with its items on lines of their own.
#[cycle(laying)]
fn lay_group(out: &mut [u8], run: Run, page: Page, depth: usize) -> usize
    requires { Formed (tokens run.text.now run.table.now) × Bounded page depth (length run.table.now) × Broken (run_of (tokens run.text.now run.table.now)) }
    ensures { Wrote out.old (encode (broken_text (settings page) depth (run_of (tokens run.entry.text.now run.entry.table.now)))) result out.new }
{
    let end = run.table.len() - 3;
    let inside = Run {
        text: run.text,
        table: &run.table[3..end],
    };
    let opener = Lexeme {
        text: run.text,
        row: entry_at(run.table, 0),
    };
    let a = put_token(out, opener);
    let at = clip(a, out.len());
    let b = add(a, lay_items(&mut out[at..], inside, page, depth + 1));
    let closer = Lexeme {
        text: run.text,
        row: entry_at(run.table, end),
    };
    let bt = clip(b, out.len());
    add(b, put_closing(&mut out[bt..], closer, page.indent * depth))
}

// Writes the items of an inside, each on a line of its own.
#[cycle(laying)]
fn lay_items(out: &mut [u8], run: Run, page: Page, depth: usize) -> usize
    requires { Formed (tokens run.text.now run.table.now) × Bounded page depth (length run.table.now) }
    ensures { Wrote out.old (encode (items_text (settings page) depth (run_of (tokens run.entry.text.now run.entry.table.now)))) result out.new }
{
    let set = split_items(run);
    let mut n: usize = 0;
    let mut i: usize = 0;
    while i < run.table.len() {
        let left = Run {
            text: run.text,
            table: &run.table[i..],
        };
        let m = item_end_by(left, set);
        let item = Run {
            text: run.text,
            table: &run.table[i..i + m],
        };
        let at = clip(n, out.len());
        n = add(n, lay_item(&mut out[at..], item, page, depth));
        i += m;
    }
    n
}

// Writes an item on a line of its own, or nothing if it is white space.
#[cycle(laying)]
fn lay_item(out: &mut [u8], run: Run, page: Page, depth: usize) -> usize
    requires { Formed (tokens run.text.now run.table.now) × Bounded page depth (length run.table.now) }
    ensures { Wrote out.old (encode (item_text (settings page) depth (run_of (tokens run.entry.text.now run.entry.table.now)))) result out.new }
{
    let t = trimmed(run.table);
    if t.start == t.end {
        return 0;
    }
    let inner = Run {
        text: run.text,
        table: &run.table[t.start..t.end],
    };
    let c = put_line(out, page.indent * depth);
    let at = clip(c, out.len());
    add(c, lay_out(&mut out[at..], inner, page, depth))
}
