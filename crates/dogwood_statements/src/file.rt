// The layout of a whole file: statements by their parts, and the comments around them.
ghost use Rattle.std.specs.Prelude.{◌≡◌, [], ◌++◌, ◌*◌, length};
ghost use Rattle.pen.specs.Over.{Wrote};
ghost use Rattle.dogwood_rules.specs.Utf8.{encode};
ghost use Rattle.dogwood_rules.specs.Outline.{statements, parts_of};
ghost use Rattle.dogwood_rules.specs.Layout.{layout};
ghost use Rattle.dogwood_rules.specs.File.{laid, add_line, pieces, piece_text, join_pieces};
ghost use Rattle.dogwood_rules.proofs.Layouts.{Part};
ghost use Rattle.dogwood_rules.proofs.Files.{AllParts, AllSane};
ghost use Rattle.dogwood_layout.specs.Ends.{Whole};
ghost use Rattle.dogwood_layout.specs.View.{tokens};
ghost use Rattle.dogwood_layout.specs.Pieces.{settings, Bounded, WroteText};
ghost use Rattle.dogwood_layout.specs.Places.{entries, before_len, pairs, Paired};
ghost use Rattle.dogwood_layout.specs.Feeds.{behind, due_lines, lines_due, due_remarks, remarks_due, Due};

use dogwood_groups::lay_out;
use dogwood_layout::{Page, Written};
use dogwood_remarks::put_remarks;
use dogwood_runs::{Run, filled};
use pen::{add, clip, put_copies};

// How many words of a table stand for tokens that start before a place.
fn until(table: &[u32], place: u32) -> usize
    requires { Whole table.now }
    ensures { result ≡ 3 * before_len place table.now }
{
    let mut i: usize = 0;
    while i < table.len() {
        if place <= table[i + 1] {
            break;
        }
        i += 3;
    }
    i
}

// Writes the LFs that are due and a part's layout, or nothing if it is white space.
fn lay_part(out: &mut [u8], run: Run, page: Page, feeds: usize) -> Written
    requires { Part (tokens run.text.now run.table.now) × Bounded page 0 (length run.table.now) }
    ensures { Due (due_lines feeds (add_line (layout (settings page) 0 (tokens run.entry.text.now run.entry.table.now)) [])) (lines_due feeds (add_line (layout (settings page) 0 (tokens run.entry.text.now run.entry.table.now)) [])) out.old result.count result.feeds out.new }
{
    if !filled(run.table) {
        return Written {
            count: 0,
            feeds: feeds,
        };
    }
    let n = put_copies(out, b'\n', feeds);
    let at = clip(n, out.len());
    Written {
        count: add(n, lay_out(&mut out[at..], run, page, 0)),
        feeds: 1,
    }
}

// Writes a statement: its parts' layouts, each on lines of its own.
fn lay_statement(out: &mut [u8], run: Run, parts: &[u32], page: Page) -> usize
    requires { Paired parts.now × AllParts (parts_of (pairs parts.now) (entries run.text.now run.table.now)) × Bounded page 0 (length run.table.now) }
    ensures { Wrote out.old (encode (piece_text (settings page) (laid (parts_of (pairs parts.now) (entries run.entry.text.now run.entry.table.now))))) result out.new }
{
    let mut n: usize = 0;
    let mut feeds: usize = 0;
    let mut i: usize = 0;
    let mut j: usize = 0;
    while j < parts.len() {
        let a = i + until(&run.table[i..], parts[j]);
        let b = a + until(&run.table[a..], parts[j + 1]);
        let part = Run {
            text: run.text,
            table: &run.table[a..b],
        };
        let at = clip(n, out.len());
        let laid = lay_part(&mut out[at..], part, page, feeds);
        n = add(n, laid.count);
        feeds = laid.feeds;
        i = b;
        j += 2;
    }
    n
}

// Writes the comments before a statement, and the statement.
fn lay_next(out: &mut [u8], before: Run, run: Run, parts: &[u32], page: Page, feeds: usize) -> usize
    requires { Paired parts.now × AllParts (parts_of (pairs parts.now) (entries run.text.now run.table.now)) × Bounded page 0 (length run.table.now) }
    ensures { Wrote out.old (encode (due_remarks feeds (tokens before.entry.text.now before.entry.table.now) ++ behind (remarks_due feeds (tokens before.entry.text.now before.entry.table.now)) (piece_text (settings page) (laid (parts_of (pairs parts.now) (entries run.entry.text.now run.entry.table.now)))))) result out.new }
{
    let remarks = put_remarks(out, before.text, before.table, feeds);
    let at = clip(remarks.count, out.len());
    let a = add(
        remarks.count,
        put_copies(&mut out[at..], b'\n', remarks.feeds),
    );
    let bt = clip(a, out.len());
    add(a, lay_statement(&mut out[bt..], run, parts, page))
}

// Writes a whole file: its statements, and the comments before, between and behind them.
pub fn top_level_items(out: &mut [u8], run: Run, outline: &[u32], page: Page) -> usize
    requires { ((statements outline.now).1 ≡ []) × AllSane (pieces (statements outline.now).0 (entries run.text.now run.table.now)) × Bounded page 0 (length run.table.now) }
    ensures { WroteText (join_pieces (settings page) (pieces (statements outline.now).0 (entries run.entry.text.now run.entry.table.now))) out.old result out.new }
{
    let mut n: usize = 0;
    let mut feeds: usize = 0;
    let mut i: usize = 0;
    let mut o: usize = 0;
    while o < outline.len() {
        let a = i + until(&run.table[i..], outline[o + 1]);
        let b = a + until(&run.table[a..], outline[o + 2]);
        let before = Run {
            text: run.text,
            table: &run.table[i..a],
        };
        let own = Run {
            text: run.text,
            table: &run.table[a..b],
        };
        let parts = o + 4;
        let next = parts + 2 * (outline[o + 3] as usize);
        let at = clip(n, out.len());
        n = add(
            n,
            lay_next(
                &mut out[at..],
                before,
                own,
                &outline[parts..next],
                page,
                feeds,
            ),
        );
        feeds = 2;
        i = b;
        o = next;
    }
    let at = clip(n, out.len());
    let last = put_remarks(&mut out[at..], run.text, &run.table[i..], feeds);
    add(n, last.count)
}
