// The parts of a run: its ends without white space, its groups and its items.
ghost use Rattle.std.specs.Prelude.{◌≡◌, ◌*◌, ◌<◌, length};
ghost use Rattle.dogwood_layout.specs.View.{tokens};
ghost use Rattle.dogwood_layout.specs.Shape.{Formed};
ghost use Rattle.dogwood_layout.specs.Ends.{Whole, back_len};
ghost use Rattle.dogwood_layout.specs.Scan.{group_len};
ghost use Rattle.dogwood_runs.specs.Separators.{set_number};
ghost use Rattle.dogwood_runs.specs.Promises.{LeadIs, TrimmedIs, FilledIs, ItemIs, PieceIs, SetIs};

use crate::entries::Entries;
use crate::parts::{Run, Separator};
use crate::table::{cuts_after, cuts_before, depth_after, entry_at, opens};
use dogwood_layout::{Entry, Lexeme, Part};
use dogwood_rows::{Kind, WORDS};

// How many words of white space stand at the front of a table.
pub fn lead(table: &[u32]) -> usize
    requires { Whole table.now }
    ensures { LeadIs table.now result }
{
    let blanks = Entries::of(table).take_while(|row| row.kind == Kind::Whitespace as u32);
    WORDS * blanks.count()
}

// How many words of a table are left without the white space at its end.
fn solid(table: &[u32]) -> usize
    requires { Whole table.now }
    ensures { result ≡ 3 * back_len table.now }
{
    let mut n = table.len();
    while 0 < n {
        if table[n - 3] != Kind::Whitespace as u32 {
            break;
        }
        n -= 3;
    }
    n
}

// A table without the white space at both its ends.
pub fn trimmed(table: &[u32]) -> Part
    requires { Whole table.now }
    ensures { TrimmedIs table.now result }
{
    let a = lead(table);
    Part {
        start: a,
        end: a + solid(&table[a..]),
    }
}

// A table has more than white space.
pub fn filled(table: &[u32]) -> bool
    requires { Whole table.now }
    ensures { FilledIs table.now result }
{
    lead(table) < table.len()
}

// How many words the group at the front of a table has.
fn group_end(run: Run) -> usize
    ensures { result ≡ 3 * group_len 0 (tokens run.entry.text.now run.entry.table.now) }
{
    let mut depth: usize = 0;
    let rows = run.table.as_chunks::<WORDS>().0;
    for (k, &[kind, start, end]) in rows.iter().enumerate() {
        let token = Lexeme {
            text: run.text,
            row: Entry { kind, start, end },
        };
        depth = depth_after(token, depth);
        if depth == 0 {
            return WORDS * (k + 1);
        }
    }
    run.table.len()
}

// How many words the item at the front of a table has, cut by a set.
pub fn item_end_by(run: Run, set: Option<Separator>) -> usize
    ensures { ItemIs run.entry.text.now run.entry.table.now (set_number set) result }
{
    let mut first = true;
    let mut depth: usize = 0;
    let rows = run.table.as_chunks::<WORDS>().0;
    for (k, &[kind, start, end]) in rows.iter().enumerate() {
        let token = Lexeme {
            text: run.text,
            row: Entry { kind, start, end },
        };
        if !first & cuts_before(token, set, depth) {
            return WORDS * k;
        }
        if cuts_after(token, set, depth) {
            return WORDS * k + WORDS;
        }
        depth = depth_after(token, depth);
        first = false;
    }
    run.table.len()
}

// The same, by the number of a set. No set has a number above 1, and none cuts.
pub fn item_end(run: Run, set: usize) -> usize
    ensures { ItemIs run.entry.text.now run.entry.table.now set result }
{
    item_end_by(run, Separator::numbered(set))
}

// How many words the piece at the front of a table has: a token, or a group.
pub fn piece_end(run: Run) -> usize
    requires { 0 < length run.table.now }
    ensures { PieceIs run.entry.text.now run.entry.table.now result }
{
    let first = Lexeme {
        text: run.text,
        row: entry_at(run.table, 0),
    };
    if opens(first) {
        return group_end(run);
    }
    3
}

// Which separator set cuts an inside into more than one item, if one does.
pub fn split_items(run: Run) -> Option<Separator>
    requires { Formed (tokens run.text.now run.table.now) }
    ensures { SetIs run.entry.text.now run.entry.table.now result }
{
    let mut chosen = None;
    'sets: for set in [Separator::Comma, Separator::AndOr] {
        let mut found: usize = 0;
        let mut i: usize = 0;
        while i < run.table.len() {
            let rest = Run {
                text: run.text,
                table: &run.table[i..],
            };
            let m = item_end_by(rest, Some(set));
            found += usize::from(filled(&run.table[i..i + m]));
            if 1 < found {
                chosen = Some(set);
                break 'sets;
            }
            i += m;
        }
    }
    chosen
}
