// The entries of a table, one after another.
ghost use Rattle.std.specs.Prelude.{◌≤◌, length};

use crate::table::entry_at;
use dogwood_layout::Entry;

// Goes over the whole entries of a table, from a word on.
#[derive(Drop)]
pub struct Entries<'a> {
    table: &'a [u32],
    at: usize,
    ghost inside: { at ≤ length table.now },
}

impl<'a> Entries<'a> {
    ghost use Rattle.dogwood_runs.specs.Promises.{EntriesOf};

    pub fn of(table: &'a [u32]) -> Entries<'a>
        ensures { EntriesOf table.now result }
    {
        Entries { table, at: 0 }
    }
}

impl<'a> Iterator for Entries<'a> {
    type Item = Entry;

    ghost use Rattle.std.specs.Iterator.{item_count};
    ghost use Rattle.dogwood_runs.specs.Promises.{entries_left, EntriesGive};

    ghost next_gives = { EntriesGive };

    ghost remaining = { item_count entries_left };

    fn next(&mut self) -> Option<Entry> {
        let behind = self.at + 3;
        if self.table.len() < behind {
            return None;
        }
        let e = entry_at(self.table, self.at);
        self.at = behind;
        Some(e)
    }
}
