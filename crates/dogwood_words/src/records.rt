// The records of an outline. Any words get an answer: a number of parts is held against the words that are left before it is doubled.
ghost use Rattle.dogwood_words.specs.Promises.{RecordIs};

// A statement's bounds in the text, how many parts it has, and the word behind its record.
#[derive(Clone, Copy)]
pub struct Record {
    pub start: usize,
    pub end: usize,
    pub parts: usize,
    pub next: usize,
}

// The record whose words begin at i.
pub fn record_at(outline: &[u32], i: usize) -> Option<Record>
    ensures { RecordIs outline.now i result }
{
    let [_, start, end, parts, rest @ ..] = outline.get(i..)? else {
        return None;
    };
    let parts = *parts as usize;
    if rest.len() / 2 < parts {
        return None;
    }
    Some(Record {
        start: *start as usize,
        end: *end as usize,
        parts,
        next: i + 4 + 2 * parts,
    })
}
