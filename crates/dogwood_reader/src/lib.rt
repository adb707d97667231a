// A token reader that holds a reference to a source: thin over functions on a slice and numbers.
#![tactic(auto)]

ghost use Rattle.std.specs.Prelude.{◌≡◌};
ghost use Rattle.dogwood_rules.specs.Readings.{reading};
ghost use Rattle.dogwood_reader.specs.Standing.{told, standing, place_of, moved, onwards};
ghost use Rattle.dogwood_reader.specs.Promises.{Makes, Moves, Gives};

use dogwood_syntax::LONGEST;
use dogwood_tokens::{Cursor, Step, Token};

// Why a source is not read.
#[derive(Clone, Copy, Debug, PartialEq, Eq)]
pub enum Refusal {
    TooLong,
    // Where the first bad character begins.
    NotUtf8(usize),
}

// What a reading gives: a token; that the text has ended; where a string without end begins; or a refusal.
#[derive(Clone, Copy)]
pub enum Reading {
    Token(Token),
    Ended,
    NoEnd(usize),
    Refused(Refusal),
}

// The reading at a place of a source's text.
fn reading_at(src: &[u8], at: usize) -> Reading
    ensures { result ≡ place_of src.now at }
{
    let (_, text) = utf8::split_bom(src);
    match (Cursor { at }).next(text) {
        Step::Token(token, _) => Reading::Token(token),
        Step::Unended(place) => Reading::NoEnd(place),
        Step::Ended => Reading::Ended,
    }
}

// The first reading of a source.
fn first_reading(src: &[u8]) -> Reading
    ensures { result ≡ standing src.now 0 }
{
    if LONGEST < src.len() {
        return Reading::Refused(Refusal::TooLong);
    }
    let (mark, text) = utf8::split_bom(src);
    if let Some(place) = utf8::first_bad(text) {
        return Reading::Refused(Refusal::NotUtf8(mark.len() + place));
    }
    reading_at(src, 0)
}

// The reading after one: behind a token the next, else the same again.
#[tactic(auto, unfolding(crate::specs::Standing::moved))]
fn reading_after(src: &[u8], reading: Reading) -> Reading
    ensures { result ≡ moved src.now reading }
{
    match reading {
        Reading::Token(token) => reading_at(src, token.end),
        last => last,
    }
}

// The reading n readings after one.
#[tactic(auto, using(crate::proofs::Numbered::stays_onwards, crate::proofs::Numbered::more_onwards, crate::proofs::Numbered::none_onwards), unfolding(crate::specs::Standing::moved))]
fn reading_ahead(src: &[u8], reading: Reading, n: usize) -> Reading
    ensures { result ≡ onwards src.now n reading }
{
    let mut after = reading;
    'moves: for _ in 0..n {
        let Reading::Token(token) = after else {
            return after;
        };
        after = reading_at(src, token.end);
    }
    after
}

// A reader stands at a reading of the source that it holds.
#[derive(Clone, Copy)]
pub struct TokenReader<'a> {
    src: &'a [u8],
    state: Reading,
}

impl<'a> TokenReader<'a> {
    // A reader at the first reading of a source.
    pub fn new(src: &'a [u8]) -> TokenReader<'a>
        ensures { Makes src.entry result }
    {
        let state = first_reading(src);
        TokenReader { src, state }
    }

    // The reading at which a reader stands. A reader is copied, so it can be asked again.
    pub fn reading(self) -> Reading
        ensures { result ≡ self.entry.state }
    {
        self.state
    }

    // The reader at the next reading.
    pub fn next(self) -> TokenReader<'a>
        ensures { Moves 1 self.entry result }
    {
        let state = reading_after(self.src, self.state);
        TokenReader {
            src: self.src,
            state,
        }
    }

    // The reader n readings on.
    pub fn skip(self, n: usize) -> TokenReader<'a>
        ensures { Moves n self.entry result }
    {
        let state = reading_ahead(self.src, self.state, n);
        TokenReader {
            src: self.src,
            state,
        }
    }
}

// The reading at which a reader stands; the reader moves on to the next.
pub fn read<'s, 'a>(r: &'s mut TokenReader<'a>) -> Reading
    ensures { Gives r.old r.new result }
{
    let state = r.state;
    r.state = reading_after(r.src, state);
    state
}

// The n-th reading of a source, counted from 0, from a slice: whoever calls it holds no reader.
pub fn nth_reading(src: &[u8], n: usize) -> Reading
    ensures { told result ≡ reading src.now n }
{
    TokenReader::new(src).skip(n).reading()
}
