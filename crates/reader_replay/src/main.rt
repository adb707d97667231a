// Reads each record of the file that the first argument names by a token reader, and writes a line for each: every reading up to the first that is
// no token, and that one twice, to see it repeat. A record: the source's bytes and the words of a table, which is not used, as two words low byte
// first; then the source.
#![tactic(auto)]

use dogwood_reader::{Reading, Refusal, nth_reading};
use files::{next_part, put_number, put_pair, put_text, read_words, replay};
use std::io;
use std::io::{Read, Write};

// Writes a reading, and answers whether it is a token.
fn put_reading<W: Write>(reading: Reading, out: &mut W) -> io::Result<bool> {
    match reading {
        Reading::Token(token) => {
            put_pair(out, u32::from(token.kind), token.start)?;
            put_text(out, b" ")?;
            put_number(out, token.end as u64)?;
        }
        Reading::Ended => put_text(out, b"end")?,
        Reading::NoEnd(place) => put_pair(out, 1, place)?,
        Reading::Refused(Refusal::TooLong) => put_pair(out, 11, 0)?,
        Reading::Refused(Refusal::NotUtf8(place)) => put_pair(out, 12, place)?,
    }
    put_text(out, b";")?;
    Ok(matches!(reading, Reading::Token(..)))
}

// A text has no more tokens than bytes, so the readings as many as the bytes, and one more, come to one that is no token.
fn put_readings<W: Write>(source: &[u8], out: &mut W) -> io::Result<()> {
    for n in 0..=source.len() {
        if !put_reading(nth_reading(source, n), out)? {
            put_reading(nth_reading(source, n + 1), out)?;
            return put_text(out, b"\n");
        }
    }
    Ok(())
}

// Reads one record and runs it; answers false where there is none.
fn run<R: Read, W: Write>(input: &mut R, out: &mut W) -> io::Result<bool> {
    let Some(head) = read_words::<2, _>(input) else {
        return Ok(false);
    };
    let [size, _] = head;
    let mut bytes = [0; 4096];
    let source = next_part(input, size as usize, &mut bytes);
    put_readings(source, out)?;
    Ok(true)
}

fn main(rt: HostRuntime) -> io::Result<()> {
    replay(&rt, &mut io::writer(&rt), run)
}
