// Tokenises each record of the file that the first argument names, and writes a line for each: number, value and every word of the table.
// A record: the source's bytes and the table's words, as two words low byte first; then the source. A source of more than 4,096 bytes is all `a`
// and not written out: the longest that there may be, or one byte more.
#![tactic(auto)]

use dogwood_syntax::tokenize;
use dogwood_told::Told;
use files::{put_answer, read_source, read_words, replay};
use std::io;
use std::io::{Read, Write};

// Reads one record and runs it; answers false where there is none, or one that is too large.
fn run<R: Read, W: Write>(input: &mut R, out: &mut W) -> io::Result<bool> {
    let Some(head) = read_words::<2, _>(input) else {
        return Ok(false);
    };
    let [size, room] = head.map(|word| word as usize);
    let mut table = [u32::MAX; 12291];
    if table.len() < room {
        return Ok(false);
    }
    let table = &mut table[..room];
    let mut bytes = [0; 4096];
    let source = read_source(input, size, &mut bytes);
    let told = Told::from(tokenize(source, table));
    put_answer(out, told.number, told.place, table)?;
    Ok(true)
}

fn main(rt: HostRuntime) -> io::Result<()> {
    replay(&rt, &mut io::writer(&rt), run)
}
