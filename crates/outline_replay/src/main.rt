// Tests the outline of each record of the file that the first argument names, and writes a line for each: number, value and every word of the
// table. A record: the source's bytes, the outline's words and the table's words, as three words low byte first; the source; the outline.
#![tactic(auto)]

use dogwood_outline::test_outline;
use dogwood_told::Told;
use files::{next_part, put_answer, read_words, replay, take_words};
use std::io;
use std::io::{Read, Write};

// Reads one record and runs it; answers false where there is none, or one that is too large.
fn run<R: Read, W: Write>(input: &mut R, out: &mut W) -> io::Result<bool> {
    let Some(head) = read_words::<3, _>(input) else {
        return Ok(false);
    };
    let [size, count, room] = head.map(|word| word as usize);
    let mut outline = [0; 1024];
    let mut table = [u32::MAX; 12288];
    if outline.len() < count || table.len() < room {
        return Ok(false);
    }
    let outline = &mut outline[..count];
    let table = &mut table[..room];
    let mut bytes = [0; 4096];
    let source = next_part(input, size, &mut bytes);
    let mut bytes = [0; 4096];
    take_words(next_part(input, 4 * count, &mut bytes), outline);
    let told = Told::from(test_outline(source, outline, table));
    put_answer(out, told.number, told.place, table)?;
    Ok(true)
}

fn main(rt: HostRuntime) -> io::Result<()> {
    replay(&rt, &mut io::writer(&rt), run)
}
