// Formats the source of each record of the file that the first argument names, and writes for each: number, place and length in a line; the whole
// output, in which what was not written is `~`; the whole table in a line, in which what was not written is 4294967295.
// A record: the source's bytes, the outline's words, the table's words and the output's bytes, as four words low byte first; the source; the outline.
// A source of 1,048,576 bytes and more is all `a` and not written out: the longest that there may be, or one byte more.
#![tactic(auto)]

use dogwood_formatter::format_policies;
use dogwood_told::Told;
use files::{
    next_part, put_line, put_number, put_pair, put_text, read_source, read_words, replay,
    take_words,
};
use std::io;
use std::io::{Read, Write};

fn put_call<W: Write>(told: Told, output: &[u8], table: &[u32], out: &mut W) -> io::Result<()> {
    put_pair(out, told.number, told.place)?;
    put_text(out, b" ")?;
    put_number(out, told.len as u64)?;
    put_text(out, b"\n")?;
    put_text(out, output)?;
    put_text(out, b"\n")?;
    put_line(out, table)
}

// Reads the source and the outline of a record and runs it.
fn run_record<R: Read, W: Write>(
    input: &mut R,
    size: usize,
    outline: &mut [u32],
    table: &mut [u32],
    output: &mut [u8],
    out: &mut W,
) -> io::Result<()> {
    let mut bytes = [0; 65536];
    let source = read_source(input, size, &mut bytes);
    let mut bytes = [0; 16384];
    take_words(next_part(input, 4 * outline.len(), &mut bytes), outline);
    let told = Told::from(format_policies(source, outline, table, output));
    put_call(told, output, table, out)
}

// Reads one record and runs it; answers false where there is none, or one that is too large.
fn run<R: Read, W: Write>(input: &mut R, out: &mut W) -> io::Result<bool> {
    let Some(head) = read_words::<4, _>(input) else {
        return Ok(false);
    };
    let [size, count, words, room] = head.map(|word| word as usize);
    if 4096 < count || 24576 < words || 65536 < room {
        return Ok(false);
    }
    let mut outline = [0; 4096];
    let mut table = [u32::MAX; 24576];
    let mut output = [b'~'; 65536];
    run_record(
        input,
        size,
        &mut outline[..count],
        &mut table[..words],
        &mut output[..room],
        out,
    )?;
    Ok(true)
}

fn main(rt: HostRuntime) -> io::Result<()> {
    replay(&rt, &mut io::writer(&rt), run)
}
