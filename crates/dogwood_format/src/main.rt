// The small program of document 01: a source and its outline, each from a file that an argument names; number, place and the output bytes.
// Whatever is wrong with a file is said by one line, and before any number: nothing is laid out that was not read whole.
#![tactic(auto)]

use dogwood_formatter::format_policies;
use dogwood_told::Told;
use files::{open_arg, put_pair, put_text, read_whole, take_words, within};
use std::io;
use std::io::Write;
use std::rt::{Env, Files};

fn bad_file<W: Write>(out: &mut W) -> io::Result<()> {
    put_text(out, b"bad file\n")
}

fn put_told<W: Write>(told: Told, written: &[u8], out: &mut W) -> io::Result<()> {
    put_pair(out, told.number, told.place)?;
    put_text(out, b"\n")?;
    put_text(out, written)
}

// The source has at most 4,096 bytes, so its tokens always fit, and 13 is never answered here. That the length answered is within the output is
// promised too; `within` lends that part.
fn run<W: Write>(source: &[u8], bytes: &[u8], outline: &mut [u32], out: &mut W) -> io::Result<()> {
    take_words(bytes, outline);
    let mut table = [0; 12288];
    let mut output = [0; 65536];
    let told = Told::from(format_policies(source, outline, &mut table, &mut output));
    put_told(told, within(told.len, &output), out)
}

fn run_with_outline<R: Env + Files, W: Write>(
    rt: &R,
    source: &[u8],
    out: &mut W,
) -> io::Result<()> {
    let Some(mut file) = open_arg(rt, 2) else {
        return bad_file(out);
    };
    let mut bytes = [0; 16384];
    let Some(n) = read_whole(&mut file, &mut bytes) else {
        return bad_file(out);
    };
    if n % 4 != 0 {
        return bad_file(out);
    }
    let count = n / 4;
    let mut outline = [0; 4096];
    run(source, &bytes[..n], &mut outline[..count], out)
}

fn main(rt: HostRuntime) -> io::Result<()> {
    let mut out = io::writer(&rt);
    let Some(mut file) = open_arg(&rt, 1) else {
        return bad_file(&mut out);
    };
    let mut source = [0; 4096];
    let Some(n) = read_whole(&mut file, &mut source) else {
        return bad_file(&mut out);
    };
    run_with_outline(&rt, &source[..n], &mut out)
}
