// Files that are read. No contract can say what a file gives; of a reader whose bytes are known, it says which of them were taken.
ghost use Rattle.std.specs.Prelude.{◌≡◌, ◌≤◌, IfSome, IsTrue, MatchResult, length, take};
ghost use Rattle.std.specs.Io.KnownBytes.{Consumes, IsAtEnd};
ghost use Rattle.files.specs.Held.{Filled, IsPrefixLen, held};

use std::fs::File;
use std::io::Read;
use std::rt::{Env, Files};
use std::str;

// The first n bytes, or none where there are fewer.
pub fn within(n: usize, buf: &[u8]) -> &[u8]
    ensures prefix_len { IsPrefixLen (length result.now) buf.now }
    ensures value { result.now ≡ take (held n (length buf.now)) buf.now }
{
    buf.get(..n).unwrap_or(&[])
}

// Reads until buf is full, the input ends or a read fails, and answers how many bytes now stand at its start, in an error where a read failed.
fn fill<R: Read>(input: &mut R, buf: &mut [u8]) -> Result<usize, usize>
    ensures { MatchResult result (Filled (R.remaining input.old) (R.remaining input.new) buf.new) (Filled (R.remaining input.old) (R.remaining input.new) buf.new) }
{
    let mut len = 0;
    while len < buf.len() {
        match input.read(&mut buf[len..]) {
            Ok(0) => break,
            Ok(n) => len += n,
            Err(_) => return Err(len),
        }
    }
    Ok(len)
}

// Fills buf, or less of it where the input ends or a read fails, and answers how many bytes now stand at its start.
pub(crate) fn read_into<R: Read>(input: &mut R, buf: &mut [u8]) -> usize
    ensures { Filled (R.remaining input.old) (R.remaining input.new) buf.new result }
{
    match fill(input, buf) {
        Ok(len) | Err(len) => len,
    }
}

// Reads n bytes to the start of buf, or fewer where the input ends or a read fails, and answers how many; 0 where buf is too short.
pub fn read_part<R: Read>(input: &mut R, buf: &mut [u8], n: usize) -> usize
    ensures prefix_len { IsPrefixLen result buf.new }
    ensures taken { Consumes (R.remaining input.old) (R.remaining input.new) (take result buf.new) }
    ensures at_most { result ≤ n }
{
    if buf.len() < n {
        return 0;
    }
    read_into(input, &mut buf[..n])
}

// The next n bytes, or fewer where the input ends or a read fails, by way of a buffer. There are none where it is too short for n.
pub fn next_part<'a, R: Read>(input: &mut R, n: usize, buf: &'a mut [u8]) -> &'a [u8]
    ensures at_most { length result.now ≤ n }
    ensures within { length result.now ≤ length buf.old }
    ensures taken { Consumes (R.remaining input.old) (R.remaining input.new) result.now }
{
    let len = read_part(input, buf, n);
    &buf[..len]
}

// Whether the input has ended here. A read that fails, as of a folder, is no end.
pub fn ended<R: Read>(input: &mut R) -> bool
    ensures { IsTrue result → IsAtEnd (R.remaining input.old) }
{
    let mut one = [0u8; 1];
    match input.read(&mut one) {
        Ok(n) => n == 0,
        Err(_) => false,
    }
}

// Reads all of the input to the start of buf, and answers how many bytes it has. There is no answer where buf is too short or a read fails.
pub fn read_whole<R: Read>(input: &mut R, buf: &mut [u8]) -> Option<usize>
    ensures prefix_len { IfSome result (λ n. IsPrefixLen n buf.new) }
    ensures whole { IfSome result (λ n. IfSome (R.remaining input.old) (λ bytes. take n buf.new ≡ bytes)) }
{
    let len = fill(input, buf).ok()?;
    ended(input).then_some(len)
}

// Opens the file that an argument names. There is none where the file cannot be opened or its name is no text, nor where there is no such argument.
pub fn open_arg<R: Env + Files>(rt: &R, i: usize) -> Option<R::File> {
    let mut path = [0u8; 4096];
    let n = rt.arg(i, &mut path).ok()?;
    let path = str::from_utf8(&path[..n]).ok()?;
    File::open(rt, path).ok()
}
