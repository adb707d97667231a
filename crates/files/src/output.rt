// What is written. Of a writer whose bytes are known, a promise says which come after them, and which may where a write fails; no contract can say what standard output shows.
ghost use Rattle.std.specs.Prelude.{OnErr, OnOk, decimal};
ghost use Rattle.std.specs.Io.KnownBytes.{Appends};
ghost use Rattle.files.specs.Written.{AppendsPart, answer_of, line_of, pair_of, spaced};

use itoa::Buffer;
use std::io;
use std::io::{ErrorKind, Write};

// As std's write_all, of which no contract says what an error leaves.
pub fn put_text<W: Write>(out: &mut W, s: &[u8]) -> io::Result<()>
    ensures ok { OnOk result (Appends (W.contents out.old) (W.contents out.new) s.now) }
    ensures err { OnErr result (AppendsPart (W.contents out.old) (W.contents out.new) s.now) }
{
    let mut rest = s;
    for _ in 0..u64::MAX {
        if rest.is_empty() {
            return Ok(());
        }
        match out.write(rest) {
            Ok(0) => return Err(io::Error::new(
                ErrorKind::WriteZero,
                "failed to write whole buffer",
            )),
            Ok(n) => rest = &rest[n..],
            Err(e) => {
                if e.kind() != ErrorKind::Interrupted {
                    return Err(e);
                }
            }
        }
    }
    Err(io::Error::new(ErrorKind::TimedOut, "gave up writing after 2^64 tries"))
}

pub fn put_number<W: Write>(out: &mut W, n: u64) -> io::Result<()>
    ensures ok { OnOk result (Appends (W.contents out.old) (W.contents out.new) (decimal n)) }
    ensures err { OnErr result (AppendsPart (W.contents out.old) (W.contents out.new) (decimal n)) }
{
    let mut digits = Buffer::new();
    put_text(out, digits.format(n).as_bytes())
}

// A number and its place, as each answer begins.
pub fn put_pair<W: Write>(out: &mut W, number: u32, place: usize) -> io::Result<()>
    ensures ok { OnOk result (Appends (W.contents out.old) (W.contents out.new) (pair_of number place)) }
    ensures err { OnErr result (AppendsPart (W.contents out.old) (W.contents out.new) (pair_of number place)) }
{
    put_number(out, u64::from(number))?;
    put_text(out, b" ")?;
    put_number(out, place as u64)
}

// Each word with a space before it.
fn put_words<W: Write>(out: &mut W, words: &[u32]) -> io::Result<()>
    ensures ok { OnOk result (Appends (W.contents out.old) (W.contents out.new) (spaced words.now)) }
    ensures err { OnErr result (AppendsPart (W.contents out.old) (W.contents out.new) (spaced words.now)) }
{
    for word in words {
        put_text(out, b" ")?;
        put_number(out, u64::from(*word))?;
    }
    Ok(())
}

// An answer of two numbers and the token table after it, in one line.
pub fn put_answer<W: Write>(out: &mut W, number: u32, value: usize, table: &[u32]) -> io::Result<()>
    ensures ok { OnOk result (Appends (W.contents out.old) (W.contents out.new) (answer_of number value table.now)) }
    ensures err { OnErr result (AppendsPart (W.contents out.old) (W.contents out.new) (answer_of number value table.now)) }
{
    put_pair(out, number, value)?;
    put_words(out, table)?;
    put_text(out, b"\n")
}

// Words in one line.
pub fn put_line<W: Write>(out: &mut W, words: &[u32]) -> io::Result<()>
    ensures ok { OnOk result (Appends (W.contents out.old) (W.contents out.new) (line_of words.now)) }
    ensures err { OnErr result (AppendsPart (W.contents out.old) (W.contents out.new) (line_of words.now)) }
{
    if let [first, rest @ ..] = words {
        put_number(out, u64::from(*first))?;
        put_words(out, rest)?;
    }
    put_text(out, b"\n")
}
