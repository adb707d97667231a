// Files of records: a record begins with words that say how much of what follows.
ghost use Rattle.std.specs.Prelude.{IfErr, MatchOption, OnOk};
ghost use Rattle.files.specs.Replays.{Ended, Failed, Replayed, Stopped};
ghost use Rattle.files.specs.Word.{BeginsWith, EndsBefore};

use crate::input::{open_arg, read_into};
use crate::output::put_text;
use crate::words::take_words;
use std::io;
use std::io::{Read, Write};
use std::rt::{Env, Files};

// The words that stand next in the input, low byte first. There are none where it ends before them or a read fails.
pub fn read_words<const N: usize, R: Read>(input: &mut R) -> Option<[u32; N]>
    ensures { MatchOption result (EndsBefore (R.remaining input.old) (R.remaining input.new) N) (BeginsWith (R.remaining input.old) (R.remaining input.new) N) }
{
    // all at once, for each read asks the system
    let mut bytes = [[0; 4]; N];
    let bytes = bytes.as_flattened_mut();
    if read_into(input, bytes) < bytes.len() {
        return None;
    }
    let mut words = [0; N];
    take_words(bytes, &mut words);
    Some(words)
}

// Takes a step at each record of an input until one says that it is the last.
fn run_each<R: Read, W: Write, F: Fn(&mut R, &mut W) -> io::Result<bool>>(
    input: &mut R,
    out: &mut W,
    step: F,
) -> io::Result<()>
    requires { F.IsAlwaysCallable step }
    ensures ended { OnOk result (Ended F.Fn step input.old out.old input.new out.new) }
    ensures failed { IfErr result (λ e. Failed F.Fn step input.old out.old e input.new out.new) }
{
    for _ in 0..u64::MAX {
        if !step(input, out)? {
            return Ok(());
        }
    }
    Ok(())
}

// Runs each record of the file that the first argument names, by a step that takes one off the input and answers whether there may be more.
pub fn replay<P: Env + Files, W: Write, F: Fn(&mut P::File, &mut W) -> io::Result<bool>>(
    rt: &P,
    out: &mut W,
    step: F,
) -> io::Result<()>
    requires { F.IsAlwaysCallable step }
    ensures ended { OnOk result (Replayed F.Fn step (W.contents out.old) (W.contents out.new) out.old out.new) }
    ensures failed { IfErr result (Stopped F.Fn step (W.contents out.old) (W.contents out.new) out.old out.new) }
{
    match open_arg(rt, 1) {
        Some(mut input) => run_each(&mut input, out, step),
        None => put_text(out, b"no records\n"),
    }
}
