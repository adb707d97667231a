// Sources that no case file writes out.
ghost use Rattle.std.specs.Prelude.{◌≡◌, ◌<◌, ◌≤◌, ◌↔◌, IfSome, IsNone, length, []};
ghost use Rattle.std.specs.Io.KnownBytes.{Consumes};
ghost use Rattle.files.specs.Letters.{all_letters, unwritten_of};

use crate::input::next_part;
use std::io::Read;

// How many bytes a source may have.
const LONGEST: usize = 1048576;

static LETTERS: [u8; 1048577] = [b'a'; 1048577];

// One letter more than the longest source may have.
pub fn letters() -> &'static [u8; 1048577]
    ensures { result.now ≡ all_letters }
{
    &LETTERS
}

// What stands for a source of so many bytes: the longest that there may be, or one that is a byte too long. A shorter one is written out.
fn unwritten(size: usize) -> Option<&'static [u8]>
    ensures none { IsNone result ↔ (size < 1048576) }
    ensures value { IfSome result (λ source. source.now ≡ unwritten_of size) }
{
    if size < LONGEST {
        return None;
    }
    let all: &[u8] = letters();
    if size == LONGEST {
        return Some(&all[1..]);
    }
    Some(all)
}

// The source of a record, by way of a buffer: what stands for it, where no case file writes it out, else the next bytes of the input.
pub fn read_source<'a, R: Read>(input: &mut R, size: usize, buf: &'a mut [u8]) -> &'a [u8]
    ensures unwritten { 1048576 ≤ size → (result.now ≡ unwritten_of size) × Consumes (R.remaining input.old) (R.remaining input.new) [] }
    ensures written { size < 1048576 → (length result.now ≤ size) × Consumes (R.remaining input.old) (R.remaining input.new) result.now }
{
    match unwritten(size) {
        Some(letters) => letters,
        None => next_part(input, size, buf),
    }
}
