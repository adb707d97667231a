// Runs of characters of a class.
ghost use Rattle.dogwood_scans.specs.Promises.{RunIs};

use crate::classes::Class;
use utf8::Char;

// The end of the longest run of characters of a class, each of them decoded.
#[tactic(auto, using(crate::proofs::Run::run_cut))]
fn take_decoded<C: Class>(s: &[u8], at: usize) -> usize
    ensures { RunIs C.members s.now at result }
{
    let mut i = at;
    while let Some(Char { code, len }) = utf8::decode(s, i) {
        if !C::has(code) {
            break;
        }
        i += len;
    }
    i
}

// The same. The bytes below 128 at its front need no decoding.
#[tactic(auto, using(crate::proofs::Run::run_byte, crate::proofs::Run::run_done, crate::proofs::Run::run_out))]
pub fn take_while<C: Class>(s: &[u8], at: usize) -> usize
    ensures { RunIs C.members s.now at result }
{
    for i in at..s.len() {
        let b = s[i];
        if 0x80 <= b {
            return take_decoded::<C>(s, i);
        }
        if !C::has(u32::from(b)) {
            return i;
        }
    }
    at.max(s.len())
}
