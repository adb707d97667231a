// Strings with escapes.
ghost use Rattle.dogwood_scans.specs.Promises.{StringIs};

use utf8::Char;

// The end of the string that a place lies in, behind its opening quote.
fn string_rest(s: &[u8], at: usize) -> Option<usize>
    ensures { StringIs s.now at result }
{
    let mut i = at;
    loop {
        let Char { code, len } = utf8::decode(s, i)?;
        i += len;
        if code == 0x22 {
            return Some(i);
        }
        if code == 0x5C {
            i += utf8::decode(s, i)?.len;
        }
    }
}

// The same. Bytes below 128 need no decoding.
pub fn string_end(s: &[u8], at: usize) -> Option<usize>
    ensures { StringIs s.now at result }
{
    let mut i = at;
    while i < s.len() {
        let b = s[i];
        if b == b'"' {
            return Some(i + 1);
        }
        if 0x80 <= b {
            return string_rest(s, i);
        }
        i += 1;
        if b == b'\\' {
            if s.len() <= i {
                return None;
            }
            if 0x80 <= s[i] {
                return string_rest(s, i - 1);
            }
            i += 1;
        }
    }
    None
}
