// The first string that does not end.
ghost use Rattle.dogwood_tokens.specs.Promises.{OpenIs};

use dogwood_scans::{Line, string_end, take_while};

// Where the first string without end begins. A quote in a comment opens none.
pub fn first_open(s: &[u8]) -> Option<usize>
    ensures { OpenIs s.now result }
{
    let mut i = 0;
    while i < s.len() {
        let b = s[i];
        if b == 0x22 {
            let Some(end) = string_end(s, i + 1) else {
                return Some(i);
            };
            i = end;
        } else if 0x80 <= b {
            i += utf8::decode(s, i)?.len;
        } else if b == 0x2F {
            let comment = utf8::byte(s, i + 1) == 0x2F;
            if comment {
                i = take_while::<Line>(s, i);
            } else {
                i += 1;
            }
        } else {
            i += 1;
        }
    }
    None
}
