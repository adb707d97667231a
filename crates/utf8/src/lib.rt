// UTF-8 as RFC 3629 has it: one character decoded at a place, and the first bad place of a text.
#![tactic(auto)]

ghost use Rattle.std.specs.Prelude.{◌≡◌, ◌+◌, ◌≤◌, true, length, get_or};
ghost use Rattle.dogwood_rules.specs.Utf8.{mark_of, text_of};
ghost use Rattle.dogwood_rules.specs.Utf8.{decode};
ghost use Rattle.utf8.specs.Told.{left_at};
ghost use Rattle.utf8.specs.Valid.{bad_from};
ghost use Rattle.utf8.specs.Utf8.{length_of, some_length, within, low_of, high_of, two_of, three_of, four_of, decode_at};

// A character: its code point, and its length in bytes.
#[derive(Clone, Copy)]
pub struct Char {
    pub code: u32,
    pub len: usize,
}

// How many bytes a character has that begins with b, by the one bits that lead.
fn sequence(b: u8) -> Option<usize>
    ensures { result ≡ some_length (length_of b) }
{
    let n = (!b).leading_zeros();
    if n == 0 {
        return Some(1);
    }
    if b < 0xC2 {
        return None;
    }
    if 0xF4 < b {
        return None;
    }
    Some(n as usize)
}

// A byte behind a character's first.
#[tactic(auto, using(std::proofs::lemmas::Bool::Decides::nat_tests))]
fn is_later(b: u8) -> bool
    ensures { result ≡ within 0x80 b 0xBF }
{
    matches!(b, 0x80..=0xBF)
}

// The second byte of a character of three or four: the first byte a narrows its range.
#[tactic(auto, using(std::proofs::lemmas::Bool::Decides::nat_tests), unfolding(crate::specs::Utf8::low_of, crate::specs::Utf8::high_of))]
fn is_second(a: u8, b: u8) -> bool
    ensures { result ≡ within (low_of a) b (high_of a) }
{
    match a {
        0xE0 => matches!(b, 0xA0..=0xBF),
        0xED => matches!(b, 0x80..=0x9F),
        0xF0 => matches!(b, 0x90..=0xBF),
        0xF4 => matches!(b, 0x80..=0x8F),
        _ => is_later(b),
    }
}

// The byte at i, or 0 past the end.
pub fn byte(s: &[u8], i: usize) -> u8
    ensures { result ≡ get_or s.now i 0 }
{
    s.get(i).copied().unwrap_or(0)
}

#[tactic(auto, using(std::proofs::lemmas::Bool::Decides::nat_tests), unfolding(crate::specs::Utf8::two_of))]
fn two(a: u8, b: u8) -> Option<Char>
    ensures { result ≡ two_of a b }
{
    if !is_later(b) {
        return None;
    }
    Some(Char {
        code: u32::from(a % 32) * 64 + u32::from(b % 64),
        len: 2,
    })
}

#[tactic(auto, using(std::proofs::lemmas::Bool::Decides::nat_tests), unfolding(crate::specs::Utf8::three_of))]
fn three(a: u8, b: u8, c: u8) -> Option<Char>
    ensures { result ≡ three_of a b c }
{
    if !(is_second(a, b) && is_later(c)) {
        return None;
    }
    Some(Char {
        code: u32::from(a % 16) * 4096 + u32::from(b % 64) * 64 + u32::from(c % 64),
        len: 3,
    })
}

#[tactic(auto, using(std::proofs::lemmas::Bool::Decides::nat_tests), unfolding(crate::specs::Utf8::four_of))]
fn four(a: u8, b: u8, c: u8, d: u8) -> Option<Char>
    ensures { result ≡ four_of a b c d }
{
    if !(is_second(a, b) && is_later(c) && is_later(d)) {
        return None;
    }
    Some(Char {
        code: u32::from(a % 8) * 262144
            + u32::from(b % 64) * 4096
            + u32::from(c % 64) * 64
            + u32::from(d % 64),
        len: 4,
    })
}

// The character at a place, with its length, or that none stands there.
pub fn decode(s: &[u8], at: usize) -> Option<Char>
    ensures { result ≡ decode_at s.now at }
{
    if s.len() <= at {
        return None;
    }
    let a = byte(s, at);
    match sequence(a)? {
        1 => Some(Char {
            code: u32::from(a),
            len: 1,
        }),
        2 => two(a, byte(s, at + 1)),
        3 => three(a, byte(s, at + 1), byte(s, at + 2)),
        _ => four(a, byte(s, at + 1), byte(s, at + 2), byte(s, at + 3)),
    }
}

// How many bytes are tried at once for being below 128.
const STRIDE: usize = 16;

// A place behind bytes below 128, each of which is a character.
fn ascii_end(s: &[u8], at: usize) -> usize
    ensures { (at ≤ result) × (bad_from s.now result ≡ bad_from s.now at) }
{
    let mut i = at;
    while i < s.len() && STRIDE <= s.len() - i && s[i..i + STRIDE].is_ascii() {
        i += STRIDE;
    }
    i
}

// The first place at which no character stands.
pub fn first_bad(s: &[u8]) -> Option<usize>
    ensures { result ≡ left_at (length s.now) (decode s.now).1 }
{
    let mut i = ascii_end(s, 0);
    while i < s.len() {
        if s[i] < 0x80 {
            i += 1;
        } else {
            let Some(Char { code: _, len }) = decode(s, i) else {
                return Some(i);
            };
            i = ascii_end(s, i + len);
        }
    }
    None
}

const MARK: [u8; 3] = [0xEF, 0xBB, 0xBF];

// The byte-order mark that a source begins with, if any, and the text behind it.
pub fn split_bom(src: &[u8]) -> (&[u8], &[u8])
    ensures mark { result.0.now ≡ mark_of src.now }
    ensures text { result.1.now ≡ text_of src.now }
{
    if src.starts_with(&MARK) {
        return src.split_at(MARK.len());
    }
    src.split_at(0)
}
