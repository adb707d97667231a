// Words of bytes, low byte first.
ghost use Rattle.std.specs.Prelude.{◌≤◌, ◌≡◌, length, get_or};
ghost use Rattle.files.specs.Word.{word_at, words_of};

// The byte at a place, and past the end 0.
fn byte(s: &[u8], i: usize) -> u8
    ensures { result ≡ get_or s.now i 0 }
{
    s.get(i).copied().unwrap_or(0)
}

// The word whose four bytes begin at a place. A byte past the end is 0.
pub fn word(s: &[u8], at: usize) -> u32
    ensures { result ≡ word_at s.now at }
{
    if s.len() <= at {
        return 0;
    }
    u32::from_le_bytes([
        byte(s, at),
        byte(s, at + 1),
        byte(s, at + 2),
        byte(s, at + 3),
    ])
}

// The words of some bytes, as many as there is room for.
pub fn take_words(bytes: &[u8], words: &mut [u32])
    ensures { words.new ≡ words_of bytes.now (length words.old) }
{
    for (i, slot) in words.iter_mut().enumerate() {
        *slot = word(bytes, 4 * i);
    }
}
