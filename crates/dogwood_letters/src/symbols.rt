// Symbols, of two characters and of one.
ghost use Rattle.std.specs.Prelude.{◌≡◌};
ghost use Rattle.dogwood_rules.specs.Token.{single, double};
ghost use Rattle.dogwood_letters.specs.Promises.{SymbolIs};

// One of the symbols of one character.
#[tactic(auto, using(std::proofs::lemmas::Bool::Decides::nat_tests), unfolding(dogwood_rules::specs::Token::single))]
pub(crate) fn is_single(c: u32) -> bool
    ensures { result ≡ single c }
{
    matches!(c, 0x21 | 0x25 | 0x28..=0x2F | 0x3A..=0x40 | 0x5B | 0x5D | 0x7B | 0x7D)
}

// One of the symbols of two characters.
#[tactic(auto, using(std::proofs::lemmas::Bool::Decides::nat_tests), unfolding(dogwood_rules::specs::Token::double))]
pub(crate) fn is_double(a: u32, b: u8) -> bool
    ensures { result ≡ double a b }
{
    match b {
        b'=' => matches!(a, 0x21 | 0x3C | 0x3D | 0x3E),
        b':' | b'&' | b'|' => a == u32::from(b),
        _ => false,
    }
}

// The length of the symbol that a character and the byte after it begin with.
#[tactic(auto, using(std::proofs::lemmas::Bool::Decides::nat_tests), unfolding(crate::specs::Symbol::symbol_len))]
pub fn symbol_len(a: u32, b: u8) -> Option<usize>
    ensures { SymbolIs a b result }
{
    if is_double(a, b) {
        Some(2)
    } else if is_single(a) {
        Some(1)
    } else {
        None
    }
}
