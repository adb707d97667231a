// One token at a place: the first of the seven rules that applies decides.
ghost use Rattle.std.specs.Prelude.{◌≡◌, ◌+◌, ◌≤◌, ◌<◌, length, get_or};
ghost use Rattle.dogwood_tokens.specs.Token.{begins, token_at};

use dogwood_letters::{is_digit, is_letter, is_space, symbol_len};
use dogwood_rows::Kind;
use dogwood_scans::{Digit, Line, Other, Space, Word, string_end, take_while};
use utf8::Char;

// What stands at a place: a token of a kind, with its end; a string without end; or no character.
#[derive(Clone, Copy)]
pub(crate) enum Lexeme {
    // Its kind, and where it ends.
    Token(Kind, usize),
    NoEnd,
    End,
}

// The token that the byte a at a place begins, if a is a character.
#[tactic(auto, using(std::proofs::lemmas::Bool::Decides::nat_tests, dogwood_letters::proofs::SymbolLaws::symbol_most), unfolding(crate::specs::Token::begins))]
fn ascii_token(s: &[u8], at: usize, a: u8) -> Lexeme
    requires { at < length s.now }
    ensures { result ≡ begins s.now at a (get_or s.now (at + 1) 0) }
{
    let code = u32::from(a);
    if is_space(code) {
        return Lexeme::Token(Kind::Whitespace, take_while::<Space>(s, at));
    }
    if code == 0x22 {
        return match string_end(s, at + 1) {
            Some(end) => Lexeme::Token(Kind::String, end),
            None => Lexeme::NoEnd,
        };
    }
    let next = utf8::byte(s, at + 1);
    if code == 0x2F && next == 0x2F {
        return Lexeme::Token(Kind::Comment, take_while::<Line>(s, at));
    }
    if is_letter(code) {
        return Lexeme::Token(Kind::Identifier, take_while::<Word>(s, at));
    }
    if is_digit(code) {
        return Lexeme::Token(Kind::Number, take_while::<Digit>(s, at));
    }
    match symbol_len(code, next) {
        Some(n) => Lexeme::Token(Kind::Symbol, at + n),
        None => Lexeme::Token(Kind::Other, take_while::<Other>(s, at)),
    }
}

// The token that a character of several bytes begins: white space or an Other.
fn wide_token(s: &[u8], at: usize) -> Lexeme
    requires { 128 ≤ get_or s.now at 0 }
    ensures { result ≡ token_at s.now at }
{
    let Some(Char { code, len: _ }) = utf8::decode(s, at) else {
        return Lexeme::End;
    };
    if is_space(code) {
        return Lexeme::Token(Kind::Whitespace, take_while::<Space>(s, at));
    }
    Lexeme::Token(Kind::Other, take_while::<Other>(s, at))
}

// The token at a place.
pub(crate) fn token_at(s: &[u8], at: usize) -> Lexeme
    ensures { result ≡ token_at s.now at }
{
    if s.len() <= at {
        return Lexeme::End;
    }
    let a = s[at];
    if 0x80 <= a {
        return wide_token(s, at);
    }
    ascii_token(s, at, a)
}
