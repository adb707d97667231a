// A plain test for each class of characters.
ghost use Rattle.std.specs.Prelude.{◌≡◌};
ghost use Rattle.utf8.specs.Utf8.{within};
ghost use Rattle.dogwood_rules.specs.Token.{white, letter, digit, wordly, other};
ghost use Rattle.dogwood_letters.specs.Promises.{ClassIs, in_line};

use crate::symbols::is_single;

// White space, the Unicode property White_Space.
#[tactic(auto, using(std::proofs::lemmas::Bool::Decides::nat_tests), unfolding(dogwood_rules::specs::Token::white))]
pub fn is_space(c: u32) -> bool
    ensures { ClassIs white c result }
{
    matches!(
        c,
        0x09..=0x0D
            | 0x20
            | 0x85
            | 0xA0
            | 0x1680
            | 0x2000..=0x200A
            | 0x2028
            | 0x2029
            | 0x202F
            | 0x205F
            | 0x3000
    )
}

// An ASCII letter or _.
#[tactic(auto, using(std::proofs::lemmas::Bool::Decides::nat_tests), unfolding(dogwood_rules::specs::Token::letter))]
pub fn is_letter(c: u32) -> bool
    ensures { ClassIs letter c result }
{
    matches!(c, 0x41..=0x5A | 0x61..=0x7A | 0x5F)
}

#[tactic(auto, using(std::proofs::lemmas::Bool::Decides::nat_tests), unfolding(dogwood_rules::specs::Token::digit))]
pub fn is_digit(c: u32) -> bool
    ensures { ClassIs digit c result }
{
    matches!(c, 0x30..=0x39)
}

#[tactic(auto, using(std::proofs::lemmas::Bool::Decides::nat_tests), unfolding(dogwood_rules::specs::Token::wordly))]
pub fn is_word(c: u32) -> bool
    ensures { ClassIs wordly c result }
{
    is_letter(c) || is_digit(c)
}

// What a comment may go on with: only LF and CR end it.
#[tactic(auto, using(std::proofs::lemmas::Bool::Decides::nat_tests), unfolding(dogwood_rules::specs::Token::line_end))]
pub fn is_line(c: u32) -> bool
    ensures { ClassIs in_line c result }
{
    !matches!(c, 0x0A | 0x0D)
}

// What an Other may go on with: `&` and `|` do not end it.
#[tactic(auto, using(std::proofs::lemmas::Bool::Decides::nat_tests), unfolding(dogwood_rules::specs::Token::other))]
pub fn is_other(c: u32) -> bool
    ensures { ClassIs other c result }
{
    !(is_space(c) || c == 0x22 || is_word(c) || is_single(c))
}
