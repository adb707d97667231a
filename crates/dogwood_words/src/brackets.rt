// Brackets and separators: a token is one by its kind and the byte at its start.
ghost use Rattle.std.specs.Prelude.{◌≡◌, leb};
ghost use Rattle.dogwood_words.specs.Brackets.{opening, closing, comma, and_or};
ghost use Rattle.dogwood_words.specs.Promises.{BracketIs};

use dogwood_rows::Kind;

// One of ( [ {.
#[tactic(auto, unfolding(crate::specs::Brackets::opening))]
pub fn opens(kind: u32, first: u8) -> bool
    ensures { BracketIs opening kind first result }
{
    kind == Kind::Symbol as u32 && matches!(first, b'(' | b'[' | b'{')
}

// One of ) ] }.
#[tactic(auto, unfolding(crate::specs::Brackets::closing))]
pub fn closes(kind: u32, first: u8) -> bool
    ensures { BracketIs closing kind first result }
{
    kind == Kind::Symbol as u32 && matches!(first, b')' | b']' | b'}')
}

// A comma.
#[tactic(auto, unfolding(crate::specs::Brackets::comma))]
pub fn is_comma(kind: u32, first: u8) -> bool
    ensures { BracketIs comma kind first result }
{
    kind == Kind::Symbol as u32 && first == b','
}

// && or ||.
#[tactic(auto, unfolding(crate::specs::Brackets::and_or))]
pub fn is_and_or(kind: u32, first: u8) -> bool
    ensures { BracketIs and_or kind first result }
{
    kind == Kind::Symbol as u32 && matches!(first, b'&' | b'|')
}

// Neither white space nor comment.
pub(crate) fn is_plain(kind: u32) -> bool
    ensures { result ≡ leb 2 kind }
{
    kind > Kind::Comment as u32
}
