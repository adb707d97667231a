// What a token is, and the word that a table has for it.
ghost use Rattle.dogwood_rows.specs.Kinds.{IsWordOf, IsKindOf};

// In the order of the words, which count from 0.
#[derive(Clone, Copy, PartialEq, Eq)]
pub enum Kind {
    Whitespace,
    Comment,
    String,
    Identifier,
    Number,
    Symbol,
    Other,
}

impl From<Kind> for u32 {
    ghost from_gives = { IsWordOf };

    fn from(kind: Kind) -> u32 {
        kind as u32
    }
}

// A word that no kind has is taken for Other, as the layout takes it.
impl From<u32> for Kind {
    ghost from_gives = { IsKindOf };

    fn from(word: u32) -> Kind {
        match word {
            0 => Kind::Whitespace,
            1 => Kind::Comment,
            2 => Kind::String,
            3 => Kind::Identifier,
            4 => Kind::Number,
            5 => Kind::Symbol,
            _ => Kind::Other,
        }
    }
}
