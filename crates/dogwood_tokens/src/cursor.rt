// A walk over the tokens of a text: a cursor by value that hands itself on.
ghost use Rattle.std.specs.Prelude.{◌≡◌};
ghost use Rattle.dogwood_tokens.specs.Cursor.{next_of};

use crate::token::{Lexeme, token_at};
use dogwood_rows::Kind;

// A token: its kind, and its bounds in the text.
#[derive(Clone, Copy)]
pub struct Token {
    pub kind: Kind,
    pub start: usize,
    pub end: usize,
}

// A place in a text, from which its tokens are read one after the other.
#[derive(Clone, Copy)]
pub struct Cursor {
    pub at: usize,
}

// What a reading gives: a token with the cursor behind it, the place of a string without end, or the end.
#[derive(Clone, Copy)]
pub enum Step {
    Token(Token, Cursor),
    Unended(usize),
    Ended,
}

impl Cursor {
    // At the start of a text.
    pub fn new() -> Self
        ensures { result.at ≡ 0 }
    {
        Cursor { at: 0 }
    }

    // The token at the cursor.
    pub fn next(self, text: &[u8]) -> Step
        ensures { result ≡ next_of text.now self.at }
    {
        let at = self.at;
        match token_at(text, at) {
            Lexeme::Token(kind, end) => {
                Step::Token(
                    Token {
                        kind,
                        start: at,
                        end,
                    },
                    Cursor { at: end },
                )
            }
            Lexeme::NoEnd => Step::Unended(at),
            Lexeme::End => Step::Ended,
        }
    }
}
