// The classes of characters of which a token may be a run.
ghost use Rattle.std.specs.Prelude.{ℕ, Bool};
ghost use Rattle.dogwood_rules.specs.Token.{white, wordly, digit, other};
ghost use Rattle.dogwood_letters.specs.Promises.{ClassIs, in_line};

use dogwood_letters::{is_digit, is_line, is_other, is_space, is_word};

// A class of characters, told by a plain test.
pub trait Class {
    ghost members: { ℕ → Bool };

    fn has(c: u32) -> bool
        ensures { ClassIs members c result };
}

#[derive(Clone, Copy)]
pub struct Space;

#[derive(Clone, Copy)]
pub struct Word;

#[derive(Clone, Copy)]
pub struct Digit;
// What may stand in a comment.
#[derive(Clone, Copy)]
pub struct Line;

#[derive(Clone, Copy)]
pub struct Other;

impl Class for Space {
    ghost members = { white };

    fn has(c: u32) -> bool {
        is_space(c)
    }
}

impl Class for Word {
    ghost members = { wordly };

    fn has(c: u32) -> bool {
        is_word(c)
    }
}

impl Class for Digit {
    ghost members = { digit };

    fn has(c: u32) -> bool {
        is_digit(c)
    }
}

impl Class for Line {
    ghost members = { in_line };

    fn has(c: u32) -> bool {
        is_line(c)
    }
}

impl Class for Other {
    ghost members = { other };

    fn has(c: u32) -> bool {
        is_other(c)
    }
}
