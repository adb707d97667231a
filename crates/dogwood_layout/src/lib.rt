// What the layout speaks of: definitions of its pieces and the laws about them. One function, which reads a token's bytes.
#![tactic(auto)]

ghost use Rattle.dogwood_layout.specs.View.{Held};
ghost use Rattle.dogwood_layout.specs.Facts.{Held-prop};

// A token's kind, and its bounds in the text.
#[derive(Clone, Copy)]
pub struct Entry {
    pub kind: u32,
    pub start: u32,
    pub end: u32,
}

// A text and the row of a token that it holds: the token's bounds lie in the text, and it spells the bytes between them.
#[derive(Clone, Copy)]
pub struct Lexeme<'a> {
    pub text: &'a [u8],
    pub row: Entry,
    ghost held: { Held text.now row } by { Held-prop text.now row },
}

impl<'a> Lexeme<'a> {
    ghost use Rattle.dogwood_layout.specs.Promises.{BytesAre};

    // What the token spells.
    pub fn bytes(self) -> &'a [u8]
        ensures { BytesAre self.entry.text.now self.entry.row result.now }
    {
        &self.text[self.row.start as usize..self.row.end as usize]
    }
}

// The width of a text and the column behind it.
#[derive(Clone, Copy)]
pub struct Span {
    pub width: usize,
    pub col: usize,
}

// A part of a table, from word start to word end.
#[derive(Clone, Copy)]
pub struct Part {
    pub start: usize,
    pub end: usize,
}

// How wide a line may be, and how many spaces a level is indented by.
#[derive(Clone, Copy)]
pub struct Page {
    pub width: usize,
    pub indent: usize,
}

// How many bytes were written, and how many LFs are due before what follows.
#[derive(Clone, Copy)]
pub struct Written {
    pub count: usize,
    pub feeds: usize,
}
