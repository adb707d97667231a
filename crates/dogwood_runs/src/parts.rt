// A run, and what cuts its inside into items.
ghost use Rattle.dogwood_layout.specs.View.{Ready};
ghost use Rattle.dogwood_layout.specs.Facts.{Ready-prop};

// A text and a part of its token table: each entry is whole, the text holds it, and no count goes over.
#[derive(Clone, Copy)]
pub struct Run<'a> {
    pub text: &'a [u8],
    pub table: &'a [u32],
    ghost ready: { Ready text.now table.now } by { Ready-prop text.now table.now },
}

// What cuts an inside into items: commas, or && and ||.
#[derive(Clone, Copy, PartialEq, Eq)]
pub enum Separator {
    Comma,
    AndOr,
}

impl Separator {
    ghost use Rattle.std.specs.Prelude.{◌≡◌};
    ghost use Rattle.dogwood_runs.specs.Separators.{set_numbered};

    // The set of a number.
    pub(crate) fn numbered(number: usize) -> Option<Separator>
        ensures { result ≡ set_numbered number }
    {
        match number {
            0 => Some(Separator::Comma),
            1 => Some(Separator::AndOr),
            _ => None,
        }
    }
}
