// Testing an outline alone: 11, 12, 1, 13 as tokenising alone has them, then 4, else 0.
ghost use Rattle.dogwood_rules.specs.Promises.{Tests};
ghost use Rattle.dogwood_outline.specs.Numbers.{number, value, IsNotTokenized};

use crate::fitting::fit;
use dogwood_rows::WORDS;
use dogwood_syntax::{NotTokenized, tokenize};
use utf8::split_bom;

// Why an outline is not found to fit.
#[derive(Clone, Copy, Debug, PartialEq, Eq)]
pub enum NotFitting {
    // Its source has no tokens, or the table no room for them.
    NotTokenized(NotTokenized),
    Misfit,
}

impl From<NotTokenized> for NotFitting {
    ghost from_gives = { IsNotTokenized };

    fn from(reason: NotTokenized) -> NotFitting {
        NotFitting::NotTokenized(reason)
    }
}

// The tokens of a source into a table, and whether the outline fits its text. The table stays as it is unless it is Ok or Misfit.
pub fn test_outline(source: &[u8], outline: &[u32], table: &mut [u32]) -> Result<(), NotFitting>
    ensures { Tests source.now outline.now table.old (number result) (value result) table.new }
{
    let tokens = tokenize(source, table)?;
    let (_, text) = split_bom(source);
    if !fit(text, &table[..WORDS * tokens], outline) {
        return Err(NotFitting::Misfit);
    }
    Ok(())
}
