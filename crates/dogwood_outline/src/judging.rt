// Answers 4, 2, 3 and 5, in this order, of a text that stands behind its mark and of its tokens.
ghost use Rattle.dogwood_outline.specs.Verdicts.{number, place};
ghost use Rattle.dogwood_outline.specs.Judges.{JudgesIn};

use crate::fitting::fit;
use dogwood_searches::{deep_opener, first_comment, nothing_there};

// Why a text with its outline is not laid out.
#[derive(Clone, Copy, Debug, PartialEq, Eq)]
pub enum Objection {
    // The outline does not fit.
    Misfit,
    // Where the first comment inside a statement begins.
    Remarked(usize),
    // There is no statement and no comment.
    Empty,
    // The first opener that is nested too deep.
    Deep(usize),
}

// Judges any bytes by any words for their tokens.
pub fn judge(text: &[u8], table: &[u32], outline: &[u32]) -> Result<(), Objection>
    ensures { JudgesIn text.now table.now outline.now (number result) (place result) }
{
    if !fit(text, table, outline) {
        return Err(Objection::Misfit);
    }
    if let Some(place) = first_comment(table, outline) {
        return Err(Objection::Remarked(place));
    }
    if nothing_there(text, table, outline) {
        return Err(Objection::Empty);
    }
    if let Some(place) = deep_opener(text, table) {
        return Err(Objection::Deep(place));
    }
    Ok(())
}
