// The whole call: a source formatted by its outline.
ghost use Rattle.std.specs.Prelude.{◌≡◌};
ghost use Rattle.dogwood_rules.specs.Utf8.{text_of};
ghost use Rattle.dogwood_rules.specs.Token.{words_of};
ghost use Rattle.dogwood_rules.specs.Layout.{house};
ghost use Rattle.dogwood_rules.specs.Source.{source_of, cut_into};
ghost use Rattle.dogwood_rules.specs.Promises.{Answered};
ghost use Rattle.dogwood_outline.specs.Pass.{placed_in};
ghost use Rattle.dogwood_formatter.specs.Numbers.{number, place, length, reason_number, reason_place};
ghost use Rattle.dogwood_formatter.specs.Settled.{Given, Settled};

use crate::offer::{offer, offer_file};
use dogwood_layout::Page;
use dogwood_outline::{Objection, judge};
use dogwood_rows::WORDS;
use dogwood_syntax::{NotTokenized, tokenize};
use utf8::split_bom;

// The page of document 01.
const PAGE: Page = Page {
    width: 80,
    indent: 2,
};

// Why a source is handed back.
#[derive(Clone, Copy, Debug, PartialEq, Eq)]
pub enum Reason {
    // Where a string without end begins.
    Unended(usize),
    // What its outline or its text is refused for.
    Objected(Objection),
}

// Why a source is not laid out.
#[derive(Clone, Copy, Debug, PartialEq, Eq)]
pub enum NotFormatted {
    // It is handed back, in so many bytes.
    HandedBack(Reason, usize),
    TooLong,
    // Where the first bad character begins.
    NotUtf8(usize),
    // How many tokens the table has no room for.
    Small(usize),
    // How many bytes the output has no room for.
    NoRoom(usize),
}

// Hands a source back, if there is room for it.
fn hand_back(output: &mut [u8], source: &[u8], why: Reason) -> Result<usize, NotFormatted>
    ensures { Given (reason_number why) (reason_place why) source.now output.old result output.new }
{
    let len = offer(output, source);
    if output.len() < len {
        return Err(NotFormatted::NoRoom(len));
    }
    Err(NotFormatted::HandedBack(why, len))
}

// Formats a source whose tokens stand in a table.
fn format_tokens(
    output: &mut [u8],
    source: &[u8],
    outline: &[u32],
    table: &[u32],
) -> Result<usize, NotFormatted>
    requires { (source_of source.now ≡ cut_into (placed_in (text_of source.now))) × (table.now ≡ words_of (placed_in (text_of source.now))) }
    ensures { Settled source.now outline.now output.old result output.new }
{
    let (_, text) = split_bom(source);
    if let Err(objection) = judge(text, table, outline) {
        return hand_back(output, source, Reason::Objected(objection));
    }
    let size = offer_file(output, source, outline, table, PAGE);
    if output.len() < size {
        return Err(NotFormatted::NoRoom(size));
    }
    Ok(size)
}

// Formats a source by its outline, its tokens into a table and its layout into an output, and answers how many bytes that has.
pub fn format_policies(
    source: &[u8],
    outline: &[u32],
    table: &mut [u32],
    output: &mut [u8],
) -> Result<usize, NotFormatted>
    ensures { Answered house source.now outline.now table.old output.old (number result) (place result) (length result) table.new output.new }
{
    match tokenize(source, table) {
        Ok(tokens) => format_tokens(output, source, outline, &table[..WORDS * tokens]),
        Err(NotTokenized::Unended(place)) => hand_back(output, source, Reason::Unended(place)),
        Err(NotTokenized::TooLong) => Err(NotFormatted::TooLong),
        Err(NotTokenized::NotUtf8(place)) => Err(NotFormatted::NotUtf8(place)),
        Err(NotTokenized::Small(tokens)) => Err(NotFormatted::Small(tokens)),
    }
}
