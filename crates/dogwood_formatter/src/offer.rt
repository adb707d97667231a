// Bytes that are written whole where there is room for them, and else not at all.
ghost use Rattle.std.specs.Prelude.{◌≡◌, [], ◌++◌, length};
ghost use Rattle.dogwood_rules.specs.Utf8.{encode, mark_of, text_of};
ghost use Rattle.dogwood_rules.specs.Outline.{statements};
ghost use Rattle.dogwood_rules.specs.File.{pieces, join_pieces};
ghost use Rattle.dogwood_rules.proofs.Files.{AllSane};
ghost use Rattle.dogwood_layout.specs.View.{Ready};
ghost use Rattle.dogwood_layout.specs.Pieces.{settings, Bounded};
ghost use Rattle.dogwood_layout.specs.Places.{entries};
ghost use Rattle.dogwood_formatter.specs.Offers.{Offered};

use dogwood_layout::Page;
use dogwood_runs::Run;
use dogwood_statements::top_level_items;
use pen::put_all;
use utf8::split_bom;

// Writes some bytes if there is room for them, and answers how many they are.
pub(crate) fn offer(out: &mut [u8], bytes: &[u8]) -> usize
    ensures { Offered bytes.now out.old result out.new }
{
    if bytes.len() <= out.len() {
        return put_all(out, bytes);
    }
    bytes.len()
}

// Writes a source's mark and layout if there is room for them, and answers how many bytes they are.
pub(crate) fn offer_file(
    out: &mut [u8],
    source: &[u8],
    outline: &[u32],
    table: &[u32],
    page: Page,
) -> usize
    requires { Ready (text_of source.now) table.now × ((statements outline.now).1 ≡ []) × AllSane (pieces (statements outline.now).0 (entries (text_of source.now) table.now)) × Bounded page 0 (length table.now) }
    ensures { Offered (mark_of source.now ++ encode (join_pieces (settings page) (pieces (statements outline.now).0 (entries (text_of source.now) table.now)))) out.old result out.new }
{
    let (mark, text) = split_bom(source);
    let run = Run { text, table };
    let size = mark.len() + top_level_items(&mut [], run, outline, page);
    if out.len() < size {
        return size;
    }
    put_all(out, mark);
    mark.len() + top_level_items(&mut out[mark.len()..], run, outline, page)
}
