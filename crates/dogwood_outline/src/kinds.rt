// The kind of a record.
ghost use Rattle.std.specs.Prelude.{◌≡◌, ◌+◌, ◌*◌, length, get_or};
ghost use Rattle.dogwood_rules.specs.Outline.{kind_ok};
ghost use Rattle.dogwood_words.specs.Records.{statement_at};

// The kinds of a record.
const DEFINITION: u32 = 0;

const POLICY: u32 = 1;

// Whether a record has a kind, and a definition one part that is its span.
pub(crate) fn kind_fits(record: &[u32]) -> bool
    requires { length record.now ≡ 4 + 2 * get_or record.now 3 0 }
    ensures { result ≡ kind_ok (statement_at record.now 0) }
{
    match record {
        [POLICY, ..] => true,
        [DEFINITION, start, end, 1, first, last] => start == first && end == last,
        _ => false,
    }
}
