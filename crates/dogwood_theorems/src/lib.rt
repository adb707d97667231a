// The mission's promises, held against the call itself.
#![tactic(auto)]

ghost use Rattle.dogwood_theorems.specs.Calls.{Promised};

use dogwood_formatter::{NotFormatted, format_policies};

// The call with the promises for its contract: were the call's own contract weaker than they are, this would not be proved.
fn promised(
    source: &[u8],
    outline: &[u32],
    table: &mut [u32],
    output: &mut [u8],
) -> Result<usize, NotFormatted>
    ensures { Promised source.now outline.now output.old result output.new }
{
    format_policies(source, outline, table, output)
}
