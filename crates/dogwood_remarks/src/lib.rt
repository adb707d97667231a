// The comments between statements.
// An inner crate: the crates above it have established what its functions ask.
#![tactic(auto)]

mod remark;

pub use remark::put_remarks;
