// The test of fit, the verdict of answers 4, 2, 3 and 5, and testing an outline alone.
#![tactic(auto)]

mod fitting;
mod judging;
mod kinds;
mod testing;

pub use judging::{Objection, judge};
pub use testing::{NotFitting, test_outline};
