//! Reads the results that a test program reports: an ATF result file or a TAP stream.
#![tactic(auto)]

mod claim_reader;
mod evidence;
mod line_parts;
mod line_steps;
mod open_line;
mod result_line;
mod tally;
mod tap_lines;
mod tap_reader;

pub use claim_reader::{ClaimReader, read_claim};
pub use evidence::{Claim, ClaimFault, Evidence, Tap, TapFault};
pub use tap_reader::{TapReader, read_tap};
