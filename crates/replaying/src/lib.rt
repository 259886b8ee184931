// The replay, as functions from an input to its report (docs/RULES.md, "Replay").
#![tactic(auto)]

mod answering;
mod findings;
mod input_lines;
mod laws;
mod opening;
mod replays;
mod reporting;

pub use laws::an_input_is_its_lines_each_ended_by_byte_10;
pub use replays::{LIMIT, replay};
