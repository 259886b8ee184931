// The report of a replay: what each line came to, and how a line of the report is written
// (docs/RULES.md, "Replay").
#![tactic(auto)]

mod finding;
mod line;
mod says;

pub use finding::{Finding, Gained, Outcome};
pub use line::ReportLine;
pub use says::Says;
