// Runs: lists of calls on a ring of recipe entries just opened, and what is promised of every one of them
// (docs/RULES.md, "What copies agree on").
#![tactic(auto)]

mod calling;
mod ran;
mod running;

pub use calling::make_call;
pub use ran::Ran;
pub use running::run;
