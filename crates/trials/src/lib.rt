// Trials: the edge cases and the errors that a test must catch (docs/RULES.md, "Edge cases"), run on the built code.
// Each trial is a table of what is asked and what is due.
#![tactic(auto)]

#[cfg(test)]
mod asking;
#[cfg(test)]
mod labels;
#[cfg(test)]
mod making;
#[cfg(test)]
mod rings;
#[cfg(test)]
mod stores;
#[cfg(test)]
mod whole_runs;
