// Reading a name: which entries are shown, what a lookup answers, and the growth of a directory above another
// (docs/RULES.md, "Reading a name" and "Growth").
#![tactic(auto)]

mod growth;
mod lookups;
mod shown;

pub use growth::{growth_puts_a_root_above_an_old_one, is_used, lookups_read_alike};
pub use lookups::{Answer, Refusal, lookup};
pub use shown::{is_shown, shown_content};
