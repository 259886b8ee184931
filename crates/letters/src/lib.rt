// Letters between the copies of a ring, and the bag that they travel in (docs/RULES.md, "The ring").
#![tactic(auto)]

mod bag;
mod letter;

pub use bag::Bag;
pub use letter::{Letter, Tag};
