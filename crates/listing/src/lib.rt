// Listing a directory: its shown paths with their contents, in path order (docs/RULES.md, "Reading a name").
#![tactic(auto)]

mod listed;
mod lists;

pub use listed::{Listed, what_is_listed_is_compared_by_its_path};
pub use lists::{list, listings_read_alike};
