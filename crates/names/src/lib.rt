// Names: labels, the paths made of them, and the stamps that date what is said under a path
// (docs/RULES.md, "Stamps, labels, paths").
#![tactic(auto)]

mod label;
mod path;
mod stamp;

pub use label::{Label, labels_are_equal_when_their_numbers_are};
pub use path::{Path, paths_are_compared_part_by_part};
pub use stamp::{Stamp, server_of, stamp_at};
