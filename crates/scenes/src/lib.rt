// Scenes: how the tours and the trials make names and entries, and how the tours note what was done.
#![tactic(auto)]

mod making;
mod notes;

pub use making::{path, said};
pub use notes::{Refused, done, read};
