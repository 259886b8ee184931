// The kinds of entry: what a store asks of a kind, what a ring asks besides, and the two kinds that there are
// (docs/RULES.md, "Kinds of entry").
#![tactic(auto)]

mod kind;
mod recipe;
mod rights;

pub use kind::{Dated, Joinable};
pub use recipe::{Content, Recipe, recipes_are_compared_by_their_keys};
pub use rights::{Rights, the_latest_word_on_a_role_decides};
