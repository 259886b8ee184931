// Stores: what one means, the interface that every build of one has, and a row of stores told by a number
// (docs/RULES.md, "Stores").
#![tactic(auto)]

mod bank;
mod laws;
mod one;
mod store;

pub use bank::{Bank, NoMore};
pub use laws::{
    every_store_holds_each_path_once_within_its_places, find_tells_the_one_place_of_a_path,
    joins_settle_their_own_path_alone,
};
pub use one::OneStore;
pub use store::{Readable, Store};
