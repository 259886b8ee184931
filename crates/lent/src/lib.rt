// A list of items in memory that the caller lends, with room for as many as there are slots.
#![tactic(auto)]

mod lent;

pub use lent::Lent;
