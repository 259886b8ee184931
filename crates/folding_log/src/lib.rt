// The log: a store that appends each pair, in slots that the caller lends, and folds them to one a path
// when they are used up.
#![tactic(auto)]

ghost use Rattle.std.specs.Prelude.{◌≡◌, ◌/◌, ◌≤◌, true, length};
ghost use Rattle.folding_log.specs.Slots.{arrivals, placed};

mod fold;
mod log_store;
mod slot;

use lent::Lent;
pub use slot::LogSlot;

// The pairs that came, in their order, several of them perhaps of one path, and how many paths they have.
// There are half as many places as slots, so that a fold always frees some.
#[derive(Drop)]
pub struct Log<'a, K> {
    slots: Lent<'a, LogSlot<K>>,
    held: usize,
    ghost fits: { length slots.items ≤ slots.places },
    ghost half: { held ≤ slots.places / 2 },
    ghost counted: { held ≡ length (arrivals slots.items) },
    ghost numbered: { placed (arrivals slots.items) slots.items ≡ true },
}
