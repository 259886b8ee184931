// The table: a store that keeps one slot for each path, in slots that the caller lends.
#![tactic(auto)]

ghost use Rattle.store.specs.Meaning.{Sound};
ghost use Rattle.table.specs.Slots.{slots_meaning};

mod slot;
mod table_store;

use lent::Lent;
pub use slot::TableSlot;

// The pairs in order of first arrival; there are as many places as slots.
#[derive(Drop)]
pub struct Table<'a, K> {
    slots: Lent<'a, TableSlot<K>>,
    ghost sound: { Sound (slots_meaning slots) },
}
