ghost use Rattle.std.specs.Prelude.{◌≡◌, length, position};
ghost use Rattle.names.specs.Paths.{same_path};
ghost use Rattle.store.specs.Meaning.{empty_store};
ghost use Rattle.table.specs.Tables.{table_meaning, table_sound};

use crate::Table;
use crate::slot::TableSlot;
use entries::Joinable;
use grounds::Ground;
use lent::Lent;
use names::Path;
use store::{Readable, Store};

impl<'a, K> Table<'a, K> {
    // An empty table over the slots, whatever they held.
    pub fn new(slots: &'a mut [TableSlot<K>]) -> Table<'a, K>
        ensures { table_meaning result ≡ empty_store (length slots.old) }
    {
        Table {
            slots: Lent::new(slots),
        }
    }
}

// The place of the first slot that has the path. Over the slice alone, since in the trait's method its proof did not close.
fn first_with<K>(slots: &[TableSlot<K>], path: &Path) -> Option<usize>
    ensures { result ≡ position (λ slot. same_path slot.path path.now) slots.now }
{
    slots.iter().position(|slot| slot.path == *path)
}

impl<'a, K: Joinable> Readable<K> for Table<'a, K> {
    ghost meaning = { table_meaning };

    ghost sound = { table_sound };

    fn count(&self) -> usize {
        self.slots.len()
    }

    fn places(&self) -> usize {
        self.slots.places()
    }

    fn find(&self, path: &Path) -> Option<usize> {
        first_with(self.slots.as_slice(), path)
    }

    fn path_at(&self, place: usize) -> Path {
        self.slots.get(place).map_or(Path::NONE, |slot| slot.path)
    }

    fn entry_at(&self, place: usize) -> K {
        self.slots.get(place).map_or(K::blank(), |slot| slot.entry)
    }
}

impl<'a, K: Joinable> Store<K> for Table<'a, K> {
    fn join(&mut self, path: Path, entry: K) -> Result<(), Ground> {
        match self.find(&path) {
            Some(at) => {
                let slot = self.slots.as_slice()[at];
                self.slots.set(at, slot.joined(entry));
                Ok(())
            }
            None => self
                .slots
                .push(TableSlot { path, entry })
                .map_err(|_| Ground::StoreFull),
        }
    }
}
