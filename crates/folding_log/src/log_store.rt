ghost use Rattle.std.specs.Prelude.{◌≡◌, ◌/◌, ◌<◌, length};
ghost use Rattle.store.specs.Meaning.{empty_store};
ghost use Rattle.store.specs.Laws.{onto};
ghost use Rattle.folding_log.specs.Slots.{place_under, path_under, joined_under, seat, log_pairs};
ghost use Rattle.folding_log.specs.Logs.{log_meaning, log_sound};

use crate::Log;
use crate::fold::fold;
use crate::slot::LogSlot;
use entries::Joinable;
use grounds::Ground;
use lent::Lent;
use names::Path;
use store::{Readable, Store};

impl<'a, K: Joinable> Log<'a, K> {
    // An empty log over the slots, whatever they held.
    pub fn new(slots: &'a mut [LogSlot<K>]) -> Log<'a, K>
        ensures { log_meaning K.Joinable.joined result ≡ empty_store (length slots.old / 2) }
    {
        Log {
            slots: Lent::new(slots),
            held: 0,
        }
    }

    // Folds the slots if they are used up.
    fn make_room(&mut self)
        ensures places { self.new.slots.places ≡ self.old.slots.places }
        ensures held { self.new.held ≡ self.old.held }
        ensures pairs { log_pairs K.Joinable.joined self.new.slots.items ≡ log_pairs K.Joinable.joined self.old.slots.items }
        ensures free { self.old.held < self.old.slots.places → length self.new.slots.items < self.new.slots.places }
    {
        if self.slots.len() >= self.slots.places() {
            fold(&mut self.slots);
        }
    }

    // The place for the path that was looked for, and how many paths are held with it.
    // A new path comes last; there is no place for it when every place is held.
    fn place_for(&self, found: Option<usize>) -> Option<(usize, usize)>
        ensures { result ≡ seat found self.now.held (self.now.slots.places / 2) }
    {
        match found {
            Some(place) => Some((place, self.held)),
            None if self.held == self.slots.places() / 2 => None,
            None => Some((self.held, self.held + 1)),
        }
    }
}

// The place in the first slot that has the path.
fn place_under<K>(slots: &[LogSlot<K>], path: &Path) -> Option<usize>
    ensures { result ≡ place_under slots.now path.now }
{
    slots
        .iter()
        .find(|slot| slot.path == *path)
        .map(|slot| slot.place)
}

// The path in the first slot that has the place.
fn path_under<K>(slots: &[LogSlot<K>], place: usize) -> Option<Path>
    ensures { result ≡ path_under slots.now place }
{
    slots
        .iter()
        .find(|slot| slot.place == place)
        .map(|slot| slot.path)
}

// An entry joined to the one before it, if there is one.
fn onto<K: Joinable>(before: Option<K>, entry: K) -> K
    ensures { result ≡ onto K.Joinable.joined before entry }
{
    before.map_or(entry, |old| old.join(entry))
}

// The join of the entries in the slots that have the place.
fn joined_under<K: Joinable>(slots: &[LogSlot<K>], place: usize) -> Option<K>
    ensures { result ≡ joined_under K.Joinable.joined slots.now place }
{
    slots
        .iter()
        .filter(|slot| slot.place == place)
        .map(|slot| slot.entry)
        .fold(None, |whole, entry| Some(onto(whole, entry)))
}

impl<'a, K: Joinable> Readable<K> for Log<'a, K> {
    ghost meaning = { log_meaning K.Joinable.joined };

    ghost sound = { log_sound K.Joinable.joined };

    fn count(&self) -> usize {
        self.held
    }

    fn places(&self) -> usize {
        self.slots.places() / 2
    }

    fn find(&self, path: &Path) -> Option<usize> {
        place_under(self.slots.as_slice(), path)
    }

    fn path_at(&self, place: usize) -> Path {
        path_under(self.slots.as_slice(), place).unwrap_or(Path::NONE)
    }

    fn entry_at(&self, place: usize) -> K {
        joined_under(self.slots.as_slice(), place).unwrap_or(K::blank())
    }
}

impl<'a, K: Joinable> Store<K> for Log<'a, K> {
    fn join(&mut self, path: Path, entry: K) -> Result<(), Ground> {
        let found = self.find(&path);
        let (place, held) = self.place_for(found).ok_or(Ground::StoreFull)?;
        self.make_room();
        self.held = held;
        self.slots
            .push(LogSlot { path, entry, place })
            .map_err(|_| Ground::StoreFull)
    }
}
