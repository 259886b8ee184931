ghost use Rattle.std.specs.Prelude.{◌≡◌, List, [], ◌∷◌, length, nat_lt, slice_index_or, slice_set};
ghost use Rattle.grounds.specs.Grounds.{by_number};
ghost use Rattle.store.specs.Meaning.{Meaning, AllSound, no_store, count_of, place_of, path_at, entry_at, join_answer, join_of};

use crate::store::{Readable, Store};
use entries::Joinable;
use grounds::Ground;
use names::Path;

// The stores of a ring, told by their numbers from 0. They may be of different builds.
// A number past the end answers as an empty store without places, and changes nothing.
pub trait Bank<K: Joinable> {
    // what each store means, in the order of their numbers
    ghost meanings: { Self → List (Meaning K) };

    // each of them is sound
    ghost sound: { (s : Self) → AllSound (meanings s) };

    // Whether there is a store of that number.
    fn has(&self, number: usize) -> bool
        ensures { result ≡ nat_lt number (length (meanings self.now)) };

    // How many pairs the store holds.
    fn count(&self, number: usize) -> usize
        ensures { result ≡ count_of (slice_index_or (meanings self.now) number no_store) };

    // How many pairs the store has room for in all.
    fn places(&self, number: usize) -> usize
        ensures { result ≡ (slice_index_or (meanings self.now) number no_store).places };

    // The place of a path in the store, if it is held there.
    fn find(&self, number: usize, path: &Path) -> Option<usize>
        ensures { result ≡ place_of (slice_index_or (meanings self.now) number no_store) path.now };

    // The path at a place of the store.
    fn path_at(&self, number: usize, place: usize) -> Path
        ensures { result ≡ path_at (slice_index_or (meanings self.now) number no_store) place };

    // The entry at a place of the store.
    fn entry_at(&self, number: usize, place: usize) -> K
        ensures { result ≡ entry_at K.Joinable.empty (slice_index_or (meanings self.now) number no_store) place };

    // Joins the entry at the path in the store.
    fn join(&mut self, number: usize, path: Path, entry: K) -> Result<(), Ground>
        ensures answer { by_number result ≡ join_answer (slice_index_or (meanings self.old) number no_store) path }
        ensures after { meanings self.new ≡ slice_set (meanings self.old) number (join_of K.Joinable.joined (slice_index_or (meanings self.old) number no_store) path entry) };
}

// The end of a bank: no store.
#[derive(Drop)]
pub struct NoMore;

impl<K: Joinable> Bank<K> for NoMore {
    ghost meanings = { λ _. [] };

    ghost sound = { λ _. tt };

    fn has(&self, _number: usize) -> bool {
        false
    }

    fn count(&self, _number: usize) -> usize {
        0
    }

    fn places(&self, _number: usize) -> usize {
        0
    }

    fn find(&self, _number: usize, _path: &Path) -> Option<usize> {
        None
    }

    fn path_at(&self, _number: usize, _place: usize) -> Path {
        Path::NONE
    }

    fn entry_at(&self, _number: usize, _place: usize) -> K {
        K::blank()
    }

    fn join(&mut self, _number: usize, _path: Path, _entry: K) -> Result<(), Ground> {
        Err(Ground::StoreFull)
    }
}

// A store and the stores after it. Each question is asked anew of the one or the others: a function that took the question
// as a closure would be longer than the seven methods are, and a `dyn` of a trait with a parameter has no proof.
impl<K: Joinable, S: Store<K>, R: Bank<K>> Bank<K> for (S, R) {
    ghost meanings = { λ s. S.Readable.meaning s.0 ∷ R.Bank.meanings s.1 };

    ghost sound = { λ s. (S.Readable.sound s.0, R.Bank.sound s.1) };

    fn has(&self, number: usize) -> bool {
        if number == 0 {
            true
        } else {
            self.1.has(number - 1)
        }
    }

    fn count(&self, number: usize) -> usize {
        if number == 0 {
            self.0.count()
        } else {
            self.1.count(number - 1)
        }
    }

    fn places(&self, number: usize) -> usize {
        if number == 0 {
            self.0.places()
        } else {
            self.1.places(number - 1)
        }
    }

    fn find(&self, number: usize, path: &Path) -> Option<usize> {
        if number == 0 {
            self.0.find(path)
        } else {
            self.1.find(number - 1, path)
        }
    }

    fn path_at(&self, number: usize, place: usize) -> Path {
        if number == 0 {
            self.0.path_at(place)
        } else {
            self.1.path_at(number - 1, place)
        }
    }

    fn entry_at(&self, number: usize, place: usize) -> K {
        if number == 0 {
            self.0.entry_at(place)
        } else {
            self.1.entry_at(number - 1, place)
        }
    }

    fn join(&mut self, number: usize, path: Path, entry: K) -> Result<(), Ground> {
        if number == 0 {
            self.0.join(path, entry)
        } else {
            self.1.join(number - 1, path, entry)
        }
    }
}
