ghost use Rattle.std.specs.Prelude.{◌≡◌};
ghost use Rattle.grounds.specs.Grounds.{by_number};
ghost use Rattle.store.specs.Meaning.{Meaning, Sound, count_of, place_of, path_at, entry_at, join_answer, join_of};

use entries::Joinable;
use grounds::Ground;
use names::Path;

// The questions that a store answers. They change nothing.
pub trait Readable<K: Joinable> {
    // what the store means: its pairs in order of first arrival, and its places
    ghost meaning: { Self → Meaning K };

    // no path stands twice in it, and it has no more pairs than places
    ghost sound: { (s : Self) → Sound (meaning s) };

    // How many pairs are held.
    fn count(&self) -> usize
        ensures { result ≡ count_of (meaning self.now) };

    // How many pairs there is room for in all.
    fn places(&self) -> usize
        ensures { result ≡ (meaning self.now).places };

    // The place of a path, if it is held.
    fn find(&self, path: &Path) -> Option<usize>
        ensures { result ≡ place_of (meaning self.now) path.now };

    // The path at a place; `Path::NONE` where the place is not held.
    fn path_at(&self, place: usize) -> Path
        ensures { result ≡ path_at (meaning self.now) place };

    // The entry at a place; the blank one where the place is not held.
    fn entry_at(&self, place: usize) -> K
        ensures { result ≡ entry_at K.Joinable.empty (meaning self.now) place };
}

// A store: the questions, and its one change.
pub trait Store<K: Joinable>: Readable<K> {
    // Joins the entry at the path: at the path's place if it is held, else at the end.
    // A new path is refused where every place is held, and then nothing changes.
    fn join(&mut self, path: Path, entry: K) -> Result<(), Ground>
        ensures answer { by_number result ≡ join_answer (Self.Readable.meaning self.old) path }
        ensures after { Self.Readable.meaning self.new ≡ join_of K.Joinable.joined (Self.Readable.meaning self.old) path entry };
}
