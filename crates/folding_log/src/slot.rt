ghost use Rattle.std.specs.Prelude.{◌≡◌};

use entries::Joinable;
use names::Path;

// Memory for one pair, and the place that its path has in the store.
#[derive(Clone, Copy, Debug, PartialEq, Eq)]
pub struct LogSlot<K> {
    pub path: Path,
    pub entry: K,
    pub place: usize,
}

impl<K: Joinable> LogSlot<K> {
    ghost use Rattle.folding_log.specs.Slots.{blank_slot};

    // What lent memory may hold before a pair is put there: no path, the blank entry, and place 0.
    pub fn blank() -> LogSlot<K>
        ensures { result ≡ blank_slot K.Joinable.empty }
    {
        LogSlot {
            path: Path::NONE,
            entry: K::blank(),
            place: 0,
        }
    }

    // The slot with an entry joined to its own.
    pub(crate) fn joined(self, entry: K) -> LogSlot<K>
        ensures path { result.path ≡ self.path }
        ensures entry { result.entry ≡ K.Joinable.joined self.entry entry }
        ensures place { result.place ≡ self.place }
    {
        LogSlot {
            entry: self.entry.join(entry),
            ..self
        }
    }
}
