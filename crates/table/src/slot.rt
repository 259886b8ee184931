ghost use Rattle.std.specs.Prelude.{◌≡◌};

use entries::Joinable;
use names::Path;

// Memory for one pair.
#[derive(Clone, Copy, Debug, PartialEq, Eq)]
pub struct TableSlot<K> {
    pub path: Path,
    pub entry: K,
}

impl<K: Joinable> TableSlot<K> {
    ghost use Rattle.table.specs.Slots.{blank_slot};

    // What lent memory may hold before a pair is put there: no path, and the blank entry.
    pub fn blank() -> TableSlot<K>
        ensures { result ≡ blank_slot K.Joinable.empty }
    {
        TableSlot {
            path: Path::NONE,
            entry: K::blank(),
        }
    }

    // The slot with an entry joined to its own.
    pub(crate) fn joined(self, entry: K) -> TableSlot<K>
        ensures path { result.path ≡ self.path }
        ensures entry { result.entry ≡ K.Joinable.joined self.entry entry }
    {
        TableSlot {
            entry: self.entry.join(entry),
            ..self
        }
    }
}
