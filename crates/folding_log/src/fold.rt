ghost use Rattle.std.specs.Prelude.{◌≡◌, true, map};
ghost use Rattle.store.specs.Meaning.{paths_of};
ghost use Rattle.folding_log.specs.Slots.{pair_of, arrivals, placed, log_pairs};

use crate::slot::LogSlot;
use entries::Joinable;
use lent::Lent;

// Folds the slots to one a path, each with the join of the path's entries, in order of first arrival.
// One pass, by number since it reads and writes at two places: a slot's place tells where its path was folded to.
pub(crate) fn fold<K: Joinable>(slots: &mut Lent<'_, LogSlot<K>>)
    requires numbered { placed (arrivals slots.old.items) slots.old.items ≡ true }
    ensures places { slots.new.places ≡ slots.old.places }
    ensures pairs { map pair_of slots.new.items ≡ log_pairs K.Joinable.joined slots.old.items }
    ensures numbered { placed (paths_of (map pair_of slots.new.items)) slots.new.items ≡ true }
{
    let mut folded = 0;
    'slots: for i in 0..slots.len() {
        let slot = slots.as_slice()[i];
        if slot.place < folded {
            let old = slots.as_slice()[slot.place];
            slots.set(slot.place, old.joined(slot.entry));
        } else {
            slots.set(folded, slot);
            folded += 1;
        }
    }
    slots.truncate(folded);
}
