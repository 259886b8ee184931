// The two builds of a store, by themselves. Each trial is a table over memory of its own.
use crate::making::{number_at, rye, turns};
use entries::Recipe;
use folding_log::{Log, LogSlot};
use names::{Path, Stamp};
use std::process::Abort;
use store::{Readable, Store};
use table::{Table, TableSlot};

// A join under a path of an entry with a stamp, and what is due: the stamp that the path holds after it, or the
// number of the ground, which is what the rules fix.
#[derive(Clone, Copy)]
struct Join {
    path: Path,
    stamp: Stamp,
    due: Result<Stamp, u8>,
}

// A join that has to be accepted and to leave an entry with that stamp under its path.
fn leaves(path: Path, stamp: Stamp, held: Stamp) -> Join {
    Join {
        path,
        stamp,
        due: Ok(held),
    }
}

// A join that has to be refused with the ground of a number.
fn refused(path: Path, stamp: Stamp, ground: u8) -> Join {
    Join {
        path,
        stamp,
        due: Err(ground),
    }
}

// The stamp of the entry under a path, or 0 where the path is not held.
fn stamp_under<S: Store<Recipe>>(store: &S, path: &Path) -> Stamp {
    store
        .find(path)
        .map_or(0, |place| store.entry_at(place).stamp)
}

// Joins one after another, each compared with what is due.
fn join_each<S: Store<Recipe>>(rt: &impl Abort, store: &mut S, joins: &[Join]) {
    'joins: for join in joins {
        let came = store
            .join(join.path, number_at(join.stamp, 640))
            .map(|()| stamp_under(store, &join.path))
            .map_err(|ground| ground.number());
        assert_eq!(rt; came, join.due);
    }
}

// One place, for rye; an older entry that comes last changes nothing.
#[test]
fn table_of_one_slot_refuses_a_second_path(rt: HostRuntime) {
    let mut slots = [TableSlot::blank(); 1];
    join_each(
        &rt,
        &mut Table::new(&mut slots),
        &[
            leaves(rye(), 1280, 1280),
            refused(turns(), 1536, 16),
            leaves(rye(), 1536, 1536),
            leaves(rye(), 1280, 1536),
        ],
    );
}

// A fold that left only the latest entry would answer 1536 at last.
#[test]
fn log_of_two_slots_keeps_the_join_of_all(rt: HostRuntime) {
    let mut slots = [LogSlot::blank(); 2];
    join_each(
        &rt,
        &mut Log::new(&mut slots),
        &[
            leaves(rye(), 1280, 1280),
            leaves(rye(), 1792, 1792),
            leaves(rye(), 1536, 1792),
            refused(turns(), 2048, 16),
            leaves(rye(), 1024, 1792),
        ],
    );
}

// When the slots are used up, the latest entry of neither path is its greatest.
#[test]
fn log_of_four_slots_keeps_the_join_for_each_path(rt: HostRuntime) {
    let mut slots = [LogSlot::blank(); 4];
    join_each(
        &rt,
        &mut Log::new(&mut slots),
        &[
            leaves(rye(), 1280, 1280),
            leaves(turns(), 1536, 1536),
            leaves(turns(), 1024, 1536),
            leaves(rye(), 1024, 1280),
            leaves(rye(), 1024, 1280),
            leaves(turns(), 1024, 1536),
        ],
    );
}
