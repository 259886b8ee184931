// The heads of a ring: for each copy its floor and its sweep stamp (docs/RULES.md, "The ring").
#![tactic(auto)]

ghost use Rattle.std.specs.Prelude.{◌≡◌, length, replicate, slice_index_or};
ghost use Rattle.heads.specs.Heads.{new_head, lift_floor, lift_sweep, floor_lifted, sweep_lifted};

use names::Stamp;

// Two high-water marks of a copy. Below its floor it accepts no update any more; its sweep stamp is that of the
// latest sweep that was spread to it.
#[derive(Clone, Copy, Debug, Default, PartialEq, Eq)]
pub struct Head {
    pub floor: Stamp,
    pub sweep: Stamp,
}

impl Head {
    // Lifts the floor to the stamp if it is lower.
    pub fn lift_floor(&mut self, stamp: Stamp)
        ensures { self.new ≡ lift_floor stamp self.old }
    {
        self.floor = self.floor.max(stamp);
    }

    // Lifts the sweep stamp to the stamp if it is lower.
    pub fn lift_sweep(&mut self, stamp: Stamp)
        ensures { self.new ≡ lift_sweep stamp self.old }
    {
        self.sweep = self.sweep.max(stamp);
    }
}

// A table of eight heads, one for each copy that a ring may have.
#[derive(Drop)]
pub struct Heads {
    table: [Head; 8],
    ghost eight: { length table ≡ 8 },
}

impl Heads {
    // All heads at 0.
    pub fn new() -> Heads
        ensures { result.table ≡ replicate 8 new_head }
    {
        Heads {
            table: [Head::default(); 8],
        }
    }

    // The head of the copy; one at 0 for a number past the table.
    pub fn at(&self, copy: usize) -> Head
        ensures { result ≡ slice_index_or self.now.table copy new_head }
    {
        self.table.get(copy).copied().unwrap_or_default()
    }

    // Lifts the floor of the copy; a number past the table changes nothing.
    pub fn lift_floor(&mut self, copy: usize, stamp: Stamp)
        ensures { self.new.table ≡ floor_lifted self.old.table copy stamp }
    {
        if copy < 8 {
            let head = &mut self.table[copy];
            head.lift_floor(stamp);
        }
    }

    // Lifts the sweep stamp of the copy; a number past the table changes nothing.
    pub fn lift_sweep(&mut self, copy: usize, stamp: Stamp)
        ensures { self.new.table ≡ sweep_lifted self.old.table copy stamp }
    {
        if copy < 8 {
            let head = &mut self.table[copy];
            head.lift_sweep(stamp);
        }
    }
}
