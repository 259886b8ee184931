ghost use Rattle.std.specs.Prelude.{◌≡◌};
ghost use Rattle.machine.specs.Sweeps.{begin};
ghost use Rattle.ring.specs.Built.{state_of, begun_by};

use crate::ring::Ring;
use crate::sweep::{Collecting, Round};
use entries::Dated;
use grounds::Ground;
use letters::{Bag, Letter};
use names::stamp_at;
use store::Bank;

impl<K: Dated, B: Bank<K>, G: Bag<Letter<K>>> Ring<K, B, G> {
    // Begins a sweep at a copy, its home: makes its stamp and lifts the copy's floor to it.
    pub fn begin(&mut self, copy: usize, time: u32) -> Result<Collecting, Ground>
        ensures { (begun_by result, state_of B.Bank G.Bag self.new) ≡ begin (state_of B.Bank G.Bag self.old) copy time }
    {
        self.check_copy(copy)?;
        let stamp = stamp_at(time, copy as u8);
        if stamp <= self.heads.at(copy).floor {
            return Err(Ground::StampTooLow);
        }
        self.heads.lift_floor(copy, stamp);
        Ok(Collecting {
            round: Round::new(self.copies, stamp, copy),
            count: None,
            place: 0,
        })
    }
}
