ghost use Rattle.std.specs.Prelude.{◌≡◌};
ghost use Rattle.grounds.specs.Grounds.{by_number};
ghost use Rattle.machine.specs.Kinds.{kind_of};
ghost use Rattle.machine.specs.Posts.{post};
ghost use Rattle.ring.specs.Built.{state_of};

use crate::ring::Ring;
use entries::Dated;
use grounds::Ground;
use letters::{Bag, Letter};
use names::Path;
use store::Bank;

impl<K: Dated, B: Bank<K>, G: Bag<Letter<K>>> Ring<K, B, G> {
    // Joins the entry at the copy: a local write, which is an accepted update of the ring.
    pub fn post(&mut self, copy: usize, path: Path, entry: K) -> Result<(), Ground>
        ensures { (by_number result, state_of B.Bank G.Bag self.new) ≡ post (kind_of K.Joinable K.Dated.own) (state_of B.Bank G.Bag self.old) copy path entry }
    {
        self.check_update(copy, &path, &entry)?;
        self.check_place(copy, &path)?;
        let _ = self.stores.join(copy, path, entry);
        Ok(())
    }
}
