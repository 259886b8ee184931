ghost use Rattle.std.specs.Prelude.{◌≡◌, ◌||◌, [], ◌∷◌};
ghost use Rattle.std.specs.Result.{result_err};
ghost use Rattle.grounds.specs.Grounds.{by_number};
ghost use Rattle.letters.specs.Mail.{is_full};
ghost use Rattle.store.specs.Meaning.{full_for};
ghost use Rattle.machine.specs.Kinds.{kind_of};
ghost use Rattle.machine.specs.States.{store_of, first_ground, no_copy};
ghost use Rattle.machine.specs.Posts.{update_grounds};
ghost use Rattle.ring.specs.Built.{state_of};

use crate::ring::Ring;
use crate::sweep::Round;
use entries::Dated;
use grounds::Ground;
use letters::{Bag, Letter};
use names::{Path, server_of};
use store::Bank;

// The tests that several calls make before they change anything. Each answers its ground against the call, if that fits.
impl<K: Dated, B: Bank<K>, G: Bag<Letter<K>>> Ring<K, B, G> {
    // Against a copy that the ring does not have.
    pub(crate) fn check_copy(&self, copy: usize) -> Result<(), Ground>
        ensures { result_err (by_number result) ≡ first_ground ((no_copy (state_of B.Bank G.Bag self.now) copy, 6) ∷ []) }
    {
        if copy >= self.copies {
            return Err(Ground::NoSuchCopy);
        }
        Ok(())
    }

    // Against a round of a ring that has not so many copies.
    pub(crate) fn check_round(&self, round: Round) -> Result<(), Ground>
        ensures { result_err (by_number result) ≡ first_ground ((no_copy (state_of B.Bank G.Bag self.now) round.home || no_copy (state_of B.Bank G.Bag self.now) round.in_hand, 6) ∷ []) }
    {
        self.check_copy(round.home)?;
        self.check_copy(round.in_hand)
    }

    // Against a bag that has no room for another letter.
    pub(crate) fn check_room(&self) -> Result<(), Ground>
        ensures { result_err (by_number result) ≡ first_ground ((is_full (state_of B.Bank G.Bag self.now).bag, 17) ∷ []) }
    {
        if self.bag.places() <= self.bag.count() {
            return Err(Ground::BagFull);
        }
        Ok(())
    }

    // Against a copy whose store has no place for the path.
    pub(crate) fn check_place(&self, copy: usize, path: &Path) -> Result<(), Ground>
        ensures { result_err (by_number result) ≡ first_ground ((full_for (store_of (state_of B.Bank G.Bag self.now) copy) path.now, 16) ∷ []) }
    {
        match self.stores.find(copy, path) {
            Some(_) => Ok(()),
            None if self.stores.count(copy) == self.stores.places(copy) => Err(Ground::StoreFull),
            None => Ok(()),
        }
    }

    // Against an update, by the grounds that every posting has, but for a full store.
    pub(crate) fn check_update(&self, copy: usize, path: &Path, entry: &K) -> Result<(), Ground>
        ensures { result_err (by_number result) ≡ first_ground (update_grounds (kind_of K.Joinable K.Dated.own) (state_of B.Bank G.Bag self.now) copy ((path.now, entry.now) ∷ [])) }
    {
        self.check_copy(copy)?;
        if !path.is_sound() || !entry.is_sound() {
            return Err(Ground::NotSound);
        }
        if usize::from(server_of(entry.stamp())) != copy {
            return Err(Ground::WrongServer);
        }
        if entry.stamp() < self.heads.at(copy).floor {
            return Err(Ground::StampTooLow);
        }
        Ok(())
    }
}
