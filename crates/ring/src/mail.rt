ghost use Rattle.std.specs.Prelude.{◌≡◌};
ghost use Rattle.grounds.specs.Grounds.{by_number};
ghost use Rattle.machine.specs.Kinds.{kind_of};
ghost use Rattle.machine.specs.Posts.{mail, lose};
ghost use Rattle.ring.specs.Built.{state_of};

use crate::ring::Ring;
use entries::Dated;
use grounds::Ground;
use letters::{Bag, Letter, Tag};
use store::Bank;

impl<K: Dated, B: Bank<K>, G: Bag<Letter<K>>> Ring<K, B, G> {
    // Sends what lies at a place of one copy to another, as news.
    pub fn mail(&mut self, from: usize, to: usize, place: usize) -> Result<(), Ground>
        ensures { (by_number result, state_of B.Bank G.Bag self.new) ≡ mail (kind_of K.Joinable K.Dated.own) (state_of B.Bank G.Bag self.old) from to place }
    {
        self.check_copy(from)?;
        self.check_copy(to)?;
        if from == to {
            return Err(Ground::SameCopy);
        }
        if place >= self.stores.count(from) {
            return Err(Ground::PlaceNotHeld);
        }
        self.check_room()?;
        let news = Letter {
            tag: Tag::News,
            sender: from,
            addressee: to,
            ..Letter::blank()
        };
        let news = self.laden(news, place);
        let _ = self.bag.send(news);
        Ok(())
    }

    // Takes a letter out of the bag.
    pub fn lose(&mut self, letter: usize) -> Result<(), Ground>
        ensures { (by_number result, state_of B.Bank G.Bag self.new) ≡ lose (state_of B.Bank G.Bag self.old) letter }
    {
        if letter >= self.bag.count() {
            return Err(Ground::NoSuchLetter);
        }
        let _ = self.bag.lose(letter);
        Ok(())
    }
}
