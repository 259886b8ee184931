ghost use Rattle.std.specs.Prelude.{◌≡◌};
ghost use Rattle.grounds.specs.Grounds.{by_number};
ghost use Rattle.machine.specs.Kinds.{kind_of};
ghost use Rattle.machine.specs.States.{settled};
ghost use Rattle.machine.specs.Posts.{tag_grounds, handed, hand};
ghost use Rattle.ring.specs.Built.{state_of};

use crate::letters_out::reply;
use crate::ring::Ring;
use entries::Dated;
use grounds::Ground;
use letters::{Bag, Letter, Tag};
use store::Bank;

impl<K: Dated, B: Bank<K>, G: Bag<Letter<K>>> Ring<K, B, G> {
    // What the addressee does with a letter, and its reply.
    fn deliver(&mut self, letter: Letter<K>) -> Result<(), Ground>
        ensures { (by_number result, state_of B.Bank G.Bag self.new) ≡ settled (tag_grounds (state_of B.Bank G.Bag self.old) letter letter.tag) (state_of B.Bank G.Bag self.old) (tt, handed (kind_of K.Joinable K.Dated.own) (state_of B.Bank G.Bag self.old) letter letter.tag) }
    {
        let to = letter.addressee;
        match letter.tag {
            Tag::News => {
                self.check_place(to, &letter.path)?;
                let _ = self.stores.join(to, letter.path, letter.entry);
                Ok(())
            }
            Tag::Raise => {
                self.check_room()?;
                let count = self.stores.count(to);
                self.heads.lift_floor(to, letter.stamp);
                let _ = self.bag.send(reply(&letter, Tag::Counted, count));
                Ok(())
            }
            Tag::Fetch => {
                if letter.place >= self.stores.count(to) {
                    return Err(Ground::PlaceNotHeld);
                }
                self.check_room()?;
                let entry = self.laden(reply(&letter, Tag::Entry, 0), letter.place);
                let _ = self.bag.send(entry);
                Ok(())
            }
            Tag::Put => {
                let (path, entry) = (letter.path, letter.entry);
                self.check_place(to, &path)?;
                self.check_room()?;
                let _ = self.stores.join(to, path, entry);
                let _ = self.bag.send(reply(&letter, Tag::Stored, 0));
                Ok(())
            }
            Tag::Swept => {
                self.check_room()?;
                self.heads.lift_sweep(to, letter.stamp);
                let _ = self.bag.send(reply(&letter, Tag::Noted, 0));
                Ok(())
            }
            Tag::Counted | Tag::Entry | Tag::Stored | Tag::Noted => Err(Ground::NotAwaited),
        }
    }

    // Gives a letter to its addressee and leaves it in the bag.
    pub fn hand(&mut self, letter: usize) -> Result<(), Ground>
        ensures { (by_number result, state_of B.Bank G.Bag self.new) ≡ hand (kind_of K.Joinable K.Dated.own) (state_of B.Bank G.Bag self.old) letter }
    {
        let read = self.bag.read(letter).ok_or(Ground::NoSuchLetter)?;
        self.deliver(read)
    }
}
