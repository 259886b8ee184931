ghost use Rattle.std.specs.Prelude.{◌≡◌, length, slice_index_or};
ghost use Rattle.heads.specs.Heads.{new_head};
ghost use Rattle.letters.specs.Mail.{letter_at};
ghost use Rattle.machine.specs.Sweeps.{ended};
ghost use Rattle.service.specs.Calls.{serving, is_going};

use crate::held::Kept;
use crate::service::Service;
use entries::Dated;
use heads::Head;
use letters::{Bag, Letter};
use store::Bank;

// What an administrator can see of the ring in service, besides what it reads.
impl<K: Dated, B: Bank<K>, G: Bag<Letter<K>>> Service<K, B, G> {
    // The head of a copy; one at 0 for a number that no copy has.
    pub fn head(&self, copy: usize) -> Head
        ensures { result ≡ slice_index_or (serving B.Bank G.Bag self.now).0.heads copy new_head }
    {
        self.ring.head(copy)
    }

    // How many letters are in the bag.
    pub fn letters(&self) -> usize
        ensures { result ≡ length (serving B.Bank G.Bag self.now).0.bag.letters }
    {
        self.ring.letters()
    }

    // The letter of that number in the bag, if there is one.
    pub fn letter(&self, number: usize) -> Option<Letter<K>>
        ensures { result ≡ letter_at (serving B.Bank G.Bag self.now).0.bag.letters number }
    {
        self.ring.letter(number)
    }

    // How many sweeps were begun.
    pub fn sweeps(&self) -> usize
        ensures { result ≡ length (serving B.Bank G.Bag self.now).1 }
    {
        self.sweeps.len()
    }

    // Whether the sweep of that number has not ended; a number past them is as one that has.
    pub fn is_going(&self, sweep: usize) -> bool
        ensures { result ≡ is_going (slice_index_or (serving B.Bank G.Bag self.now).1 sweep ended) }
    {
        self.sweeps.get(sweep).is_some_and(Kept::is_going)
    }
}
