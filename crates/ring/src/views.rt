ghost use Rattle.std.specs.Prelude.{◌≡◌, length, slice_index_or};
ghost use Rattle.heads.specs.Heads.{new_head};
ghost use Rattle.letters.specs.Mail.{letter_at};
ghost use Rattle.store.specs.Laws.{entry_of};
ghost use Rattle.machine.specs.States.{store_of};
ghost use Rattle.ring.specs.Built.{state_of};

use crate::ring::Ring;
use entries::Dated;
use heads::Head;
use letters::{Bag, Letter};
use names::Path;
use store::Bank;

// What an administrator can see of a ring, besides what it reads.
impl<K: Dated, B: Bank<K>, G: Bag<Letter<K>>> Ring<K, B, G> {
    // How many copies there are.
    pub fn copies(&self) -> usize
        ensures { result ≡ (state_of B.Bank G.Bag self.now).copies }
    {
        self.copies
    }

    // The entry that a copy holds under the path, if it holds one; none for a number that no copy has.
    pub fn entry(&self, copy: usize, path: &Path) -> Option<K>
        ensures { result ≡ entry_of (store_of (state_of B.Bank G.Bag self.now) copy) path.now }
    {
        let place = self.stores.find(copy, path)?;
        Some(self.stores.entry_at(copy, place))
    }

    // The head of a copy; one at 0 for a number that no copy has.
    pub fn head(&self, copy: usize) -> Head
        ensures { result ≡ slice_index_or (state_of B.Bank G.Bag self.now).heads copy new_head }
    {
        self.heads.at(copy)
    }

    // How many letters are in the bag.
    pub fn letters(&self) -> usize
        ensures { result ≡ length (state_of B.Bank G.Bag self.now).bag.letters }
    {
        self.bag.count()
    }

    // The letter of that number in the bag, if there is one.
    pub fn letter(&self, number: usize) -> Option<Letter<K>>
        ensures { result ≡ letter_at (state_of B.Bank G.Bag self.now).bag.letters number }
    {
        self.bag.read(number)
    }
}
