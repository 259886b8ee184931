ghost use Rattle.std.specs.Prelude.{◌≡◌};
ghost use Rattle.machine.specs.Kinds.{kind_of};
ghost use Rattle.machine.specs.States.{store_of};
ghost use Rattle.machine.specs.Posts.{plain, laden};
ghost use Rattle.ring.specs.Built.{state_of};

use crate::ring::Ring;
use crate::sweep::Round;
use entries::Dated;
use letters::{Bag, Letter, Tag};
use store::Bank;

// What a sweep asks of the copy in hand, of a place. It carries neither path nor entry.
pub(crate) fn request<K: Dated>(round: Round, tag: Tag, place: usize) -> Letter<K>
    ensures { result ≡ plain (kind_of K.Joinable K.Dated.own) tag round.home round.in_hand round.stamp place 0 }
{
    Letter {
        tag,
        sender: round.home,
        addressee: round.in_hand,
        stamp: round.stamp,
        place,
        ..Letter::blank()
    }
}

// The reply to a letter: it goes back to the sender with the letter's stamp and place, and neither path nor entry.
pub(crate) fn reply<K: Dated>(letter: &Letter<K>, tag: Tag, count: usize) -> Letter<K>
    ensures { result ≡ plain (kind_of K.Joinable K.Dated.own) tag letter.now.addressee letter.now.sender letter.now.stamp letter.now.place count }
{
    Letter {
        tag,
        sender: letter.addressee,
        addressee: letter.sender,
        stamp: letter.stamp,
        place: letter.place,
        count,
        ..Letter::blank()
    }
}

impl<K: Dated, B: Bank<K>, G: Bag<Letter<K>>> Ring<K, B, G> {
    // The letter with the path and the entry at a place of its sender.
    pub(crate) fn laden(&self, letter: Letter<K>, at: usize) -> Letter<K>
        ensures { result ≡ laden (kind_of K.Joinable K.Dated.own) letter.tag letter.sender letter.addressee letter.stamp letter.place (store_of (state_of B.Bank G.Bag self.now) letter.sender) at }
    {
        Letter {
            count: 0,
            path: self.stores.path_at(letter.sender, at),
            entry: self.stores.entry_at(letter.sender, at),
            ..letter
        }
    }
}
