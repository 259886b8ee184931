ghost use Rattle.std.specs.Prelude.{◌≡◌};
ghost use Rattle.grounds.specs.Grounds.{by_number};
ghost use Rattle.machine.specs.Kinds.{kind_of};
ghost use Rattle.machine.specs.Sweeps.{Sweep, press};
ghost use Rattle.ring.specs.Built.{state_of, of_collecting, of_spreading, of_pressed, sent_by};

use crate::letters_out::request;
use crate::ring::Ring;
use crate::sweep::{Collecting, Round, Spreading};
use entries::Dated;
use grounds::Ground;
use letters::{Bag, Letter, Tag};
use store::Bank;

// The numbers of a sweep that is pressed: its round, count and place.
#[derive(Clone, Copy, Debug, PartialEq, Eq)]
pub enum Pressed {
    // it asks the copy in hand for what it holds
    Asking(Round, Option<usize>, usize),
    // it tells the copy in hand what home holds
    Telling(Round, usize, usize),
}

// The states in which a sweep can be pressed.
pub trait Pressable {
    // the sweep, as the machine has it
    ghost sweep: { Self → Sweep };

    // The sweep's numbers.
    fn numbers(&self) -> Pressed
        ensures { of_pressed result ≡ sweep self.now };

    // What the sweep wants next, from home to the copy in hand: raise, fetch, put or swept. To send it is to press.
    fn wanted<K: Dated, B: Bank<K>, G: Bag<Letter<K>>>(
        &self,
        ring: &Ring<K, B, G>,
    ) -> Result<Letter<K>, Ground>
    where
        Self: Sized,
        ensures { sent_by result (state_of B.Bank G.Bag ring.now) ≡ press (kind_of K.Joinable K.Dated.own) (state_of B.Bank G.Bag ring.now) (sweep self.now) }
    {
        match self.numbers() {
            Pressed::Asking(round, count, place) => ring.asked(round, count, place),
            Pressed::Telling(round, count, place) => ring.told(round, count, place),
        }
    }
}

impl Pressable for Collecting {
    ghost sweep = { of_collecting };

    fn numbers(&self) -> Pressed {
        Pressed::Asking(self.round, self.count, self.place)
    }
}

impl Pressable for Spreading {
    ghost sweep = { of_spreading };

    fn numbers(&self) -> Pressed {
        Pressed::Telling(self.round, self.count, self.place)
    }
}

impl<K: Dated, B: Bank<K>, G: Bag<Letter<K>>> Ring<K, B, G> {
    // Sends, from home to the copy in hand, what the sweep wants next: raise, fetch, put or swept.
    pub fn press<W: Pressable>(&mut self, sweep: &W) -> Result<(), Ground>
        ensures { (by_number result, state_of B.Bank G.Bag self.new) ≡ press (kind_of K.Joinable K.Dated.own) (state_of B.Bank G.Bag self.old) (W.Pressable.sweep sweep.now) }
    {
        let letter = sweep.wanted(self)?;
        let _ = self.bag.send(letter);
        Ok(())
    }

    // What a sweep wants that asks: raise while the count is unknown, else fetch of the place.
    fn asked(&self, round: Round, count: Option<usize>, place: usize) -> Result<Letter<K>, Ground>
        ensures { sent_by result (state_of B.Bank G.Bag self.now) ≡ press (kind_of K.Joinable K.Dated.own) (state_of B.Bank G.Bag self.now) (of_pressed (Pressed.Asking round count place)) }
    {
        self.check_round(round)?;
        self.check_room()?;
        match count {
            None => Ok(request(round, Tag::Raise, 0)),
            Some(_) => Ok(request(round, Tag::Fetch, place)),
        }
    }

    // What one wants that tells: put of the place with what lies there at home, or swept when all places were put.
    fn told(&self, round: Round, count: usize, place: usize) -> Result<Letter<K>, Ground>
        ensures { sent_by result (state_of B.Bank G.Bag self.now) ≡ press (kind_of K.Joinable K.Dated.own) (state_of B.Bank G.Bag self.now) (of_pressed (Pressed.Telling round count place)) }
    {
        self.check_round(round)?;
        if place != count && place >= self.stores.count(round.home) {
            return Err(Ground::PlaceNotHeld);
        }
        self.check_room()?;
        if place == count {
            return Ok(request(round, Tag::Swept, 0));
        }
        Ok(self.laden(request(round, Tag::Put, place), place))
    }
}
