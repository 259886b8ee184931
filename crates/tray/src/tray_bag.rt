ghost use Rattle.std.specs.Prelude.{◌≡◌, [], length};
ghost use Rattle.tray.specs.Trays.{tray_mail};

use crate::Tray;
use grounds::Ground;
use lent::Lent;
use letters::Bag;

impl<'a, L: Copy> Tray<'a, L> {
    // An empty tray over the slots, whatever they held.
    pub fn new(slots: &'a mut [L]) -> Tray<'a, L>
        ensures { tray_mail result ≡ record { letters = []; places = length slots.old } }
    {
        Tray {
            letters: Lent::new(slots),
        }
    }
}

impl<'a, L: Copy> Bag<L> for Tray<'a, L> {
    ghost mail = { tray_mail };

    fn count(&self) -> usize {
        self.letters.len()
    }

    fn places(&self) -> usize {
        self.letters.places()
    }

    fn read(&self, number: usize) -> Option<L> {
        self.letters.get(number)
    }

    fn send(&mut self, letter: L) -> Result<(), Ground> {
        self.letters.push(letter).map_err(|_| Ground::BagFull)
    }

    fn lose(&mut self, number: usize) -> Result<(), Ground> {
        self.letters
            .remove(number)
            .map(|_| ())
            .ok_or(Ground::NoSuchLetter)
    }

    fn clear(&mut self) {
        self.letters.clear();
    }
}
