ghost use Rattle.std.specs.Prelude.{◌≡◌, length};
ghost use Rattle.grounds.specs.Grounds.{by_number};
ghost use Rattle.letters.specs.Mail.{Mail, letter_at, send_answer, sent, lose_answer, lost, emptied};

use grounds::Ground;

// A bag of letters in order of sending, numbered from 0, with room for so many.
pub trait Bag<L: Copy> {
    // the letters in order of sending, and for how many there is room
    ghost mail: { Self → Mail L };

    // How many letters are in the bag.
    fn count(&self) -> usize
        ensures { result ≡ length (mail self.now).letters };

    // For how many letters there is room in all.
    fn places(&self) -> usize
        ensures { result ≡ (mail self.now).places };

    // The letter of that number, if there is one. It stays in the bag.
    fn read(&self, number: usize) -> Option<L>
        ensures { result ≡ letter_at (mail self.now).letters number };

    // Puts a letter at the end; refused where there is no room.
    fn send(&mut self, letter: L) -> Result<(), Ground>
        ensures answer { by_number result ≡ send_answer (mail self.old) }
        ensures after { mail self.new ≡ sent (mail self.old) letter };

    // Takes a letter out, and later ones move up by one; refused where there is no such letter.
    fn lose(&mut self, number: usize) -> Result<(), Ground>
        ensures answer { by_number result ≡ lose_answer (mail self.old) number }
        ensures after { mail self.new ≡ lost (mail self.old) number };

    // Takes all letters out.
    fn clear(&mut self)
        ensures { mail self.new ≡ emptied (mail self.old) };
}
