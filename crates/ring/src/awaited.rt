ghost use Rattle.std.specs.Prelude.{◌≡◌, Some};
ghost use Rattle.std.specs.Result.{IfOk, result_err};
ghost use Rattle.grounds.specs.Grounds.{by_number};
ghost use Rattle.letters.specs.Mail.{letter_at};
ghost use Rattle.machine.specs.States.{first_ground};
ghost use Rattle.ring.specs.Built.{state_of};
ghost use Rattle.ring.specs.Awaited.{awaited_grounds};

use crate::ring::Ring;
use crate::sweep::Round;
use entries::Dated;
use grounds::Ground;
use letters::{Bag, Letter};
use store::Bank;

impl<K: Dated, B: Bank<K>, G: Bag<Letter<K>>> Ring<K, B, G> {
    // The letter of that number, which must be one to home from the copy in hand under the round's stamp.
    pub(crate) fn awaited(&self, round: Round, letter: usize) -> Result<Letter<K>, Ground>
        ensures ground { result_err (by_number result) ≡ first_ground (awaited_grounds (state_of B.Bank G.Bag self.now) round.stamp round.home round.in_hand (letter_at (state_of B.Bank G.Bag self.now).bag.letters letter)) }
        ensures letter { IfOk result (λ l. letter_at (state_of B.Bank G.Bag self.now).bag.letters letter ≡ Some l) }
    {
        self.check_round(round)?;
        let reply = self.bag.read(letter).ok_or(Ground::NoSuchLetter)?;
        if reply.addressee != round.home
            || reply.sender != round.in_hand
            || reply.stamp != round.stamp
        {
            return Err(Ground::NotAwaited);
        }
        Ok(reply)
    }
}
