ghost use Rattle.std.specs.Prelude.{◌≡◌, Some};
ghost use Rattle.machine.specs.Kinds.{kind_of};
ghost use Rattle.grounds.specs.Grounds.{by_number};
ghost use Rattle.service.specs.Calls.{of_call, got_nothing, answer_of, serving, Performs};

use crate::call::{Call, Got, Trouble};
use crate::service::Service;
use crate::sweep_calls::SweepCall;
use entries::Dated;
use grounds::Ground;
use letters::{Bag, Letter};
use store::Bank;

// The answer of a call on the ring alone, which gets nothing besides: once for the five of them.
pub(crate) fn nothing_got(answer: Result<(), Ground>) -> Result<Got, Trouble>
    ensures { answer_of result ≡ Some (got_nothing (by_number answer)) }
{
    answer?;
    Ok(Got::Nothing)
}

impl<K: Dated, B: Bank<K>, G: Bag<Letter<K>>> Service<K, B, G> {
    // Does one call: exactly its step on the plain machine, or nothing where it begins a sweep for which there was no memory.
    pub fn perform(&mut self, call: Call<K>) -> Result<Got, Trouble>
        ensures { Performs (kind_of K.Joinable K.Dated.own) (of_call call) (serving B.Bank G.Bag self.old) result (serving B.Bank G.Bag self.new) }
    {
        match call {
            Call::Post(copy, path, entry) => nothing_got(self.ring.post(copy, path, entry)),
            Call::Mail(from, to, place) => nothing_got(self.ring.mail(from, to, place)),
            Call::Hand(letter) => nothing_got(self.ring.hand(letter)),
            Call::Lose(letter) => nothing_got(self.ring.lose(letter)),
            Call::Begin(copy, time) => self.begin(copy, time),
            Call::Press(sweep) => Ok(self.on_sweep(sweep, SweepCall::Press)?),
            Call::Collect(sweep, letter) => Ok(self.on_sweep(sweep, SweepCall::Collect(letter))?),
            Call::Spread(sweep) => Ok(self.on_sweep(sweep, SweepCall::Spread)?),
            Call::Confirm(sweep, letter) => Ok(self.on_sweep(sweep, SweepCall::Confirm(letter))?),
            Call::Close(sweep) => Ok(self.on_sweep(sweep, SweepCall::Close)?),
            Call::Abandon(sweep) => Ok(self.on_sweep(sweep, SweepCall::Abandon)?),
        }
    }
}
