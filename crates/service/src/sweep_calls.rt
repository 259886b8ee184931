ghost use Rattle.std.specs.Prelude.{◌≡◌, [], ◌∷◌};
ghost use Rattle.machine.specs.Kinds.{kind_of};
ghost use Rattle.machine.specs.Worlds.{step};
ghost use Rattle.ring.specs.Built.{state_of};
ghost use Rattle.service.specs.Calls.{of_call, of_sweep_call, of_held, by_got, serving, world_of, seen, Performs};

use crate::call::{Call, Got, Trouble};
use crate::held::{Held, Kept};
use crate::service::Service;
use entries::Dated;
use grounds::Ground;
use letters::{Bag, Letter};
use ring::{Refused, Ring};
use std::mem;
use std::ops::ControlFlow;
use store::Bank;

// A call on a sweep, whatever its number. An enum and not a closure, so that one match shows which call meets which state.
#[derive(Clone, Copy)]
pub(crate) enum SweepCall {
    Press,
    // letter
    Collect(usize),
    Spread,
    // letter
    Confirm(usize),
    Close,
    Abandon,
}

// Does a call on a sweep: its answer, and the sweep after it. The ground is 2 where the sweep is not in the state needed.
fn turn<K: Dated, B: Bank<K>, G: Bag<Letter<K>>>(
    ring: &mut Ring<K, B, G>,
    sweep: Held,
    call: SweepCall,
) -> (Result<Got, Ground>, Held)
    ensures { (by_got result.0, (state_of B.Bank G.Bag ring.new, of_held result.1 ∷ [])) ≡ seen (step (kind_of K.Joinable K.Dated.own) (of_sweep_call call 0) (world_of (state_of B.Bank G.Bag ring.old, of_held sweep ∷ []))) }
{
    match (call, sweep) {
        (SweepCall::Press, Held::Collecting(sweep)) => (
            ring.press(&sweep).map(|()| Got::Nothing),
            Held::Collecting(sweep),
        ),
        (SweepCall::Press, Held::Spreading(sweep)) => (
            ring.press(&sweep).map(|()| Got::Nothing),
            Held::Spreading(sweep),
        ),
        (SweepCall::Collect(letter), Held::Collecting(sweep)) => match ring.collect(sweep, letter) {
            Ok(ControlFlow::Continue(sweep)) => (Ok(Got::More), Held::Collecting(sweep)),
            Ok(ControlFlow::Break(sweep)) => (Ok(Got::Done), Held::Collected(sweep)),
            Err(Refused { ground, sweep }) => (Err(ground), Held::Collecting(sweep)),
        },
        (SweepCall::Spread, Held::Collected(sweep)) => match ring.spread(sweep) {
            Ok(sweep) => (Ok(Got::Nothing), Held::Spreading(sweep)),
            Err(Refused { ground, sweep }) => (Err(ground), Held::Collected(sweep)),
        },
        (SweepCall::Confirm(letter), Held::Spreading(sweep)) => match ring.confirm(sweep, letter) {
            Ok(ControlFlow::Continue(sweep)) => (Ok(Got::More), Held::Spreading(sweep)),
            Ok(ControlFlow::Break(sweep)) => (Ok(Got::Done), Held::Finished(sweep)),
            Err(Refused { ground, sweep }) => (Err(ground), Held::Spreading(sweep)),
        },
        (SweepCall::Close, Held::Finished(sweep)) => (Ok(Got::Stamp(sweep.close())), Held::Ended),
        (
            SweepCall::Abandon,
            sweep @ (Held::Collecting(_) | Held::Collected(_) | Held::Spreading(_)),
        ) => {
            sweep.end();
            (Ok(Got::Nothing), Held::Ended)
        }
        (_, other) => (Err(Ground::NoSuchSweep), other),
    }
}

impl<K: Dated, B: Bank<K>, G: Bag<Letter<K>>> Service<K, B, G> {
    // Does a call on the sweep of that number; a number past them is as one that has ended.
    pub(crate) fn on_sweep(&mut self, number: usize, call: SweepCall) -> Result<Got, Ground>
        ensures { (by_got result, serving B.Bank G.Bag self.new) ≡ seen (step (kind_of K.Joinable K.Dated.own) (of_sweep_call call number) (world_of (serving B.Bank G.Bag self.old))) }
    {
        let Some(kept) = self.sweeps.get_mut(number) else {
            return Err(Ground::NoSuchSweep);
        };
        let sweep = mem::replace(kept, Kept::new(Held::Ended)).give();
        let (answer, after) = turn(&mut self.ring, sweep, call);
        *kept = Kept::new(after);
        answer
    }

    // Begins a sweep and keeps it, if there is memory for it.
    pub(crate) fn begin(&mut self, copy: usize, time: u32) -> Result<Got, Trouble>
        ensures { Performs (kind_of K.Joinable K.Dated.own) (of_call (Call.Begin copy time)) (serving B.Bank G.Bag self.old) result (serving B.Bank G.Bag self.new) }
    {
        self.sweeps.reserve(1)?;
        let sweep = self.ring.begin(copy, time)?;
        self.sweeps
            .push_reserved(Kept::new(Held::Collecting(sweep)));
        Ok(Got::Nothing)
    }
}
