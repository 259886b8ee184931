ghost use Rattle.std.specs.Prelude.{◌≡◌};
ghost use Rattle.machine.specs.Sweeps.{spread, confirm, stamp_of};
ghost use Rattle.ring.specs.Built.{state_of, of_collected, of_spreading, of_finished, spread_by, confirmed_by};

use crate::ring::Ring;
use crate::sweep::{Collected, Finished, Refused, Round, Spreading};
use entries::Dated;
use grounds::Ground;
use letters::{Bag, Letter, Tag};
use names::Stamp;
use std::ops::ControlFlow;
use store::Bank;

impl<K: Dated, B: Bank<K>, G: Bag<Letter<K>>> Ring<K, B, G> {
    // Lifts home's sweep stamp and starts the round again, with home's count for the whole of it.
    pub fn spread(&mut self, sweep: Collected) -> Result<Spreading, Refused<Collected>>
        ensures { spread_by result (state_of B.Bank G.Bag self.new) ≡ spread (state_of B.Bank G.Bag self.old) (of_collected sweep) }
    {
        if let Err(ground) = self.check_copy(sweep.home) {
            return Err(Refused { ground, sweep });
        }
        let Collected { stamp, home } = sweep;
        self.heads.lift_sweep(home, stamp);
        Ok(Spreading {
            round: Round::new(self.copies, stamp, home),
            count: self.stores.count(home),
            place: 0,
        })
    }

    // Reads the awaited reply: stored of the awaited place, or noted when all places were put.
    // Continue: more is to be confirmed. Break: the sweep is finished.
    pub fn confirm(
        &mut self,
        sweep: Spreading,
        letter: usize,
    ) -> Result<ControlFlow<Finished, Spreading>, Refused<Spreading>>
        ensures { confirmed_by result (state_of B.Bank G.Bag self.new) ≡ confirm (state_of B.Bank G.Bag self.old) (of_spreading sweep) letter }
    {
        // no `?` here: a refusal gives the sweep back, which no conversion has
        let reply = match self.awaited(sweep.round, letter) {
            Ok(reply) => reply,
            Err(ground) => return Err(Refused { ground, sweep }),
        };
        match (sweep.place == sweep.count, reply.tag, reply.place) {
            (true, Tag::Noted, _) => {
                let Spreading {
                    round,
                    count,
                    place: _,
                } = sweep;
                Ok(match round.next(self.copies) {
                    Some(round) => ControlFlow::Continue(Spreading {
                        round,
                        count,
                        place: 0,
                    }),
                    None => ControlFlow::Break(Finished {
                        stamp: round.stamp,
                        home: round.home,
                    }),
                })
            }
            (false, Tag::Stored, at) if at == sweep.place => {
                let Spreading {
                    round,
                    count,
                    place,
                } = sweep;
                Ok(ControlFlow::Continue(Spreading {
                    round,
                    count,
                    place: place + 1,
                }))
            }
            _ => Err(Refused {
                ground: Ground::NotAwaited,
                sweep,
            }),
        }
    }
}

impl Collected {
    // Ends the sweep; the ring stays as it is.
    pub fn abandon(self) {
        let Collected { stamp: _, home: _ } = self;
    }
}

impl Spreading {
    // Ends the sweep; the ring stays as it is.
    pub fn abandon(self) {
        let Spreading {
            round: _,
            count: _,
            place: _,
        } = self;
    }
}

impl Finished {
    // Ends the sweep and gives its stamp.
    pub fn close(self) -> Stamp
        ensures { result ≡ stamp_of (of_finished self) }
    {
        let Finished { stamp, home: _ } = self;
        stamp
    }
}
