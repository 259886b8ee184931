ghost use Rattle.std.specs.Prelude.{◌≡◌, ◌≤◌};
ghost use Rattle.machine.specs.Kinds.{kind_of};
ghost use Rattle.machine.specs.Sweeps.{collect, went_on};
ghost use Rattle.ring.specs.Built.{state_of, of_collecting, of_when_collected, collected_by};

use crate::ring::Ring;
use crate::sweep::{Collected, Collecting, Refused, Round};
use entries::Dated;
use grounds::Ground;
use letters::{Bag, Letter, Tag};
use std::ops::ControlFlow;
use store::Bank;

// The sweep after its place has come to `place` of `count`.
fn go_on(
    copies: usize,
    round: Round,
    count: usize,
    place: usize,
) -> ControlFlow<Collected, Collecting>
    requires { (round.in_hand ≤ 8) × (place ≤ count) }
    ensures { of_when_collected result ≡ went_on copies round.stamp round.home round.in_hand count place }
{
    if place != count {
        return ControlFlow::Continue(Collecting {
            round,
            count: Some(count),
            place,
        });
    }
    match round.next(copies) {
        Some(round) => ControlFlow::Continue(Collecting {
            round,
            count: None,
            place: 0,
        }),
        None => ControlFlow::Break(Collected {
            stamp: round.stamp,
            home: round.home,
        }),
    }
}

impl<K: Dated, B: Bank<K>, G: Bag<Letter<K>>> Ring<K, B, G> {
    // Reads the awaited reply: the count of the copy in hand, or the entry at the awaited place, which is joined at home.
    // Continue: more is to be collected. Break: all is.
    pub fn collect(
        &mut self,
        sweep: Collecting,
        letter: usize,
    ) -> Result<ControlFlow<Collected, Collecting>, Refused<Collecting>>
        ensures { collected_by result (state_of B.Bank G.Bag self.new) ≡ collect (kind_of K.Joinable K.Dated.own) (state_of B.Bank G.Bag self.old) (of_collecting sweep) letter }
    {
        // no `?` here and below: a refusal gives the sweep back, which no conversion has
        let reply = match self.awaited(sweep.round, letter) {
            Ok(reply) => reply,
            Err(ground) => return Err(Refused { ground, sweep }),
        };
        match (sweep.count, reply.tag, reply.place) {
            (None, Tag::Counted, _) => {
                let Collecting {
                    round,
                    count: _,
                    place: _,
                } = sweep;
                Ok(go_on(self.copies, round, reply.count, 0))
            }
            (Some(known), Tag::Entry, at) if at == sweep.place => {
                if let Err(ground) = self.check_place(sweep.round.home, &reply.path) {
                    return Err(Refused { ground, sweep });
                }
                let Collecting {
                    round,
                    count: _,
                    place,
                } = sweep;
                let _ = self.stores.join(round.home, reply.path, reply.entry);
                Ok(go_on(self.copies, round, known, place + 1))
            }
            _ => Err(Refused {
                ground: Ground::NotAwaited,
                sweep,
            }),
        }
    }
}

// Each state has an abandon of its own: a trait for the three would be longer than they are.
impl Collecting {
    // Ends the sweep; the ring stays as it is. A pattern with `..` would let the state go, which no state allows.
    pub fn abandon(self) {
        let Collecting {
            round: _,
            count: _,
            place: _,
        } = self;
    }
}
