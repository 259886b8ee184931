ghost use Rattle.std.specs.Prelude.{◌≡◌, ◌≤◌, true, cond, Some, None, ◌==◌};
ghost use Rattle.machine.specs.States.{next_copy};
ghost use Rattle.ring.specs.Limits.{under_way};

use grounds::Ground;
use names::Stamp;

// How far a sweep's round over the copies has come: its stamp, the copy that began it, and the one in hand.
#[derive(Clone, Copy, Debug, PartialEq, Eq)]
pub struct Round {
    pub stamp: Stamp,
    pub home: usize,
    pub in_hand: usize,
}

impl Round {
    // A round of so many copies begins at the copy after home.
    pub(crate) fn new(copies: usize, stamp: Stamp, home: usize) -> Round
        requires { home ≤ 8 }
        ensures { result ≡ record { stamp = stamp; home = home; in_hand = next_copy copies home } }
    {
        Round {
            stamp,
            home,
            in_hand: next_copy(copies, home),
        }
    }

    // The round at the copy that follows, or none when that is home.
    pub(crate) fn next(self, copies: usize) -> Option<Round>
        requires { self.in_hand ≤ 8 }
        ensures { result ≡ cond (next_copy copies self.in_hand == self.home) None (Some (record { stamp = self.stamp; home = self.home; in_hand = next_copy copies self.in_hand })) }
    {
        let in_hand = next_copy(copies, self.in_hand);
        if in_hand == self.home {
            None
        } else {
            Some(Round { in_hand, ..self })
        }
    }
}

// The copy that follows in the round. That a copy's number is at most 8 comes of a test against the ring: a sweep may be of
// another ring, of which no type could say that the next copy's number is so too.
fn next_copy(copies: usize, copy: usize) -> usize
    requires { copy ≤ 8 }
    ensures { result ≡ next_copy copies copy }
{
    if copy + 1 == copies { 0 } else { copy + 1 }
}

// A sweep (an anti-entropy round) that gathers what the other copies hold. A state is a value that is moved: it can
// neither be copied nor let go, only handed to the next call, closed or abandoned.
pub struct Collecting {
    pub(crate) round: Round,
    pub(crate) count: Option<usize>,
    pub(crate) place: usize,
    ghost left: { under_way count place ≡ true },
}

// A sweep whose home has gathered all.
pub struct Collected {
    pub(crate) stamp: Stamp,
    pub(crate) home: usize,
}

// A sweep that brings what home holds to the other copies.
pub struct Spreading {
    pub(crate) round: Round,
    pub(crate) count: usize,
    pub(crate) place: usize,
    ghost left: { place ≤ count },
}

// A sweep that has been spread to every copy.
pub struct Finished {
    pub(crate) stamp: Stamp,
    pub(crate) home: usize,
}

// A refused call on a sweep gives the sweep back as it was.
pub struct Refused<W> {
    pub ground: Ground,
    pub sweep: W,
}
