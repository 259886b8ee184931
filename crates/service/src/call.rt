ghost use Rattle.std.specs.Prelude.{◌≡◌};
ghost use Rattle.service.specs.declared.call.Trouble.TheVariants.{Refused, NoMemory};

use grounds::Ground;
use names::{Path, Stamp};
use ring::NotOpened;
use std::alloc::AllocError;
use std::error::Error;
use std::fmt;

// A call on a ring or on one of its sweeps, as data, so that a run can be a list of calls. A letter goes by its number in
// the bag, a sweep by its number among the begins that were accepted.
#[derive(Clone, Copy, Debug, PartialEq, Eq)]
pub enum Call<K> {
    // copy, path, entry
    Post(usize, Path, K),
    // from, to, place
    Mail(usize, usize, usize),
    Hand(usize),
    Lose(usize),
    // copy, time
    Begin(usize, u32),
    Press(usize),
    // sweep, letter
    Collect(usize, usize),
    Spread(usize),
    // sweep, letter
    Confirm(usize, usize),
    Close(usize),
    Abandon(usize),
}

// What an accepted call answers besides.
#[derive(Clone, Copy, Debug, PartialEq, Eq)]
pub enum Got {
    Nothing,
    // a collect or a confirm after which its part of the sweep goes on
    More,
    // one after which the sweep is collected or finished
    Done,
    // the stamp of a closed sweep
    Stamp(Stamp),
}

// Why a call was not done, or a run not made.
#[derive(Clone, Copy, Debug, PartialEq, Eq)]
pub enum Trouble {
    Refused(Ground),
    // there was no memory, as for another sweep
    NoMemory,
}

impl From<Ground> for Trouble {
    ghost from_gives = { λ ground trouble. trouble ≡ Refused ground };

    fn from(ground: Ground) -> Trouble {
        Self::Refused(ground)
    }
}

impl From<AllocError> for Trouble {
    ghost from_gives = { λ _ trouble. trouble ≡ NoMemory };

    fn from(_error: AllocError) -> Trouble {
        Self::NoMemory
    }
}

// A refused opening: the stores and the bag that it gave back are let go.
impl<B: Drop, G: Drop> From<NotOpened<B, G>> for Trouble {
    ghost from_gives = { λ refused trouble. trouble ≡ Refused refused.ground };

    fn from(refused: NotOpened<B, G>) -> Trouble {
        Self::from(refused.ground)
    }
}

// The trouble in words, for a person who reads a note or a log.
impl fmt::Display for Trouble {
    fn fmt<W: fmt::Write>(&self, f: &mut fmt::Formatter<W>) -> fmt::Result {
        match self {
            Trouble::Refused(ground) => write!(f, "{ground}"),
            Trouble::NoMemory => f.write_str("there was no memory"),
        }
    }
}

impl Error for Trouble {}
