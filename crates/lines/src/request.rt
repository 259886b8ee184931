use crate::name::Name;
use entries::Recipe;
use names::{Label, Path, Stamp};

// What a line asks for.
#[derive(Clone, Copy, Debug, PartialEq, Eq)]
pub enum Request {
    // copy, path, entry
    Post(usize, Path, Recipe),
    // copy, stamp, new directory, label, old directory
    Grow(usize, Stamp, u32, Label, u32),
    // copy, start, name
    Lookup(usize, u32, Name),
    // from, to, place
    Mail(usize, usize, usize),
    Hand(usize),
    Lose(usize),
    Collect(usize),
    Confirm(usize),
    // copy, time
    Begin(usize, u32),
    Press,
    Spread,
    Close,
    Abandon,
}
